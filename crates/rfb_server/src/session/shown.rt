//! Sessions whose viewers have all that the screen shows: they know the same.

ghost use Rattle.std.specs.Prelude.{◌≡◌};
ghost use Rattle.std.specs.Bool.{OnTrue};
ghost use Rattle.rfb_pixel.specs.declared.colour.Colour.{Colour};
ghost use Rattle.rfb_picture.specs.Grid.{Grid};
ghost use Rattle.rfb_server.specs.KnownScreen.{Follows};
ghost use Rattle.rfb_server.specs.Model.{notes_in};
ghost use Rattle.rfb_server.specs.session.Twins.{IsShown};

use crate::session::Session;

impl Session {
    /// Whether both viewers are known to have the same, where both sessions follow one screen: so
    /// it is where they have one format, and nothing is marked in either. It costs one search for
    /// marks each; it may say no where they know the same.
    pub fn knows_as(&self, other: &Session) -> bool
        ensures { OnTrue result ((screen : Grid Colour) → Follows screen self.now
            → Follows screen other.now → (notes_in other.now).known ≡ (notes_in self.now).known) }
    {
        if self.format != other.format {
            return false;
        }
        if !self.is_shown() {
            return false;
        }
        other.is_shown()
    }

    // Whether no place is marked, so its viewer has all that the screen shows.
    fn is_shown(&self) -> bool
        ensures { OnTrue result (IsShown self.now) }
    {
        self.marks.next_cell(0).is_none()
    }
}
