//! Whether a single place needs sending.

ghost use Rattle.std.specs.Prelude.{◌≡◌, ◌<◌};
ghost use Rattle.rfb_server.specs.update.Needs.{needs_of};
ghost use Rattle.rfb_server.specs.KnownScreen.{Follows};

use crate::session::Session;
use rfb_picture::Picture;
use rfb_pixel::Colour;

impl Session {
    /// Whether that place needs sending: it is asked, and is whole, unknown, or known to have
    /// another pixel than the wanted one. By itself it costs less than the bits of its row.
    pub(super) fn needs(&self, screen: &Picture<Colour>, x: u16, y: u16) -> bool
        requires about { Follows screen.now self.now }
        requires column { x < self.now.known.width }
        requires row { y < self.now.known.height }
        ensures { result ≡ needs_of screen.now self.now x y }
    {
        if !self.area.is_asked(x, y) {
            return false;
        }
        if self.area.is_whole(x, y) {
            return true;
        }
        if !self.known.known().is_asked(x, y) {
            return true;
        }
        self.known.pixels().at(x, y) != self.format.pack(screen.at(x, y))
    }
}
