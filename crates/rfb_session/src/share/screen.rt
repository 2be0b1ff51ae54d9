//! What a share shows.

ghost use Rattle.std.specs.Prelude.{◌≡◌};

use crate::share::mirror::Mirror;
use rfb_picture::Picture;
use rfb_pixel::Colour;

/// The screen of a share.
#[derive(Debug, Drop)]
pub(crate) enum Screen {
    /// The owner of the share draws it.
    Drawn(Picture<Colour>),
    /// It is the picture that a viewer has.
    Seen(Mirror),
}

impl Screen {
    ghost use Rattle.rfb_session.specs.ShareScreen.{shown_on};

    /// Lends the picture.
    pub(crate) fn picture(&self) -> &Picture<Colour>
        ensures { result.now ≡ shown_on self.now }
    {
        match self {
            Screen::Drawn(picture) => picture,
            Screen::Seen(mirror) => mirror.picture(),
        }
    }
}
