//! What is kept of the latest composing.

ghost use Rattle.std.specs.Prelude.{◌≡◌, ℕ, Some, None, IfOk};
ghost use Rattle.rfb_picture.specs.Grid.{uniform};
ghost use Rattle.rfb_picture.specs.Area.{no_places};

use rfb_picture::{Area, Picture};
use rfb_pixel::{Colour, Format};
use std::alloc::{AllocError, Global};
use std::mem;

// The colour of a screen that was not noted yet.
const BLACK: Colour = Colour { r: 0, g: 0, b: 0 };

/// What the latest update was composed of: the screen, the places that were asked, and the format.
#[derive(Debug, Drop)]
pub(crate) struct Latest {
    screen: Picture<Colour>,
    area: Area,
    // The places that were asked before the composing that is under way.
    asked: Area,
    // `None` before the first.
    format: Option<Format>,
}

impl Latest {
    ghost use Rattle.rfb_session.specs.Latest.{composing_in};
    ghost use Rattle.rfb_session.specs.ends.Room.{HasRoom};

    /// Nothing was composed yet. It asks for all the memory that it will have.
    pub(crate) fn new(alloc: Global, width: u16, height: u16) -> Result<Latest, AllocError>
        ensures none { IfOk result (λ latest. composing_in latest ≡ None) }
        ensures room { IfOk result (λ latest. HasRoom latest width height) }
    {
        Ok(Latest {
            screen: Picture::new(alloc, width, height, BLACK)?,
            area: Area::new(alloc, width, height)?,
            asked: Area::new(alloc, width, height)?,
            format: None,
        })
    }

    /// These places are asked, where a composing begins.
    pub(crate) fn begin(&mut self, asked: &Area)
        ensures same { composing_in self.new ≡ composing_in self.old }
        ensures asked { self.old.asked.asked.width ≡ asked.now.asked.width →
            self.old.asked.asked.height ≡ asked.now.asked.height → self.new.asked ≡ asked.now }
        ensures room { (width height : ℕ) → HasRoom self.old width height
            → HasRoom self.new width height }
    {
        if self.asked.width() == asked.width() && self.asked.height() == asked.height() {
            self.asked.copy_from(asked);
        }
    }

    /// They were answered, from this screen and in this format.
    pub(crate) fn note(&mut self, screen: &Picture<Colour>, format: Format)
        requires { HasRoom self.old screen.now.width screen.now.height }
        ensures noted { composing_in self.new ≡
            Some (record { screen = screen.now; area = self.old.asked; form = format }) }
        ensures room { HasRoom self.new screen.now.width screen.now.height }
    {
        self.screen.copy_from(screen);
        mem::swap(&mut self.area, &mut self.asked);
        self.format = Some(format);
    }
}
