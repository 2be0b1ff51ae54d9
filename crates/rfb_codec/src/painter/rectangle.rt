//! A rectangle of an update, as its data are read.

ghost use Rattle.std.specs.Prelude.{◌≡◌, ◌<◌, ◌≤◌, IsTrue};
ghost use Rattle.rfb_pixel.specs.Format.{size_of};
ghost use Rattle.rfb_picture.specs.Grid.{Holds};

use rfb_picture::{Picture, Rect};
use rfb_pixel::{Colour, Format};

/// Where a rectangle lies, and the format of its pixels, each of 1 to 4 bytes.
#[derive(Clone, Copy, Debug)]
pub struct Rectangle {
    pub format: Format,
    pub rect: Rect,
    ghost some: { 0 < size_of format },
    ghost few: { size_of format ≤ 4 },
}

impl Rectangle {
    ghost use Rattle.rfb_codec.specs.decoder.Step.{IsPaintable};

    /// The rectangle there, with pixels of this format.
    #[inline(always)]
    pub fn new(format: Format, rect: Rect) -> Rectangle
        ensures format { result.format ≡ format }
        ensures rect { result.rect ≡ rect }
    {
        prove!(format.size() > 0);
        Rectangle { format, rect }
    }

    /// The same rectangle, by a format that is known before it runs: code for that is far shorter.
    #[inline(always)]
    pub fn by_format(&self, format: Format) -> Rectangle
        requires { self.now.format ≡ format }
        ensures { result ≡ self.now }
    {
        Rectangle {
            format,
            rect: self.rect,
        }
    }

    /// Whether it lies in the picture. The picture has a colour at each place, and numbers its
    /// places in 16 bits.
    #[inline(always)]
    pub fn lies_in(&self, picture: &Picture<Colour>) -> bool
        ensures held { Holds picture.now self.now.rect → IsTrue result }
        ensures paintable { IsTrue result → IsPaintable picture.now self.now.rect }
    {
        let Rect { x, y, w, h } = self.rect;
        u32::from(x) + u32::from(w) <= u32::from(picture.width())
            && u32::from(y) + u32::from(h) <= u32::from(picture.height())
    }
}
