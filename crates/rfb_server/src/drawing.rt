//! What an owner draws on a screen, or says of it.

ghost use Rattle.std.specs.Prelude.{◌≡◌, ◌↔◌, IfOk, OnOk, IsErr};

mod notice;

use crate::fault::Outside;
pub use notice::Notice;
use notice::{notice_in_row, notice_of, notice_of_copy, notice_of_scroll};
use rfb_codec::{paint_bytes, paint_pixels};
use rfb_picture::{Picture, Rect};
use rfb_pixel::{Colour, Format};

/// One drawing on a screen, or a hint for what lies there. It borrows what it draws. Rows go from
/// the top, one after another, each from the left.
#[derive(Clone, Copy, Debug)]
pub enum Drawing<'a> {
    /// A rectangle gets one colour.
    Fill(Rect, Colour),
    /// A part of a row gets these colours, from the column and the row on.
    Put(u16, u16, &'a [Colour]),
    /// A rectangle gets these colours, one for each place.
    Rows(Rect, &'a [Colour]),
    /// A rectangle gets the colours of these pixels, one for each place, whose bytes are in the
    /// format (RFC 6143 section 7.4), as those of Raw are (section 7.7.1).
    Pixels(Rect, Format, &'a [u8]),
    /// A rectangle gets these colours: for each place a byte of red, of green and of blue.
    Bytes(Rect, &'a [u8]),
    /// A rectangle gets what the one of its size at a column and a row had, as CopyRect does
    /// (section 7.7.2).
    Copy(Rect, u16, u16),
    /// All that lies in a rectangle moves this number of columns to the right and of rows down, or
    /// to the left and up where they are negative; and the hint for it is given. What leaves the
    /// rectangle is lost, and the places that nothing came to keep what they had.
    Scroll(Rect, i16, i16),
    /// A hint: a rectangle looks as the one of its size at a column and a row did when that was
    /// last sent, so that a viewer may be sent a copy in place of its pixels. Nothing rests on it.
    Hint(Rect, u16, u16),
}

impl Drawing<'_> {
    ghost use Rattle.rfb_server.specs.Strokes.{IsInside, drawn_by, notice_of, stroke};

    /// What the sessions over this screen are told of it. Refused is what leaves the screen, and
    /// what does not have one colour for each of its places.
    ///
    /// It is inlined, as `draw_on` is: mostly it is known there what is drawn.
    #[inline(always)]
    pub fn notice(&self, screen: &Picture<Colour>) -> Result<Notice, Outside>
        ensures refused { IsErr result ↔ (IsInside screen.now (stroke self.now) → ⊥) }
        ensures inside { OnOk result (IsInside screen.now (stroke self.now)) }
        ensures value { IfOk result (λ notice. notice ≡ notice_of (stroke self.now)) }
    {
        match *self {
            Drawing::Fill(area, _) => Notice::changed(screen, area),
            Drawing::Put(x, y, row) => notice_in_row(screen, x, y, row.len()),
            Drawing::Rows(area, rows) => notice_of(screen, area, 1, rows.len()),
            Drawing::Pixels(area, format, bytes) => {
                notice_of(screen, area, format.size(), bytes.len())
            }
            Drawing::Bytes(area, bytes) => notice_of(screen, area, 3, bytes.len()),
            Drawing::Copy(area, sx, sy) => notice_of_copy(screen, area, sx, sy),
            Drawing::Scroll(area, dx, dy) => notice_of_scroll(screen, area, dx, dy),
            Drawing::Hint(area, sx, sy) => Notice::hint(screen, area, sx, sy),
        }
    }

    /// Draws it on the screen that it was judged for. A hint changes nothing.
    #[inline(always)]
    pub fn draw_on(&self, screen: &mut Picture<Colour>)
        requires inside { IsInside screen.old (stroke self.now) }
        ensures value { screen.new ≡ drawn_by (stroke self.now) screen.old }
        ensures width { screen.new.width ≡ screen.old.width }
        ensures height { screen.new.height ≡ screen.old.height }
    {
        match *self {
            Drawing::Fill(area, colour) => screen.fill(area, colour),
            Drawing::Put(x, y, row) => screen.put_row(x, y, row),
            Drawing::Rows(area, rows) => screen.put_rows(area, rows),
            Drawing::Pixels(area, format, bytes) => paint_pixels(format, area, bytes, screen),
            Drawing::Bytes(area, bytes) => paint_bytes(area, bytes, screen),
            Drawing::Copy(area, sx, sy) => screen.copy_by_lines(area, sx, sy),
            Drawing::Scroll(area, dx, dy) => {
                prove!(area.w <= screen.width() && area.h <= screen.height());
                let (to, from) = area.scrolled(dx, dy);
                screen.copy_by_lines(to, from.x, from.y);
            }
            Drawing::Hint(..) => {}
        }
    }
}
