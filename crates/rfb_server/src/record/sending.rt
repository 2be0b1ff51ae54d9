//! What a record takes over from a screen that is sent in Raw.

ghost use Rattle.std.specs.Prelude.{◌≡◌, ℕ, ◌+◌, ◌≤◌, ◌<◌, ◌-◌, if◌then◌else◌, vec_len};
ghost use Rattle.std.specs.Vec.{vec_capacity};
ghost use Rattle.rfb_picture.specs.Rect.{contains};
ghost use Rattle.rfb_picture.specs.Grid.{Grid, IsGrid, Holds, at_or};
ghost use Rattle.rfb_codec.specs.Raw.{raw_length};
ghost use Rattle.rfb_codec.specs.Effect.{IsAlike, IsRecorded};
ghost use Rattle.rfb_server.specs.update.Rectangle.{AppendsRaw};

use super::taking::learn;
use crate::record::Record;
use rfb_codec::put_pixels;
use rfb_picture::{Picture, Rect};
use rfb_pixel::{Colour, Format};
use rfb_wire::pieces::append_within;

impl Record {
    /// Packs the rectangle of the screen row by row, records the pixels, and appends their bytes:
    /// the data of the rectangle in Raw, RFC 6143 section 7.7.1. The room is the caller's.
    #[tactic(auto, using(crate::proofs::RecordLemmas::record_sizes))]
    pub(crate) fn take_raw(
        &mut self,
        rect: Rect,
        screen: &Picture<Colour>,
        format: &Format,
        out: &mut Vec<u8>,
    )
        requires held { Holds self.old rect }
        requires bound { self.old.height ≤ 4096 }
        requires screen { IsAlike screen.now self.old }
        requires columns { rect.w ≤ 64 }
        requires rows { rect.h ≤ 64 }
        requires room { vec_len out.old + raw_length format.now rect.w rect.h
            ≤ vec_capacity out.old }
        ensures taken { (block : Grid ℕ) × IsRecorded rect block self.old self.new
            × AppendsRaw format.now screen.now rect block out.old.items out.new.items }
        ensures whole { IsGrid self.new }
        ensures width { self.new.width ≡ self.old.width }
        ensures height { self.new.height ≡ self.old.height }
        ensures room { vec_capacity out.new ≡ vec_capacity out.old }
    {
        send_rows(&mut self.pixels, screen, format, rect, out);
        learn(&mut self.known, rect);
    }
}

// Writes the pixels of the rectangle of the screen over the picture's, and appends their bytes.
fn send_rows(
    pixels: &mut Picture<u32>,
    screen: &Picture<Colour>,
    format: &Format,
    rect: Rect,
    out: &mut Vec<u8>,
)
    requires whole { IsGrid pixels.old }
    requires held { Holds pixels.old rect }
    requires bound { pixels.old.height ≤ 4096 }
    requires shown { Holds screen.now rect }
    requires columns { rect.w ≤ 64 }
    requires rows { rect.h ≤ 64 }
    requires room { vec_len out.old + raw_length format.now rect.w rect.h ≤ vec_capacity out.old }
    ensures whole { IsGrid pixels.new }
    ensures width { pixels.new.width ≡ pixels.old.width }
    ensures height { pixels.new.height ≡ pixels.old.height }
    ensures sent { (block : Grid ℕ)
        × AppendsRaw format.now screen.now rect block out.old.items out.new.items
        × ((x y : ℕ) → x < pixels.old.width → y < pixels.old.height →
        at_or pixels.new x y 0
        ≡ (if contains rect x y then at_or block (x - rect.x) (y - rect.y) 0
        else at_or pixels.old x y 0)) }
    ensures room { vec_capacity out.new ≡ vec_capacity out.old }
{
    let columns = usize::from(rect.w);
    let length = columns * format.size();
    // They are kept from row to row, since to clear them costs as much as to fill them.
    let mut row = [0; 64];
    let mut bytes = [0; 256];
    for line in 0..rect.h {
        let y = rect.y + line;
        format.pack_row(screen.row(rect.x, y, rect.w), &mut row[..columns]);
        pixels.put_row(rect.x, y, &row[..columns]);
        put_pixels(format, &row[..columns], &mut bytes[..length]);
        append_within(out, &bytes[..length]);
    }
}
