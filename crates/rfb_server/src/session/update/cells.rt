//! The pixels of an update, cell by cell.

ghost use Rattle.std.specs.Prelude.{◌≡◌, ℕ, ◌+◌, ◌*◌, ◌≤◌, true, false};
ghost use Rattle.std.specs.Prelude.{vec_len, None};
ghost use Rattle.std.specs.Int.{div_ceil};
ghost use Rattle.std.specs.Vec.{vec_capacity};
ghost use Rattle.rfb_picture.specs.Grid.{Holds};
ghost use Rattle.rfb_wire.specs.declared.encoding.Encoding.TheVariants.{Raw as RawEncoding};
ghost use Rattle.rfb_codec.specs.Raw.{raw_length};
ghost use Rattle.rfb_server.specs.Encodings.{preferred};
ghost use Rattle.rfb_server.specs.update.Needs.{IsQuiet};
ghost use Rattle.rfb_server.specs.KnownScreen.{Follows};
ghost use Rattle.rfb_server.specs.update.Sends.{IsKept, AppendsPixels, SendsCell, AppendsCells};
ghost use Rattle.rfb_server.specs.update.Sends.{IsCostIn, IsEnough, AreLimits};

use crate::cells::cell_at;
use crate::rectangle::append_rect;
use crate::session::Session;
use crate::session::update::quiet::Quiet;
use crate::session::update::room::Room;
use rfb_picture::{Picture, Rect};
use rfb_pixel::Colour;
use rfb_wire::pieces::append_within;
use rfb_wire::{Encoding, RectHead};

// How many columns a rectangle has at least that is sent without a block. To append each row by
// itself costs more than to copy a narrower one.
const WIDE: u16 = 48;

impl Session {
    /// Sends what of each cell needs sending, and tells how many rectangles that makes. There is
    /// room for it. No place of `quiet` does, and so cells inside it are not looked at. `room`
    /// tells which cells may have such places.
    pub(super) fn send_cells(
        &mut self,
        screen: &Picture<Colour>,
        quiet: &Quiet,
        room: Room,
        out: &mut Vec<u8>,
    ) -> u16
        requires about { Follows screen.now self.old }
        requires unclaimed { self.old.claim ≡ None }
        requires quiet { IsQuiet screen.now self.old quiet.now }
        requires limits { AreLimits self.old room.first room.end }
        requires room { (room : ℕ) × IsEnough self.old (div_ceil self.old.known.width 64)
            (div_ceil self.old.known.width 64 * div_ceil self.old.known.height 64) room
            × (vec_len out.old + room ≤ vec_capacity out.old) }
        ensures kept { IsKept self.old self.new }
        ensures about { Follows screen.now self.new }
        ensures sent { AppendsCells (div_ceil self.old.known.width 64)
            (div_ceil self.old.known.width 64 * div_ceil self.old.known.height 64)
            screen.now self.old self.new out.old.items out.new.items result }
        ensures room { vec_capacity out.new ≡ vec_capacity out.old }
    {
        let width = self.known.width();
        let height = self.known.height();
        let mut count = 0;
        let mut next = 0;
        while let Some(index) = self.next_within(next, room) {
            let sent = self.send_cell(screen, cell_at(width, height, index), quiet, out);
            count += u16::from(sent);
            next = index + 1;
        }
        count
    }

    // Sends what of the cell needs sending, if there is something. There is room for it.
    fn send_cell(
        &mut self,
        screen: &Picture<Colour>,
        cell: Rect,
        quiet: &Quiet,
        out: &mut Vec<u8>,
    ) -> bool
        requires about { Follows screen.now self.old }
        requires unclaimed { self.old.claim ≡ None }
        requires quiet { IsQuiet screen.now self.old quiet.now }
        requires held { Holds self.old.known cell }
        requires sides { (cell.w ≤ 64) × (cell.h ≤ 64) }
        requires room { (cost : ℕ) × IsCostIn self.old cell cost
            × (vec_len out.old + cost ≤ vec_capacity out.old) }
        ensures kept { IsKept self.old self.new }
        ensures about { Follows screen.now self.new }
        ensures sent { SendsCell result screen.now cell self.old self.new
            out.old.items out.new.items }
        ensures quiet { IsQuiet screen.now self.new quiet.now }
        ensures len { (cost : ℕ) → IsCostIn self.old cell cost
            → vec_len out.new ≤ vec_len out.old + cost }
        ensures room { vec_capacity out.new ≡ vec_capacity out.old }
    {
        match self.needed_outside(screen, cell, quiet) {
            None => return false,
            Some(rect) => self.send(screen, rect, out),
        }
        true
    }

    // Sends the pixels of the rectangle, and records them.
    fn send(&mut self, screen: &Picture<Colour>, rect: Rect, out: &mut Vec<u8>)
        requires about { Follows screen.now self.old }
        requires unclaimed { self.old.claim ≡ None }
        requires held { Holds self.old.known rect }
        requires columns { (1 ≤ rect.w) × (rect.w ≤ 64) }
        requires rows { (1 ≤ rect.h) × (rect.h ≤ 64) }
        requires room { vec_len out.old + 12 + raw_length self.old.format rect.w rect.h
            ≤ vec_capacity out.old }
        ensures kept { IsKept self.old self.new }
        ensures about { Follows screen.now self.new }
        ensures sent { AppendsPixels screen.now rect self.old self.new
            out.old.items out.new.items }
        ensures len { vec_len out.new
            ≤ vec_len out.old + 12 + raw_length self.old.format rect.w rect.h }
        ensures room { vec_capacity out.new ≡ vec_capacity out.old }
    {
        let encoding = self.encodings.preferred();
        if matches!(encoding, Encoding::Raw) && rect.w >= WIDE {
            self.send_raw(screen, rect, out);
            return;
        }
        self.known.take(screen, &self.format, rect, &mut self.block);
        append_rect(encoding, rect, &self.block, &self.format, out);
    }

    // The same in Raw, row by row. Nothing but the record and `out` needs the pixels, so they are
    // put into no block.
    fn send_raw(&mut self, screen: &Picture<Colour>, rect: Rect, out: &mut Vec<u8>)
        requires about { Follows screen.now self.old }
        requires unclaimed { self.old.claim ≡ None }
        requires encoding { preferred self.old.encodings ≡ RawEncoding }
        requires held { Holds self.old.known rect }
        requires columns { rect.w ≤ 64 }
        requires rows { rect.h ≤ 64 }
        requires room { vec_len out.old + 12 + raw_length self.old.format rect.w rect.h
            ≤ vec_capacity out.old }
        ensures room { vec_capacity out.new ≡ vec_capacity out.old }
        ensures kept { IsKept self.old self.new }
        ensures about { Follows screen.now self.new }
        ensures sent { AppendsPixels screen.now rect self.old self.new
            out.old.items out.new.items }
    {
        let head = RectHead {
            rect,
            encoding: Encoding::Raw,
        };
        append_within(out, head.spell().as_slice());
        self.known.take_raw(rect, screen, &self.format, out);
    }
}
