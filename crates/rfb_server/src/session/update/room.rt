//! How much room the cells of an update take.

ghost use Rattle.std.specs.Prelude.{◌≡◌, ℕ, ◌+◌, ◌*◌, ◌≤◌, true, false};
ghost use Rattle.std.specs.Int.{div_ceil};
ghost use Rattle.rfb_picture.specs.Area.{asked_at};
ghost use Rattle.rfb_picture.specs.Box.{IsClear};
ghost use Rattle.rfb_picture.specs.Grid.{Holds};
ghost use Rattle.rfb_server.specs.Cells.{IsCell};
ghost use Rattle.rfb_server.specs.Room.{cell_room, cells_room, has_asked};
ghost use Rattle.rfb_server.specs.update.Sends.{IsCostIn, IsEnough, HasNext, AreLimits};

use crate::cells::cell_at;
use crate::rectangle::RECT_HEAD_SIZE;
use crate::session::Session;
use rfb_picture::Rect;

/// The cells that may have marked places and asked ones.
#[derive(Clone, Copy, Drop)]
pub(super) struct Room {
    /// How many bytes their rectangles take at most; none where no place is both.
    pub bytes: usize,
    /// The number of the first of these cells.
    pub first: usize,
    /// The number of the cell after the last of them; 0 where there is none.
    pub end: usize,
}

impl Session {
    /// The cells that may have marked places and asked ones, and the room of their rectangles.
    pub(super) fn room(&self) -> Room
        ensures enough { IsEnough self.now (div_ceil self.now.known.width 64)
            (div_ceil self.now.known.width 64 * div_ceil self.now.known.height 64) result.bytes }
        ensures limits { AreLimits self.now result.first result.end }
        ensures bound { result.bytes ≤ 4096 * 16396 }
        ensures most { result.bytes
            ≤ cells_room self.now.known.width self.now.known.height self.now.format self.now.area
            (div_ceil self.now.known.width 64 * div_ceil self.now.known.height 64) }
    {
        let width = self.known.width();
        let height = self.known.height();
        let Some(first) = self.next_cell(0) else {
            return Room {
                bytes: 0,
                first: 0,
                end: 0,
            };
        };
        let mut bytes = self.cost_of(cell_at(width, height, first));
        let mut end = first + 1;
        while let Some(index) = self.next_cell(end) {
            bytes += self.cost_of(cell_at(width, height, index));
            end = index + 1;
        }
        Room { bytes, first, end }
    }

    /// The same as `next_cell`, where the first of these cells and the end of them are known: one
    /// that is the first or lies after them is not searched for.
    pub(super) fn next_within(&self, from: usize, room: Room) -> Option<usize>
        requires { AreLimits self.now room.first room.end }
        ensures { HasNext self.now from result }
    {
        if from >= room.end {
            return None;
        }
        if from <= room.first {
            return Some(room.first);
        }
        self.next_cell(from)
    }

    /// The number of the first cell from number `from` on that may have marked and asked places.
    pub(crate) fn next_cell(&self, from: usize) -> Option<usize>
        ensures { HasNext self.now from result }
    {
        self.marks.next_open_of_both(self.area.asked(), from)
    }

    // How many bytes a rectangle in the cell takes at most: as many as all of the cell, and none
    // where no place of it is asked.
    fn cost_of(&self, cell: Rect) -> usize
        requires held { Holds self.now.known cell }
        requires sides { (cell.w ≤ 64) × (cell.h ≤ 64) }
        ensures enough { (across n : ℕ) (other : Rect)
            → IsCell self.now.known.width self.now.known.height across n cell
            → IsCell self.now.known.width self.now.known.height across n other
            → IsCostIn self.now other result }
        ensures bound { result ≤ 16396 }
        ensures most { result ≤ cell_room self.now.format self.now.area cell }
    {
        if !self.has_asked(cell) {
            return 0;
        }
        let places = usize::from(cell.h) * usize::from(cell.w);
        RECT_HEAD_SIZE + places * self.format.size()
    }

    // Whether a place of the cell is asked. Its first one is, where all of the screen is.
    fn has_asked(&self, cell: Rect) -> bool
        requires held { Holds self.now.known cell }
        ensures some { result ≡ true → has_asked self.now.area cell ≡ true }
        ensures none { result ≡ false → IsClear (asked_at self.now.area)
            cell.x (cell.x + cell.w) cell.y (cell.y + cell.h) }
    {
        if cell.w > 0 && cell.h > 0 && self.area.is_asked(cell.x, cell.y) {
            return true;
        }
        self.area.bounds_in(cell).is_some()
    }
}
