//! The next cell in which a set has a place, by the marks of cells.

ghost use Rattle.std.specs.Prelude.{◌≡◌, ◌+◌, ◌*◌, ◌/◌, ◌%◌, ◌<◌, true};
ghost use Rattle.std.specs.Bool.{OnTrue, OnFalse};
ghost use Rattle.rfb_picture.specs.CellOrder.{NoneInCells, HasPlaceIn, HasNextCell, cells_in};
ghost use Rattle.rfb_picture.specs.layout.PlaceSet.{in_set, is_open, IsLayers, HasNextOpen};

use super::layers::Layers;

impl Layers {
    /// The number, in reading order, of the first cell from number `from` on that has a place of
    /// the set; `None` where none has.
    pub(super) fn next_cell(&self, from: usize) -> Option<usize>
        requires sound { IsLayers self.now }
        ensures { HasNextCell (in_set self.now)
            self.now.places.width self.now.places.height from result }
    {
        let mut at = from;
        while let Some(cell) = self.next_open(at) {
            if self.has_some(cell) {
                return Some(cell);
            }
            at = cell + 1;
        }
        None
    }

    /// The number of the first one from number `from` on that is full or used.
    pub(super) fn next_open(&self, from: usize) -> Option<usize>
        requires sound { IsLayers self.now }
        ensures { HasNextOpen self.now from result }
    {
        let across = usize::from(self.full.width());
        if across == 0 {
            return None;
        }
        let mut start = (from % across) as u16;
        let mut row = from / across;
        while row < usize::from(self.full.height()) {
            match self.full.next_of_either(&self.used, start, row as u16) {
                None => {}
                Some(column) => return Some(row * across + usize::from(column)),
            }
            start = 0;
            row = usize::from(self.full.next_row_of_either(&self.used, row as u16 + 1));
        }
        None
    }

    /// Whether the cell of that number is full or used.
    #[inline]
    pub(super) fn is_open(&self, cell: usize) -> bool
        requires sound { IsLayers self.now }
        requires cell { cell < self.now.full.width * self.now.full.height }
        ensures { result
            ≡ is_open self.now (cell % self.now.full.width) (cell / self.now.full.width) }
    {
        let across = usize::from(self.full.width());
        let column = (cell % across) as u16;
        let row = (cell / across) as u16;
        self.full.has(column, row) || self.used.has(column, row)
    }

    // Whether the cell of that number has a place of the set.
    fn has_some(&self, cell: usize) -> bool
        requires sound { IsLayers self.now }
        requires cell { cell < cells_in self.now.places.width * cells_in self.now.places.height }
        ensures some { OnTrue result (HasPlaceIn (in_set self.now)
            self.now.places.width self.now.places.height cell) }
        ensures none { OnFalse result (NoneInCells (in_set self.now)
            self.now.places.width self.now.places.height cell (cell + 1)) }
    {
        let across = usize::from(self.full.width());
        let column = (cell % across) as u16;
        let row = (cell / across) as u16;
        match self.edges_in_cell(self.zone_of(column, row)) {
            None => false,
            Some(_) => true,
        }
    }
}
