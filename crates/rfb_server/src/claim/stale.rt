//! Rows that no longer count.

ghost use Rattle.std.specs.Prelude.{◌≡◌, ◌≤◌, ◌<◌, ◌+◌, ℕ, false};
ghost use Rattle.rfb_server.specs.Claims.{has_row, is_stale};

/// Rows from a first one up to an end; none where that is not after the first.
#[derive(Clone, Copy, Debug, Drop)]
pub(crate) struct Rows {
    pub(crate) first: u16,
    pub(crate) end: u16,
}

impl Rows {
    /// Whether a row is one of these.
    pub(crate) fn has(self, y: u16) -> bool
        ensures { result ≡ has_row self y }
    {
        self.first <= y && y < self.end
    }

    /// Whether there are some, and they do not touch the others.
    pub(crate) fn is_apart(self, other: Rows) -> bool {
        self.first < self.end && (self.end < other.first || other.end < self.first)
    }

    /// The fewest rows in a piece that have all of both.
    pub(crate) fn joined(self, other: Rows) -> Rows
        ensures { (y : ℕ) → has_row result y ≡ false
            → (has_row self y ≡ false) × (has_row other y ≡ false) }
    {
        if self.first >= self.end {
            return other;
        }
        if other.first >= other.end {
            return self;
        }
        Rows {
            first: self.first.min(other.first),
            end: self.end.max(other.end),
        }
    }

    /// The rows that lie as far from row `to` as these do from row `from`.
    pub(crate) fn moved(self, from: u16, to: u16) -> Rows
        ensures { (s y : ℕ) → y + from ≡ s + to → y < 65535 → has_row result y ≡ false
            → has_row self s ≡ false }
    {
        Rows {
            first: moved(self.first, from, to),
            end: moved(self.end, from, to),
        }
    }
}

// The row that lies as far from row `to` as that one does from `from`, or else the nearest to it.
fn moved(row: u16, from: u16, to: u16) -> u16
    ensures low { (y : ℕ) → row + to ≤ y + from → result ≤ y }
    ensures high { (y : ℕ) → y + from < row + to → y < 65535 → y < result }
{
    let far = u32::from(row) + u32::from(to);
    let from = u32::from(from);
    if far <= from {
        return 0;
    }
    (far - from).min(65_535) as u16
}

/// How many runs of rows are kept apart.
const RUNS: usize = 8;

/// Rows that no longer count, in at most eight runs.
#[derive(Clone, Copy, Debug, Drop)]
pub(crate) struct Stale {
    runs: [Rows; RUNS],
}

impl Stale {
    /// No row.
    pub(crate) const NONE: Stale = Stale {
        runs: [Rows { first: 0, end: 0 }; RUNS],
    };

    /// Whether a row is one of these.
    pub(crate) fn has(&self, y: u16) -> bool
        ensures { result ≡ is_stale self.now y }
    {
        for i in 0..RUNS {
            if self.runs[i].has(y) {
                return true;
            }
        }
        false
    }

    /// These rows no longer count either. They are joined with a run that they touch; where they
    /// touch none, and there are eight, with the last one and the rows between.
    pub(crate) fn add(&mut self, rows: Rows)
        ensures { (y : ℕ) → is_stale self.new y ≡ false
            → (is_stale self.old y ≡ false) × (has_row rows y ≡ false) }
    {
        let mut at = 0;
        while at < RUNS - 1 && self.runs[at].is_apart(rows) {
            at += 1;
        }
        self.runs[at] = self.runs[at].joined(rows);
    }

    /// The rows that lie as far from row `to` as these do from row `from`.
    pub(crate) fn moved(&self, from: u16, to: u16) -> Stale
        ensures { (s y : ℕ) → y + from ≡ s + to → y < 65535 → is_stale result y ≡ false
            → is_stale self.now s ≡ false }
    {
        let mut stale = Stale::NONE;
        for i in 0..RUNS {
            stale.add(self.runs[i].moved(from, to));
        }
        stale
    }

    /// The first row from `y` on, up to `end`, that may no longer count.
    pub(crate) fn first_from(&self, y: u16, end: u16) -> u16
        requires order { y ≤ end }
        ensures order { (y ≤ result) × (result ≤ end) }
        ensures fresh { (z : ℕ) → y ≤ z → z < result → is_stale self.now z ≡ false }
    {
        let mut first = end;
        for i in 0..RUNS {
            let rows = self.runs[i];
            if rows.first < first && rows.end > y {
                first = rows.first.max(y);
            }
        }
        first
    }

    /// The row after the last one from `y` on, up to `end`, that may no longer count.
    pub(crate) fn end_from(&self, y: u16, end: u16) -> u16
        requires order { y ≤ end }
        ensures order { (y ≤ result) × (result ≤ end) }
        ensures fresh { (z : ℕ) → result ≤ z → z < end → is_stale self.now z ≡ false }
    {
        let mut last = y;
        for i in 0..RUNS {
            let rows = self.runs[i];
            if rows.end > last && rows.first < end {
                last = rows.end.min(end);
            }
        }
        last
    }
}
