//! Whether colours lie near one another, along a row.

ghost use Rattle.std.specs.Prelude.{◌≡◌, ◌+◌, ◌<◌, ◌≤◌, ℕ, length, slice_index_or, MatchOption};
ghost use Rattle.std.specs.Bool.{OnTrue};
ghost use Rattle.rfb_pixel.specs.declared.colour.Colour.{Colour};
ghost use Rattle.rfb_session.specs.drive.Near as spec;
ghost use Rattle.rfb_session.specs.drive.Near.{AreNear, IsFirstFar, far_places};

use rfb_pixel::Colour;

// How many places are compared at once.
const PIECE: usize = 16;

/// Where a row is not as it was expected.
#[derive(Clone, Copy)]
pub struct RowDifference {
    /// The first place that is too far from what was expected there.
    pub first: usize,
    /// How many such places there are.
    pub count: usize,
}

/// Where a row is further from what was expected than `within` of 255, if it is anywhere.
pub fn compare_rows(row: &[Colour], expected: &[Colour], within: u8) -> Option<RowDifference>
    requires { length row.now ≡ length expected.now }
    ensures { MatchOption result (AreNear within row.now expected.now)
        (λ found. IsFirstFar within row.now expected.now found.first
        × (found.count ≡ far_places within row.now expected.now)) }
{
    for place in same_front(row, expected)..row.len() {
        if !is_near(row[place], expected[place], within) {
            return Some(RowDifference {
                first: place,
                count: count_far(&row[place..], &expected[place..], within),
            });
        }
    }
    None
}

// How many places at the front of two rows are the same, or fewer.
fn same_front(a: &[Colour], b: &[Colour]) -> usize
    requires { length a.now ≡ length b.now }
    ensures within { result ≤ length a.now }
    ensures same { (k : ℕ) (d : Colour) → k < result
        → slice_index_or a.now k d ≡ slice_index_or b.now k d }
{
    let mut at = 0;
    while a.len() - at >= PIECE && are_same(a, b, at) {
        at += PIECE;
    }
    at
}

// Whether the sixteen places of two rows that begin at `at` are the same. It has no branch, and the
// components are compared one by one, so that the compiler takes vectors.
#[inline(always)]
fn are_same(a: &[Colour], b: &[Colour], at: usize) -> bool
    requires left { at + 16 ≤ length a.now }
    requires right { at + 16 ≤ length b.now }
    ensures { OnTrue result ((k : ℕ) (d : Colour) → at ≤ k → k < at + 16
        → slice_index_or a.now k d ≡ slice_index_or b.now k d) }
{
    let mut same = true;
    for place in at..at + PIECE {
        let (x, y) = (a[place], b[place]);
        same = same & (x.r == y.r) & (x.g == y.g) & (x.b == y.b);
    }
    same
}

// At how many places two rows are too far apart.
fn count_far(row: &[Colour], expected: &[Colour], within: u8) -> usize
    requires { length row.now ≡ length expected.now }
    ensures value { result ≡ far_places within row.now expected.now }
    ensures bound { result ≤ length row.now }
{
    let mut count = 0;
    for place in 0..row.len() {
        count += usize::from(!is_near(row[place], expected[place], within));
    }
    count
}

/// Whether each component of a colour lies within `within` of 255 of another's.
pub fn is_near(a: Colour, b: Colour, within: u8) -> bool
    ensures { result ≡ spec.is_near within a b }
{
    is_close(a.r, b.r, within) && is_close(a.g, b.g, within) && is_close(a.b, b.b, within)
}

// Whether a component lies within `within` of 255 of another.
fn is_close(a: u16, b: u16, within: u8) -> bool
    ensures { result ≡ spec.is_close within a b }
{
    let (a, b) = (u32::from(a), u32::from(b));
    let far = 257 * u32::from(within);
    a <= b + far && b <= a + far
}
