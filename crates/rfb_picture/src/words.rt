//! Rows of words, each with a bit for 64 places: the lowest for the leftmost.

ghost use Rattle.std.specs.Prelude.{◌≡◌, ◌↔◌, ◌+◌, ◌*◌, ◌/◌, ◌^◌, ◌<◌, ◌≤◌, length, IsTrue};
ghost use Rattle.std.specs.Prelude.{slice_index_or};
ghost use Rattle.rfb_picture.specs.layout.Plane.{has_place, HasMasked, PlacesAdded, IsBetween};
ghost use Rattle.rfb_picture.specs.layout.Plane.{ColumnAdded, ColumnLost, RowsLost};
ghost use Rattle.rfb_picture.specs.layout.Plane.{AreUnused};
ghost use Rattle.rfb_picture.specs.Places.{AllMarked};
ghost use Rattle.rfb_picture.specs.layout.Marks.{HasNext};

use crate::rect::Rect;

/// Word `column` of each row, where a row is `across` words, and a mask for its bits.
#[derive(Clone, Copy, Drop)]
pub(crate) struct Strip {
    pub across: usize,
    pub column: usize,
    pub mask: u64,
}

/// Sets the bits of the rectangle's places, where a row is `across` words.
pub(crate) fn add_places(words: &mut [u64], across: usize, rect: Rect)
    requires columns { rect.x + rect.w ≤ across * 64 }
    requires rows { (rect.y + rect.h) * across ≤ length words.old }
    ensures { PlacesAdded across rect words.old words.new }
{
    let from = usize::from(rect.x);
    let to = from + usize::from(rect.w);
    let top = usize::from(rect.y);
    let bottom = top + usize::from(rect.h);
    for column in from / 64..to.div_ceil(64) {
        let mask = columns_between(column, from, to);
        add_column(words, across, column, top, bottom, mask);
    }
}

// Sets the mask's bits in one word of each row from `top` up to `bottom`.
fn add_column(words: &mut [u64], across: usize, column: usize, top: usize, bottom: usize, mask: u64)
    requires column { column < across }
    requires order { top ≤ bottom }
    requires rows { bottom * across ≤ length words.old }
    ensures { ColumnAdded across column top bottom mask words.old words.new }
{
    for row in top..bottom {
        words[row * across + column] |= mask;
    }
}

/// Clears in one word of each row from `top` up to `bottom` the bits that are set in that of
/// `other`, whose rows have as many words.
pub(crate) fn take_column(
    words: &mut [u64],
    other: &[u64],
    across: usize,
    column: usize,
    top: usize,
    bottom: usize,
)
    requires column { column < across }
    requires order { top ≤ bottom }
    requires rows { bottom * across ≤ length words.old }
    requires others { bottom * across ≤ length other.now }
    ensures { ColumnLost across column top bottom other.now words.old words.new }
{
    for row in top..bottom {
        let at = row * across + column;
        words[at] &= !other[at];
    }
}

/// The same for each word of the rows from `top` up to `bottom`.
pub(crate) fn take_places(
    words: &mut [u64],
    other: &[u64],
    across: usize,
    top: usize,
    bottom: usize,
)
    requires rows { bottom * across ≤ length words.old }
    requires others { bottom * across ≤ length other.now }
    ensures { RowsLost across top bottom other.now words.old words.new }
{
    if top >= bottom {
        return;
    }
    for column in 0..across {
        take_column(words, other, across, column, top, bottom);
    }
}

/// Whether the bits of all of the rectangle's places are set, where a row is `across` words.
pub(crate) fn has_places(words: &[u64], across: usize, rect: Rect) -> bool
    requires columns { rect.x + rect.w ≤ across * 64 }
    requires rows { (rect.y + rect.h) * across ≤ length words.now }
    ensures { IsTrue result ↔ AllMarked (has_place words.now across) rect }
{
    let from = usize::from(rect.x);
    let to = from + usize::from(rect.w);
    let top = usize::from(rect.y);
    let bottom = top + usize::from(rect.h);
    for column in from / 64..to.div_ceil(64) {
        let mask = columns_between(column, from, to);
        let strip = Strip {
            across,
            column,
            mask,
        };
        if !has_strip(words, strip, top, bottom) {
            return false;
        }
    }
    true
}

// Whether the mask's bits are set in the strip's word of each row from `top` up to `bottom`.
fn has_strip(words: &[u64], strip: Strip, top: usize, bottom: usize) -> bool
    requires column { strip.column < strip.across }
    requires rows { bottom * strip.across ≤ length words.now }
    ensures { IsTrue result
        ↔ HasMasked words.now strip.across strip.column strip.mask top bottom }
{
    for row in top..bottom {
        if words[row * strip.across + strip.column] & strip.mask != strip.mask {
            return false;
        }
    }
    true
}

/// The first place of row `row` from column `from` up to column `to` whose bit is set, where `to`
/// is in the row's last word.
#[inline]
pub(crate) fn next_place(
    words: &[u64],
    across: usize,
    row: usize,
    from: usize,
    to: usize,
) -> Option<usize>
    requires room { (to ≤ across * 64) × (across * 64 < to + 64) }
    requires small { across < 2 ^ 16 }
    requires row { (row + 1) * across ≤ length words.now }
    ensures { HasNext (has_place words.now across) row from to result }
{
    for column in from / 64..across {
        let word = words[row * across + column];
        if word != 0 {
            let bits = word & columns_between(column, from, to);
            if bits != 0 {
                return Some(column * 64 + bits.trailing_zeros() as usize);
            }
        }
    }
    None
}

/// The number of the first word from number `from` up to number `to` that has a bit here or in
/// `other`, which has as many words; `to` where none has.
#[inline]
pub(crate) fn next_used(words: &[u64], other: &[u64], from: usize, to: usize) -> usize
    requires alike { length words.now ≡ length other.now }
    requires within { (from ≤ to) × (to ≤ length words.now) }
    ensures bounds { (from ≤ result) × (result ≤ to) }
    ensures none { AreUnused words.now other.now from result }
{
    for at in from..to {
        if words[at] != 0 || other[at] != 0 {
            return at;
        }
    }
    to
}

/// The word that has the bit of the place at column `x` of row `y`.
#[inline]
pub(crate) fn word_at(words: &[u64], across: usize, x: u16, y: u16) -> u64
    requires { y * across + x / 64 < length words.now }
    ensures { result ≡ slice_index_or words.now (y * across + x / 64) 0 }
{
    words[usize::from(y) * across + usize::from(x) / 64]
}

/// The bits of word `column` for the places from column `from` up to column `to`.
pub(crate) fn columns_between(column: usize, from: usize, to: usize) -> u64
    requires from { from < column * 64 + 64 }
    requires to { column * 64 < to }
    ensures { IsBetween column from to result }
{
    let start = column * 64;
    let low = from.saturating_sub(start);
    let high = (to - start).min(64);
    (u64::MAX << low) & (u64::MAX >> (64 - high))
}
