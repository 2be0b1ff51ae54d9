//! The outermost of the places whose bits are set in rows of words.

ghost use Rattle.std.specs.Prelude.{◌≡◌, ◌+◌, ◌*◌, ◌/◌, ◌^◌, ◌<◌, ◌≤◌, length};
ghost use Rattle.rfb_picture.specs.layout.Plane.{has_place, has_masked};
ghost use Rattle.rfb_picture.specs.layout.Edges.{edges_of, rect_of, HasEdges, JoinsTo, HasMark};
ghost use Rattle.rfb_picture.specs.layout.Edges.{HasFirstRow, IsLastRow, HasAllBits};
ghost use Rattle.rfb_picture.specs.layout.Edges.{HasNoOtherBits, HasGathered};

use crate::rect::Rect;
use crate::words::{Strip, columns_between};

// How many rows are looked at together, by `four_rows`.
const ROWS: usize = 4;

/// The first and the last column and row that have a place.
#[derive(Clone, Copy, Drop)]
pub(crate) struct Edges {
    pub left: usize,
    pub right: usize,
    pub top: usize,
    pub bottom: usize,
}

impl Edges {
    /// The edges of a rectangle, which has a place.
    pub(crate) fn of(rect: Rect) -> Edges
        requires { (0 < rect.w) × (0 < rect.h) }
        ensures { result ≡ edges_of rect }
    {
        Edges {
            left: usize::from(rect.x),
            right: usize::from(rect.x) + usize::from(rect.w) - 1,
            top: usize::from(rect.y),
            bottom: usize::from(rect.y) + usize::from(rect.h) - 1,
        }
    }

    /// The rectangle with these edges.
    pub(crate) fn rect(self) -> Rect
        requires columns { (self.left ≤ self.right) × (self.right < 65535) }
        requires rows { (self.top ≤ self.bottom) × (self.bottom < 65535) }
        ensures { result ≡ rect_of self }
    {
        Rect {
            x: self.left as u16,
            y: self.top as u16,
            w: (self.right - self.left + 1) as u16,
            h: (self.bottom - self.top + 1) as u16,
        }
    }
}

// The bits of words one above the other, or-ed together, and the first and last row that has one.
#[derive(Clone, Copy, Drop)]
struct Gathered {
    bits: u64,
    top: usize,
    bottom: usize,
}

/// The edges of the zone's places whose bits are set, where a row is `across` words; `None` where
/// none is. The zone's places of a row are in one word.
pub(crate) fn edges_in(words: &[u64], across: usize, zone: Rect) -> Option<Edges>
    requires small { across < 2 ^ 16 }
    requires columns { zone.x + zone.w ≤ across * 64 }
    requires rows { (zone.y + zone.h) * across ≤ length words.now }
    requires some { 0 < zone.w }
    requires word { zone.x + zone.w ≤ zone.x / 64 * 64 + 64 }
    ensures { HasEdges (has_place words.now across) zone result }
{
    let from = usize::from(zone.x);
    let top = usize::from(zone.y);
    let bottom = top + usize::from(zone.h);
    let column = from / 64;
    let mask = columns_between(column, from, from + usize::from(zone.w));
    let strip = Strip {
        across,
        column,
        mask,
    };
    match gather(words, strip, top, bottom) {
        None => None,
        Some(found) => {
            let start = column * 64;
            Some(Edges {
                left: start + found.bits.trailing_zeros() as usize,
                right: start + 63 - found.bits.leading_zeros() as usize,
                top: found.top,
                bottom: found.bottom,
            })
        }
    }
}

/// The edges of two parts together.
pub(crate) fn joined(a: Option<Edges>, b: Option<Edges>) -> Option<Edges>
    ensures { JoinsTo a b result }
{
    match a {
        None => b,
        Some(a) => match b {
            None => Some(a),
            Some(b) => Some(Edges {
                left: a.left.min(b.left),
                right: a.right.max(b.right),
                top: a.top.min(b.top),
                bottom: a.bottom.max(b.bottom),
            }),
        },
    }
}

// What the mask leaves of the strip's words in the rows from `top` up to `bottom`, put together;
// `None` where it leaves no bit.
fn gather(words: &[u64], strip: Strip, top: usize, bottom: usize) -> Option<Gathered>
    requires column { strip.column < strip.across }
    requires rows { bottom * strip.across ≤ length words.now }
    ensures { HasGathered (has_masked words.now strip.across strip.column strip.mask)
        top bottom result }
{
    match first_row(words, strip, top, bottom) {
        None => None,
        // A lowest row is the only one.
        Some(first) if first + 1 == bottom => Some(Gathered {
            bits: words[first * strip.across + strip.column] & strip.mask,
            top: first,
            bottom: first,
        }),
        Some(first) => {
            let last = last_row(words, strip, first, bottom);
            Some(Gathered {
                bits: all_bits(words, strip.across, strip.column, first, last + 1) & strip.mask,
                top: first,
                bottom: last,
            })
        }
    }
}

// The first of the rows from `top` up to `bottom` whose word has a bit of the mask.
fn first_row(words: &[u64], strip: Strip, top: usize, bottom: usize) -> Option<usize>
    requires column { strip.column < strip.across }
    requires rows { bottom * strip.across ≤ length words.now }
    ensures { HasFirstRow (has_masked words.now strip.across strip.column strip.mask)
        top bottom result }
{
    let mut from = top;
    let mut left = bottom.saturating_sub(top) / ROWS;
    while left > 0 && four_rows(words, strip.across, strip.column, from) & strip.mask == 0 {
        from += ROWS;
        left -= 1;
    }
    for row in from..bottom {
        if words[row * strip.across + strip.column] & strip.mask != 0 {
            return Some(row);
        }
    }
    None
}

// The last of the rows from `top` up to `bottom` whose word has a bit of the mask. Row `top` is
// one.
fn last_row(words: &[u64], strip: Strip, top: usize, bottom: usize) -> usize
    requires column { strip.column < strip.across }
    requires rows { bottom * strip.across ≤ length words.now }
    requires order { top < bottom }
    requires some { HasMark (has_masked words.now strip.across strip.column strip.mask) top }
    ensures { IsLastRow (has_masked words.now strip.across strip.column strip.mask)
        top bottom result }
{
    let mut end = bottom;
    let mut left = (bottom - top - 1) / ROWS;
    while left > 0 && four_rows(words, strip.across, strip.column, end - ROWS) & strip.mask == 0 {
        end -= ROWS;
        left -= 1;
    }
    let mut last = end - 1;
    while last > top && words[last * strip.across + strip.column] & strip.mask == 0 {
        last -= 1;
    }
    last
}

// Word `column` of the rows from `top` up to `bottom`, or-ed together.
fn all_bits(words: &[u64], across: usize, column: usize, top: usize, bottom: usize) -> u64
    requires column { column < across }
    requires order { top ≤ bottom }
    requires rows { bottom * across ≤ length words.now }
    ensures each { HasAllBits words.now across column top bottom result }
    ensures some { HasNoOtherBits words.now across column top bottom result }
{
    let mut bits = 0;
    let mut from = top;
    let mut left = (bottom - top) / ROWS;
    while left > 0 {
        bits |= four_rows(words, across, column, from);
        from += ROWS;
        left -= 1;
    }
    for row in from..bottom {
        bits |= words[row * across + column];
    }
    bits
}

// Word `column` of four rows from `row` on, or-ed together. A loop over them would ask of each
// whether it is one.
#[inline(always)]
fn four_rows(words: &[u64], across: usize, column: usize, row: usize) -> u64
    requires column { column < across }
    requires rows { (row + 4) * across ≤ length words.now }
    ensures each { HasAllBits words.now across column row (row + 4) result }
    ensures some { HasNoOtherBits words.now across column row (row + 4) result }
{
    let at = row * across + column;
    words[at] | words[at + across] | words[at + 2 * across] | words[at + 3 * across]
}
