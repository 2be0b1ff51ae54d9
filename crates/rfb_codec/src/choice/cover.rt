//! The cover of a block over its background, by this project's rule.

ghost use Rattle.std.specs.Prelude.{◌≡◌, ◌≢◌, ℕ, ◌+◌, ◌*◌, ◌<◌, ◌≤◌, ◌&&◌, nat_le, nat_lt};
ghost use Rattle.std.specs.Prelude.{true, [], length, slice_index};
ghost use Rattle.std.specs.Bool.{OnTrue, OnFalse};
ghost use Rattle.arrayvec.specs.ArrayVec.{array_vec_len};
ghost use Rattle.rfb_picture.specs.Places.{has_bit};
ghost use Rattle.rfb_wire.specs.RectHead.{IsOnScreen};
ghost use Rattle.rfb_codec.specs.Choice.{AreRuleSubs};
ghost use Rattle.rfb_codec.specs.encoder.Cover.{IsCover, IsGivenUp, TellsLeft, IsWithout, AreTaken};
ghost use Rattle.rfb_codec.specs.encoder.Cover.{HasRun, HasRuns};

use crate::block::SIDE;
use crate::subrect::Subrect;
use arrayvec::ArrayVec;
use rfb_picture::Rect;
use rfb_pixel::others_in;

/// Gives `subs` the subrectangles that cover the places of another pixel than the background, or
/// answers false once there are more than `limit`.
///
/// Rows are gone through from the top, each from the left. A subrectangle begins at a place that is
/// not covered and has another pixel than the background. It is as wide as the longest run to the
/// right of uncovered places with its pixel, and goes down as many rows as have that pixel under
/// the whole run.
pub(crate) fn cover<const N: usize>(
    pixels: &[u32],
    width: usize,
    height: usize,
    background: u32,
    limit: usize,
    subs: &mut ArrayVec<Subrect, N>,
) -> bool
    requires whole { length pixels.now ≡ height * width }
    requires columns { width ≤ SIDE }
    requires rows { height ≤ SIDE }
    requires limit { limit ≤ N }
    requires empty { subs.old.items ≡ [] }
    ensures cover { OnTrue result (IsCover width height pixels.now background subs.new.items) }
    ensures rule { OnTrue result (AreRuleSubs width height pixels.now background subs.new.items) }
    ensures over { OnFalse result
        (IsGivenUp width height pixels.now background limit subs.new.items) }
    ensures few { array_vec_len subs.new ≤ limit }
{
    // For each row the places of another pixel that no subrectangle covers yet, as bits. Rows above
    // the one under way are never asked of again, and of that one they stand in `left`.
    let mut rows = others_of(pixels, width, height, background);
    for y in 0..height {
        let mut left = rows[y];
        while left != 0 {
            if subs.len() == limit {
                return false;
            }
            let x = left.trailing_zeros() as usize;
            let pixel = pixels[y * width + x];
            let rect = take_from(pixels, width, height, x, y, &mut left, &mut rows);
            subs.push(Subrect { pixel, rect });
        }
    }
    true
}

// For each row the places of another pixel than the background, as bits.
#[inline(always)]
fn others_of(pixels: &[u32], width: usize, height: usize, background: u32) -> [u64; SIDE]
    requires whole { length pixels.now ≡ height * width }
    requires columns { width ≤ SIDE }
    requires rows { height ≤ SIDE }
    ensures { (y : ℕ) → y < height →
        TellsLeft width pixels.now background [] y (slice_index result y) }
{
    let mut rows = [0; SIDE];
    for y in 0..height {
        rows[y] = others_in(&pixels[y * width..y * width + width], background);
    }
    rows
}

// Takes the subrectangle that begins at (x, y), which is left, and its places from the bits of its
// rows. As subrectangles go on down from row to row, nothing below a place that is left is covered.
#[inline(always)]
fn take_from(
    pixels: &[u32],
    width: usize,
    height: usize,
    x: usize,
    y: usize,
    left: &mut u64,
    rows: &mut [u64],
) -> Rect
    requires whole { length pixels.now ≡ height * width }
    requires columns { (x < width) × (width ≤ SIDE) }
    requires rows { (y < height) × (height ≤ SIDE) × (height ≤ length rows.old) }
    requires here { has_bit left.old x ≡ true }
    ensures corner { (result.x ≡ x) × (result.y ≡ y) }
    ensures some { (0 < result.w) × (0 < result.h) }
    ensures inside { IsOnScreen width height result }
    ensures same { HasRuns width pixels.now (slice_index pixels.now (y * width + x))
        x (x + result.w) y (y + result.h) }
    ensures free { (i : ℕ) → x ≤ i → i < x + result.w → has_bit left.old i ≡ true }
    ensures longest { x + result.w < width → has_bit left.old (x + result.w) ≡ true →
        slice_index pixels.now (y * width + (x + result.w))
        ≢ slice_index pixels.now (y * width + x) }
    ensures lowest { y + result.h < height →
        HasRun width pixels.now (slice_index pixels.now (y * width + x))
        x (x + result.w) (y + result.h) → ⊥ }
    ensures first { IsWithout x (x + result.w) left.old left.new }
    ensures less { left.new < left.old }
    ensures others { AreTaken x (x + result.w) (y + 1) (y + result.h) rows.old rows.new }
{
    let right = run_end(pixels, width, x, y, *left);
    *left &= !run_bits(x, right);
    let lower = take_below(pixels, width, height, x, right, y, rows);
    Rect {
        x: x as u16,
        y: y as u16,
        w: (right - x) as u16,
        h: (lower - y) as u16,
    }
}

// The bits of the columns from `start` up to `end`.
#[inline(always)]
fn run_bits(start: usize, end: usize) -> u64
    requires { (start < end) × (end ≤ 64) }
    ensures { (i : ℕ) → i < 64 → has_bit result i ≡ (nat_le start i && nat_lt i end) }
{
    (u64::MAX >> (64 - (end - start))) << start
}

// The end of the run of places left with the pixel of (x, y), which begins there.
#[inline(always)]
fn run_end(pixels: &[u32], width: usize, x: usize, y: usize, left: u64) -> usize
    requires columns { (x < width) × (width ≤ SIDE) }
    requires row { y * width + width ≤ length pixels.now }
    requires here { has_bit left x ≡ true }
    ensures some { x < result }
    ensures within { result ≤ width }
    ensures run { HasRun width pixels.now (slice_index pixels.now (y * width + x)) x result y }
    ensures free { (i : ℕ) → x ≤ i → i < result → has_bit left i ≡ true }
    ensures longest { result < width → has_bit left result ≡ true →
        slice_index pixels.now (y * width + result) ≢ slice_index pixels.now (y * width + x) }
{
    let pixel = pixels[y * width + x];
    for i in x + 1..width {
        if left >> i & 1 == 0 || pixels[y * width + i] != pixel {
            return i;
        }
    }
    width
}

// The row after the last that has the pixel of (x, y) from column x up to `right`, from row y on.
// The places below row y are taken from the bits of their rows.
#[inline(always)]
fn take_below(
    pixels: &[u32],
    width: usize,
    height: usize,
    x: usize,
    right: usize,
    y: usize,
    rows: &mut [u64],
) -> usize
    requires whole { length pixels.now ≡ height * width }
    requires run { (x < right) × (right ≤ width) × (width ≤ SIDE) }
    requires row { (y < height) × (height ≤ length rows.old) }
    requires first { HasRun width pixels.now (slice_index pixels.now (y * width + x)) x right y }
    ensures some { y < result }
    ensures within { result ≤ height }
    ensures lowest { result < height →
        HasRun width pixels.now (slice_index pixels.now (y * width + x)) x right result → ⊥ }
    ensures same { HasRuns width pixels.now (slice_index pixels.now (y * width + x))
        x right y result }
    ensures others { AreTaken x right (y + 1) result rows.old rows.new }
{
    let pixel = pixels[y * width + x];
    let run = run_bits(x, right);
    for j in y + 1..height {
        if !has_run(pixels, j * width + x, j * width + right, pixel) {
            return j;
        }
        rows[j] &= !run;
    }
    height
}

// Whether all places from `start` up to `end` have the pixel.
#[inline(always)]
fn has_run(pixels: &[u32], start: usize, end: usize, pixel: u32) -> bool
    requires { end ≤ length pixels.now }
    ensures has { OnTrue result ((i : ℕ) → start ≤ i → i < end → slice_index pixels.now i ≡ pixel) }
    ensures other { OnFalse result
        ((i : ℕ) × (start ≤ i) × (i < end) × (slice_index pixels.now i ≢ pixel)) }
{
    for i in start..end {
        if pixels[i] != pixel {
            return false;
        }
    }
    true
}

#[cfg(test)]
mod tests;
