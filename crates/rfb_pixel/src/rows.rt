//! Where two rows of pixel values differ.

ghost use Rattle.std.specs.Prelude.{◌≡◌, ◌≢◌, ℕ, ◌<◌, ◌≤◌, ◌+◌, ◌^◌, ◌==◌, ◌↔◌, not, nat_eq, drop};
ghost use Rattle.std.specs.Prelude.{take, length, slice_index, IfSome, IsNone};
ghost use Rattle.std.specs.Bool.{OnTrue};
ghost use Rattle.std.specs.Int.{bit_at};
ghost use Rattle.rfb_pixel.specs.Rows.{IsFirstDiff, IsLastDiff, equal_places, TellsDifferences};
ghost use Rattle.rfb_pixel.specs.Rows.{TellsOthers};

use std::simd::u32x16;

// How many places are compared at once.
const LANES: usize = 16;

// How many places of a run are looked at one by one first.
const NEAR: usize = 8;

/// The first place where two rows of one length differ. None where they are the same.
pub fn first_diff(a: &[u32], b: &[u32]) -> Option<usize>
    requires { length a.now ≡ length b.now }
    ensures found { IfSome result (λ i. IsFirstDiff a.now b.now i) }
    ensures same { IsNone result ↔ (a.now ≡ b.now) }
{
    let mut at = 0;
    while a.len() - at >= 2 * LANES && are_same(a, b, at) && are_same(a, b, at + LANES) {
        at += 2 * LANES;
    }
    while a.len() - at >= LANES && are_same(a, b, at) {
        at += LANES;
    }
    for i in at..a.len() {
        if a[i] != b[i] {
            return Some(i);
        }
    }
    None
}

/// The last place where two rows of one length differ. None where they are the same.
pub fn last_diff(a: &[u32], b: &[u32]) -> Option<usize>
    requires { length a.now ≡ length b.now }
    ensures found { IfSome result (λ i. IsLastDiff a.now b.now i) }
    ensures same { IsNone result ↔ (a.now ≡ b.now) }
{
    let mut end = a.len();
    while end >= LANES && are_same(a, b, end - LANES) {
        end -= LANES;
    }
    while end > 0 {
        end -= 1;
        if a[end] != b[end] {
            return Some(end);
        }
    }
    None
}

/// How many places of a row, from the first on, have that pixel. Most runs are short: their places
/// are looked at one by one, where it is called.
#[inline(always)]
pub fn run_of(row: &[u32], pixel: u32) -> usize
    ensures within { result ≤ length row.now }
    ensures run { (k : ℕ) → k < result → slice_index row.now k ≡ pixel }
    ensures other { result < length row.now → slice_index row.now result ≢ pixel }
{
    let near = row.len().min(NEAR);
    for i in 0..near {
        if row[i] != pixel {
            return i;
        }
    }
    run_from(row, near, pixel)
}

// The same where the places before `near` have it.
#[inline(never)]
fn run_from(row: &[u32], near: usize, pixel: u32) -> usize
    requires within { near ≤ length row.now }
    requires run { (k : ℕ) → k < near → slice_index row.now k ≡ pixel }
    ensures within { result ≤ length row.now }
    ensures run { (k : ℕ) → k < result → slice_index row.now k ≡ pixel }
    ensures other { result < length row.now → slice_index row.now result ≢ pixel }
{
    let mut at = near;
    while row.len() - at >= LANES && are_all(row, at, pixel) {
        at += LANES;
    }
    for place in at..row.len() {
        if row[place] != pixel {
            return place;
        }
    }
    row.len()
}

// Whether the sixteen places of a row that begin at `at` have that pixel.
#[inline(always)]
fn are_all(row: &[u32], at: usize, pixel: u32) -> bool
    requires { at + 16 ≤ length row.now }
    ensures { OnTrue result ((k : ℕ) → at ≤ k → k < at + 16 → slice_index row.now k ≡ pixel) }
{
    let same = [pixel; LANES];
    are_same(&row[at..at + LANES], &same, 0)
}

/// At how many places two rows of one length have the same pixel.
pub fn count_equal(a: &[u32], b: &[u32]) -> usize
    requires { length a.now ≡ length b.now }
    ensures value { result ≡ equal_places a.now b.now }
    ensures bound { result ≤ length a.now }
{
    let mut count = 0;
    let mut at = 0;
    while a.len() - at >= LANES {
        count += count_same(a, b, at);
        at += LANES;
    }
    for place in at..a.len() {
        count += usize::from(a[place] == b[place]);
    }
    count
}

// How many of the sixteen places of two rows that begin at `at` are the same.
#[inline(always)]
fn count_same(a: &[u32], b: &[u32], at: usize) -> usize
    requires left { at + 16 ≤ length a.now }
    requires right { at + 16 ≤ length b.now }
    ensures value { result ≡ equal_places (take 16 (drop at a.now)) (take 16 (drop at b.now)) }
    ensures bound { result ≤ 16 }
{
    let same = u32x16::from_slice(&a[at..]).simd_eq(u32x16::from_slice(&b[at..]));
    same.to_bitmask().count_ones() as usize
}

/// Which of the places of two rows of one length, at most 64, differ: bit `i` is set where place
/// `i` does. A bit past their end is not set.
pub fn differing(a: &[u32], b: &[u32]) -> u64
    requires alike { length a.now ≡ length b.now }
    requires few { length a.now ≤ 64 }
    ensures { TellsDifferences a.now b.now result }
{
    let mut bits = 0;
    let mut at = 0;
    while a.len() - at >= LANES {
        bits |= sixteen_differing(a, b, at) << at;
        at += LANES;
    }
    for place in at..a.len() {
        bits |= u64::from(a[place] != b[place]) << place;
    }
    bits
}

// Which of the sixteen places of two rows that begin at `at` differ.
#[inline(always)]
fn sixteen_differing(a: &[u32], b: &[u32], at: usize) -> u64
    requires left { at + 16 ≤ length a.now }
    requires right { at + 16 ≤ length b.now }
    ensures value { (i : ℕ) → i < 16 → nat_eq (bit_at result i) 1
        ≡ not (slice_index a.now (at + i) == slice_index b.now (at + i)) }
    ensures bound { result < 2 ^ 16 }
{
    let differ = u32x16::from_slice(&a[at..]).simd_ne(u32x16::from_slice(&b[at..]));
    differ.to_bitmask()
}

/// Which of the places of a row of at most 64 have another pixel than that: bit `i` is set where
/// place `i` has. A bit past its end is not set.
#[inline(always)]
pub fn others_in(row: &[u32], pixel: u32) -> u64
    requires { length row.now ≤ 64 }
    ensures { TellsOthers row.now pixel result }
{
    let mut bits = 0;
    let mut at = 0;
    while row.len() - at >= LANES {
        bits |= sixteen_others(row, at, pixel) << at;
        at += LANES;
    }
    for place in at..row.len() {
        bits |= u64::from(row[place] != pixel) << place;
    }
    bits
}

// Which of the sixteen places of a row that begin at `at` have another pixel than that.
#[inline(always)]
fn sixteen_others(row: &[u32], at: usize, pixel: u32) -> u64
    requires { at + 16 ≤ length row.now }
    ensures value { (i : ℕ) → i < 16 → nat_eq (bit_at result i) 1
        ≡ not (slice_index row.now (at + i) == pixel) }
    ensures bound { result < 2 ^ 16 }
{
    let same = [pixel; LANES];
    sixteen_differing(&row[at..at + LANES], &same, 0)
}

// Whether the sixteen places of two rows that begin at `at` are the same.
#[inline(always)]
fn are_same(a: &[u32], b: &[u32], at: usize) -> bool
    requires left { at + 16 ≤ length a.now }
    requires right { at + 16 ≤ length b.now }
    ensures { OnTrue result ((k : ℕ) → at ≤ k → k < at + 16 →
        slice_index a.now k ≡ slice_index b.now k) }
{
    u32x16::from_slice(&a[at..]) == u32x16::from_slice(&b[at..])
}

#[cfg(test)]
mod tests;
