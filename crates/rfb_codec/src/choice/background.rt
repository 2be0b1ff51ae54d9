//! The background that an encoder chooses, by this project's rule.

ghost use Rattle.std.specs.Prelude.{◌≡◌, ◌+◌, ◌-◌, ◌<◌, ◌≤◌, ◌++◌, length, replicate, IfOk, IfErr};
ghost use Rattle.std.specs.Prelude.{IfSome, IfNone, slice_index};
ghost use Rattle.std.specs.Bool.{OnTrue, OnFalse};
ghost use Rattle.rfb_codec.specs.Choice.{IsBackground};
ghost use Rattle.rfb_codec.specs.encoder.Background.{HasMore, IsStopped, IsLed, IsRun, EndsRun};
ghost use Rattle.rfb_codec.specs.encoder.Background.{Claims};
ghost use Rattle.rfb_codec.specs.encoder.Background.{Leads, hash_of, changes_in, is_restless};

use crate::block::PLACES;
use crate::hextile::tiles::TILE_PLACES;
use arrayvec::ArrayVec;
use rfb_pixel::run_of;
use std::result::Result;

// The slots of the small table, for up to half as many pixels, which most blocks have, and how many
// places beside it.
const FEW: usize = 512;

const ASIDE: usize = 64;

// The slots of the large table.
const MANY: usize = 4096;

// How many places are looked at to detect noise.
const SAMPLE: usize = 64;

// Why a tally has no result.
#[derive(Clone, Copy, Debug, PartialEq, Eq)]
enum Stop {
    /// More pixels than were allowed.
    Pixels,
    /// More places aside than there is room for.
    Room,
}

/// The pixel that the most places have, among equals the least. `pixels` stay the caller's.
///
/// None comes only where there are more than `most` different pixels.
///
/// It goes by runs of one pixel and counts each in a table on the stack; a small one is enough for
/// most blocks. A slot belongs to the first pixel that hashes to it. Others that do are put aside
/// and sorted at the end. So whatever the pixels, it takes no more than a sort of them.
pub(crate) fn background_of(pixels: &[u32], most: usize) -> Option<u32>
    requires some { 0 < length pixels.now }
    requires few { length pixels.now ≤ PLACES }
    ensures background { IfSome result (λ pixel. IsBackground pixels.now pixel) }
    ensures more { IfNone result (HasMore most pixels.now) }
{
    // Of a tile of noise nothing else is asked.
    if pixels.len() <= TILE_PLACES && has_more::<FEW>(pixels, most) {
        return None;
    }
    match tally::<FEW, ASIDE>(pixels, most.min(FEW / 2)) {
        Ok(pixel) => return Some(pixel),
        Err(Stop::Pixels) if most <= FEW / 2 => return None,
        Err(_) => {}
    }
    if pixels.len() <= TILE_PLACES {
        return tally::<FEW, TILE_PLACES>(pixels, most).ok();
    }
    if has_more::<MANY>(pixels, most) {
        return None;
    }
    tally::<MANY, PLACES>(pixels, most).ok()
}

// Whether the pixels hash to more slots of a table than `most`, and so are more than that. It may
// answer false where they are, and does so where pixels come in runs. It costs a quarter of a
// tally, and a tally of noise would be in vain.
fn has_more<const SLOTS: usize>(pixels: &[u32], most: usize) -> bool
    requires some { 0 < length pixels.now }
    requires few { length pixels.now ≤ PLACES }
    requires slots { (0 < SLOTS) × (SLOTS ≤ MANY) }
    ensures { OnTrue result (HasMore most pixels.now) }
{
    // Some places in the middle reveal most blocks that have few pixels.
    let half = pixels.len() / 2;
    if !is_restless(&pixels[half..pixels.len().min(half + SAMPLE)]) {
        return false;
    }
    let mut taken = [0u8; SLOTS];
    let mut free = most;
    for place in 0..pixels.len() {
        let slot = hash(pixels[place]) % SLOTS;
        if taken[slot] == 0 {
            if free == 0 {
                return true;
            }
            free -= 1;
            taken[slot] = 1;
        }
    }
    false
}

// Whether three places of four, or more, have another pixel than the place after them, as in noise,
// or in a photograph.
fn is_restless(pixels: &[u32]) -> bool
    requires some { 0 < length pixels.now }
    requires few { length pixels.now ≤ PLACES }
    ensures { result ≡ is_restless pixels.now }
{
    changes_in(pixels) * 4 >= pixels.len() * 3
}

// How many places have another pixel than the place after them, if there is one. All are counted,
// which goes by vectors.
fn changes_in(pixels: &[u32]) -> usize
    requires some { 0 < length pixels.now }
    requires few { length pixels.now ≤ PLACES }
    ensures value { result ≡ changes_in pixels.now (length pixels.now - 1) }
    ensures few { result ≤ length pixels.now }
{
    let mut count = 0u32;
    for place in 0..pixels.len() - 1 {
        if pixels[place + 1] != pixels[place] {
            count += 1;
        }
    }
    count as usize
}

// The most frequent pixel, the least among equals. It stops at more pixels than `free`, or at more
// places aside than `ROOM`.
fn tally<const SLOTS: usize, const ROOM: usize>(
    pixels: &[u32],
    mut free: usize,
) -> Result<u32, Stop>
    requires some { 0 < length pixels.now }
    requires few { length pixels.now ≤ PLACES }
    requires slots { (0 < SLOTS) × (SLOTS ≤ MANY) }
    requires room { ROOM ≤ PLACES }
    ensures found { IfOk result (λ pixel. IsBackground pixels.now pixel) }
    ensures stopped { IfErr result (λ stop. IsStopped stop free ROOM pixels.now) }
{
    // For each slot the first place of its pixel, plus 1, and how many places have that so far.
    let mut firsts = [0u16; SLOTS];
    let mut counts = [0u16; SLOTS];
    let mut aside: ArrayVec<u32, ROOM> = ArrayVec::new();
    let (mut better, mut most) = (pixels[0], 0u16);
    let mut start = 0;
    while start < pixels.len() {
        let end = run_end(pixels, start);
        let pixel = pixels[start];
        let slot = hash(pixel) % SLOTS;
        let Some(first) = claim(&mut firsts, slot, start, &mut free) else {
            return Err(Stop::Pixels);
        };
        if pixels[first - 1] == pixel {
            let count = counts[slot] + (end - start) as u16;
            counts[slot] = count;
            if leads(usize::from(count), pixel, usize::from(most), better) {
                (better, most) = (pixel, count);
            }
        } else if !put_aside(&mut aside, pixel, end - start) {
            return Err(Stop::Room);
        }
        start = end;
    }
    if aside.is_empty() {
        return Ok(better);
    }
    Ok(with_aside(better, usize::from(most), &mut aside))
}

// The first place, plus 1, of the pixel that a slot belongs to. A vacant one belongs to the pixel
// at `start` from then on. None where no further pixel is allowed.
#[inline(always)]
fn claim<const SLOTS: usize>(
    firsts: &mut [u16; SLOTS],
    slot: usize,
    start: usize,
    free: &mut usize,
) -> Option<usize>
    requires slot { slot < SLOTS }
    requires start { start < PLACES }
    ensures some { IfSome result (λ first.
        Claims slot start firsts.old firsts.new free.old free.new first) }
    ensures none { IfNone result ((slice_index firsts.old slot ≡ 0) × (free.old ≡ 0)) }
{
    let first = usize::from(firsts[slot]);
    if first != 0 {
        return Some(first);
    }
    if *free == 0 {
        return None;
    }
    *free -= 1;
    firsts[slot] = (start + 1) as u16;
    Some(start + 1)
}

// Puts that many places of a pixel aside, if there is room for them.
fn put_aside<const ROOM: usize>(aside: &mut ArrayVec<u32, ROOM>, pixel: u32, count: usize) -> bool
    requires { ROOM ≤ PLACES }
    ensures all { OnTrue result (aside.new.items ≡ aside.old.items ++ replicate count pixel) }
    ensures full { OnFalse result (ROOM < length aside.old.items + count) }
{
    for _ in 0..count {
        if aside.try_push(pixel).is_err() {
            return false;
        }
    }
    true
}

/// Whether a pixel that `count` places have comes before `better`, which `most` have.
pub fn leads(count: usize, pixel: u32, most: usize, better: u32) -> bool
    ensures yes { OnTrue result (Leads count pixel most better) }
    ensures no { OnFalse result ((count ≤ most) × (count ≡ most → better ≤ pixel)) }
{
    if most < count {
        return true;
    }
    if count < most {
        return false;
    }
    pixel < better
}

// The pixel `better`, which `most` places have, or a better one of those aside.
fn with_aside<const ROOM: usize>(
    mut better: u32,
    mut most: usize,
    aside: &mut ArrayVec<u32, ROOM>,
) -> u32
    requires room { ROOM ≤ PLACES }
    ensures { IsLed aside.old.items better most result }
{
    aside.as_mut_slice().sort_unstable();
    let sorted = aside.as_slice();
    let mut start = 0;
    while start < sorted.len() {
        let end = run_end(sorted, start);
        let (pixel, count) = (sorted[start], end - start);
        if leads(count, pixel, most, better) {
            (better, most) = (pixel, count);
        }
        start = end;
    }
    better
}

// The end of the run of one pixel that begins at `start`.
fn run_end(pixels: &[u32], start: usize) -> usize
    requires { start < length pixels.now }
    ensures within { result ≤ length pixels.now }
    ensures some { start < result }
    ensures run { IsRun pixels.now start result }
    ensures other { EndsRun pixels.now start result }
{
    start + 1 + run_of(&pixels[start + 1..], pixels[start])
}

// Spreads pixel values over a table.
fn hash(pixel: u32) -> usize
    ensures { result ≡ hash_of pixel }
{
    (pixel.wrapping_mul(0x9E37_79B1) >> 16) as usize
}

#[cfg(test)]
mod tests;
