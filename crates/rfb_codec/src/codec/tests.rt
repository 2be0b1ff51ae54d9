//! What the tests of the encoders share: a codec is called through its bound alone.

ghost use Rattle.std.specs.Prelude.{◌≡◌, ◌*◌, ◌^◌, ◌<◌, IfOk, IfSome};
ghost use Rattle.std.specs.Bool.{OnTrue, OnFalse};
ghost use Rattle.rfb_pixel.specs.Format.{size_of};
ghost use Rattle.rfb_codec.specs.Pixels.{HasPixels};
ghost use Rattle.rfb_codec.specs.Codec.{Appends};

pub(crate) mod input;

use super::*;
use arrayvec::ArrayVec;
use std::alloc::{AllocError, Global};
use std::result::Result;

/// The block of these pixels, if there is one of that size.
pub(crate) fn block_of(width: u16, height: u16, pixels: &[u32]) -> Option<Block> {
    if width < 1 || 64 < width || height < 1 || 64 < height {
        return None;
    }
    if pixels.len() != usize::from(height) * usize::from(width) {
        return None;
    }
    let mut held = ArrayVec::new();
    match held.try_extend_from_slice(pixels) {
        Ok(()) => Some(Block::new(width, height, held)),
        Err(_) => None,
    }
}

// The greatest pixel of the format.
fn greatest(format: &Format) -> Option<u32>
    ensures { IfSome result (λ most. most < 2 ^ (8 * size_of format.now)) }
{
    match format.size() {
        1 => Some(0xFF),
        2 => Some(0xFFFF),
        4 => Some(0xFFFF_FFFF),
        _ => None,
    }
}

// Whether no pixel has more bits than the format gives it.
fn fits(block: &Block, format: &Format) -> bool
    ensures { OnTrue result (HasPixels format.now block.now) }
{
    let most = match greatest(format) {
        Some(most) => most,
        None => return false,
    };
    for pixel in block.pixels() {
        if *pixel > most {
            return false;
        }
    }
    true
}

// What the codec answers, and what `out` has then, where it had `before`.
fn encoded<C: Codec>(
    alloc: Global,
    block: &Block,
    format: &Format,
    before: &[u8],
) -> Result<(bool, Vec<u8>), AllocError>
    ensures stands { IfOk result (λ r. OnTrue r.0
        (Appends C.stands format.now block.now before.now r.1.items)) }
    ensures kept { IfOk result (λ r. OnFalse r.0 (r.1.items ≡ before.now)) }
{
    let mut out = Vec::new(alloc);
    out.extend_from_slice(before)?;
    let raw = usize::from(block.height()) * usize::from(block.width()) * format.size();
    out.reserve(raw)?;
    if !fits(block, format) {
        return Ok((false, out));
    }
    let done = C::encode(block, format, &mut out);
    Ok((done, out))
}

// The same of a block of that width and height, if there is one.
fn answered<C: Codec>(
    alloc: Global,
    format: &Format,
    size: (u16, u16),
    pixels: &[u32],
    before: &[u8],
) -> Result<Option<(bool, Vec<u8>)>, AllocError> {
    match block_of(size.0, size.1, pixels) {
        Some(block) => Ok(Some(encoded::<C>(alloc, &block, format, before)?)),
        None => Ok(None),
    }
}

/// Whether the codec takes a block of that width and height, and `out` then has these bytes, where
/// it had `before`.
pub(crate) fn is_sent_as<C: Codec>(
    alloc: Global,
    format: &Format,
    size: (u16, u16),
    pixels: &[u32],
    before: &[u8],
    wanted: &[u8],
) -> Result<bool, AllocError> {
    match answered::<C>(alloc, format, size, pixels, before)? {
        Some((done, out)) => Ok(done && out.as_slice() == wanted),
        None => Ok(false),
    }
}

/// Whether the codec gives a block of that width and height up, and `out` has what it had.
pub(crate) fn is_given_up<C: Codec>(
    alloc: Global,
    format: &Format,
    size: (u16, u16),
    pixels: &[u32],
    before: &[u8],
) -> Result<bool, AllocError> {
    match answered::<C>(alloc, format, size, pixels, before)? {
        Some((done, out)) => Ok(!done && out.as_slice() == before),
        None => Ok(false),
    }
}

/// What the codec appends to nothing for a block of that width and height, if it takes it.
pub(crate) fn sent<C: Codec>(
    alloc: Global,
    format: &Format,
    size: (u16, u16),
    pixels: &[u32],
) -> Result<Option<Vec<u8>>, AllocError> {
    match answered::<C>(alloc, format, size, pixels, &[])? {
        Some((true, out)) => Ok(Some(out)),
        _ => Ok(None),
    }
}

/// How many bytes the pixels have as Raw.
pub(crate) fn raw_length(format: &Format, pixels: &[u32]) -> usize {
    pixels.len().wrapping_mul(format.size())
}

/// The most frequent pixel, the least of those.
pub(crate) fn most_frequent(pixels: &[u32]) -> u32 {
    let mut best = 0;
    let mut most = 0;
    for pixel in pixels {
        let count = pixels.iter().filter(|other| **other == *pixel).count();
        if most < count || (most == count && *pixel < best) {
            best = *pixel;
            most = count;
        }
    }
    best
}

/// The next list of pixels below `values`, if this was not the last.
pub(crate) fn count_up(pixels: &mut [u32], values: u32) -> bool {
    for pixel in pixels.iter_mut() {
        if pixel.wrapping_add(1) < values {
            *pixel = pixel.wrapping_add(1);
            return true;
        }
        *pixel = 0;
    }
    false
}

#[test]
fn each_codec_has_its_number(rt: HostRuntime) {
    let numbers = [
        crate::Raw::NUMBER,
        crate::Rre::NUMBER,
        crate::Hextile::NUMBER,
    ];
    assert!(rt; numbers == [0, 2, 5]);
}
