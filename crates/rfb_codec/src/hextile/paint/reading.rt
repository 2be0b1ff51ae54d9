//! A tile, found and judged in the bytes that begin with it.

ghost use Rattle.std.specs.Prelude.{◌≡◌, ℕ, ◌+◌, ◌*◌, ◌≤◌, ◌<◌, ◌==◌, not, List, length, drop};
ghost use Rattle.std.specs.Prelude.{slice_index, MatchOption, IfErr, None, true, false, ◌⊎◌};
ghost use Rattle.rfb_pixel.specs.Format.{size_of};
ghost use Rattle.rfb_wire.specs.stream.Prefix.{More, Got};
ghost use Rattle.rfb_wire.specs.stream.Parts.{optional};
ghost use Rattle.rfb_wire.specs.RectStream.{is_on_screen};
ghost use Rattle.rfb_wire.specs.stream.FaultPlace.{FaultsWith};
ghost use Rattle.rfb_codec.specs.Tile.{Tile, is_raw, subrects_colored, mask_fault, tile_colour};
ghost use Rattle.rfb_codec.specs.Tile.{after_mask, are_inside, places_of, place_of, tile_after};
ghost use Rattle.rfb_codec.specs.decoder.TileRead.{LiesIn, tile_of_read, TellsTile, IsShort};
ghost use Rattle.rfb_codec.specs.decoder.TileRead.{IsCount, places_from};
ghost use Rattle.rfb_codec.specs.Stage.{Sees};

use super::tile_read::{Seen, TileRead};
use crate::fault::{Flaw, PaintFault};
use crate::hextile::layout::TileLayout;
use crate::hextile::mask::{
    ANY_SUBRECTS, BACKGROUND_SPECIFIED, FOREGROUND_SPECIFIED, RAW, SUBRECTS_COLORED,
};
use rfb_picture::Rect;
use rfb_pixel::Format;

/// The tile of that size that the bytes begin with, after tiles that have specified the colours
/// seen. None where it is not all there. A mask is judged at its byte, and subrectangles that leave
/// the tile at the last byte of the tile.
#[inline(always)]
pub fn read_tile(
    format: Format,
    seen: Seen,
    width: u16,
    height: u16,
    bytes: &[u8],
) -> Result<Option<TileRead>, Flaw>
    requires { (width ≤ 16) × (height ≤ 16) }
    ensures told { (before : List Tile) → Sees before seen →
        TellsTile format width height bytes.now result
        (tile_after format width height before bytes.now) }
    ensures short { IsShort bytes.now result }
    ensures with { IfErr result (λ flaw. (before : List Tile) → Sees before seen →
        FaultsWith (tile_after format width height before) bytes.now flaw.used flaw.fault) }
{
    if bytes.is_empty() {
        return Ok(None);
    }
    let mask = bytes[0];
    match fault_of_mask(mask, seen) {
        Some(fault) => return Err(Flaw { used: 1, fault }),
        None => {}
    }
    match find(format, width, height, mask, bytes) {
        None => Ok(None),
        Some(read) => {
            if fits(format, width, height, read, bytes) {
                Ok(Some(read))
            } else {
                Err(Flaw {
                    used: read.used,
                    fault: PaintFault::SubrectOutside,
                })
            }
        }
    }
}

// The fault of a mask, if it has one, after tiles that have specified the colours seen.
fn fault_of_mask(mask: u8, seen: Seen) -> Option<PaintFault>
    ensures { (before : List Tile) → Sees before seen → result ≡ mask_fault before mask }
{
    if mask & RAW != 0 {
        None
    } else if mask & BACKGROUND_SPECIFIED == 0 && seen.background.is_none() {
        Some(PaintFault::NoBackground)
    } else if mask & FOREGROUND_SPECIFIED != 0 && mask & SUBRECTS_COLORED != 0 {
        Some(PaintFault::BothColourBits)
    } else if mask & ANY_SUBRECTS != 0
        && mask & FOREGROUND_SPECIFIED == 0
        && mask & SUBRECTS_COLORED == 0
        && seen.foreground.is_none()
    {
        Some(PaintFault::NoForeground)
    } else {
        None
    }
}

// Where the parts of a tile lie after its mask, if they are all there.
#[inline(always)]
fn find(format: Format, width: u16, height: u16, mask: u8, bytes: &[u8]) -> Option<TileRead>
    requires size { (width ≤ 16) × (height ≤ 16) }
    requires mask { 1 ≤ length bytes.now }
    ensures short { result ≡ None → length bytes.now < 1536 }
    ensures told { MatchOption result (after_mask format width height mask (is_raw mask)
        (subrects_colored mask) (drop 1 bytes.now) ≡ More)
        (λ read. (after_mask format width height mask (is_raw mask) (subrects_colored mask)
        (drop 1 bytes.now) ≡ Got (tile_of_read format width height read bytes.now)
        (drop read.used bytes.now)) × LiesIn format width height read bytes.now) }
{
    let size = format.size();
    if mask & RAW != 0 {
        let used = 1 + usize::from(height) * usize::from(width) * size;
        return whole(TileLayout::Raw, 1, 0, used, bytes);
    }
    let (background, at) = find_colour(format, mask & BACKGROUND_SPECIFIED != 0, bytes, 1)?;
    if mask & SUBRECTS_COLORED != 0 {
        let (count, list) = find_count(mask & ANY_SUBRECTS != 0, bytes, at)?;
        let layout = TileLayout::Colored { background };
        whole(layout, list, count, list + count * (size + 2), bytes)
    } else {
        let (foreground, at) = find_colour(format, mask & FOREGROUND_SPECIFIED != 0, bytes, at)?;
        let (count, list) = find_count(mask & ANY_SUBRECTS != 0, bytes, at)?;
        let layout = TileLayout::Plain {
            background,
            foreground,
        };
        whole(layout, list, count, list + count * 2, bytes)
    }
}

// The tile, if all of its bytes are there.
#[inline(always)]
fn whole(
    layout: TileLayout,
    list: usize,
    count: usize,
    used: usize,
    bytes: &[u8],
) -> Option<TileRead>
    ensures { MatchOption result (length bytes.now < used)
        (λ read. (read ≡ record { layout = layout; list = list; count = count; used = used })
        × (used ≤ length bytes.now)) }
{
    if bytes.len() < used {
        return None;
    }
    Some(TileRead {
        layout,
        list,
        count,
        used,
    })
}

// The colour at that place, if it is named, and the place after it. None where it is not all
// there.
#[inline(always)]
fn find_colour(format: Format, named: bool, bytes: &[u8], at: usize) -> Option<(Option<u32>, usize)>
    requires place { at ≤ length bytes.now }
    requires low { at ≤ 8 }
    ensures { MatchOption result (optional named (tile_colour format) (drop at bytes.now) ≡ More)
        (λ found. (optional named (tile_colour format) (drop at bytes.now) ≡ Got found.0
        (drop found.1 bytes.now)) × (at ≤ found.1) × (found.1 ≤ at + 4)
        × (found.1 ≤ length bytes.now)) }
{
    if !named {
        return Some((None, at));
    }
    let size = format.size();
    if bytes.len() < at + size {
        return None;
    }
    Some((Some(format.take(&bytes[at..at + size])), at + size))
}

// The number of subrectangles at that place, if there are any, and the place after it.
#[inline(always)]
fn find_count(any: bool, bytes: &[u8], at: usize) -> Option<(usize, usize)>
    requires place { at ≤ length bytes.now }
    requires low { at ≤ 12 }
    ensures { MatchOption result ((any ≡ true) × (length bytes.now ≡ at))
        (λ found. IsCount any at bytes.now found.0 found.1 × (found.0 ≤ 255) × (found.1 ≤ at + 1)
        × (at ≤ found.1)) }
{
    if !any {
        return Some((0, at));
    }
    if bytes.len() <= at {
        return None;
    }
    Some((usize::from(bytes[at]), at + 1))
}

// Whether all subrectangles of a tile lie in it.
#[inline(always)]
fn fits(format: Format, width: u16, height: u16, read: TileRead, bytes: &[u8]) -> bool
    requires { LiesIn format width height read bytes.now }
    ensures { result ≡ are_inside width height
        (places_of (tile_of_read format width height read bytes.now)) }
{
    match read.layout {
        TileLayout::Raw => true,
        TileLayout::Plain { .. } => are_places_inside(
            width,
            height,
            0,
            read.count,
            &bytes[read.list..],
        ),
        TileLayout::Colored { .. } => {
            are_places_inside(
                width,
                height,
                format.size(),
                read.count,
                &bytes[read.list..],
            )
        }
    }
}

// Whether `count` places lie in a tile, each after `skip` bytes of a pixel. It looks at all of
// them, so that the compiler can take several at once; it is inlined, where `skip` may be known.
#[inline(always)]
fn are_places_inside(width: u16, height: u16, skip: usize, count: usize, list: &[u8]) -> bool
    requires all { count * (skip + 2) ≤ length list.now }
    requires pixel { skip ≤ 4 }
    ensures { result ≡ are_inside width height (places_from skip count list.now) }
{
    let mut inside = true;
    for i in 0..count {
        let at = i * (skip + 2) + skip;
        inside &= is_inside(width, height, place_of(&list[at..at + 2]));
    }
    inside
}

// Whether a place lies in a tile.
#[inline(always)]
fn is_inside(width: u16, height: u16, place: Rect) -> bool
    requires { (place.x ≤ 15) × (place.y ≤ 15) × (place.w ≤ 16) × (place.h ≤ 16) }
    ensures { result ≡ is_on_screen width height place }
{
    place.x + place.w <= width && place.y + place.h <= height
}

/// The place that two bytes are: x and y in one, and width and height less one in the other.
pub fn place_of(bytes: &[u8]) -> Rect
    requires { length bytes.now ≡ 2 }
    ensures value { result ≡ place_of bytes.now }
    ensures small { (result.x ≤ 15) × (result.y ≤ 15) × (result.w ≤ 16) × (result.h ≤ 16) }
{
    let (position, size) = (u16::from(bytes[0]), u16::from(bytes[1]));
    Rect {
        x: position / 16,
        y: position % 16,
        w: size / 16 + 1,
        h: size % 16 + 1,
    }
}
