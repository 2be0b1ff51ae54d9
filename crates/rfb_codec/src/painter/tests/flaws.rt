//! With which byte of a rectangle's data a fault comes, whatever slices they come in. The numbers
//! were counted by hand in the tables of RFC 6143, section 7.7.

ghost use Rattle.std.specs.Prelude.{◌≡◌};
ghost use Rattle.rfb_picture.specs.Grid.{Holds};

use super::*;

// The fault, and how many bytes came up to it and with it.
const fn at(used: usize, fault: PaintFault) -> Option<Flaw> {
    Some(Flaw { used, fault })
}

// What a painter finds wrong with data that come in slices of so many bytes, if it does.
fn flaw_in(
    painter: &mut Painter,
    picture: &mut Picture<Colour>,
    data: &[u8],
    size: usize,
) -> Option<Flaw>
    requires { Holds picture.old painter.old.rect }
{
    let mut used = 0usize;
    'slices: for _ in 0..data.len() + 1 {
        let end = data.len().min(used.saturating_add(size));
        match painter.take(&data[used..end], picture) {
            Ok(painted) => used += painted.used,
            Err(flaw) => {
                return Some(Flaw {
                    used: used + flaw.used,
                    fault: flaw.fault,
                });
            }
        }
    }
    None
}

// Whether that is so for slices of all sizes, over a row of two places at bgr233.
fn is_flawed(
    alloc: Global,
    encoding: Encoding,
    data: &[u8],
    flaw: Option<Flaw>,
) -> Result<bool, Fail> {
    let ground = row_of(2, RED);
    for size in 1..=data.len() {
        let mut picture = Picture::new(alloc, ground.width, ground.height, ground.colour)?;
        let mut painter = Painter::new(ground.rect, encoding, Format::bgr233());
        if !picture.holds(painter.rect()) {
            return Ok(false);
        }
        let found = flaw_in(&mut painter, &mut picture, data, size);
        drop(picture);
        if found != flaw {
            return Ok(false);
        }
    }
    Ok(true)
}

// RRE, section 7.7.3: 4 bytes of a number, 1 of the background, 9 of a subrectangle that lies
// inside, 9 of one that does not, and 3 more.
const RRE_OUTSIDE: [u8; 26] = [
    0, 0, 0, 3, 0, // U32 number-of-subrectangles, background-pixel-value
    0x07, 0, 0, 0, 0, 0, 1, 0, 1, // at x-position 0, width 1
    0x38, 0, 2, 0, 0, 0, 1, 0, 1, // at x-position 2
    0, 0, 0,
];

// CopyRect, section 7.7.2: U16 src-x-position and src-y-position, and 2 bytes more.
const COPY_OUTSIDE: [u8; 6] = [0, 1, 0, 0, 0, 0];

// Hextile, section 7.7.4. A tile without a background before it, and one that has both colour bits.
const NO_BACKGROUND: [u8; 3] = [0, 0, 0];

const BOTH_BITS: [u8; 4] = [2 + 4 + 16, 0, 0, 0];

// A mask, a background, a foreground, a number of subrectangles, and two of 2 bytes: the second is
// wider than the tile. Then 2 bytes.
const TILE_OUTSIDE: [u8; 10] = [2 + 4 + 8, 0, 0x07, 2, 0x00, 0x00, 0x10, 0x10, 0, 0];

#[test]
fn faults_of_data_have_their_byte(rt: HostRuntime) -> Result<(), Fail> {
    let alloc = rt.alloc();
    let outside = at(23, PaintFault::SubrectOutside);
    assert!(rt; is_flawed(alloc, Encoding::Rre, &RRE_OUTSIDE, outside)?);
    let source = at(4, PaintFault::SourceOutside);
    assert!(rt; is_flawed(alloc, Encoding::CopyRect, &COPY_OUTSIDE, source)?);
    let none = at(1, PaintFault::NoBackground);
    assert!(rt; is_flawed(alloc, Encoding::Hextile, &NO_BACKGROUND, none)?);
    let both = at(1, PaintFault::BothColourBits);
    assert!(rt; is_flawed(alloc, Encoding::Hextile, &BOTH_BITS, both)?);
    let tile = at(8, PaintFault::SubrectOutside);
    assert!(rt; is_flawed(alloc, Encoding::Hextile, &TILE_OUTSIDE, tile)?);
    Ok(())
}
