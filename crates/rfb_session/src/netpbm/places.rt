//! The places of a pixmap, piece by piece.

ghost use Rattle.std.specs.Prelude.{◌≡◌, ◌≤◌, ◌*◌, ◌++◌, List, IfOk, IfErr, IfSome, OnOk, vec_len};
ghost use Rattle.std.specs.Io.KnownBytes.{IsAtEnd};
ghost use Rattle.rfb_pixel.specs.declared.colour.Colour.{Colour};
ghost use Rattle.rfb_session.specs.netpbm.Places.{ArePlaces, colours_of, colours_of_bytes};
ghost use Rattle.rfb_session.specs.netpbm.Places.{colours_of_words, size_of, word_of};
ghost use Rattle.rfb_session.specs.netpbm.PlacesRead.{FailsEnd, FailsPiece, FailsToFill};
ghost use Rattle.rfb_session.specs.netpbm.PlacesRead.{ReadPlaces};

use crate::netpbm::fault::{Flaw, PixmapError};
use crate::netpbm::head::Sample;
use crate::netpbm::input::read_up_to;
use rfb_pixel::Colour;
use std::alloc::{AllocError, Global};
use std::io::Read;

// How many places are read at once, at most.
const PIECE: usize = 1024;

// The bytes of that many.
const PIECE_BYTES: usize = 6144;

/// Reads `count` places, which have to be all that `input` has.
pub fn read_places<R: Read>(
    alloc: Global,
    input: &mut R,
    sample: Sample,
    count: usize,
) -> Result<Vec<Colour>, PixmapError>
    requires few { count ≤ 16777216 }
    ensures count { IfOk result (λ places. vec_len places ≡ count) }
    ensures read { IfOk result (λ places. IfSome (R.remaining input.old) (λ bytes.
        ArePlaces sample count bytes places.items)) }
    ensures refused { IfErr result (FailsToFill sample count (R.remaining input.old)) }
{
    let mut places = Vec::with_capacity(alloc, count)?;
    let mut left = count;
    while left > 0 {
        let wanted = PIECE.min(left);
        read_piece(input, sample, wanted, &mut places)?;
        left -= wanted;
    }
    judge_end(input)?;
    Ok(places)
}

// Reads `count` places more.
fn read_piece<R: Read>(
    input: &mut R,
    sample: Sample,
    wanted: usize,
    places: &mut Vec<Colour>,
) -> Result<(), PixmapError>
    requires few { wanted ≤ 1024 }
    ensures more { OnOk result ((more : List Colour) × (places.new.items ≡ places.old.items ++ more)
        × ReadPlaces sample wanted (R.remaining input.old) (R.remaining input.new) more) }
    ensures refused { IfErr result
        (FailsPiece sample wanted (R.remaining input.old) (R.remaining input.new)) }
{
    let mut piece = [0; PIECE_BYTES];
    let len = wanted * size_of(sample);
    let count = read_up_to(input, &mut piece[..len])?;
    if count < len {
        return Err(PixmapError::Flaw(Flaw::TooShort));
    }
    push_places(sample, &piece[..len], places)?;
    Ok(())
}

// Reads on, to see that the input has ended.
fn judge_end<R: Read>(input: &mut R) -> Result<(), PixmapError>
    ensures done { OnOk result (IsAtEnd (R.remaining input.old)) }
    ensures refused { IfErr result (FailsEnd (R.remaining input.old)) }
{
    let mut byte = [0];
    if read_up_to(input, &mut byte)? > 0 {
        return Err(PixmapError::Flaw(Flaw::TooLong));
    }
    Ok(())
}

// How many bytes a place has.
fn size_of(sample: Sample) -> usize
    ensures value { result ≡ size_of sample }
    ensures few { result ≤ 6 }
{
    match sample {
        Sample::Byte => 3,
        Sample::Word => 6,
    }
}

// Puts the colours of some places after the others.
fn push_places(sample: Sample, bytes: &[u8], places: &mut Vec<Colour>) -> Result<(), AllocError>
    ensures { OnOk result (places.new.items ≡ places.old.items ++ colours_of sample bytes.now) }
{
    match sample {
        Sample::Byte => push_bytes(bytes, places),
        Sample::Word => push_words(bytes, places),
    }
}

// The same with a byte a component.
fn push_bytes(bytes: &[u8], places: &mut Vec<Colour>) -> Result<(), AllocError>
    ensures { OnOk result (places.new.items ≡ places.old.items ++ colours_of_bytes bytes.now) }
{
    let mut rest = bytes;
    while let [r, g, b, later @ ..] = rest {
        places.push(Colour::of_bytes(*r, *g, *b))?;
        rest = later;
    }
    Ok(())
}

// The same with two bytes a component.
fn push_words(bytes: &[u8], places: &mut Vec<Colour>) -> Result<(), AllocError>
    ensures { OnOk result (places.new.items ≡ places.old.items ++ colours_of_words bytes.now) }
{
    let mut rest = bytes;
    while let [r, r0, g, g0, b, b0, later @ ..] = rest {
        places.push(Colour {
            r: word_of(*r, *r0),
            g: word_of(*g, *g0),
            b: word_of(*b, *b0),
        })?;
        rest = later;
    }
    Ok(())
}

// A number of two bytes.
fn word_of(high: u8, low: u8) -> u16
    ensures { result ≡ word_of high low }
{
    256 * u16::from(high) + u16::from(low)
}
