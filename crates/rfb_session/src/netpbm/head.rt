//! The head of a pixmap: what comes before its pixels.

ghost use Rattle.std.specs.Prelude.{◌≡◌, ◌≤◌, List, ℕ, MatchOption, MatchResult};
ghost use Rattle.rfb_session.specs.netpbm.Head.{BlankNext, HasHeadFlaw, HasLateFlaw, IsHead};
ghost use Rattle.rfb_session.specs.netpbm.Head.{MagicNext, MaximumNext, NoMaximumNext, NoSideNext};
ghost use Rattle.rfb_session.specs.netpbm.Head.{SideNext, maximum_of};
ghost use Rattle.rfb_session.specs.netpbm.Number.{AreDigits, value_of};
ghost use Rattle.rfb_session.specs.netpbm.Side.{IsSide};

use crate::netpbm::fault::Flaw;
use crate::netpbm::number::{is_blank, next_number, number_of};

/// What a component has.
#[derive(Clone, Copy)]
pub enum Sample {
    /// One byte; the largest component is 255.
    Byte,
    /// Two bytes, the most significant first; it is 65,535.
    Word,
}

/// What a head says.
#[derive(Clone, Copy)]
pub struct Head {
    pub width: u16,
    pub height: u16,
    pub sample: Sample,
}

// The longest side of a picture.
const MAX_SIDE: u32 = 4096;

/// The head that bytes begin with, and what follows; or the first thing that is wrong with it.
pub fn read_head(bytes: &[u8]) -> Result<(Head, &[u8]), Flaw>
    ensures { MatchResult result
        (λ p. IsHead bytes.now p.0.width p.0.height p.0.sample p.1.now)
        (HasHeadFlaw bytes.now) }
{
    let Some(rest) = after_magic(bytes) else {
        return Err(Flaw::NoPixmap);
    };
    let (width, rest) = next_side(rest)?;
    let (height, rest) = next_side(rest)?;
    let (sample, places) = next_sample(rest)?;
    let head = Head {
        width,
        height,
        sample,
    };
    Ok((head, places))
}

// What follows `P6`. A digit would make another word of it.
fn after_magic(bytes: &[u8]) -> Option<&[u8]>
    ensures { MatchOption result ((rest : List ℕ) → ¬ (MagicNext bytes.now rest))
        (λ rest. MagicNext bytes.now rest.now) }
{
    match bytes {
        [b'P', b'6', digit, ..] if digit.is_ascii_digit() => None,
        [b'P', b'6', rest @ ..] => Some(rest),
        _ => None,
    }
}

// A side, and what follows.
fn next_side(bytes: &[u8]) -> Result<(u16, &[u8]), Flaw>
    ensures { MatchResult result (λ p. SideNext bytes.now p.0 p.1.now) (NoSideNext bytes.now) }
{
    let (digits, rest) = next_number(bytes).ok_or(Flaw::NoNumber)?;
    let side = side_of(digits).ok_or(Flaw::BadSide)?;
    Ok((side, rest))
}

// The side that digits write.
fn side_of(digits: &[u8]) -> Option<u16>
    requires { AreDigits digits.now }
    ensures { MatchOption result (¬ (IsSide (value_of digits.now)))
        (λ side. (side ≡ value_of digits.now) × IsSide side) }
{
    let number = number_of(digits);
    if number == 0 || number > MAX_SIDE {
        return None;
    }
    u16::try_from(number).ok()
}

// What a component has, by the largest one, and what follows the blank after that.
fn next_sample(bytes: &[u8]) -> Result<(Sample, &[u8]), Flaw>
    ensures { MatchResult result
        (λ p. (rest : List ℕ) × MaximumNext bytes.now p.0 rest × BlankNext rest p.1.now)
        (HasLateFlaw bytes.now) }
{
    let (sample, rest) = next_maximum(bytes)?;
    let places = after_blank(rest).ok_or(Flaw::NoBlank)?;
    Ok((sample, places))
}

// The largest component, and what follows.
fn next_maximum(bytes: &[u8]) -> Result<(Sample, &[u8]), Flaw>
    ensures { MatchResult result
        (λ p. MaximumNext bytes.now p.0 p.1.now) (NoMaximumNext bytes.now) }
{
    let (digits, rest) = next_number(bytes).ok_or(Flaw::NoNumber)?;
    let sample = sample_of(digits).ok_or(Flaw::BadMaximum)?;
    Ok((sample, rest))
}

// What a component has, by the largest one, that digits write.
fn sample_of(digits: &[u8]) -> Option<Sample>
    requires { AreDigits digits.now }
    ensures { MatchOption result
        ((sample : Sample) → ¬ (maximum_of sample ≡ value_of digits.now))
        (λ sample. maximum_of sample ≡ value_of digits.now) }
{
    match number_of(digits) {
        255 => Some(Sample::Byte),
        65_535 => Some(Sample::Word),
        _ => None,
    }
}

// What follows a blank.
fn after_blank(bytes: &[u8]) -> Option<&[u8]>
    ensures { MatchOption result ((rest : List ℕ) → ¬ (BlankNext bytes.now rest))
        (λ rest. BlankNext bytes.now rest.now) }
{
    match bytes {
        [blank, rest @ ..] if is_blank(*blank) => Some(rest),
        _ => None,
    }
}
