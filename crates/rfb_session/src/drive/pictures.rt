//! The words of lines about pictures and files, each kind by itself.

ghost use Rattle.std.specs.Prelude.{◌≡◌, ℕ, List, Option, MatchOption};
ghost use Rattle.rfb_picture.specs.declared.rect.Rect.{Rect};
ghost use Rattle.rfb_session.specs.declared.drive.words.Likeness.{Likeness};
ghost use Rattle.rfb_session.specs.declared.drive.words.Place.{Place};
ghost use Rattle.rfb_session.specs.drive.Arguments.{AreDigitsAlone, IsAfterAt, IsFile, IsFileAlone};
ghost use Rattle.rfb_session.specs.drive.Arguments.{IsLikeness, IsPart, IsWithin, are_byte_digits};
ghost use Rattle.rfb_session.specs.language.Words.{texts};

use crate::drive::arguments::read_at;
use crate::drive::words::{Likeness, Place};
use crate::language::{read_number, read_rect};
use rfb_picture::Rect;

const AT: &[u8] = b"at";

const WITHIN: &[u8] = b"within";

// The top left one.
const CORNER: Place = Place { x: 0, y: 0 };

/// A rectangle, or nothing.
pub fn read_part(words: &[&[u8]]) -> Option<Option<Rect>>
    ensures { MatchOption result ((part : Option Rect) → ¬ (IsPart (texts words.now) part))
        (IsPart (texts words.now)) }
{
    match words {
        [] => Some(None),
        [x, y, w, h] => Some(Some(read_rect(x, y, w, h)?)),
        _ => None,
    }
}

/// Where a picture is to be, in the top left corner where no place is named, and how far it may be
/// from what is shown.
pub fn read_likeness(words: &[&[u8]]) -> Option<Likeness>
    ensures { MatchOption result
        ((likeness : Likeness) → ¬ (IsLikeness (texts words.now) likeness))
        (IsLikeness (texts words.now)) }
{
    match words {
        [] => Some(Likeness {
            at: CORNER,
            within: 0,
        }),
        [word, n] => Some(Likeness {
            at: CORNER,
            within: read_within(word, n)?,
        }),
        [word, x, y] => Some(Likeness {
            at: read_after_at(word, x, y)?,
            within: 0,
        }),
        [word, x, y, other, n] => Some(Likeness {
            at: read_after_at(word, x, y)?,
            within: read_within(other, n)?,
        }),
        _ => None,
    }
}

// A number of 255, after its word.
fn read_within(word: &[u8], n: &[u8]) -> Option<u8>
    ensures { MatchOption result ((within : ℕ) → ¬ (IsWithin word.now n.now within))
        (IsWithin word.now n.now) }
{
    if word != WITHIN {
        return None;
    }
    u8::try_from(read_number(n)?).ok()
}

// A place, after its word.
fn read_after_at(word: &[u8], x: &[u8], y: &[u8]) -> Option<Place>
    ensures { MatchOption result ((place : Place) → ¬ (IsAfterAt word.now x.now y.now place))
        (IsAfterAt word.now x.now y.now) }
{
    if word != AT {
        return None;
    }
    read_at(x, y)
}

/// The digits of bytes, two for each.
pub fn read_digits<'a>(words: &[&'a [u8]]) -> Option<&'a [u8]>
    ensures { MatchOption result
        ((digits : List ℕ) → ¬ (AreDigitsAlone (texts words.now) digits))
        (λ digits. AreDigitsAlone (texts words.now) digits.now) }
{
    let [digits] = words else {
        return None;
    };
    if !are_digits(digits) {
        return None;
    }
    Some(digits)
}

// Whether a word is hexadecimal digits, two for each byte.
fn are_digits(word: &[u8]) -> bool
    ensures { result ≡ are_byte_digits word.now }
{
    for byte in word {
        if !char::from(*byte).is_digit(16) {
            return false;
        }
    }
    word.len() % 2 == 0
}

/// The name of a file, alone.
pub fn read_only_file<'a>(words: &[&'a [u8]]) -> Option<&'a [u8]>
    ensures { MatchOption result ((name : List ℕ) → ¬ (IsFileAlone (texts words.now) name))
        (λ name. IsFileAlone (texts words.now) name.now) }
{
    let [word] = words else {
        return None;
    };
    read_file(word)
}

/// The name of a file: any word but an empty one.
pub fn read_file<'a>(word: &'a [u8]) -> Option<&'a [u8]>
    ensures { MatchOption result ((name : List ℕ) → ¬ (IsFile word.now name))
        (λ name. IsFile word.now name.now) }
{
    if word.is_empty() {
        return None;
    }
    Some(word)
}
