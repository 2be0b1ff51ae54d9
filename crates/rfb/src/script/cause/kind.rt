//! What a word of a line is to be.

use crate::script::arguments::{FULL, INCREMENTAL};
use crate::script::cause::form::Form;
use crate::script::cause::reason::Reason;
use crate::script::hub::{SHARED, SOLE};
use rfb_session::language::{
    read_colour, read_count, read_encoding, read_format, read_number, read_side, read_slot,
};
use rfb_session::owner::read_shift;

// The most hexadecimal digits of foreign bytes.
const HEX_MAX: usize = 128;

/// What a word is to be.
#[derive(Clone, Copy)]
pub enum Kind {
    /// A side of the screen.
    Side,
    /// A number of places.
    Number,
    /// A number of bytes.
    Count,
    Colour,
    Format,
    Encoding,
    /// How much of an area is requested.
    Request,
    /// A slot of a hub.
    Slot,
    /// Whether others may go on beside a viewer.
    Join,
    /// Foreign bytes.
    Hex,
    /// How far something moves.
    Shift,
    /// A viewer of a share.
    Seat,
}

/// Which of the words after a keyword is not what it is to be, or that there are too few or too
/// many. `place` is which word of its line the keyword is.
pub fn why_not_form<'a>(words: &[&'a [u8]], form: Form, place: &'static str) -> Option<Reason<'a>> {
    for (word, kind) in words.iter().zip(form.kinds) {
        if !is_of_kind(word, *kind) {
            return Some(Reason::Word(word, *kind));
        }
    }
    if words.len() > form.kinds.len() {
        return Some(Reason::TooMany(form.kinds.len(), place));
    }
    if words.len() < form.least {
        return Some(Reason::TooFew(words.len(), form.least, place));
    }
    None
}

// Whether a word is what it is to be.
fn is_of_kind(word: &[u8], kind: Kind) -> bool {
    match kind {
        Kind::Side => read_side(word).is_some(),
        Kind::Number => read_number(word).is_some(),
        Kind::Count => read_count(word).is_some(),
        Kind::Colour => read_colour(word).is_some(),
        Kind::Format => read_format(word).is_some(),
        Kind::Encoding => read_encoding(word).is_some(),
        Kind::Request => word == FULL || word == INCREMENTAL,
        Kind::Slot | Kind::Seat => read_slot(word).is_some(),
        Kind::Join => word == SHARED || word == SOLE,
        Kind::Hex => is_hex(word),
        Kind::Shift => read_shift(word).is_some(),
    }
}

// Whether a word is 1 to 64 bytes in hexadecimal digits.
fn is_hex(word: &[u8]) -> bool {
    !word.is_empty()
        && word.len() <= HEX_MAX
        && word.len() % 2 == 0
        && word.iter().all(u8::is_ascii_hexdigit)
}

/// What a word is not that is not of a kind.
pub fn refusal_of(kind: Kind) -> &'static str {
    match kind {
        Kind::Side => "is no number from 1 to 4096",
        Kind::Number => "is no number from 0 to 65535",
        Kind::Count => "is no number from 0 to 4294967295",
        Kind::Colour => "is no colour of six or twelve hexadecimal digits",
        Kind::Format => "is no format: rgb888, rgb565, bgr233 or rgb101010",
        Kind::Encoding => "is no encoding: raw, copyrect, rre or hextile",
        Kind::Request => "is neither `full` nor `inc`",
        Kind::Slot => "is no slot: one digit",
        Kind::Join => "is neither `shared` nor `sole`",
        Kind::Hex => "is no 1 to 64 bytes of two hexadecimal digits each",
        Kind::Shift => "is no number from -32767 to 32767",
        Kind::Seat => "is no seat from 0 to 7",
    }
}
