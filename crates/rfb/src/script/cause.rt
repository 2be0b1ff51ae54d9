//! Why a line of a script is bad, for a person.

pub mod form;
mod hub_cause;
pub mod kind;
pub mod reason;

use crate::script::cause::form::{OF_SCRIPT, OF_SLOT, form_of};
use crate::script::cause::kind::why_not_form;
use crate::script::cause::reason::Reason;
use crate::script::keyword::{HUB, SCREEN};
use crate::script::parting::{lines_in, parts_words};
use arrayvec::ArrayVec;
pub use hub_cause::tell_bad_hub_line;
use std::io::Write;

// Room for one word more than a line may have.
const WORDS: usize = 9;

/// Which word of a line its keyword is, where nothing is before it.
pub const FIRST: &str = "first";

// What is wrong with lines, where nothing of the line itself is told.
const SPACES: &str = " has a space at an end, or two in a row: one space parts two words";

const RETURN: &str = " has a carriage return: a newline alone ends a line";

const TAB: &str = " has a tab: one space parts two words";

/// What is wrong with the line after the last one, where none says how large the screen is.
pub const NO_SCREEN: &str = ": the lines end before it, and none says `screen W H`";

/// What is wrong with a line that says so and is not the first, or with another that is.
pub const LATE_SCREEN: &str = ": `screen W H` stands first, and once";

const LATE_VIEWER: &str = ": `viewer F E..` stands second, and once";

const HUB_ALONE: &str = ": `hub W H`, each side 1 to 4096, stands first, with `rfb script`";

/// Says why the line with this number, counted from 1, is bad.
pub fn tell_bad_line<N: Write>(text: &[u8], number: u64, notes: &mut N) {
    let mut is_first = true;
    for (at, line) in (1..u64::MAX).zip(lines_in(text)) {
        if at == number {
            tell_reason(number, why_bad(line, is_first), notes);
            return;
        }
        if !line.is_empty() {
            is_first = false;
        }
    }
}

// Says it of the line with this number.
fn tell_reason<N: Write>(number: u64, reason: Reason<'_>, notes: &mut N) {
    let _ = writeln!(notes, "rfb: line {number} of the script{reason}");
}

// Why a line is bad. It is the first one or not, empty ones aside.
fn why_bad(line: &[u8], is_first: bool) -> Reason<'_> {
    if line.is_empty() {
        return Reason::Said(NO_SCREEN);
    }
    match why_not_words(line) {
        Some(reason) => reason,
        None => why_no_line(line, is_first),
    }
}

/// Which byte may not be in a line, or that its spaces are wrong.
pub fn why_not_words(line: &[u8]) -> Option<Reason<'_>> {
    for byte in line {
        if !is_of_word(*byte) {
            return Some(why_not_byte(*byte));
        }
    }
    for word in line.split(parts_words) {
        if word.is_empty() {
            return Some(Reason::Said(SPACES));
        }
    }
    None
}

// Whether a byte may be in a line.
fn is_of_word(byte: u8) -> bool {
    (b' '..=b'~').contains(&byte)
}

// Why it may not.
fn why_not_byte<'a>(byte: u8) -> Reason<'a> {
    match byte {
        b'\r' => Reason::Said(RETURN),
        b'\t' => Reason::Said(TAB),
        other => Reason::Byte(other),
    }
}

// What is wrong with the words of a line.
fn why_no_line(line: &[u8], is_first: bool) -> Reason<'_> {
    let words = first_words(line);
    let Some((keyword, rest)) = words.as_slice().split_first() else {
        return Reason::Said(NO_SCREEN);
    };
    if *keyword == HUB {
        return Reason::Said(HUB_ALONE);
    }
    let Some(form) = form_of(keyword, OF_SCRIPT).or(form_of(keyword, OF_SLOT)) else {
        return Reason::Keyword(keyword);
    };
    if is_first != (*keyword == SCREEN) {
        return Reason::Said(LATE_SCREEN);
    }
    match why_not_form(rest, form, FIRST) {
        Some(reason) => reason,
        None => Reason::Said(LATE_VIEWER),
    }
}

/// The words of a line, as far as there is room.
pub fn first_words(line: &[u8]) -> ArrayVec<&[u8], WORDS> {
    let mut words = ArrayVec::new();
    for word in line.split(parts_words) {
        if words.try_push(word).is_err() {
            break;
        }
    }
    words
}
