//! What is wrong with a line, as a value.

use crate::explain::Escaped;
use crate::script::cause::kind::{Kind, refusal_of};
use std::fmt;

/// Why a line is bad. It prints as what follows the line's number.
#[derive(Clone, Copy)]
pub enum Reason<'a> {
    /// What is said of it says all.
    Said(&'static str),
    /// It has a byte that is no printable ASCII character.
    Byte(u8),
    /// No line begins with this word.
    Keyword(&'a [u8]),
    /// No line of one slot does.
    SlotKeyword(&'a [u8]),
    /// This word is not what it is to be.
    Word(&'a [u8], Kind),
    /// More than so many words follow its keyword, which is at this place.
    TooMany(usize, &'static str),
    /// Only the first number of words follows it, and the second is due.
    TooFew(usize, usize, &'static str),
    /// A rectangle leaves the screen, whose width and height these are.
    Outside(u16, u16),
    /// Only the first number of bytes of pixels follows it, and the second is due.
    FewPixels(u64, u64),
    /// As many bytes of pixels follow it, and then no newline.
    ManyPixels(u64),
}

impl fmt::Display for Reason<'_> {
    fn fmt<F: fmt::Write>(&self, f: &mut fmt::Formatter<F>) -> fmt::Result {
        match *self {
            Reason::Said(text) => f.write_str(text),
            Reason::Byte(byte) => write!(
                f,
                " has a byte that is no printable ASCII character, 0x{byte:02x}"
            ),
            Reason::Keyword(word) => {
                write!(f, " begins with `{}`, as no line there does", Escaped(word))
            }
            Reason::SlotKeyword(word) => {
                write!(f, ": `{}` is no line of one slot", Escaped(word))
            }
            Reason::Word(word, kind) => { write!(f, ": `{}` {}", Escaped(word), refusal_of(kind)) }
            Reason::TooMany(most, place) => {
                write!(f, " has too many words after its {place}: at most {most}")
            }
            Reason::TooFew(count, least, place) => {
                write!(
                    f,
                    " has too few words after its {place}: {count} of {least}"
                )
            }
            Reason::Outside(width, height) => write!(
                f,
                " has a rectangle that leaves the screen, {width} by {height}"
            ),
            Reason::FewPixels(count, due) => {
                write!(f, ": {count} bytes of pixels follow it, and {due} are due")
            }
            Reason::ManyPixels(due) => {
                write!(f, ": no newline follows its {due} bytes of pixels")
            }
        }
    }
}
