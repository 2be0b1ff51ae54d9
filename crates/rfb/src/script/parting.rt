//! A text's lines, and which bytes part a line into its words.

ghost use Rattle.std.specs.Prelude.{◌≡◌, ◌==◌, ◌≤◌, length};
ghost use Rattle.std.specs.Iterator.{YieldsFirstRef, item_count};
ghost use Rattle.rfb.specs.Script.{lines_left, lines_of};

use memchr::memchr;

/// The lines of a text that have not come yet, without their newlines.
#[derive(Drop)]
pub struct Lines<'a> {
    // What follows the newline of the latest; `None` after the last line.
    rest: Option<&'a [u8]>,
}

/// The lines of a text, parted by newlines. The last one is empty where the text ends in one. The
/// next newline is looked for in many bytes at once. There are at most 2^63 lines.
pub fn lines_in<'a>(text: &'a [u8]) -> Lines<'a>
    ensures lines { lines_left result.rest ≡ lines_of text.now }
    ensures few { length (lines_of text.now) ≤ 9223372036854775808 }
{
    prove!(text.len() <= 9223372036854775807);
    Lines { rest: Some(text) }
}

impl<'a> Iterator for Lines<'a> {
    type Item = &'a [u8];

    ghost next_gives = { YieldsFirstRef (λ lines. lines_left lines.rest) };

    ghost remaining = { item_count (λ lines. lines_left lines.rest) };

    fn next(&mut self) -> Option<&'a [u8]> {
        let text = self.rest?;
        match memchr(b'\n', text) {
            Some(end) => {
                self.rest = Some(&text[end + 1..]);
                Some(&text[..end])
            }
            None => {
                self.rest = None;
                Some(text)
            }
        }
    }
}

/// Whether a byte parts two words. It is a function of this crate, since no proof goes through one
/// of another that is passed on.
pub fn parts_words(byte: &u8) -> bool
    ensures { result ≡ (byte.now == 32) }
{
    *byte == b' '
}
