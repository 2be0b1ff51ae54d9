//! The pieces of a text: the words of a line, and the entries of a list.

ghost use Rattle.std.specs.Prelude.{◌≡◌, ◌==◌, ◌<◌, MatchOption, length};
ghost use Rattle.std.specs.List.{slice_split};
ghost use Rattle.rfb_session.specs.language.Words.{words_of, texts};

use arrayvec::ArrayVec;

/// No text has more pieces. A line of a hub's script may have that many words.
pub const PIECES_MAX: usize = 8;

/// The pieces of a text between bytes that are `separator`, if they are not too many.
pub fn pieces<'a>(text: &'a [u8], separator: u8) -> Option<ArrayVec<&'a [u8], PIECES_MAX>>
    ensures { MatchOption result (8 < length (slice_split (λ byte. byte == separator) text.now))
        (λ pieces. texts pieces.items ≡ slice_split (λ byte. byte == separator) text.now) }
{
    let mut pieces = ArrayVec::new();
    for piece in text.split(move |byte| *byte == separator) {
        pieces.try_push(piece).ok()?;
    }
    Some(pieces)
}

/// The words of a line, if they are not too many.
pub fn parted<'a>(line: &'a [u8]) -> Option<ArrayVec<&'a [u8], PIECES_MAX>>
    ensures { MatchOption result (8 < length (words_of line.now))
        (λ words. texts words.items ≡ words_of line.now) }
{
    pieces(line, b' ')
}
