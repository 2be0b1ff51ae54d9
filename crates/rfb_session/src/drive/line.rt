//! Reading one line of a rig, by itself.

ghost use Rattle.std.specs.Prelude.{◌≡◌, ℕ, List, Option, MatchOption, MatchResult, option_map};
ghost use Rattle.std.specs.Str.{IsUtf8, chars};
ghost use Rattle.rfb_picture.specs.declared.rect.Rect.{Rect};
ghost use Rattle.rfb_session.specs.declared.drive.words.Likeness.{Likeness};
ghost use Rattle.rfb_session.specs.drive.DriveLines.{ArgueNothing, ArgueOf, IsExpected, IsSaved};
ghost use Rattle.rfb_session.specs.drive.DriveLines.{IsText, SayNothing, SayOf, Says, SaysNone};
ghost use Rattle.rfb_session.specs.drive.DriveLines.{after_word, are_typed, first_word};
ghost use Rattle.rfb_session.specs.language.Words.{texts};

use crate::drive::arguments::{
    read_key, read_place, read_press, read_presses, read_seconds, read_wheel,
};
use crate::drive::drive_line::{BadLine, DriveLine};
use crate::drive::keyword::{Keyword, read_keyword};
use crate::drive::pictures::{read_digits, read_file, read_likeness, read_only_file, read_part};
use crate::drive::typing::key_of_char;
use crate::drive::words::Likeness;
use crate::language::parted;
use rfb_picture::Rect;
use std::str;

const SPACE: u8 = b' ';

/// What a line without its newline says, or why it says nothing.
pub fn read_drive_line<'a>(line: &'a [u8]) -> Result<DriveLine<'a>, BadLine>
    ensures { MatchResult result (Says line.now) (SaysNone line.now) }
{
    let (word, rest) = cut(line);
    let Some(keyword) = read_keyword(word) else {
        return Err(BadLine::Unknown);
    };
    match read_arguments(keyword, rest) {
        Some(said) => Ok(said),
        None => Err(BadLine::Wants(keyword)),
    }
}

// The first word of a line, and what comes after it, if a space does.
fn cut<'a>(line: &'a [u8]) -> (&'a [u8], Option<&'a [u8]>)
    ensures word { result.0.now ≡ first_word line.now }
    ensures rest { option_map (λ rest. rest.now) result.1 ≡ after_word line.now }
{
    for at in 0..line.len() {
        if line[at] == SPACE {
            return (&line[..at], Some(&line[at + 1..]));
        }
    }
    (line, None)
}

// What comes after a keyword.
fn read_arguments<'a>(keyword: Keyword, rest: Option<&'a [u8]>) -> Option<DriveLine<'a>>
    ensures { let after = option_map (λ rest. rest.now) rest.entry in
        MatchOption result (ArgueNothing keyword after) (ArgueOf keyword after) }
{
    let Some(rest) = rest else {
        return read_words(keyword, &[]);
    };
    if matches!(keyword, Keyword::Text) {
        return Some(DriveLine::Text(read_text(rest)?));
    }
    read_words(keyword, parted(rest)?.as_slice())
}

// What the words after a keyword say. A text is none of them.
fn read_words<'a>(keyword: Keyword, words: &[&'a [u8]]) -> Option<DriveLine<'a>>
    ensures { MatchOption result (SayNothing keyword (texts words.now))
        (SayOf keyword (texts words.now)) }
{
    match keyword {
        Keyword::Key => Some(DriveLine::Key(read_presses(words)?)),
        Keyword::Down => Some(DriveLine::Down(read_key(words)?)),
        Keyword::Up => Some(DriveLine::Up(read_key(words)?)),
        Keyword::Text => None,
        Keyword::Move => Some(DriveLine::Move(read_place(words)?)),
        Keyword::Click => Some(DriveLine::Click(read_press(words)?)),
        Keyword::Double => Some(DriveLine::Double(read_press(words)?)),
        Keyword::Drag => Some(DriveLine::Drag(read_place(words)?)),
        Keyword::Wheel => {
            let (way, n) = read_wheel(words)?;
            Some(DriveLine::Wheel(way, n))
        }
        Keyword::Paste => Some(DriveLine::Paste(read_digits(words)?)),
        Keyword::PasteFile => Some(DriveLine::PasteFile(read_only_file(words)?)),
        Keyword::Save => {
            let (name, part) = read_saved(words)?;
            Some(DriveLine::Save(name, part))
        }
        Keyword::Expect => {
            let (name, likeness) = read_expected(words)?;
            Some(DriveLine::Expect(name, likeness))
        }
        Keyword::Still => Some(DriveLine::Still(read_seconds(words)?)),
        Keyword::Wait => Some(DriveLine::Wait(read_seconds(words)?)),
        Keyword::UntilChange => Some(DriveLine::UntilChange(read_part(words)?)),
        Keyword::Timeout => Some(DriveLine::Timeout(read_seconds(words)?)),
    }
}

// A file, and a part of the screen or nothing.
fn read_saved<'a>(words: &[&'a [u8]]) -> Option<(&'a [u8], Option<Rect>)>
    ensures { MatchOption result
        ((name : List ℕ) (part : Option Rect) → ¬ (IsSaved (texts words.now) name part))
        (λ saved. IsSaved (texts words.now) saved.0.now saved.1) }
{
    let (word, rest) = words.split_first()?;
    Some((read_file(word)?, read_part(rest)?))
}

// A file, and where and how near its picture is to be.
fn read_expected<'a>(words: &[&'a [u8]]) -> Option<(&'a [u8], Likeness)>
    ensures { MatchOption result
        ((name : List ℕ) (l : Likeness) → ¬ (IsExpected (texts words.now) name l))
        (λ expected. IsExpected (texts words.now) expected.0.now expected.1) }
{
    let (word, rest) = words.split_first()?;
    Some((read_file(word)?, read_likeness(rest)?))
}

// A text that a keyboard types.
fn read_text<'a>(rest: &'a [u8]) -> Option<&'a str>
    ensures { MatchOption result ((text : List ℕ) → ¬ (IsText (Some rest.now) text))
        (λ text. IsText (Some rest.now) text.now) }
{
    let text = str::from_utf8(rest).ok()?;
    if !are_typed(text) {
        return None;
    }
    Some(text)
}

// Whether each character of a text has a key.
fn are_typed(text: &str) -> bool
    ensures { result ≡ are_typed (chars text.now) }
{
    for character in text.chars() {
        if key_of_char(character).is_none() {
            return false;
        }
    }
    true
}
