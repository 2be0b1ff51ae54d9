//! What was given to the words of a command: whether one is there, a text, a format, encodings, a
//! number.

ghost use Rattle.std.specs.Prelude.{◌≡◌, ◌≤◌, ◌<◌, false, true, None, IfSome, List, MatchResult};
ghost use Rattle.clap.specs.Words.{first_of, found_of, rows_of};
ghost use Rattle.rfb_pixel.specs.Format.{PixelFormat};
ghost use Rattle.rfb_wire.specs.declared.encoding.Encoding.{Encoding as AnEncoding};
ghost use Rattle.rfb.specs.command.Values.{GivesEncodings, GivesWants};
ghost use Rattle.rfb.specs.command.Values.{HasBadEncodings, HasBadWants};
ghost use Rattle.rfb.specs.command.Values.{GivesFormat, GivesNumber, GivesOr, HasBadFormat};
ghost use Rattle.rfb.specs.command.Values.{HasNoWords, HasWords, IsAbsent, IsFlagged, IsThere};
ghost use Rattle.rfb.specs.command.Values.{MayGiveNumber, NamesWord};
ghost use Rattle.rfb_session.specs.language.Words.{AreEncodings, IsFormatWord, parts_of};

use crate::options::BadValue;
use crate::script::Wants;
use arrayvec::ArrayVec;
use clap::ArgMatches;
use rfb_pixel::Format;
use rfb_session::language::{read_format, read_list};
use rfb_wire::Encoding;

/// Whether a word that may be given is.
pub fn is_given(given: &ArgMatches<'_>, name: &str) -> bool
    ensures { IsFlagged name.now (rows_of (found_of given.now)) result }
{
    given.get_flag(name)
}

/// Whether one is.
pub fn is_there(given: &ArgMatches<'_>, name: &str) -> bool
    ensures there { result ≡ true → IsThere name.now (rows_of (found_of given.now)) }
    ensures absent { result ≡ false → IsAbsent name.now (rows_of (found_of given.now)) }
{
    word_in(given, name).is_some()
}

/// Whether a word that may be given several times is.
pub fn are_there(given: &ArgMatches<'_>, name: &str) -> bool
    ensures there { result ≡ true → HasWords name.now (rows_of (found_of given.now)) }
    ensures absent { result ≡ false → HasNoWords name.now (rows_of (found_of given.now)) }
{
    given.get_strs(name).is_some()
}

/// The word that is given to an option, if one is.
pub fn word_in<'a>(given: &ArgMatches<'a>, name: &str) -> Option<&'a str>
    ensures absent { result ≡ None → IsAbsent name.now (rows_of (found_of given.now)) }
    ensures given { IfSome result (λ word.
        first_of name.now (rows_of (found_of given.now)) ≡ Some word.now) }
{
    given.get_str(name)
}

/// The word that is given to an option, or else another.
pub fn word_or<'a>(given: &ArgMatches<'a>, name: &str, otherwise: &'a str) -> &'a str
    ensures { NamesWord otherwise.now (first_of name.now (rows_of (found_of given.now)))
        result.now }
{
    match given.get_str(name) {
        Some(word) => word,
        None => otherwise,
    }
}

/// The format that is given, or else rgb888.
pub fn format_in<'a>(given: &ArgMatches<'a>) -> Result<Format, BadValue<'a>>
    ensures { MatchResult result (GivesFormat (rows_of (found_of given.now)))
        (λ _. HasBadFormat (rows_of (found_of given.now))) }
{
    match given.get_str("format") {
        Some(word) => format_named(word),
        None => Ok(Format::rgb888()),
    }
}

// The format of this name.
fn format_named<'a>(word: &'a str) -> Result<Format, BadValue<'a>>
    ensures { MatchResult result (IsFormatWord word.now)
        (λ _. (format : PixelFormat) → ¬ (IsFormatWord word.now format)) }
{
    match read_format(word.as_bytes()) {
        Some(format) => Ok(format),
        None => Err(BadValue::Format(word)),
    }
}

/// The encodings that are given, or else others.
pub fn encodings_in<'a>(
    given: &ArgMatches<'a>,
    otherwise: ArrayVec<Encoding, 4>,
) -> Result<ArrayVec<Encoding, 4>, BadValue<'a>>
    ensures { MatchResult result
        (λ encodings. GivesEncodings otherwise.items (rows_of (found_of given.now))
        encodings.items)
        (λ _. HasBadEncodings (rows_of (found_of given.now))) }
{
    match given.get_str("encodings") {
        Some(list) => encodings_named(list),
        None => Ok(otherwise),
    }
}

// The encodings of a list of names.
fn encodings_named<'a>(list: &'a str) -> Result<ArrayVec<Encoding, 4>, BadValue<'a>>
    ensures { MatchResult result
        (λ encodings. AreEncodings (parts_of list.now) encodings.items)
        (λ _. (encodings : List AnEncoding) → ¬ (AreEncodings (parts_of list.now) encodings)) }
{
    match read_list(list.as_bytes()) {
        Some(encodings) => Ok(encodings),
        None => Err(BadValue::Encodings),
    }
}

/// What a server is asked for: in other encodings if none are given. The format is judged first.
pub fn wants_in<'a>(
    given: &ArgMatches<'a>,
    otherwise: ArrayVec<Encoding, 4>,
) -> Result<Wants, BadValue<'a>>
    ensures { MatchResult result (GivesWants otherwise.items (rows_of (found_of given.now)))
        (λ _. HasBadWants (rows_of (found_of given.now))) }
{
    let format = format_in(given)?;
    let encodings = encodings_in(given, otherwise)?;
    Ok(Wants { format, encodings })
}

/// The number that is given. By then it is one of these.
pub fn number_in(given: &ArgMatches<'_>, name: &str, least: u16, most: u16) -> u16
    requires { least ≤ most }
    ensures number { GivesNumber name.now least most (rows_of (found_of given.now)) result }
    ensures range { (least ≤ result) × (result ≤ most) }
{
    match given.get_one::<u32>(name) {
        Some(number) => within(number, least, most),
        None => least,
    }
}

/// The number that is given, or else another. By then it is at most `most`.
pub fn number_or(given: &ArgMatches<'_>, name: &str, most: u16, otherwise: u16) -> u16
    requires { (1 ≤ otherwise) × (otherwise ≤ most) }
    ensures number { GivesOr name.now most otherwise (rows_of (found_of given.now)) result }
    ensures range { (1 ≤ result) × (result ≤ most) }
{
    within(count_or(given, name, u32::from(otherwise)), 1, most)
}

/// A number, or the nearest in a range.
pub fn within(number: u32, least: u16, most: u16) -> u16
    requires { least ≤ most }
    ensures same { least ≤ number → number ≤ most → result ≡ number }
    ensures below { number < least → result ≡ least }
    ensures above { most < number → result ≡ most }
    ensures range { (least ≤ result) × (result ≤ most) }
{
    if number < u32::from(least) {
        return least;
    }
    if number > u32::from(most) {
        return most;
    }
    number as u16
}

/// The number that is asked for, if one is given.
pub fn number_given(given: &ArgMatches<'_>, name: &str) -> Option<u32>
    ensures number { MayGiveNumber name.now 1 4294967295 (rows_of (found_of given.now)) result }
    ensures some { IfSome result (λ count. 1 ≤ count) }
{
    match given.get_one::<u32>(name) {
        Some(number) => Some(at_least_one(number)),
        None => None,
    }
}

/// The number that is given, or else another.
pub fn count_or(given: &ArgMatches<'_>, name: &str, otherwise: u32) -> u32
    requires { 1 ≤ otherwise }
    ensures number { GivesOr name.now 4294967295 otherwise (rows_of (found_of given.now)) result }
    ensures some { 1 ≤ result }
{
    match number_given(given, name) {
        Some(number) => number,
        None => otherwise,
    }
}

// A number, or 1 in place of 0.
fn at_least_one(number: u32) -> u32
    ensures same { 1 ≤ number → result ≡ number }
    ensures some { 1 ≤ result }
{
    if number == 0 { 1 } else { number }
}
