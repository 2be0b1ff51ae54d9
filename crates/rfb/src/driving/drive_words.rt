//! What `drive` is asked for, and its words.

ghost use Rattle.std.specs.Prelude.{◌≡◌, codes, option_map, MatchResult};
ghost use Rattle.clap.specs.Words.{first_of, found_of, rows_of};
ghost use Rattle.rfb.specs.command.DriveWords.{AreNamed, GivesDriveOptions, HasBadDrive};
ghost use Rattle.rfb.specs.command.DriveWords.{NamesLinesTwice};

use crate::defaults::{LINE_SECONDS, all_encodings};
use crate::help::Topic;
use crate::options::BadValue;
use crate::options::address::{Address, NEEDED_SERVER, server_in};
use crate::options::common::{ALL_ENCODINGS, FORMAT, INPUT, QUIET};
use crate::options::given::{are_there, count_or, is_given, is_there, wants_in};
use crate::options::usage::{Mark, Takes, Usage, Word, long};
use crate::script::Wants;
use clap::ArgMatches;

/// What `drive` is asked for.
#[derive(Drop)]
pub struct DriveOptions<'a> {
    /// The server that is driven.
    pub server: Address<'a>,
    /// How many seconds the first update has, and each line until one says otherwise.
    pub timeout: u32,
    /// The folder where a line that took too long leaves what the screen showed, if any.
    pub keep: Option<&'a str>,
    /// Whether each change of the screen is reported.
    pub tells_changes: bool,
    /// Whether there are no sentences, whatever else asks for them.
    pub is_quiet: bool,
    /// Whether the lines are a file's, or words.
    pub has_lines: bool,
    /// What the server is asked for.
    pub wants: Wants,
}

/// What `drive` is called with.
pub const DRIVE: &Usage<'static> = &Usage {
    name: "drive",
    about: "Does what lines say: presses keys, moves, waits, compares, saves",
    topic: Topic::Rigs,
    words: &[
        NEEDED_SERVER,
        long!(
            "timeout",
            Takes::NumberOr("S", u32::MAX, "30"),
            "The seconds that a line has until one says otherwise, 1 to 4294967295"
        ),
        long!(
            "keep",
            Takes::Text("DIR"),
            "The folder that gets what the screen showed where a line took too long"
        ),
        long!("tell", Takes::Nothing, "Reports each change of the screen"),
        QUIET,
        FORMAT,
        ALL_ENCODINGS,
        INPUT,
        Word {
            name: "line",
            mark: Mark::Alone,
            takes: Takes::Texts("LINE"),
            help: "Lines to do, in place of those of standard input",
        },
    ],
};

/// What `drive` is asked for.
pub fn drive_options_in<'a>(given: &ArgMatches<'a>) -> Result<DriveOptions<'a>, BadValue<'a>>
    ensures { MatchResult result (GivesDriveOptions (rows_of (found_of given.now)))
        (λ _. HasBadDrive (rows_of (found_of given.now))) }
{
    let server = server_in(given)?;
    let wants = wants_in(given, all_encodings())?;
    let has_lines = are_lines_named(given)?;
    Ok(DriveOptions {
        server,
        timeout: count_or(given, "timeout", LINE_SECONDS),
        keep: keep_in(given),
        tells_changes: is_given(given, "tell"),
        is_quiet: is_given(given, "quiet"),
        has_lines,
        wants,
    })
}

// Whether lines are named: by a file that has them, or as words. They may not be both.
fn are_lines_named<'a>(given: &ArgMatches<'a>) -> Result<bool, BadValue<'a>>
    ensures { MatchResult result (AreNamed (rows_of (found_of given.now)))
        (λ _. NamesLinesTwice (rows_of (found_of given.now))) }
{
    let has_file = is_there(given, "input");
    let has_words = are_there(given, "line");
    if has_file && has_words {
        return Err(BadValue::Lines);
    }
    Ok(has_file || has_words)
}

// The folder that is named, if one is.
fn keep_in<'a>(given: &ArgMatches<'a>) -> Option<&'a str>
    ensures { option_map (λ name. name.now) result
        ≡ first_of (codes "keep") (rows_of (found_of given.now)) }
{
    given.get_str("keep")
}
