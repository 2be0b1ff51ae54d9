//! The words of `play`.

ghost use Rattle.std.specs.Prelude.{MatchResult};
ghost use Rattle.clap.specs.Words.{found_of, rows_of};
ghost use Rattle.rfb.specs.command.Values.{HasBadFormat};
ghost use Rattle.rfb.specs.command.PlayWords.{GivesPlayOptions};

use crate::help::Topic;
use crate::options::BadValue;
use crate::options::common::{FORMAT, INPUT, OUTPUT, PARTIAL};
use crate::options::given::{format_in, is_given, number_given};
use crate::options::usage::{Mark, Takes, Usage, Word, long};
use crate::play::PlayOptions;
use clap::ArgMatches;

/// What `play` is called with.
pub const PLAY: &Usage<'static> = &Usage {
    name: "play",
    about: "Plays a server's bytes from standard input, and writes the last picture as PPM",
    topic: Topic::Recordings,
    words: &[
        FORMAT,
        long!(
            "updates",
            Takes::Number("U", u32::MAX),
            "The number of updates after which it ends, 1 to 4294967295; without it, all are played"
        ),
        PARTIAL,
        INPUT,
        OUTPUT,
    ],
};

/// The format of a recording, and how much of it is to be played.
pub fn play_options_in<'a>(given: &ArgMatches<'a>) -> Result<PlayOptions, BadValue<'a>>
    ensures { MatchResult result (GivesPlayOptions (rows_of (found_of given.now)))
        (λ _. HasBadFormat (rows_of (found_of given.now))) }
{
    let format = format_in(given)?;
    Ok(PlayOptions {
        format,
        updates: number_given(given, "updates"),
        is_partial: is_given(given, "partial"),
    })
}
