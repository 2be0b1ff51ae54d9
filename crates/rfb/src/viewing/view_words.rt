//! The words of `view`.

ghost use Rattle.std.specs.Prelude.{MatchResult};
ghost use Rattle.clap.specs.Words.{found_of, rows_of};
ghost use Rattle.rfb.specs.command.ViewWords.{GivesViewOptions, GivesSight};
ghost use Rattle.rfb.specs.command.Values.{HasBadWants};
ghost use Rattle.rfb.specs.command.ViewWords.{HasBadLook};

use crate::defaults::only_raw;
use crate::help::Topic;
use crate::options::BadValue;
use crate::options::address::{ANY_PORT, HOST, SERVER, peer_in};
use crate::options::common::{FORMAT, OUTPUT, PARTIAL};
use crate::options::given::{count_or, is_given, is_there, wants_in};
use crate::options::usage::{Mark, Takes, Usage, Word, long};
use crate::viewing::follow_words::MOST_RATE;
use crate::viewing::{Sight, ViewOptions};
use clap::ArgMatches;

/// What `view` is called with.
pub const VIEW: &Usage<'static> = &Usage {
    name: "view",
    about: "Views a server, and writes the picture that it shows as PPM",
    topic: Topic::Servers,
    words: &[
        SERVER,
        HOST,
        ANY_PORT,
        long!(
            "updates",
            Takes::Number("U", u32::MAX),
            "How many updates are viewed, 1 to 4294967295; 1 without it, with --follow all"
        ),
        long!(
            "follow",
            Takes::Nothing,
            "Writes the picture after each update, one after another, until the server ends"
        ),
        long!(
            "fps",
            Takes::Number("N", MOST_RATE as u32),
            "The pictures of --follow in a second at most, 1 to 1000; 30 without it"
        ),
        FORMAT,
        long!(
            "encodings",
            Takes::TextOr("E", "raw"),
            "One to four of raw, copyrect, rre and hextile with commas, the best first"
        ),
        long!(
            "record",
            Takes::Nothing,
            "Writes the server's bytes as they come, in place of the picture"
        ),
        long!(
            "timeout",
            Takes::Number("S", u32::MAX),
            "The seconds after which it ends, 1 to 4294967295; without it, it waits"
        ),
        PARTIAL,
        OUTPUT,
    ],
};

/// The server that is to be viewed once, and what is to be seen of it. A number of pictures in a
/// second goes with no single one.
pub fn view_options_in<'a>(given: &ArgMatches<'a>) -> Result<ViewOptions<'a>, BadValue<'a>>
    ensures { MatchResult result (GivesViewOptions (rows_of (found_of given.now)))
        (λ _. HasBadLook (rows_of (found_of given.now))) }
{
    if is_there(given, "fps") {
        return Err(BadValue::Pace);
    }
    Ok(ViewOptions {
        peer: peer_in(given)?,
        sight: sight_in(given)?,
    })
}

// What is to be seen of it. The format is judged first.
fn sight_in<'a>(given: &ArgMatches<'a>) -> Result<Sight, BadValue<'a>>
    ensures { MatchResult result (GivesSight (rows_of (found_of given.now)))
        (λ _. HasBadWants (rows_of (found_of given.now))) }
{
    Ok(Sight {
        wants: wants_in(given, only_raw())?,
        updates: count_or(given, "updates", 1),
        is_recorded: is_given(given, "record"),
        is_partial: is_given(given, "partial"),
    })
}
