//! The words of `view --follow`.

ghost use Rattle.std.specs.Prelude.{MatchResult};
ghost use Rattle.clap.specs.Words.{found_of, rows_of};
ghost use Rattle.rfb.specs.command.ViewWords.{GivesFilm, GivesFollowOptions};
ghost use Rattle.rfb.specs.command.Values.{HasBadWants};
ghost use Rattle.rfb.specs.command.ViewWords.{HasBadFollow};

use crate::defaults::only_raw;
use crate::options::BadValue;
use crate::options::address::peer_in;
use crate::options::given::{is_given, number_given, number_or, wants_in};
use crate::viewing::film::{Film, FollowOptions};
use clap::ArgMatches;

/// How many pictures a second there may be at most.
pub const MOST_RATE: u16 = 1000;

// How many there are where no number is given.
const RATE: u16 = 30;

// Which pictures are wanted. The format is judged first.
fn film_in<'a>(given: &ArgMatches<'a>) -> Result<Film, BadValue<'a>>
    ensures { MatchResult result (GivesFilm (rows_of (found_of given.now)))
        (λ _. HasBadWants (rows_of (found_of given.now))) }
{
    Ok(Film {
        wants: wants_in(given, only_raw())?,
        updates: number_given(given, "updates"),
        rate: number_or(given, "fps", MOST_RATE, RATE),
    })
}

/// The server that is to be followed, and which pictures of it are wanted. What goes with them is
/// judged first: no recording, and no part of a picture.
pub fn follow_options_in<'a>(given: &ArgMatches<'a>) -> Result<FollowOptions<'a>, BadValue<'a>>
    ensures { MatchResult result (GivesFollowOptions (rows_of (found_of given.now)))
        (λ _. HasBadFollow (rows_of (found_of given.now))) }
{
    if is_given(given, "record") {
        return Err(BadValue::Followed);
    }
    if is_given(given, "partial") {
        return Err(BadValue::Followed);
    }
    Ok(FollowOptions {
        peer: peer_in(given)?,
        film: film_in(given)?,
    })
}
