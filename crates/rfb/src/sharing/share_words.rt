//! What `share` is asked for, and its words.

ghost use Rattle.std.specs.Prelude.{codes};
ghost use Rattle.clap.specs.Words.{first_of, found_of, rows_of};
ghost use Rattle.rfb.specs.command.Values.{NamesWord};
ghost use Rattle.rfb.specs.command.ShareWords.{GivesShareOptions};

use crate::defaults::HOLD_SECONDS;
use crate::help::Topic;
use crate::options::common::{
    ALWAYS_SHARED, HANDSHAKE, LISTEN, PATIENCE, PORT, QUIET, UNTIL_IDLE, VIEWERS,
};
use crate::options::given::{count_or, word_or};
use crate::options::usage::{Mark, Takes, Usage, Word, long};
use crate::sharing::hosting::{Hosting, hosting_in};
use clap::ArgMatches;

/// What `share` is asked for.
#[derive(Clone, Copy)]
pub struct ShareOptions<'a> {
    pub hosting: Hosting<'a>,
    /// The screen's name.
    pub name: &'a str,
    /// For how many seconds a scene is held back at most.
    pub hold: u32,
}

const NAME: &str = "rfb";

/// What `share` is called with.
pub const SHARE: &Usage<'static> = &Usage {
    name: "share",
    about: "Shares a screen that a program draws, by lines on standard input, with viewers",
    topic: Topic::Owners,
    words: &[
        PORT,
        LISTEN,
        VIEWERS,
        long!(
            "name",
            Takes::TextOr("TEXT", NAME),
            "The screen's name; viewers get at most 255 bytes of it"
        ),
        UNTIL_IDLE,
        HANDSHAKE,
        PATIENCE,
        long!(
            "hold",
            Takes::NumberOr("S", u32::MAX, "1"),
            "The seconds that a scene may take, 1 to 4294967295"
        ),
        ALWAYS_SHARED,
        long!(
            "view-only",
            Takes::Nothing,
            "Reports no key, pointer or text of a viewer's"
        ),
        QUIET,
    ],
};

/// What `share` is asked for.
pub fn share_options_in<'a>(given: &ArgMatches<'a>) -> ShareOptions<'a>
    ensures { GivesShareOptions (rows_of (found_of given.now)) result }
{
    ShareOptions {
        hosting: hosting_in(given),
        name: name_in(given),
        hold: count_or(given, "hold", HOLD_SECONDS),
    }
}

// The screen's name.
fn name_in<'a>(given: &ArgMatches<'a>) -> &'a str
    ensures { NamesWord (codes "rfb")
        (first_of (codes "name") (rows_of (found_of given.now))) result.now }
{
    word_or(given, "name", NAME)
}
