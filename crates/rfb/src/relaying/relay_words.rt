//! What `relay` is asked for, and its words.

ghost use Rattle.std.specs.Prelude.{◌≡◌, codes, option_map, MatchResult};
ghost use Rattle.clap.specs.Words.{first_of, found_of, rows_of};
ghost use Rattle.rfb.specs.command.RelayWords.{GivesRelayOptions, HasBadRelay};

use crate::defaults::all_encodings;
use crate::help::Topic;
use crate::options::BadValue;
use crate::options::address::{Address, NEEDED_SERVER, server_in};
use crate::options::common::{
    ALL_ENCODINGS, ALWAYS_SHARED, FORMAT, HANDSHAKE, LISTEN, PATIENCE, PORT, QUIET, UNTIL_IDLE,
    VIEWERS,
};
use crate::options::given::{number_given, wants_in};
use crate::options::usage::{Mark, Takes, Usage, Word, long};
use crate::script::Wants;
use crate::sharing::hosting::{Hosting, hosting_in};
use clap::ArgMatches;

/// What `relay` is asked for.
#[derive(Drop)]
pub struct RelayOptions<'a> {
    /// The server that is relayed.
    pub server: Address<'a>,
    pub hosting: Hosting<'a>,
    /// The name that viewers get, or else the server's own.
    pub name: Option<&'a str>,
    /// If there is a number, a server that went away is called again after so many seconds, and
    /// after as many once more, until somebody comes.
    pub retry: Option<u32>,
    /// What the server is asked for.
    pub wants: Wants,
}

/// What `relay` is called with.
pub const RELAY: &Usage<'static> = &Usage {
    name: "relay",
    about: "Relays a server: shares its screen with viewers, who use its keys and pointer",
    topic: Topic::Relays,
    words: &[
        NEEDED_SERVER,
        PORT,
        LISTEN,
        VIEWERS,
        long!(
            "name",
            Takes::Text("TEXT"),
            "The name that viewers get, 255 bytes at most; the server's own without it"
        ),
        UNTIL_IDLE,
        HANDSHAKE,
        PATIENCE,
        long!(
            "retry",
            Takes::Number("S", u32::MAX),
            "The seconds after which a server that went away is called again, 1 to 4294967295"
        ),
        ALWAYS_SHARED,
        long!(
            "view-only",
            Takes::Nothing,
            "Passes on and reports no key, pointer or text of a viewer's"
        ),
        QUIET,
        FORMAT,
        ALL_ENCODINGS,
    ],
};

/// What `relay` is asked for.
pub fn relay_options_in<'a>(given: &ArgMatches<'a>) -> Result<RelayOptions<'a>, BadValue<'a>>
    ensures { MatchResult result (GivesRelayOptions (rows_of (found_of given.now)))
        (λ _. HasBadRelay (rows_of (found_of given.now))) }
{
    let server = server_in(given)?;
    let wants = wants_in(given, all_encodings())?;
    Ok(RelayOptions {
        server,
        hosting: hosting_in(given),
        name: name_in(given),
        retry: number_given(given, "retry"),
        wants,
    })
}

// The name that viewers get, if one is given.
fn name_in<'a>(given: &ArgMatches<'a>) -> Option<&'a str>
    ensures { option_map (λ name. name.now) result
        ≡ first_of (codes "name") (rows_of (found_of given.now)) }
{
    given.get_str("name")
}
