//! What a share and a relay are asked for alike.

ghost use Rattle.std.specs.Prelude.{◌≡◌, ◌*◌, option_map};
ghost use Rattle.clap.specs.Words.{found_of, rows_of};
ghost use Rattle.rfb.specs.HostRules.{IsHosted};
ghost use Rattle.rfb.specs.command.HostingWords.{GivesHosting};

use crate::defaults::HANDSHAKE_SECONDS;
use crate::options::common::MOST_VIEWERS;
use crate::options::given::{count_or, is_given, number_given, number_in};
use crate::serving::listen_in;
use clap::ArgMatches;
use rfb_session::console::Rules;

/// Where viewers come, how many, and what they may do.
#[derive(Clone, Copy)]
pub struct Hosting<'a> {
    /// The address and the port to listen on.
    pub listen: &'a str,
    pub port: u16,
    /// How many viewers there are at once at most, 1 to 8.
    pub viewers: u16,
    /// Whether all ends with the last viewer.
    pub until_idle: bool,
    /// Within how many seconds a viewer's handshake has to be done.
    pub handshake: u32,
    /// If there is a number, a viewer is disconnected once bytes have waited for it for so many
    /// seconds, and it took none and sent none.
    pub timeout: Option<u32>,
    /// Whether a viewer that asks for the screen alone shares it all the same.
    pub is_always_shared: bool,
    /// Whether what viewers do with keys, pointers and texts is left out.
    pub is_view_only: bool,
    /// Whether there are no sentences, whatever else asks for them.
    pub is_quiet: bool,
}

/// What is asked for of it.
pub fn hosting_in<'a>(given: &ArgMatches<'a>) -> Hosting<'a>
    ensures { GivesHosting (rows_of (found_of given.now)) result }
{
    Hosting {
        listen: listen_in(given),
        port: number_in(given, "port", 1, u16::MAX),
        viewers: number_in(given, "viewers", 1, MOST_VIEWERS),
        until_idle: is_given(given, "until-idle"),
        handshake: count_or(given, "handshake", HANDSHAKE_SECONDS),
        timeout: number_given(given, "timeout"),
        is_always_shared: is_given(given, "always-shared"),
        is_view_only: is_given(given, "view-only"),
        is_quiet: is_given(given, "quiet"),
    }
}

/// The rules that it makes, with a limit for texts, and with how long a scene is held back and a
/// server is not called again. Its times are seconds, and theirs are milliseconds.
pub fn rules_of(hosting: &Hosting<'_>, text_limit: u32, hold: u32, retry: Option<u32>) -> Rules
    ensures hosted { IsHosted hosting.now result }
    ensures text_limit { result.text_limit ≡ text_limit }
    ensures hold { result.hold ≡ 1000 * hold }
    ensures retry { result.retry ≡ option_map (λ seconds. 1000 * seconds) retry }
{
    Rules {
        text_limit,
        viewers: hosting.viewers.min(8) as u8,
        until_idle: hosting.until_idle,
        always_shared: hosting.is_always_shared,
        view_only: hosting.is_view_only,
        handshake: millis(hosting.handshake),
        timeout: millis_of(hosting.timeout),
        hold: millis(hold),
        retry: millis_of(retry),
    }
}

/// So many seconds, in milliseconds.
pub fn millis(seconds: u32) -> u64
    ensures { result ≡ 1000 * seconds }
{
    1000 * u64::from(seconds)
}

// The same, where there is a number.
fn millis_of(seconds: Option<u32>) -> Option<u64>
    ensures { result ≡ option_map (λ count. 1000 * count) seconds }
{
    match seconds {
        Some(seconds) => Some(millis(seconds)),
        None => None,
    }
}
