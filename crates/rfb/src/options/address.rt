//! The server that `view` and `relay` are asked for.

ghost use Rattle.std.specs.Prelude.{codes, ℕ, List, option_map, MatchOption, MatchResult};
ghost use Rattle.clap.specs.Words.{found_of, rows_of};
ghost use Rattle.rfb.specs.Address.{GivesServer, IsAddress, NamesDisplay, NamesPort, OrLoopback};
ghost use Rattle.rfb.specs.command.Values.{MayGiveNumber};
ghost use Rattle.rfb.specs.command.ViewWords.{GivesAddress, GivesPeer, HasBadAddress};
ghost use Rattle.rfb.specs.command.RelayWords.{GivesServerAlone, HasNoServer};

use crate::defaults::LOOPBACK;
use crate::options::BadValue;
use crate::options::given::{number_given, within, word_in};
use crate::options::usage::{Mark, Takes, Word, long};
use clap::ArgMatches;
use rfb_session::language::read_number;

// What a word for a server may be.
const FORMS: &str =
    "HOST, HOST:N or HOST::PORT; below 100 N is a display, at port 5900 + N; HOST alone is 5900";

// The port of a host's display 0, and the last number that names a display: a greater one is a
// port.
const DISPLAYS: u16 = 5900;

const LAST_DISPLAY: u16 = 99;

/// A server, by its name or address and its port.
#[derive(Clone, Copy)]
pub struct Address<'a> {
    pub host: &'a str,
    pub port: u16,
}

/// A server, and how long is waited for it.
#[derive(Clone, Copy)]
pub struct Peer<'a> {
    pub address: Address<'a>,
    /// If there is a number, waiting ends after that many seconds.
    pub timeout: Option<u32>,
}

/// A server, by a word with no option.
pub const SERVER: Word<'static> = Word {
    name: "server",
    mark: Mark::Alone,
    takes: Takes::Text("SERVER"),
    help: FORMS,
};

/// The same, where it has to be given.
pub const NEEDED_SERVER: Word<'static> = Word {
    name: "server",
    mark: Mark::Alone,
    takes: Takes::NeededText("SERVER"),
    help: FORMS,
};

/// A host.
pub const HOST: Word<'static> = long!(
    "host",
    Takes::Text("H"),
    "The name or the address of the server, 127.0.0.1 without it"
);

/// A port that may be left out.
pub const ANY_PORT: Word<'static> = long!(
    "port",
    Takes::Number("P", u16::MAX as u32),
    "The port, 1 to 65535; 5900 without it"
);

// The server that is given: by a word, or by its host, its port or both, and never by both ways.
fn address_in<'a>(given: &ArgMatches<'a>) -> Result<Address<'a>, BadValue<'a>>
    ensures { MatchResult result
        (λ address. GivesAddress (rows_of (found_of given.now)) address.host.now address.port)
        (λ _. HasBadAddress (rows_of (found_of given.now))) }
{
    address_of(
        given.get_str("server"),
        given.get_str("host"),
        port_given(given),
    )
}

/// That server, and how many seconds are given for it.
pub fn peer_in<'a>(given: &ArgMatches<'a>) -> Result<Peer<'a>, BadValue<'a>>
    ensures { MatchResult result (GivesPeer (rows_of (found_of given.now)))
        (λ _. HasBadAddress (rows_of (found_of given.now))) }
{
    Ok(Peer {
        address: address_in(given)?,
        timeout: number_given(given, "timeout"),
    })
}

/// The server that is given by a word alone.
pub fn server_in<'a>(given: &ArgMatches<'a>) -> Result<Address<'a>, BadValue<'a>>
    ensures { MatchResult result
        (λ address. GivesServerAlone (rows_of (found_of given.now)) address.host.now address.port)
        (λ _. HasNoServer (rows_of (found_of given.now))) }
{
    let Some(word) = word_in(given, "server") else {
        return Err(BadValue::NoServer);
    };
    let Ok(address) = address_named(word) else {
        return Err(BadValue::NeededServer(word));
    };
    Ok(address)
}

// The server of a word, a host and a port. Each may be left out.
fn address_of<'a>(
    word: Option<&'a str>,
    host: Option<&'a str>,
    port: Option<u16>,
) -> Result<Address<'a>, BadValue<'a>>
    ensures { MatchResult result
        (λ address. GivesServer (option_map (λ s. s.now) word.entry)
        (option_map (λ s. s.now) host.entry) port address.host.now address.port)
        (λ _. (h : List ℕ) (p : ℕ) → ¬ (GivesServer (option_map (λ s. s.now) word.entry)
        (option_map (λ s. s.now) host.entry) port h p)) }
{
    match (word, host, port) {
        (Some(word), None, None) => address_named(word),
        (Some(_), _, _) => Err(BadValue::Servers),
        (None, None, None) => Err(BadValue::NoServer),
        (None, Some(host), port) => Ok(Address {
            host,
            port: port.unwrap_or(DISPLAYS),
        }),
        (None, None, Some(port)) => Ok(Address {
            host: LOOPBACK,
            port,
        }),
    }
}

// The port that is given, if one is.
fn port_given(given: &ArgMatches<'_>) -> Option<u16>
    ensures { MayGiveNumber (codes "port") 1 65535 (rows_of (found_of given.now)) result }
{
    match number_given(given, "port") {
        Some(number) => Some(within(number, 1, u16::MAX)),
        None => None,
    }
}

// The server that a word names.
fn address_named<'a>(word: &'a str) -> Result<Address<'a>, BadValue<'a>>
    ensures { MatchResult result
        (λ address. IsAddress word.now address.host.now address.port)
        (λ _. (host : List ℕ) (port : ℕ) → ¬ (IsAddress word.now host port)) }
{
    let Some((host, after)) = word.split_once(':') else {
        return Ok(Address {
            host: or_loopback(word),
            port: DISPLAYS,
        });
    };
    match port_named(after.as_bytes()) {
        Some(port) => Ok(Address {
            host: or_loopback(host),
            port,
        }),
        None => Err(BadValue::Server(word)),
    }
}

// This host, or the loopback address where it is left out.
fn or_loopback(host: &str) -> &str
    ensures { OrLoopback host.now result.now }
{
    if host.is_empty() { LOOPBACK } else { host }
}

// What follows the first colon: a display or a port, or a colon and a port.
fn port_named(text: &[u8]) -> Option<u16>
    ensures { MatchOption result ((port : ℕ) → ¬ (NamesPort text.now port))
        (λ port. NamesPort text.now port) }
{
    match text {
        [b':', digits @ ..] => read_number(digits).filter(|port| *port > 0),
        digits => display_port(digits),
    }
}

// The port of a display, or that port.
fn display_port(digits: &[u8]) -> Option<u16>
    ensures { MatchOption result ((port : ℕ) → ¬ (NamesDisplay digits.now port))
        (λ port. NamesDisplay digits.now port) }
{
    match read_number(digits) {
        Some(display) if display <= LAST_DISPLAY => Some(DISPLAYS + display),
        port => port,
    }
}
