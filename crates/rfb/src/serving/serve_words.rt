//! What `serve` is asked for, and its words.

ghost use Rattle.std.specs.Prelude.{◌≡◌, codes, None, Some, MatchResult};
ghost use Rattle.clap.specs.Words.{first_of, found_of, rows_of};
ghost use Rattle.rfb.specs.command.Values.{GivesOr, NamesHost};
ghost use Rattle.rfb.specs.command.ServeWords.{GivesConnections, GivesScreen, GivesServeOptions};
ghost use Rattle.rfb.specs.command.ServeWords.{HasBadConnections, HasBadScreen, HasBadServe};

use crate::defaults::LOOPBACK;
use crate::help::Topic;
use crate::options::BadValue;
use crate::options::common::{LISTEN, PORT};
use crate::options::given::{
    is_given, is_there, number_given, number_in, number_or, word_in, word_or,
};
use crate::options::usage::{Mark, Takes, Usage, Word, long};
use clap::ArgMatches;
use rfb_session::language::{MAX_SIDE, Screen};

/// What `serve` is asked for.
#[derive(Clone, Copy)]
pub struct ServeOptions<'a> {
    pub port: u16,
    /// The address that is listened on, or its name.
    pub listen: &'a str,
    pub screen: ScreenChoice<'a>,
    /// How many connections are served, one after another.
    pub connections: u64,
    /// If there is a number, a client is disconnected that for so many seconds sends nothing, or
    /// takes nothing of what is written to it.
    pub timeout: Option<u32>,
}

/// What is shown at first.
#[derive(Clone, Copy)]
pub enum ScreenChoice<'a> {
    /// The test scene, on a screen of this size.
    Scene(Screen),
    /// The picture that the file of this path spells.
    Picture(&'a str),
}

/// The connections of a server that is to go on until it is ended from outside. Nobody makes so
/// many: at a million a second they would take half a million years.
pub const FOREVER: u64 = u64::MAX;

// The places of a side that is not given.
const SIDE: u16 = 64;

/// What `serve` is called with.
pub const SERVE: &Usage<'static> = &Usage {
    name: "serve",
    about: "Serves a test picture that scrolls, or one of a file, to viewers, one after another",
    topic: Topic::Viewers,
    words: &[
        PORT,
        long!(
            "width",
            Takes::Number("N", MAX_SIDE as u32),
            "The pixels of a row of the screen, 1 to 4096; 64 without it"
        ),
        long!(
            "height",
            Takes::Number("N", MAX_SIDE as u32),
            "The rows of the screen, 1 to 4096; 64 without it"
        ),
        long!(
            "picture",
            Takes::Text("FILE"),
            "Shows the picture of this PPM, in place of the test picture"
        ),
        long!(
            "connections",
            Takes::Number("K", u16::MAX as u32),
            "How many connections are served, 1 to 65535; 1 without it"
        ),
        long!(
            "forever",
            Takes::Nothing,
            "Serves one connection after another until it is ended from outside"
        ),
        long!(
            "timeout",
            Takes::Number("S", u32::MAX),
            "The seconds without a byte after which a viewer is disconnected, 1 to 4294967295"
        ),
        LISTEN,
    ],
};

/// What `serve` is asked for. The screen is judged first.
pub fn serve_options_in<'a>(given: &ArgMatches<'a>) -> Result<ServeOptions<'a>, BadValue<'a>>
    ensures { MatchResult result (GivesServeOptions (rows_of (found_of given.now)))
        (λ _. HasBadServe (rows_of (found_of given.now))) }
{
    Ok(ServeOptions {
        screen: screen_in(given)?,
        connections: connections_in(given)?,
        port: number_in(given, "port", 1, u16::MAX),
        listen: listen_in(given),
        timeout: number_given(given, "timeout"),
    })
}

// What is shown: a picture, which has its own size, or the test scene.
fn screen_in<'a>(given: &ArgMatches<'a>) -> Result<ScreenChoice<'a>, BadValue<'a>>
    ensures { MatchResult result (GivesScreen (rows_of (found_of given.now)))
        (λ _. HasBadScreen (rows_of (found_of given.now))) }
{
    let Some(path) = word_in(given, "picture") else {
        return Ok(ScreenChoice::Scene(size_in(given)));
    };
    if is_there(given, "width") {
        return Err(BadValue::Sides);
    }
    if is_there(given, "height") {
        return Err(BadValue::Sides);
    }
    Ok(ScreenChoice::Picture(path))
}

// The size of the test scene.
fn size_in(given: &ArgMatches<'_>) -> Screen
    ensures width { GivesOr (codes "width") 4096 64 (rows_of (found_of given.now)) result.width }
    ensures height { GivesOr (codes "height") 4096 64 (rows_of (found_of given.now)) result.height }
{
    Screen {
        width: number_or(given, "width", MAX_SIDE, SIDE),
        height: number_or(given, "height", MAX_SIDE, SIDE),
    }
}

// How many connections are served.
fn connections_in<'a>(given: &ArgMatches<'a>) -> Result<u64, BadValue<'a>>
    ensures { MatchResult result (GivesConnections (rows_of (found_of given.now)))
        (λ _. HasBadConnections (rows_of (found_of given.now))) }
{
    if !is_given(given, "forever") {
        let number = number_or(given, "connections", u16::MAX, 1);
        return Ok(u64::from(number));
    }
    if is_there(given, "connections") {
        return Err(BadValue::Connections);
    }
    Ok(FOREVER)
}

/// The address that is given, or else the loopback address.
pub fn listen_in<'a>(given: &ArgMatches<'a>) -> &'a str
    ensures { NamesHost (first_of (codes "listen") (rows_of (found_of given.now))) result.now }
{
    word_or(given, "listen", LOOPBACK)
}
