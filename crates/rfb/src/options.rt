//! The words of the command line: which there are, and what they ask for.

pub mod address;
pub mod common;
pub mod given;
mod paths;
pub mod usage;

ghost use Rattle.std.specs.Prelude.{◌≡◌, map, IfOk, MatchResult};
ghost use Rattle.clap.specs.Words.{FailsBy, fault_of, subcommand_rows_of};
ghost use Rattle.clap.specs.Simple.{app_of};
ghost use Rattle.rfb.specs.command.Values.{GivesFiles};
ghost use Rattle.rfb.specs.Options.{AreOrdered, AreWrong, IsOrder, IsWrongValue};
ghost use Rattle.rfb.specs.declared.options.WrongWords.TheVariants.{Value, Words};
ghost use Rattle.rfb.specs.command.Program.{HasBadValue, IsTask, asked, program};

use crate::commands::{COMMANDS, Task, commands_of, task_in, verb_named};
use crate::help::{Topic, VERSION};
use crate::options::paths::paths_in;
pub use crate::options::paths::{Input, Paths};
use clap::{ArgMatches, Command, Error};
use std::alloc::{AllocError, Global};
use std::convert::AsStr;

/// What the words ask for, and with which files.
#[derive(Drop)]
pub struct Order<'a> {
    pub task: Task<'a>,
    pub paths: Paths<'a>,
}

/// A word that no value of its option is, or no command.
#[derive(Clone, Copy)]
pub enum BadValue<'a> {
    /// No name of a command.
    Command,
    /// No format.
    Format(&'a str),
    /// No list of one to four encodings.
    Encodings,
    /// No name of a server.
    Server(&'a str),
    /// The same, where one has to be given.
    NeededServer(&'a str),
    /// Two servers: one by its name, and one by a host or a port.
    Servers,
    /// No server at all.
    NoServer,
    /// A size beside a picture, which has its own.
    Sides,
    /// A number of connections, and no end.
    Connections,
    /// Pictures after each update, and a recording or a part of one.
    Followed,
    /// A number of pictures in a second, of one alone.
    Pace,
    /// Lines that are words, and a file that has some.
    Lines,
}

/// Why words ask for no task.
#[derive(Drop)]
pub enum WrongWords<'a> {
    /// They are none that there are, or ask for a text; or memory is wanting.
    Words(Error),
    /// A value of an option is none.
    Value(BadValue<'a>),
}

// What the parser of words returns, and what the look at their values does: each `?` makes its own
// kind of it.
impl From<Error> for WrongWords<'_> {
    ghost from_gives = { λ error wrong. wrong ≡ Words error };

    fn from(error: Error) -> Self {
        WrongWords::Words(error)
    }
}

impl<'a> From<BadValue<'a>> for WrongWords<'a> {
    ghost from_gives = { λ value wrong. wrong ≡ Value value };

    fn from(value: BadValue<'a>) -> Self {
        WrongWords::Value(value)
    }
}

/// What the words ask for.
pub fn read_words<'a, S: AsStr>(alloc: Global, words: &'a [S]) -> Result<Order<'a>, WrongWords<'a>>
    ensures { MatchResult result (AreOrdered (map S.text words.now))
        (AreWrong (map S.text words.now)) }
{
    let matches = parse(alloc, words)?;
    order_in(alloc, &matches)
}

// What the words are, or what is wrong with them.
fn parse<'a, S: AsStr>(alloc: Global, words: &'a [S]) -> Result<ArgMatches<'a>, Error>
    ensures fails { FailsBy (fault_of program (map S.text words.now)) result }
    ensures asked { IfOk result (λ matches.
        subcommand_rows_of matches ≡ asked (map S.text words.now)) }
{
    commands(alloc)?.try_get_matches_from(words)
}

// The program, with the commands that there are.
fn commands<'a>(alloc: Global) -> Result<Command<'a>, AllocError>
    ensures { IfOk result (λ command. app_of command ≡ program) }
{
    let commands = commands_of(alloc, COMMANDS)?;
    Command::new(alloc, "rfb")
        .version(VERSION)
        .about("Both ends of the Remote Framebuffer protocol")
        .after_help(Topic::Statuses.text())
        .subcommand_required(true)
        .subcommands(commands)
}

// What the words ask for, once they are parsed.
fn order_in<'a>(alloc: Global, matches: &ArgMatches<'a>) -> Result<Order<'a>, WrongWords<'a>>
    ensures { MatchResult result (IsOrder (subcommand_rows_of matches.now))
        (IsWrongValue (subcommand_rows_of matches.now)) }
{
    let task = task_of(matches)?;
    let paths = paths_of(alloc, matches).map_err(Error::from)?;
    Ok(Order { task, paths })
}

// What the command that is named reads and writes.
fn paths_of<'a>(alloc: Global, matches: &ArgMatches<'a>) -> Result<Paths<'a>, AllocError>
    ensures { IfOk result (GivesFiles (subcommand_rows_of matches.now)) }
{
    match matches.subcommand() {
        Some((_name, given)) => paths_in(alloc, given),
        None => Ok(Paths {
            input: Input::Standard,
            output: None,
        }),
    }
}

// The task of the command that is named.
fn task_of<'a>(matches: &ArgMatches<'a>) -> Result<Task<'a>, BadValue<'a>>
    ensures { MatchResult result (IsTask (subcommand_rows_of matches.now))
        (λ _. HasBadValue (subcommand_rows_of matches.now)) }
{
    match matches.subcommand() {
        Some((name, given)) => match verb_named(COMMANDS, name) {
            Some(verb) => task_in(verb, given),
            None => Err(BadValue::Command),
        },
        None => Err(BadValue::Command),
    }
}
