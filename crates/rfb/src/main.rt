//! The program `rfb`: both ends of the Remote Framebuffer protocol (RFC 6143) at work.
//!
//! `command_line` has the statuses, `options` the words, and `commands` the commands. Each of these
//! has a module of its own: `script`, `loopback`, `play`, `serving`, `viewing`, `sharing`,
//! `relaying` and `driving`.
#![tactic(auto)]

mod command_line;
mod commands;
mod context;
mod defaults;
mod driving;
mod explain;
mod fault;
mod faults;
mod help;
mod loopback;
mod options;
mod play;
mod reaching;
mod relaying;
mod scene;
mod script;
mod serving;
mod sharing;
mod streams;
mod viewing;
mod working;
mod writing;

use command_line::{EXPLAIN, command, without_words};
use explain::Notes;
use std::io::IsTerminal;
use std::process::ExitCode;
use std::{env, io};
use streams::{StandardInput, StandardOutput};

// The variable that, where it is 1, asks for sentences as `--explain` does.
const EXPLAIN_VARIABLE: &str = "RFB_EXPLAIN";

// The commands at which they are said always, and their word against them.
const SHARE: &str = "share";

const RELAY: &str = "relay";

const DRIVE: &str = "drive";

const QUIET: &str = "--quiet";

fn main(rt: HostRuntime) -> ExitCode {
    let words = match words(&rt) {
        Ok(words) => words,
        Err(error) => return ExitCode::from(without_words(error, &mut rt.stderr())),
    };
    let explains = has(&words, EXPLAIN) && !has(&words, QUIET);
    let mut reading_errors = rt.stderr();
    let notes = Notes::new(&mut reading_errors, explains);
    let mut input = StandardInput::new(rt.stdin(), notes);
    let mut writing_errors = rt.stderr();
    let notes = Notes::new(&mut writing_errors, explains);
    let output = rt.stdout();
    let is_terminal = output.is_terminal();
    let mut output = StandardOutput::new(output, is_terminal, notes);
    let status = command(&rt, &words, &mut input, &mut output, &mut rt.stderr());
    ExitCode::from(status)
}

// The words that the program was called with, its own name first. `--explain` is after them where a
// person reads the errors, the environment asks for it, or a screen is shared, relayed or driven;
// unless `--quiet` is among them. A word that is not UTF-8 is an error of the kind `InvalidData`.
fn words(rt: &HostRuntime) -> io::Result<Vec<String>> {
    let mut words: Vec<String> = env::args(rt)?.collect(rt.alloc())?;
    let is_wanted = rt.stderr().is_terminal() || is_asked(rt) || is_for_long(&words);
    if is_wanted && !has(&words, QUIET) {
        words.push(format!(in rt.alloc(); "{EXPLAIN}")?)?;
    }
    Ok(words)
}

// Whether this is one of the words.
fn has(words: &[String], wanted: &str) -> bool {
    words.iter().any(|word| word.as_str() == wanted)
}

// Whether they name a command that shares a screen, relays or drives one.
fn is_for_long(words: &[String]) -> bool {
    for word in words.iter().skip(1) {
        if word.as_str() != EXPLAIN {
            return word.as_str() == SHARE || word.as_str() == RELAY || word.as_str() == DRIVE;
        }
    }
    false
}

// Whether the environment asks for sentences.
fn is_asked(rt: &HostRuntime) -> bool {
    match env::var(rt, EXPLAIN_VARIABLE) {
        Ok(value) => value.as_str() == "1",
        Err(_) => false,
    }
}
