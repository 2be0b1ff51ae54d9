//! The command line: what the words ask for is done, and the exit status is chosen.

ghost use Rattle.std.specs.Prelude.{◌≡◌, ◌≢◌, ◌≤◌, map, IfOk, OnOk, OnErr};
ghost use Rattle.clap.specs.Words.{HasKind, fault_of};
ghost use Rattle.rfb.specs.Options.{AreCommand, AreMistaken, HaveMeaning, ask_for_faults, plain_of};
ghost use Rattle.rfb.specs.command.Program.{program};
ghost use Rattle.rfb.specs.CommandLine.{DoesAsked, LeavesAsked};
ghost use Rattle.std.specs.IoError.{error_kind};
ghost use Rattle.std.specs.declared.io.ErrorKind.TheVariants.{InvalidData};

use crate::context::Context;
use crate::explain::{Notes, tell_own};
use crate::fault::{Failure, Fault};
use crate::faults::write_faults;
use crate::options::{BadValue, WrongWords, read_words};
use crate::working::work_through;
use clap::error::ErrorKind;
use std::alloc::{AllocError, Global};
use std::convert::AsStr;
use std::fs::Files;
use std::io;
use std::io::{IsTerminal, Read, Write};
use std::net::Net;
use std::time::Clock;

// The statuses that `command` answers.
const DONE: u8 = 0;

const FAILED: u8 = 1;

const BAD_WORDS: u8 = 2;

const NOT_TEXT: &str = "\
error: invalid UTF-8 was detected in one or more arguments

For more information, try '--help'.";

/// The word that asks for sentences.
pub const EXPLAIN: &str = "--explain";

const NO_COMMAND: &str = "\
error: unrecognized subcommand

For more information, try '--help'.";

// What is wrong with words that go with no others, or lack some.
const SERVERS: &str = "\
the argument '[SERVER]' cannot be used with '--host <H>' or '--port <P>'";

const NO_SERVER: &str = "\
the following required arguments were not provided:
  --port <P>";

const FOLLOWED: &str = "the argument '--follow' cannot be used with '--record' or '--partial'";

const PACE: &str = "the argument '--fps <N>' cannot be used without '--follow'";

const LINES: &str = "the argument '--input <FILE>' cannot be used with '[LINE]...'";

const SIDES: &str = "\
the argument '--picture <FILE>' cannot be used with '--width <N>' or '--height <N>'";

const CONNECTIONS: &str = "the argument '--forever' cannot be used with '--connections <K>'";

// How commands are called.
const VIEW: &str = "view [OPTIONS] [SERVER]";

const DRIVE: &str = "drive [OPTIONS] <SERVER> [LINE]...";

const SERVE: &str = "serve [OPTIONS] --port <P>";

const ENCODINGS: &str = "\
rfb: encodings are raw, copyrect, rre and hextile: one to four of them, with a comma between two";

/// Does what `words` ask for, and returns the exit status. The first word is the program's own
/// name.
///
/// - 0: the work is done. Help and the version count as work, and go to `output`.
/// - 1: it failed, and a line on `errors` says why. Nothing was written to `output`, unless writing
///   there is what failed: then a beginning of what was to be written. What `serve`, `share`,
///   `relay`, `view --record` and `view --follow` write as they go stays. With `--partial` the
///   picture of what came by an early end is written.
/// - 2: the words ask for nothing that there is, and `errors` has a text that says so.
///
/// `output` is flushed before the status is chosen. A write to `errors` that fails changes nothing.
///
/// The word `--explain`, at any place, adds sentences to `errors`, each a line that begins with
/// `rfb: `. The status and what is written to `output` are those of the other words.
pub fn command<P: AllocGlobal + Clock + Files + Net, S: AsStr, R: Read, W: Write, E: Write>(
    rt: &P,
    words: &[S],
    input: &mut R,
    output: &mut W,
    errors: &mut E,
) -> u8
where
    P::File: IsTerminal,
    ensures range { result ≤ 2 }
    ensures done { result ≡ 0 → HaveMeaning (plain_of (map S.text words.now)) }
    ensures mistake { result ≡ 2 → AreMistaken (plain_of (map S.text words.now)) }
    ensures played { result ≡ 0 → AreCommand (plain_of (map S.text words.now)) →
        DoesAsked P (plain_of (map S.text words.now))
        (R.remaining input.old) (W.contents output.old) (W.contents output.new) }
    ensures failed { result ≡ 1 → AreCommand (plain_of (map S.text words.now)) →
        LeavesAsked P (plain_of (map S.text words.now))
        (R.remaining input.old) (W.contents output.old) (W.contents output.new) }
{
    let Ok(plain) = plain_words(rt.alloc(), words) else {
        return tell(Failure::Fault(Fault::NoMemory), errors);
    };
    let explains = plain.len() < words.len();
    match read_words(rt.alloc(), plain.as_slice()) {
        Ok(order) => {
            let mut context = Context {
                rt,
                input,
                output,
                errors: &mut *errors,
                explains,
            };
            let done = work_through(&mut context, order);
            status_of(done, explains, errors)
        }
        Err(WrongWords::Value(value)) => {
            tell_value(value, explains, errors);
            BAD_WORDS
        }
        Err(WrongWords::Words(answer)) => {
            answer_words(plain.as_slice(), &answer, output, errors)
        }
    }
}

// The words but those that ask for sentences.
fn plain_words<'a, S: AsStr>(alloc: Global, words: &'a [S]) -> Result<Vec<&'a S>, AllocError>
    ensures { IfOk result (λ plain.
        map (λ word. S.text word.now) plain.items ≡ plain_of (map S.text words.now)) }
{
    let mut plain = Vec::with_capacity(alloc, words.len())?;
    for word in words {
        if word.as_str() != EXPLAIN {
            plain.push(word)?;
        }
    }
    Ok(plain)
}

// The status of what was done. Why it was not is printed, with a sentence if any are wanted.
fn status_of<E: Write>(done: Result<(), Failure>, explains: bool, errors: &mut E) -> u8
    ensures done { OnOk done (result ≡ 0) }
    ensures failed { OnErr done (result ≡ 1) }
{
    match done {
        Ok(()) => DONE,
        Err(failure) => {
            tell_own(&failure, &mut Notes::new(errors, explains));
            tell(failure, errors)
        }
    }
}

// Answers words that ask for no task: with a text that they ask for, or with what is wrong.
fn answer_words<S: AsStr, W: Write, E: Write>(
    words: &[S],
    answer: &clap::Error,
    output: &mut W,
    errors: &mut E,
) -> u8
    requires kind { HasKind (fault_of program (map S.text words.now)) answer.now }
    ensures range { result ≤ 2 }
    ensures done { result ≡ 0 → HaveMeaning (map S.text words.now) }
    ensures mistake { result ≡ 2 → AreMistaken (map S.text words.now) }
    ensures memory { AreCommand (map S.text words.now) →
        (result ≡ 1) × (output.new ≡ output.old) }
{
    if answer.kind() == ErrorKind::OutOfMemory {
        return tell(Failure::Fault(Fault::NoMemory), errors);
    }
    if ask_for_faults(words) {
        return status_of(show_faults(output), false, errors);
    }
    if answer.use_stderr() {
        let _ = write!(errors, "{answer}");
        return BAD_WORDS;
    }
    status_of(show(answer, output), false, errors)
}

// Prints why a command fails, and answers its exit status.
fn tell<E: Write>(failure: Failure, errors: &mut E) -> u8
    ensures { result ≡ 1 }
{
    let _ = writeln!(errors, "{failure}");
    FAILED
}

// Prints which value of an option is none. A write that fails changes nothing.
fn tell_value<E: Write>(value: BadValue<'_>, explains: bool, errors: &mut E) {
    let _ = match value {
        BadValue::Command => writeln!(errors, "{NO_COMMAND}"),
        BadValue::Format(word) => writeln!(
            errors,
            "error: invalid value '{word}' for '--format <F>'
  [possible values: rgb888, rgb565, bgr233, rgb101010]

For more information, try '--help'."
        ),
        BadValue::Encodings => {
            let _ = writeln!(Notes::new(errors, explains), "{ENCODINGS}");
            writeln!(errors, "bad encodings")
        }
        BadValue::Server(word) => tell_server_word(word, "[SERVER]", errors),
        BadValue::NeededServer(word) => tell_server_word(word, "<SERVER>", errors),
        BadValue::Servers => tell_misuse(SERVERS, VIEW, errors),
        BadValue::NoServer => tell_misuse(NO_SERVER, "view --port <P>", errors),
        BadValue::Sides => tell_misuse(SIDES, SERVE, errors),
        BadValue::Connections => tell_misuse(CONNECTIONS, SERVE, errors),
        BadValue::Followed => tell_misuse(FOLLOWED, VIEW, errors),
        BadValue::Pace => tell_misuse(PACE, VIEW, errors),
        BadValue::Lines => tell_misuse(LINES, DRIVE, errors),
    };
}

// Prints what is wrong with the words of a command, and how it is called.
fn tell_misuse<E: Write>(what: &str, usage: &str, errors: &mut E) -> io::Result<()> {
    writeln!(
        errors,
        "error: {what}

Usage: rfb {usage}

For more information, try '--help'."
    )
}

// Prints that a word names no server. `name` is how help has such a word.
fn tell_server_word<E: Write>(word: &str, name: &str, errors: &mut E) -> io::Result<()> {
    writeln!(
        errors,
        "error: invalid value '{word}' for '{name}'
  [HOST, HOST:DISPLAY with a display from 0 to 99, HOST:PORT from port 100 on, or HOST::PORT]

For more information, try '--help'."
    )?;
    Ok(())
}

/// Says on `errors` why there are no words to go by, and returns the exit status: 2 for a word that
/// is not UTF-8, and else 1. A write that fails changes nothing.
pub fn without_words<E: Write>(error: io::Error, errors: &mut E) -> u8
    ensures not_text { error_kind error ≡ InvalidData → result ≡ 2 }
    ensures other { error_kind error ≢ InvalidData → result ≡ 1 }
{
    if error.kind() == io::ErrorKind::InvalidData {
        let _ = writeln!(errors, "{NOT_TEXT}");
        return BAD_WORDS;
    }
    tell(Failure::Fault(Fault::from(error)), errors)
}

// Whether the words ask for the table of faults. The first is the program's own name.
fn ask_for_faults<S: AsStr>(words: &[S]) -> bool
    ensures { result ≡ ask_for_faults (map S.text words.now) }
{
    match words {
        [_name, first, second] => first.as_str() == "help" && second.as_str() == "faults",
        _ => false,
    }
}

// Prints that table.
fn show_faults<W: Write>(output: &mut W) -> Result<(), Failure> {
    write_faults(output)?;
    Ok(())
}

// Prints a help text that the words asked for.
fn show<W: Write>(answer: &clap::Error, output: &mut W) -> Result<(), Failure> {
    write!(output, "{answer}")?;
    output.flush()?;
    Ok(())
}
