//! What takes the place of standard input and output.

ghost use Rattle.std.specs.Prelude.{◌≡◌, map, IfOk};
ghost use Rattle.clap.specs.Words.{found_of, rows_of};
ghost use Rattle.rfb.specs.command.Values.{GivesInput, GivesPaths, as_lines};

use crate::options::given::word_in;
use clap::ArgMatches;
use std::alloc::{AllocError, Global};

/// What a command reads.
#[derive(Drop)]
pub enum Input<'a> {
    /// Standard input.
    Standard,
    /// The file of this path.
    File(&'a str),
    /// Words of the command line, as a line each.
    Lines(Vec<u8>),
}

/// What a command reads and writes.
#[derive(Drop)]
pub struct Paths<'a> {
    /// What is read.
    pub input: Input<'a>,
    /// The file that is written, if it is not standard output.
    pub output: Option<&'a str>,
}

/// What is named to be read and written.
pub fn paths_in<'a>(alloc: Global, given: &ArgMatches<'a>) -> Result<Paths<'a>, AllocError>
    ensures { IfOk result (GivesPaths (rows_of (found_of given.now))) }
{
    Ok(Paths {
        input: input_in(alloc, given)?,
        output: given.get_str("output"),
    })
}

// What is read: a file that is named, or else the words that are lines, if there are any.
fn input_in<'a>(alloc: Global, given: &ArgMatches<'a>) -> Result<Input<'a>, AllocError>
    ensures { IfOk result (GivesInput (rows_of (found_of given.now))) }
{
    if let Some(path) = word_in(given, "input") {
        return Ok(Input::File(path));
    }
    match given.get_strs("line") {
        Some(words) => Ok(Input::Lines(lines_of(alloc, words)?)),
        None => Ok(Input::Standard),
    }
}

// Words as lines, each with its end.
fn lines_of(alloc: Global, words: &[&str]) -> Result<Vec<u8>, AllocError>
    ensures { IfOk result (λ text. text.items ≡ as_lines (map (λ word. word.now) words.now)) }
{
    let mut text = Vec::new(alloc);
    for word in words {
        text.extend_from_slice(word.as_bytes())?;
        text.push(b'\n')?;
    }
    Ok(text)
}
