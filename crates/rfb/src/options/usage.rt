//! What a command is called with, as a table has it: its name, its texts and its words.

ghost use Rattle.std.specs.Prelude.{◌≡◌, pos, false, map, IfOk};
ghost use Rattle.clap.specs.declared.builder.value_parser.ValueParser.TheVariants.{Signed};
ghost use Rattle.clap.specs.Words.{rule_of, shape_of};
ghost use Rattle.rfb.specs.command.Usage.{marked, numbered, rule_for, shape_for, valued};

use crate::help::Topic;
use clap::builder::ValueParser;
use clap::{Arg, ArgAction, Command};
use std::alloc::{AllocError, Global};

/// A command.
pub struct Usage<'a> {
    /// Its name.
    pub name: &'a str,
    /// What it does, in a line.
    pub about: &'a str,
    /// What comes below its words in its help.
    pub topic: Topic,
    /// The words that it takes.
    pub words: &'a [Word<'a>],
}

/// A word of a command.
pub struct Word<'a> {
    /// Its name.
    pub name: &'a str,
    /// How it begins.
    pub mark: Mark,
    /// What follows it.
    pub takes: Takes<'a>,
    /// What it is for, in a line.
    pub help: &'a str,
}

// A word that begins with two hyphens and its name: what follows it, and what it is for.
macro_rules! long {
    ($name:expr, $takes:expr, $help:expr) => {
        Word {
            name: $name,
            mark: Mark::Long,
            takes: $takes,
            help: $help,
        }
    };
}

pub(crate) use long;

/// How a word begins.
pub enum Mark {
    /// With two hyphens and its name.
    Long,
    /// With these, or with one hyphen and this letter.
    LongOr(char),
    /// With nothing: it is the value itself.
    Alone,
}

/// What follows a word, each with the name that it has in help.
pub enum Takes<'a> {
    /// Nothing: it is there or not.
    Nothing,
    /// A text.
    Text(&'a str),
    /// A text; without the word it is the second one here.
    TextOr(&'a str, &'a str),
    /// The same. The word has to be there.
    NeededText(&'a str),
    /// As many texts as there are.
    Texts(&'a str),
    /// A number from 1 to this one.
    Number(&'a str, u32),
    /// The same; without the word it is the one that the text spells.
    NumberOr(&'a str, u32, &'a str),
    /// The same. The word has to be there.
    Needed(&'a str, u32),
}

/// A command with its words.
pub fn command_of<'a>(alloc: Global, usage: &Usage<'a>) -> Result<Command<'a>, AllocError>
    ensures { IfOk result (λ command. shape_of command ≡ shape_for usage.now) }
{
    let args = args_of(alloc, usage.words)?;
    Command::new(alloc, usage.name)
        .about(usage.about)
        .after_help(usage.topic.text())
        .args(args)
}

// These words.
fn args_of<'a>(alloc: Global, words: &[Word<'a>]) -> Result<Vec<Arg<'a>>, AllocError>
    ensures rules { IfOk result (λ args. map rule_of args.items ≡ map rule_for words.now) }
    ensures local { IfOk result (λ args.
        map (λ arg. arg.global) args.items ≡ map (λ _. false) words.now) }
{
    let mut args = Vec::with_capacity(alloc, words.len())?;
    for word in words {
        args.push(arg_of(alloc, word))?;
    }
    Ok(args)
}

// A word, and what follows it.
fn arg_of<'a>(alloc: Global, word: &Word<'a>) -> Arg<'a>
    ensures rule { rule_of result ≡ rule_for word.now }
    ensures local { result.global ≡ false }
{
    match word.takes {
        Takes::Nothing => named(alloc, word).action(ArgAction::SetTrue),
        Takes::Text(value) => valued(alloc, word, value),
        Takes::TextOr(value, default) => valued(alloc, word, value).default_value(default),
        Takes::NeededText(value) => valued(alloc, word, value).required(true),
        Takes::Texts(value) => valued(alloc, word, value).action(ArgAction::Append),
        Takes::Number(value, most) => numbered(alloc, word, value, most),
        Takes::NumberOr(value, most, default) => {
            numbered(alloc, word, value, most).default_value(default)
        }
        Takes::Needed(value, most) => numbered(alloc, word, value, most).required(true),
    }
}

// A word that a number up to this one follows.
fn numbered<'a>(alloc: Global, word: &Word<'a>, value: &'a str, most: u32) -> Arg<'a>
    ensures rule { rule_of result ≡ numbered most (marked word.now.mark word.now.name.now) }
    ensures local { result.global ≡ false }
{
    valued(alloc, word, value).value_parser(up_to(most))
}

// The numbers from 1 to this one.
fn up_to<'a>(most: u32) -> ValueParser<'a>
    ensures { result ≡ Signed (pos 1) (pos most) }
{
    clap::value_parser!(u32).range(1..=i64::from(most))
}

// A word that something follows.
fn valued<'a>(alloc: Global, word: &Word<'a>, value: &'a str) -> Arg<'a>
    ensures rule { rule_of result ≡ valued (marked word.now.mark word.now.name.now) }
    ensures local { result.global ≡ false }
{
    named(alloc, word).value_name(value)
}

// A word, as it begins.
fn named<'a>(alloc: Global, word: &Word<'a>) -> Arg<'a>
    ensures rule { rule_of result ≡ marked word.now.mark word.now.name.now }
    ensures local { result.global ≡ false }
{
    let arg = Arg::new(alloc, word.name).help(word.help);
    match word.mark {
        Mark::Long => arg.long(word.name),
        Mark::LongOr(letter) => arg.long(word.name).short(letter),
        Mark::Alone => arg,
    }
}
