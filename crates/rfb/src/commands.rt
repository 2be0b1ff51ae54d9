//! The commands that there are: what each is called with, what it is asked for, and its function.

ghost use Rattle.std.specs.Prelude.{◌≡◌, ◌≢◌, All, None, Some, map, IfOk, IfSome, OnOk, OnErr};
ghost use Rattle.std.specs.Prelude.{MatchResult};
ghost use Rattle.clap.specs.Words.{found_of, rows_of, shape_of};
ghost use Rattle.rfb.specs.command.Program.{Does, HasBadValue, IsTask, Leaves};
ghost use Rattle.rfb.specs.command.Program.{name_of, shape_named};
ghost use Rattle.rfb.specs.command.ViewWords.{HasBadView};
ghost use Rattle.rfb.specs.command.Usage.{shape_for};
ghost use Rattle.rfb.specs.Context.{KeepsStreams};
ghost use Rattle.rfb.specs.declared.commands.Verb.TheVariants as Verb;

use crate::context::Context;
use crate::driving::{DRIVE, DriveOptions, drive_at, drive_options_in};
use crate::fault::Failure;
use crate::loopback::{LOOP, script_through_loopback};
use crate::options::BadValue;
use crate::options::given::is_given;
use crate::options::usage::{Usage, command_of};
use crate::play::{PLAY, PlayOptions, play_options_in, play_recording};
use crate::relaying::{RELAY, RelayOptions, relay_at, relay_options_in};
use crate::script::{SCRIPT, script};
use crate::serving::{SERVE, ServeOptions, serve_at, serve_options_in};
use crate::sharing::{SHARE, ShareOptions, share_at, share_options_in};
use crate::viewing::{
    FollowOptions, VIEW, ViewOptions, follow_at, follow_options_in, view_at, view_options_in,
};
use clap::{ArgMatches, Command};
use std::alloc::{AllocError, Global};
use std::fs::Files;
use std::io::{Read, Write};
use std::net::Net;
use std::time::Clock;

/// A command, by its name.
#[derive(Clone, Copy)]
pub enum Verb {
    Script,
    Loop,
    Play,
    Serve,
    View,
    Share,
    Relay,
    Drive,
}

/// The commands, in the order that help has them in.
pub const COMMANDS: &[Verb] = &[
    Verb::Script,
    Verb::Loop,
    Verb::Play,
    Verb::Serve,
    Verb::View,
    Verb::Share,
    Verb::Relay,
    Verb::Drive,
];

/// A command, and what it is asked for.
#[derive(Drop)]
pub enum Task<'a> {
    /// To run a script in memory.
    Script,
    /// To run a script over a connection.
    Loop,
    /// To play a recording.
    Play(PlayOptions),
    /// To serve the test scene or a picture.
    Serve(ServeOptions<'a>),
    /// To view a server.
    View(ViewOptions<'a>),
    /// To view it after each update.
    Follow(FollowOptions<'a>),
    /// To share a screen that a program draws.
    Share(ShareOptions<'a>),
    /// To relay a server.
    Relay(RelayOptions<'a>),
    /// To drive a server.
    Drive(DriveOptions<'a>),
}

impl Verb {
    // What it is called with.
    fn usage(self) -> &'static Usage<'static>
        ensures { shape_for result.now ≡ shape_named self }
    {
        match self {
            Verb::Script => SCRIPT,
            Verb::Loop => LOOP,
            Verb::Play => PLAY,
            Verb::Serve => SERVE,
            Verb::View => VIEW,
            Verb::Share => SHARE,
            Verb::Relay => RELAY,
            Verb::Drive => DRIVE,
        }
    }
}

impl Task<'_> {
    /// Whether what has come by an early end is wanted.
    pub fn is_partial(&self) -> bool {
        match self {
            Task::Play(options) => options.is_partial,
            Task::View(options) => options.sight.is_partial,
            Task::Script | Task::Loop | Task::Serve(_) | Task::Follow(_) => false,
            Task::Share(_) | Task::Relay(_) | Task::Drive(_) => false,
        }
    }
}

/// These commands, each with its words.
pub fn commands_of<'a>(alloc: Global, verbs: &[Verb]) -> Result<Vec<Command<'a>>, AllocError>
    ensures { IfOk result (λ commands.
        map shape_of commands.items ≡ map shape_named verbs.now) }
{
    let mut commands = Vec::with_capacity(alloc, verbs.len())?;
    for verb in verbs {
        commands.push(command_of(alloc, verb.usage())?)?;
    }
    Ok(commands)
}

/// The one of these commands that has this name, if one has.
pub fn verb_named(verbs: &[Verb], name: &str) -> Option<Verb>
    ensures named { IfSome result (λ verb. name.now ≡ name_of verb) }
    ensures none { result ≡ None → All (λ verb. name.now ≢ name_of verb) verbs.now }
{
    for verb in verbs {
        if name == verb.usage().name {
            return Some(*verb);
        }
    }
    None
}

/// What a command is asked for.
pub fn task_in<'a>(verb: Verb, given: &ArgMatches<'a>) -> Result<Task<'a>, BadValue<'a>>
    ensures { MatchResult result
        (IsTask (Some (name_of verb, rows_of (found_of given.now))))
        (λ _. HasBadValue (Some (name_of verb, rows_of (found_of given.now)))) }
{
    let task = match verb {
        Verb::Script => Task::Script,
        Verb::Loop => Task::Loop,
        Verb::Play => Task::Play(play_options_in(given)?),
        Verb::Serve => Task::Serve(serve_options_in(given)?),
        Verb::View => view_task_in(given)?,
        Verb::Share => Task::Share(share_options_in(given)),
        Verb::Relay => Task::Relay(relay_options_in(given)?),
        Verb::Drive => Task::Drive(drive_options_in(given)?),
    };
    Ok(task)
}

// What `view` is asked for: one picture, or one after each update.
fn view_task_in<'a>(given: &ArgMatches<'a>) -> Result<Task<'a>, BadValue<'a>>
    ensures { MatchResult result
        (IsTask (Some (name_of Verb.View, rows_of (found_of given.now))))
        (λ _. HasBadView (rows_of (found_of given.now))) }
{
    if is_given(given, "follow") {
        return Ok(Task::Follow(follow_options_in(given)?));
    }
    Ok(Task::View(view_options_in(given)?))
}

/// Does what a command is asked for.
pub fn run<P: AllocGlobal + Clock + Files + Net, R: Read, W: Write, E: Write>(
    context: &mut Context<P, R, W, E>,
    task: Task<'_>,
) -> Result<(), Failure>
    ensures done { OnOk result (Does P task.entry (R.remaining context.old.input.now)
        (W.contents context.old.output.now) (W.contents context.new.output.now)) }
    ensures left { OnErr result (Leaves P task.entry (R.remaining context.old.input.now)
        (W.contents context.old.output.now) (W.contents context.new.output.now)) }
    ensures same { KeepsStreams context.old context.new }
{
    match task {
        Task::Script => script(context),
        Task::Loop => script_through_loopback(context),
        Task::Play(options) => play_recording(context, options),
        Task::Serve(options) => serve_at(context, options),
        Task::View(options) => view_at(context, options),
        Task::Follow(options) => follow_at(context, options),
        Task::Share(options) => share_at(context, options),
        Task::Relay(options) => relay_at(context, options),
        Task::Drive(options) => drive_at(context, options),
    }
}
