//! What words ask for is done, with files in place of standard input and output where they are
//! named.

ghost use Rattle.std.specs.Prelude.{◌≡◌, ◌⊎◌, ℕ, List, Option, OnOk, OnErr};
ghost use Rattle.rfb.specs.CommandLine.{IntoFile, Through};
ghost use Rattle.rfb.specs.command.Program.{Does, Leaves};
ghost use Rattle.rfb.specs.Context.{KeepsStreams};

mod source;
pub mod target;

use crate::commands::{Task, run};
use crate::context::Context;
use crate::explain::{Notes, tell_terminal, tell_unread, tell_unwritten};
use crate::fault::{Failure, Fault};
use crate::options::{Input, Order, Paths};
use crate::working::source::Source;
use crate::working::target::{Target, open_target};
use std::fs::{File, Files, OpenFile};
use std::io::{IsTerminal, Read, Write};
use std::net::Net;
use std::time::Clock;

/// Does what an order asks for. A file that is named is read in place of the input, and so are
/// words that are lines. Where a file cannot be opened, or not be read or written whole, sentences
/// say so.
pub fn work_through<P: AllocGlobal + Clock + Files + Net, R: Read, W: Write, E: Write>(
    context: &mut Context<P, R, W, E>,
    order: Order<'_>,
) -> Result<(), Failure>
where
    P::File: IsTerminal,
    ensures done { OnOk result (Through order.entry.paths (Does P order.entry.task)
        (R.remaining context.old.input.now)
        (W.contents context.old.output.now) (W.contents context.new.output.now)) }
    ensures left { OnErr result ((context.new.output.now ≡ context.old.output.now)
        ⊎ Through order.entry.paths (Leaves P order.entry.task)
        (R.remaining context.old.input.now)
        (W.contents context.old.output.now) (W.contents context.new.output.now)) }
    ensures same { KeepsStreams context.old context.new }
{
    let Order { task, paths } = order;
    let Paths { input, output } = paths;
    match input {
        Input::Standard => work_into(context, task, output),
        Input::File(path) => work_from(context, task, path, output),
        Input::Lines(text) => {
            let mut lines = text.as_slice();
            let mut inner = Context {
                rt: context.rt,
                input: &mut lines,
                output: &mut *context.output,
                errors: &mut *context.errors,
                explains: context.explains,
            };
            work_into(&mut inner, task, output)
        }
    }
}

// Does a task that reads the file of this path.
fn work_from<P: AllocGlobal + Clock + Files + Net, R: Read, W: Write, E: Write>(
    context: &mut Context<P, R, W, E>,
    task: Task<'_>,
    path: &str,
    output: Option<&str>,
) -> Result<(), Failure>
where
    P::File: IsTerminal,
    ensures done { OnOk result ((bytes : Option (List ℕ)) × IntoFile output.entry
        (Does P task.entry bytes)
        (W.contents context.old.output.now) (W.contents context.new.output.now)) }
    ensures left { OnErr result ((context.new.output.now ≡ context.old.output.now)
        ⊎ ((bytes : Option (List ℕ)) × IntoFile output.entry (Leaves P task.entry bytes)
        (W.contents context.old.output.now) (W.contents context.new.output.now))) }
    ensures same { KeepsStreams context.old context.new }
{
    match File::open(context.rt, path) {
        Ok(file) => {
            let mut source = Source::new(file);
            let mut inner = Context {
                input: &mut source,
                rt: context.rt,
                output: &mut *context.output,
                errors: &mut *context.errors,
                explains: context.explains,
            };
            let done = work_into(&mut inner, task, output);
            source.tell_failure(path, &mut Notes::new(context.errors, context.explains));
            done
        }
        Err(error) => {
            let notes = &mut Notes::new(context.errors, context.explains);
            tell_unread(path, &error, notes);
            Err(Failure::from(error))
        }
    }
}

// Does a task. A file that is named is written in place of the output, unless it is a terminal. It
// is kept where all is written; or where what came by an early end is wanted, and some of it was
// written.
fn work_into<P: AllocGlobal + Clock + Files + Net, R: Read, W: Write, E: Write>(
    context: &mut Context<P, R, W, E>,
    task: Task<'_>,
    path: Option<&str>,
) -> Result<(), Failure>
where
    P::File: IsTerminal,
    ensures done { OnOk result (IntoFile path.entry
        (Does P task.entry (R.remaining context.old.input.now))
        (W.contents context.old.output.now) (W.contents context.new.output.now)) }
    ensures left { OnErr result ((context.new.output.now ≡ context.old.output.now)
        ⊎ IntoFile path.entry (Leaves P task.entry (R.remaining context.old.input.now))
        (W.contents context.old.output.now) (W.contents context.new.output.now)) }
    ensures same { KeepsStreams context.old context.new }
{
    let Some(path) = path else {
        return run(context, task);
    };
    match open_target(context.rt, path) {
        Ok(target) if target.file.is_terminal() => {
            let notes = &mut Notes::new(context.errors, context.explains);
            tell_terminal(path, notes);
            Err(Failure::Fault(Fault::Device))
        }
        Ok(mut target) => {
            let is_partial = task.is_partial();
            let mut inner = Context {
                rt: context.rt,
                input: &mut *context.input,
                output: &mut target,
                errors: &mut *context.errors,
                explains: context.explains,
            };
            let ended = run(&mut inner, task);
            let notes = &mut Notes::new(context.errors, context.explains);
            target.tell_failure(path, notes);
            close(context.rt, target, path, ended, is_partial, notes)
        }
        Err(error) => {
            let notes = &mut Notes::new(context.errors, context.explains);
            tell_unwritten(path, &error, notes);
            Err(Failure::from(error))
        }
    }
}

// Keeps what was written, or gives it up.
fn close<P: Files, F: OpenFile + Drop, N: Write>(
    rt: &P,
    target: Target<F>,
    path: &str,
    ended: Result<(), Failure>,
    is_partial: bool,
    notes: &mut N,
) -> Result<(), Failure>
    ensures { OnOk result (result ≡ ended) }
{
    let is_kept = match ended {
        Ok(()) => true,
        Err(failure) => is_partial && failure.is_early() && target.has_bytes(),
    };
    if !is_kept {
        target.give_up(rt);
        return ended;
    }
    match target.keep(rt) {
        Ok(()) => ended,
        Err(error) => {
            target.give_up(rt);
            tell_unwritten(path, &error, notes);
            Err(Failure::from(error))
        }
    }
}
