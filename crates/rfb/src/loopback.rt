//! A script whose two ends talk over a connection of this process to itself.

ghost use Rattle.std.specs.Prelude.{◌≡◌, ℕ, Err, OnOk, OnErr, IfErr};
ghost use Rattle.rfb.specs.Plays.{FailsAt};
ghost use Rattle.rfb.specs.Context.{KeepsStreams};
ghost use Rattle.rfb.specs.Loopback.{LeavesSomePicture, PlaysSomeScript, WritesSomePicture};
ghost use Rattle.rfb.specs.Recording.{WritesPicture};
ghost use Rattle.rfb.specs.declared.fault.Failure.TheVariants as Failure;

mod arriving;
mod ends;
mod link;
mod sent;

use crate::context::Context;
use crate::explain::{Notes, tell_unlinked};
use crate::fault::{Failure, Fault};
use crate::help::Topic;
use crate::loopback::ends::Ends;
use crate::loopback::link::{Link, connected};
use crate::options::common::{INPUT, OUTPUT};
use crate::options::usage::Usage;
use crate::play::write_picture;
use crate::script::run::tell_step;
use crate::script::steps::{ALL, TURNS};
use crate::script::{Numbered, Script, Step, read_explained};
use rfb_session::{Event, Refused, dispose};
use std::io;
use std::io::{LineWriter, Read, Write};
use std::net::Net;

/// What `loop` is called with.
pub const LOOP: &Usage<'static> = &Usage {
    name: "loop",
    about: "Runs a script as `script` does, and delivers its bytes through a connection",
    topic: Topic::Loopback,
    words: &[INPUT, OUTPUT],
};

/// Runs the script that the input has, as `script` does, but that each delivery goes through a
/// loopback connection, in parts of at most 4,096 bytes. At a bad line nothing is written, and no
/// connection is made.
pub fn script_through_loopback<P: AllocGlobal + Net, R: Read, W: Write, E: Write>(
    context: &mut Context<P, R, W, E>,
) -> Result<(), Failure>
    ensures same { KeepsStreams context.old context.new }
    ensures done { OnOk result (PlaysSomeScript (R.remaining context.old.input.now)
        (W.contents context.old.output.now) (W.contents context.new.output.now)) }
    ensures stopped { IfErr result (FailsAt (R.remaining context.old.input.now)) }
    ensures unwritten { (n : ℕ) → result ≡ Err (Failure.BadLine n)
        → context.new.output.now ≡ context.old.output.now }
    ensures left { OnErr result (LeavesSomePicture
        (W.contents context.old.output.now) (W.contents context.new.output.now)) }
{
    let alloc = context.alloc();
    let mut text = Vec::new(alloc);
    context.input.read_to_end(&mut text)?;
    let notes = &mut Notes::new(context.errors, context.explains);
    let script = read_explained(alloc, &text, notes)?;
    run(context, &script)?;
    Ok(())
}

// Plays a script over a connection, and writes what the viewer shows then.
fn run<P: AllocGlobal + Net, R, W: Write, E: Write>(
    context: &mut Context<P, R, W, E>,
    script: &Script,
) -> Result<(), Fault>
    ensures done { OnOk result (WritesSomePicture
        (W.contents context.old.output.now) (W.contents context.new.output.now)) }
    ensures left { OnErr result (LeavesSomePicture
        (W.contents context.old.output.now) (W.contents context.new.output.now)) }
    ensures same { KeepsStreams context.old context.new }
{
    let notes = &mut Notes::new(context.errors, context.explains);
    let mut link = connected_or_told(context.rt, notes)?;
    let mut ends = Ends::new(context.alloc(), script.screen, &script.wants)?;
    let finished = finish(context, &mut ends, &mut link, &script.steps);
    dispose(ends);
    dispose(link);
    finished
}

// A connection of this process to itself. Where there is none, it says why.
fn connected_or_told<P: Net, N: Write>(net: &P, notes: &mut N) -> io::Result<Link<P::Stream>> {
    let connected = connected(net);
    if let Err(error) = &connected {
        tell_unlinked(error, notes);
    }
    connected
}

// Takes all steps, and writes what the viewer shows then.
fn finish<P: AllocGlobal, R, W: Write, E: Write, C: Read + Write>(
    context: &mut Context<P, R, W, E>,
    ends: &mut Ends,
    link: &mut Link<C>,
    steps: &[Numbered],
) -> Result<(), Fault>
    ensures done { OnOk result (WritesPicture ends.new.viewer
        (W.contents context.old.output.now) (W.contents context.new.output.now)) }
    ensures left { OnErr result (LeavesSomePicture
        (W.contents context.old.output.now) (W.contents context.new.output.now)) }
    ensures same { KeepsStreams context.old context.new }
{
    let explains = context.explains;
    let mut refusals = LineWriter::new(context.alloc(), &mut *context.errors)?;
    let played = play_all(ends, link, steps, explains, &mut refusals);
    // It holds the stream of errors.
    drop(refusals);
    played?;
    write_picture(&ends.viewer, context.output)
}

// Takes all steps. Each that is refused is reported, in one write, and does not end the script.
fn play_all<C: Read + Write, L: Write>(
    ends: &mut Ends,
    link: &mut Link<C>,
    steps: &[Numbered],
    explains: bool,
    refusals: &mut L,
) -> Result<(), Fault> {
    for numbered in steps {
        let refused = play(ends, link, numbered)?;
        tell_step(numbered.line, refused, explains, refusals);
    }
    Ok(())
}

// Takes a step, and answers its refusal, if it was refused. Deliveries never are.
fn play<C: Read + Write>(
    ends: &mut Ends,
    link: &mut Link<C>,
    numbered: &Numbered,
) -> Result<Option<Refused>, Fault> {
    match &numbered.step {
        Step::Event(Event::ToServer(count)) => ends.deliver_to_server(*count, link)?,
        Step::Event(Event::ToViewer(count)) => ends.deliver_to_viewer(*count, link)?,
        Step::Event(event) => return ends.take(event),
        Step::Settle => settle(ends, link)?,
    }
    Ok(None)
}

// Makes sixteen deliveries.
fn settle<C: Read + Write>(ends: &mut Ends, link: &mut Link<C>) -> Result<(), Fault> {
    for _turn in 0..TURNS {
        ends.deliver_to_server(ALL, link)?;
        ends.deliver_to_viewer(ALL, link)?;
    }
    Ok(())
}
