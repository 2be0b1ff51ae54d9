//! A script from its bytes to its picture.

ghost use Rattle.std.specs.Prelude.{◌≡◌, ◌⊎◌, ℕ, Err, OnOk, OnErr, IfErr};
ghost use Rattle.rfb.specs.declared.fault.Failure.TheVariants as Failure;
ghost use Rattle.rfb.specs.Plays.{FailsAtAny, LeavesPlayed, LeavesScript, PlaysScript};
ghost use Rattle.rfb.specs.Plays.{ShowsTo, WritesPlayed, WritesShown};
ghost use Rattle.rfb.specs.Context.{KeepsStreams};
ghost use Rattle.rfb.specs.ScriptRun.{TakesAll, ends_of};
ghost use Rattle.rfb_session.specs.Devices.{AppendsBeginning};
ghost use Rattle.rfb_session.specs.InFlight.{AreMade};

use crate::context::Context;
use crate::explain::Notes;
use crate::fault::{Failure, Fault};
use crate::help::Topic;
use crate::options::common::{INPUT, OUTPUT};
use crate::options::usage::Usage;
use crate::script::cause::tell_bad_hub_line;
use crate::script::run_hub::run_hub;
use crate::script::steps::{fresh_world, play};
use crate::script::{Numbered, Script, begins_hub, read_explained, read_hub_script};
use crate::writing::write_ppm;
use rfb_session::{HubFault, Refused, World, dispose};
use std::alloc::Global;
use std::io::{LineWriter, Read, Write};

/// What `script` is called with.
pub const SCRIPT: &Usage<'static> = &Usage {
    name: "script",
    about: "Runs a script from standard input, and writes the viewer's picture as PPM",
    topic: Topic::Language,
    words: &[INPUT, OUTPUT],
};

/// Runs the script that the input has, between a server and a viewer in memory, and writes the
/// viewer's picture. Of a hub's script that is the picture of the slot that its last line names. At
/// a bad line nothing is written. If sentences are wanted, one says why a line is bad.
pub fn script<P: AllocGlobal, R: Read, W: Write, E: Write>(
    context: &mut Context<P, R, W, E>,
) -> Result<(), Failure>
    ensures done { OnOk result (PlaysScript (R.remaining context.old.input.now)
        (W.contents context.old.output.now) (W.contents context.new.output.now)) }
    ensures stopped { IfErr result (FailsAtAny (R.remaining context.old.input.now)) }
    ensures unwritten { (n : ℕ) → result ≡ Err (Failure.BadLine n)
        → context.new.output.now ≡ context.old.output.now }
    ensures left { OnErr result (LeavesScript (R.remaining context.old.input.now)
        (W.contents context.old.output.now) (W.contents context.new.output.now)) }
    ensures same { KeepsStreams context.old context.new }
{
    let alloc = context.alloc();
    let mut text = Vec::new(alloc);
    context.input.read_to_end(&mut text)?;
    let lines = text.as_slice();
    let notes = &mut Notes::new(context.errors, context.explains);
    if begins_hub(lines) {
        let read = read_hub_script(alloc, lines);
        if let Err(Failure::BadLine(number)) = &read {
            tell_bad_hub_line(lines, *number, notes);
        }
        let hub = read?;
        run_hub(context, &hub)?;
        return Ok(());
    }
    let script = read_explained(alloc, lines, notes)?;
    run(context, &script)?;
    Ok(())
}

// Plays a script from two fresh ends, and writes what the viewer shows then.
fn run<P: AllocGlobal, R, W: Write, E: Write>(
    context: &mut Context<P, R, W, E>,
    script: &Script,
) -> Result<(), Fault>
    ensures done { AreMade (ends_of script.now.screen script.now.wants) → OnOk result
        (WritesPlayed script.now.screen script.now.wants script.now.steps.items
        (W.contents context.old.output.now) (W.contents context.new.output.now)) }
    ensures left { AreMade (ends_of script.now.screen script.now.wants) → OnErr result
        (LeavesPlayed script.now.screen script.now.wants script.now.steps.items
        (W.contents context.old.output.now) (W.contents context.new.output.now)) }
    ensures same { KeepsStreams context.old context.new }
{
    let mut world = fresh_world(context.alloc(), script.screen, &script.wants)?;
    let finished = finish(context, &mut world, &script.steps);
    dispose(world);
    finished
}

// Takes all steps, and writes what the viewer shows then.
fn finish<P: AllocGlobal, R, W: Write, E: Write>(
    context: &mut Context<P, R, W, E>,
    world: &mut World,
    steps: &[Numbered],
) -> Result<(), Fault>
    ensures taken { OnOk result (TakesAll world.old steps.now world.new) }
    ensures shown { OnOk result (WritesShown world.new
        (W.contents context.old.output.now) (W.contents context.new.output.now)) }
    ensures left { OnErr result ((context.new.output.now ≡ context.old.output.now)
        ⊎ (TakesAll world.old steps.now world.new
        × ShowsTo (AppendsBeginning (W.contents context.old.output.now)
        (W.contents context.new.output.now)) world.new)) }
    ensures same { KeepsStreams context.old context.new }
{
    play_all(
        context.alloc(),
        world,
        steps,
        context.errors,
        context.explains,
    )?;
    let picture = world.picture().ok_or(Fault::NotReady)?;
    write_ppm(picture, context.output)?;
    Ok(())
}

// Takes all steps. Each that is refused is reported on `errors`, in one write, and does not end the
// script.
fn play_all<E: Write>(
    alloc: Global,
    world: &mut World,
    steps: &[Numbered],
    errors: &mut E,
    explains: bool,
) -> Result<(), Fault>
    ensures { OnOk result (TakesAll world.old steps.now world.new) }
{
    let mut refusals = LineWriter::new(alloc, errors)?;
    for numbered in steps {
        let refused = play(world, &numbered.step)?;
        tell_step(numbered.line, refused, explains, &mut refusals);
    }
    Ok(())
}

/// Prints why the step of a line was refused, if it was, as `tell_refusal` does.
pub fn tell_step<W: Write>(line: u64, refused: Option<Refused>, explains: bool, refusals: &mut W) {
    if let Some(refused) = refused {
        tell_refusal(line, HubFault::from(refused), explains, refusals);
    }
}

/// Prints why the step of a line was refused, with a sentence if any are wanted. A write that fails
/// changes nothing.
pub fn tell_refusal<W: Write>(line: u64, refused: HubFault, explains: bool, refusals: &mut W) {
    if explains {
        let _ = writeln!(
            refusals,
            "rfb: line {line} of the script {}",
            why_refused(refused)
        );
    }
    let _ = writeln!(refusals, "line {line}: refused {refused}");
}

// What a line that is refused does, as a person would say it.
fn why_refused(refused: HubFault) -> &'static str {
    match refused {
        HubFault::Outside => "leaves the screen, so it changes nothing",
        HubFault::NotReady => "needs a viewer whose handshake is done, which `settle` delivers",
        HubFault::Busy => "comes while a request is not answered, or an update is under way",
        HubFault::AreaOutside => "asks for no place, or for places beside the screen",
        HubFault::SlotTaken => "lets a viewer join a slot that has one",
        HubFault::NoSuchSlot => "names a slot that has no viewer",
    }
}
