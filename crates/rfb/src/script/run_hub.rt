//! A hub's script from its steps to its picture.

ghost use Rattle.std.specs.Prelude.{◌≡◌, ◌⊎◌, OnErr, OnOk};
ghost use Rattle.std.specs.Io.KnownBytes.{Appends};
ghost use Rattle.rfb_session.specs.Devices.{AppendsBeginning};
ghost use Rattle.rfb.specs.Plays.{HubPlayedTo, ShowsSlotTo};
ghost use Rattle.rfb.specs.Context.{KeepsStreams};
ghost use Rattle.rfb.specs.HubRun.{LeadsHub, hub_events};

use crate::context::Context;
use crate::fault::Fault;
use crate::script::hub_steps::{LineTold, fresh_hub, play_in_hub, why_nothing};
use crate::script::run::tell_refusal;
use crate::script::{HubNumbered, HubScript};
use crate::writing::write_ppm;
use rfb_session::{Hub, SLOTS};
use std::alloc::Global;
use std::io::{LineWriter, Write};

/// Plays a hub's script from a fresh hub, and writes what the viewer that it names shows then.
pub fn run_hub<P: AllocGlobal, R, W: Write, E: Write>(
    context: &mut Context<P, R, W, E>,
    script: &HubScript,
) -> Result<(), Fault>
    ensures done { OnOk result (HubPlayedTo
        (Appends (W.contents context.old.output.now) (W.contents context.new.output.now))
        script.now.screen script.now.steps.items script.now.shown) }
    ensures left { OnErr result
        ((W.contents context.new.output.now ≡ W.contents context.old.output.now)
        ⊎ HubPlayedTo (AppendsBeginning (W.contents context.old.output.now)
        (W.contents context.new.output.now))
        script.now.screen script.now.steps.items script.now.shown) }
    ensures same { KeepsStreams context.old context.new }
{
    let mut hub = fresh_hub(context.alloc(), script.screen)?;
    finish(context, &mut hub, script)
}

// Takes all steps, and writes what the viewer shows then.
fn finish<P: AllocGlobal, R, W: Write, E: Write>(
    context: &mut Context<P, R, W, E>,
    hub: &mut Hub,
    script: &HubScript,
) -> Result<(), Fault>
    ensures led { OnOk result (LeadsHub hub.old (hub_events script.now.steps.items) hub.new) }
    ensures shown { OnOk result (ShowsSlotTo
        (Appends (W.contents context.old.output.now) (W.contents context.new.output.now))
        script.now.shown hub.new) }
    ensures left { OnErr result ((context.new.output.now ≡ context.old.output.now)
        ⊎ (LeadsHub hub.old (hub_events script.now.steps.items) hub.new
        × ShowsSlotTo (AppendsBeginning (W.contents context.old.output.now)
        (W.contents context.new.output.now)) script.now.shown hub.new)) }
    ensures same { KeepsStreams context.old context.new }
{
    play_all(
        context.alloc(),
        hub,
        &script.steps,
        context.errors,
        context.explains,
    )?;
    if let Some(picture) = hub.picture(script.shown) {
        return write_ppm(picture, context.output);
    }
    Err(why_nothing(hub, script.shown))
}

// Takes all steps. What became of each is reported on `errors`.
fn play_all<E: Write>(
    alloc: Global,
    hub: &mut Hub,
    steps: &[HubNumbered],
    errors: &mut E,
    explains: bool,
) -> Result<(), Fault>
    ensures { OnOk result (LeadsHub hub.old (hub_events steps.now) hub.new) }
{
    let mut lines = LineWriter::new(alloc, errors)?;
    for numbered in steps {
        let told = play_in_hub(hub, &numbered.step)?;
        tell_line(numbered.line, told, explains, &mut lines);
    }
    Ok(())
}

// Prints why a line was refused, if it was, and which slots it emptied, the first ones first. A
// write that fails changes nothing.
fn tell_line<W: Write>(line: u64, told: LineTold, explains: bool, lines: &mut W) {
    if let Some(refused) = told.refused {
        tell_refusal(line, refused, explains, lines);
    }
    for slot in 0..SLOTS {
        if told.ended & (1 << slot) != 0 {
            let _ = writeln!(lines, "line {line}: ended {slot}");
        }
    }
}
