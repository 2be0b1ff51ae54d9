//! A script at work: both ends in memory, and what a step does to them.

ghost use Rattle.std.specs.Prelude.{◌≡◌, ◌≢◌, None, IfOk, OnOk};
ghost use Rattle.rfb.specs.declared.script.line.Step.TheVariants.{Settle};
ghost use Rattle.rfb.specs.Few.{HasFew};
ghost use Rattle.rfb.specs.ScriptRun.{StandsFresh, TakesStep, TellsRefusal, encodings_of};
ghost use Rattle.rfb.specs.ScriptRun.{format_of};

use crate::defaults::{copy_of, fresh_server, fresh_viewer, only_raw};
use crate::fault::Fault;
use crate::script::{Step, Wants};
use arrayvec::ArrayVec;
use rfb_pixel::Format;
use rfb_session::language::Screen;
use rfb_session::{Event, NoMemory, Refused, World};
use rfb_wire::Encoding;
use std::alloc::Global;

/// How often a `settle` delivers, each way.
pub const TURNS: u32 = 8;

/// More bytes than are ever in flight one way.
pub const ALL: u32 = u32::MAX;

/// A world of two ends of version 3.8: a server with a black screen that is named `rfb`, and a
/// viewer that asks for a shared screen. It wants Raw at rgb888 where nothing else is said.
pub fn fresh_world(alloc: Global, screen: Screen, wants: &Option<Wants>) -> Result<World, Fault>
    ensures { IfOk result (StandsFresh screen wants.now) }
{
    let server = fresh_server(alloc, screen)?;
    let (format, encodings) = wishes(wants);
    let viewer = fresh_viewer(alloc, format, encodings);
    let world = World::new(alloc, server, viewer)?;
    Ok(world)
}

/// The format and the encodings of the viewer.
pub fn wishes(wants: &Option<Wants>) -> (Format, ArrayVec<Encoding, 4>)
    ensures format { result.0 ≡ format_of wants.now }
    ensures encodings { result.1.items ≡ encodings_of wants.now }
{
    match wants {
        Some(wants) => (wants.format, copy_of(&wants.encodings)),
        None => (Format::rgb888(), only_raw()),
    }
}

/// Takes a step, and answers its refusal, if it was refused; then nothing has changed. A `settle`
/// never is.
pub fn play(world: &mut World, step: &Step) -> Result<Option<Refused>, NoMemory>
    requires few { HasFew step.now }
    ensures taken { IfOk result (λ refused. TakesStep world.old step.now world.new) }
    ensures told { IfOk result (TellsRefusal world.old step.now) }
    ensures kept { IfOk result (λ refused. refused ≢ None → world.new ≡ world.old) }
{
    match step {
        Step::Event(event) => Ok(world.step(event)?.refused),
        Step::Settle => {
            settle(world)?;
            Ok(None)
        }
    }
}

// Makes sixteen deliveries.
fn settle(world: &mut World) -> Result<(), NoMemory>
    ensures { OnOk result (TakesStep world.old Settle world.new) }
{
    let both_ways = [Event::ToServer(ALL), Event::ToViewer(ALL)];
    for _turn in 0..TURNS {
        world.run(&both_ways)?;
    }
    Ok(())
}
