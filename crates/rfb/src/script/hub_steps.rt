//! A hub's script at work: a fresh hub, and what a step does to it.

ghost use Rattle.std.specs.Prelude.{◌≡◌, ◌≢◌, false, None, Some, IfOk, bit_or, OnOk};
ghost use Rattle.rfb_hello.specs.declared.version.Version.TheVariants.{V38};
ghost use Rattle.rfb_picture.specs.Grid.{uniform};
ghost use Rattle.rfb_server.specs.Server.{black};
ghost use Rattle.rfb_server.specs.Model.{serving_with};
ghost use Rattle.rfb_session.specs.Hub.{HasFewHubBytes, HubStands, IsEmptyHub, seat_in, serving_in};
ghost use Rattle.rfb_session.specs.HubSteps.{HubSteps};
ghost use Rattle.rfb_session.specs.declared.hub.event.HubEvent.TheVariants as HubEvent;
ghost use Rattle.rfb.specs.Few.{HasFewInHub};
ghost use Rattle.rfb.specs.HubRun.{LeadsHub, TellsLine, deliveries_in, hub_events_of};
ghost use Rattle.rfb.specs.HubRun.{or_refusal};
ghost use Rattle.rfb.specs.ScriptRun.{name};
ghost use Rattle.rfb.specs.declared.fault.Fault.TheVariants as Fault;

use crate::defaults::TEXT_LIMIT;
use crate::fault::Fault;
use crate::script::HubStep;
use crate::script::steps::{ALL, TURNS};
use rfb_hello::Version;
use rfb_session::language::Screen;
use rfb_session::{Hub, HubEvent, HubFault, HubSetup, HubTold, NoMemory, SlotEvent};
use std::alloc::{AllocError, Global};

/// What became of a line.
#[derive(Clone, Copy)]
pub struct LineTold {
    /// The first refusal of one of its events, if one was refused.
    pub refused: Option<HubFault>,
    /// Bit s is set for each slot s that one of them emptied.
    pub ended: u8,
}

// What became of a line of no event.
const NOTHING: LineTold = LineTold {
    refused: None,
    ended: 0,
};

/// A hub with a black screen that is named `rfb`, and whose sessions are of version 3.8.
pub fn fresh_hub(alloc: Global, screen: Screen) -> Result<Hub, AllocError>
    ensures empty { IfOk result IsEmptyHub }
    ensures black { IfOk result (λ hub. hub.screen ≡ uniform screen.width screen.height black) }
    ensures made { IfOk result (λ hub.
        serving_in hub ≡ serving_with V38 screen.width screen.height name 1024) }
    ensures stands { IfOk result HubStands }
{
    let setup = HubSetup {
        width: screen.width,
        height: screen.height,
        name: b"rfb",
        offer: Version::V38,
        text_limit: TEXT_LIMIT,
    };
    Hub::of(alloc, setup)
}

/// Takes a step, and returns what became of it.
pub fn play_in_hub(hub: &mut Hub, step: &HubStep) -> Result<LineTold, NoMemory>
    requires few { HasFewInHub step.now }
    ensures leads { OnOk result (LeadsHub hub.old (hub_events_of step.now) hub.new) }
    ensures told { IfOk result (λ told. TellsLine hub.old (hub_events_of step.now) told hub.new) }
{
    match step {
        HubStep::Event(event) => Ok(with(NOTHING, hub.step(event)?)),
        HubStep::Settle(slot) => settle(hub, *slot),
    }
}

// Makes sixteen deliveries in a slot.
fn settle(hub: &mut Hub, slot: u8) -> Result<LineTold, NoMemory>
    ensures leads { OnOk result (LeadsHub hub.old (deliveries_in slot 8) hub.new) }
    ensures told { IfOk result (λ told. TellsLine hub.old (deliveries_in slot 8) told hub.new) }
{
    let mut all = NOTHING;
    for _turn in 0..TURNS {
        let server = step_in(hub, slot, SlotEvent::ToServer(ALL))?;
        let viewer = step_in(hub, slot, SlotEvent::ToViewer(ALL))?;
        all = with(with(all, server), viewer);
    }
    Ok(all)
}

// Takes an event of a slot.
fn step_in(hub: &mut Hub, slot: u8, event: SlotEvent) -> Result<HubTold, NoMemory>
    requires few { HasFewHubBytes (HubEvent.Of slot event) }
    ensures steps { IfOk result (λ told. HubSteps hub.old (HubEvent.Of slot event) told hub.new) }
    ensures stands { HubStands hub.old → OnOk result (HubStands hub.new) }
{
    hub.step(&HubEvent::Of(slot, event))
}

// What became of a line of one event more.
fn with(all: LineTold, told: HubTold) -> LineTold
    ensures refused { result.refused ≡ or_refusal all.refused told.refused }
    ensures ended { result.ended ≡ bit_or all.ended told.ended }
{
    let refused = match all.refused {
        Some(_) => all.refused,
        None => told.refused,
    };
    LineTold {
        refused,
        ended: all.ended | told.ended,
    }
}

/// Why the viewer of a slot shows nothing: there is none, or it has no screen yet.
pub fn why_nothing(hub: &Hub, slot: u8) -> Fault
    ensures empty { seat_in hub.now slot ≡ None → result ≡ Fault.NoSuchSlot }
    ensures taken { seat_in hub.now slot ≢ None → result ≡ Fault.NotReady }
{
    if hub.is_taken(slot) {
        return Fault::NotReady;
    }
    Fault::NoSuchSlot
}
