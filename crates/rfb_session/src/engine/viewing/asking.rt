//! What a viewer's events ask for: its answers, and requests where they are due.

ghost use Rattle.std.specs.Prelude.{◌≡◌, ◌≤◌, ◌<◌, ◌+◌, ◌-◌, ◌^◌, [], List, ℕ, IfOk, OnOk, OnErr};
ghost use Rattle.rfb_viewer.specs.Model.{StandsFor};
ghost use Rattle.rfb_viewer.specs.Told.{seen};
ghost use Rattle.rfb_viewer.specs.Viewer.{Viewing, ViewerState};
ghost use Rattle.rfb_session.specs.EngineRead.{HasAsked, IsAnswered, IsCutInAnswer, IsCutInAsking};
ghost use Rattle.rfb_session.specs.EngineRead.{MayAsk};
ghost use Rattle.rfb_session.specs.ViewEngine.{due_after};
ghost use Rattle.rfb_session.specs.ViewerActs.{ends_told, whole_area};
ghost use Rattle.rfb_session.specs.Wire.{by_steps};

use crate::engine::fault::Device;
use crate::engine::whole_write::send_over;
use crate::engine::wire::Wire;
use crate::reply::viewer_reply;
use rfb_picture::Rect;
use rfb_viewer::{Viewer, ViewerEvent};

// Writes what a viewer answers and the request that is due then, unless no further update is looked
// for. Returns how many are.
pub(super) fn answer<W: Wire>(
    event: &Option<ViewerEvent>,
    left: u32,
    wire: &mut W,
    viewer: &mut Viewer,
) -> Result<u32, Device>
    requires countable { (W.known wire.old).failed_writes < 2 ^ 64 - 1 }
    requires wanted { 0 < left }
    ensures answered { IfOk result (λ fewer. IsAnswered (by_steps W.steps)
        viewer.old (seen event.now) left fewer wire.old wire.new viewer.new) }
    ensures stopped { OnErr result (IsCutInAnswer (by_steps W.steps)
        viewer.old (seen event.now) wire.old wire.new viewer.new) }
    ensures none_failed { OnOk result
        ((W.known wire.new).failed_writes ≡ (W.known wire.old).failed_writes) }
    ensures one_failed { OnErr result
        ((W.known wire.new).failed_writes ≡ (W.known wire.old).failed_writes + 1) }
    ensures asked { MayAsk viewer.old viewer.new }
{
    send_over(viewer_reply(event), wire)?;
    let fewer = left - ended(event);
    if fewer == 0 {
        return Ok(0);
    }
    match due(event) {
        Some(incremental) => {
            ask(incremental, wire, viewer)?;
            Ok(fewer)
        }
        None => Ok(fewer),
    }
}

// Asks for the whole screen, and writes the request. Where the viewer refuses it there is nothing
// to write.
fn ask<W: Wire>(incremental: bool, wire: &mut W, viewer: &mut Viewer) -> Result<(), Device>
    requires countable { (W.known wire.old).failed_writes < 2 ^ 64 - 1 }
    ensures asked { OnOk result (HasAsked (by_steps W.steps) incremental
        viewer.old wire.old wire.new viewer.new) }
    ensures stopped { OnErr result (IsCutInAsking (by_steps W.steps) incremental
        viewer.old wire.old wire.new viewer.new) }
    ensures none_failed { OnOk result
        ((W.known wire.new).failed_writes ≡ (W.known wire.old).failed_writes) }
    ensures one_failed { OnErr result
        ((W.known wire.new).failed_writes ≡ (W.known wire.old).failed_writes + 1) }
{
    let area = screen(viewer);
    match viewer.request(incremental, area) {
        Ok(request) => send_over(&request, wire),
        Err(_) => Ok(()),
    }
}

// The whole screen; before there is one, an area without a place.
fn screen(viewer: &Viewer) -> Rect
    ensures { (viewing : Viewing) (s : ViewerState) → StandsFor viewing viewer.now s []
        → result ≡ whole_area s.picture }
{
    match viewer.picture() {
        Some(picture) => Rect::new(0, 0, picture.width(), picture.height()),
        None => Rect::new(0, 0, 0, 0),
    }
}

// How many updates end with it.
fn ended(event: &Option<ViewerEvent>) -> u32
    ensures told { result ≡ ends_told (seen event.now) }
    ensures few { result ≤ 1 }
{
    match event {
        Some(ViewerEvent::UpdateDone) => 1,
        Some(ViewerEvent::Reply(_))
        | Some(ViewerEvent::Ready { .. })
        | Some(ViewerEvent::Bell)
        | Some(ViewerEvent::CutText { .. })
        | Some(ViewerEvent::ColourMapSkipped)
        | None => 0,
    }
}

// Whether a request is due then, and whether it is one for what has changed.
fn due(event: &Option<ViewerEvent>) -> Option<bool>
    ensures { result ≡ due_after (seen event.now) }
{
    match event {
        Some(ViewerEvent::Ready { .. }) => Some(false),
        Some(ViewerEvent::UpdateDone) => Some(true),
        Some(ViewerEvent::Reply(_))
        | Some(ViewerEvent::Bell)
        | Some(ViewerEvent::CutText { .. })
        | Some(ViewerEvent::ColourMapSkipped)
        | None => None,
    }
}
