//! Growths that are refused: the hub is closed then, and shows what it showed. Where each
//! allocation fails in turn, this test passes all the same.

ghost use Rattle.std.specs.Prelude.{IfOk};
ghost use Rattle.rfb_session.specs.Hub.{HasFewHubBytes};

use super::*;

const BOTH: Rect = Rect {
    x: 0,
    y: 0,
    w: 2,
    h: 1,
};

fn hub_at_last(alloc: Global) -> Result<Hub, AllocError> {
    match hub_of(alloc, 2) {
        Ok(hub) => Ok(hub),
        Err(_) => hub_of(alloc, 2),
    }
}

// A client's ProtocolVersion, which no viewer sent.
fn new_version(alloc: Global) -> Result<HubEvent, AllocError>
    ensures { IfOk result HasFewHubBytes }
{
    let bytes = b"RFB 003.008\n".to_vec(alloc)?;
    Ok(HubEvent::Foreign(1, bytes))
}

fn version_at_last(alloc: Global) -> Result<HubEvent, AllocError>
    ensures { IfOk result HasFewHubBytes }
{
    match new_version(alloc) {
        Ok(version) => Ok(version),
        Err(_) => new_version(alloc),
    }
}

// After the handshake an update is composed; then another viewer joins, and foreign bytes reach its
// session.
fn event_at(turn: u32) -> HubEvent
    ensures { HasFewHubBytes result }
{
    match turn {
        0 => HubEvent::Fill(BOTH, ORANGE),
        1 => HubEvent::Join(0, setup(Format::rgb888(), raw(), true)),
        10 => HubEvent::Of(0, SlotEvent::Request(false, BOTH)),
        12 => HubEvent::Of(0, SlotEvent::Compose),
        15 => HubEvent::Join(1, setup(Format::rgb888(), raw(), true)),
        17 => HubEvent::Of(1, SlotEvent::ToServer(ALL)),
        _ if turn % 2 == 0 => HubEvent::Of(0, SlotEvent::ToViewer(ALL)),
        _ => HubEvent::Of(0, SlotEvent::ToServer(ALL)),
    }
}

// Whether an event is answered by want of memory.
fn wants_memory(hub: &mut Hub, event: &HubEvent) -> bool
    requires few { HasFewHubBytes event.now }
{
    hub.step(event).is_err()
}

// Whether nothing happens any more, not even what takes no memory.
fn is_closed(hub: &mut Hub) -> bool {
    let before = shown(hub, 0, 0);
    let mut closed = true;
    for turn in 0..15 {
        closed = wants_memory(hub, &event_at(turn)) && closed;
    }
    closed && wants_memory(hub, &HubEvent::Leave(0)) && shown(hub, 0, 0) == before
}

// Whether each event happens, or the hub is closed by one for want of memory.
fn is_whole_or_closed(hub: &mut Hub, version: &HubEvent) -> bool
    requires few { HasFewHubBytes version.now }
{
    for turn in 0..18 {
        let wanting = if turn == 16 {
            wants_memory(hub, version)
        } else {
            wants_memory(hub, &event_at(turn))
        };
        if wanting {
            return is_closed(hub);
        }
    }
    shown(hub, 0, 0) == Some(ORANGE) && hub.fault(0).is_none() && hub.fault(1).is_none()
}

fn ends_whole_or_closed(alloc: Global) -> Result<bool, AllocError> {
    let version = version_at_last(alloc)?;
    let mut hub = hub_at_last(alloc)?;
    let ended = is_whole_or_closed(&mut hub, &version);
    drop(hub);
    Ok(ended)
}

#[test]
fn a_hub_that_is_refused_memory_is_closed(rt: HostRuntime) -> Result<(), AllocError> {
    let ended = ends_whole_or_closed(rt.alloc())?;
    assert!(rt; ended);
    Ok(())
}
