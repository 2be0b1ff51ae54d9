//! A viewer that sends what no viewer sends, as one list of events.

ghost use Rattle.std.specs.Prelude.{All, IfOk};
ghost use Rattle.std.specs.Option.{ForSome};
ghost use Rattle.rfb_session.specs.Hub.{HasFewHubBytes};

use super::*;

// The lines of a script with one event each, and those that settle.
const LINES: u32 = 14;

// Events of a line at most.
const TURNS: u32 = 16;

// A line that settles is sixteen deliveries.
fn delivery(slot: u8, turn: u32) -> HubEvent
    ensures { HasFewHubBytes result }
{
    if turn % 2 == 0 {
        HubEvent::Of(slot, SlotEvent::ToServer(ALL))
    } else {
        HubEvent::Of(slot, SlotEvent::ToViewer(ALL))
    }
}

// One byte that begins no message of a client.
fn foreign(alloc: Global, slot: u8) -> Result<HubEvent, AllocError>
    ensures { IfOk result HasFewHubBytes }
{
    let mut bytes = Vec::new(alloc);
    bytes.push(1)?;
    Ok(HubEvent::Foreign(slot, bytes))
}

// The event of a line that has one alone.
fn event_of(line: u32) -> HubEvent
    ensures { HasFewHubBytes result }
{
    let both = Rect {
        x: 0,
        y: 0,
        w: 2,
        h: 1,
    };
    match line {
        0 => HubEvent::Join(0, setup(Format::rgb888(), raw(), true)),
        1 => HubEvent::Join(1, setup(Format::rgb565(), raw(), true)),
        2 => HubEvent::Fill(Rect { w: 1, ..both }, ORANGE),
        5 => HubEvent::Of(0, SlotEvent::Request(false, both)),
        6 => HubEvent::Of(1, SlotEvent::Request(false, both)),
        11 => HubEvent::Of(0, SlotEvent::Compose),
        _ => HubEvent::Of(1, SlotEvent::Compose),
    }
}

// The event of a line at this turn, if it has that many.
fn event_at(alloc: Global, line: u32, turn: u32) -> Result<Option<HubEvent>, AllocError>
    ensures { IfOk result (λ event. ForSome event HasFewHubBytes) }
{
    match line {
        3 | 7 | 10 => Ok(Some(delivery(0, turn))),
        4 | 8 | 13 => Ok(Some(delivery(1, turn))),
        _ if turn > 0 => Ok(None),
        9 => Ok(Some(foreign(alloc, 0)?)),
        _ => Ok(Some(event_of(line))),
    }
}

fn events_of(alloc: Global) -> Result<Vec<HubEvent>, AllocError>
    ensures few { IfOk result (λ events. All HasFewHubBytes events.items) }
{
    let mut events = Vec::new(alloc);
    for at in 0..LINES * TURNS {
        if let Some(event) = event_at(alloc, at / TURNS, at % TURNS)? {
            events.push(event)?;
        }
    }
    Ok(events)
}

// The faults of both sessions, and what the second viewer shows.
fn faults(alloc: Global) -> Result<([Option<u8>; 2], [Option<Colour>; 2]), AllocError> {
    let events = events_of(alloc)?;
    let mut hub = hub_of(alloc, 2)?;
    let run = hub.run(&events).is_ok();
    let faults = if run {
        [hub.fault(0), hub.fault(1)]
    } else {
        [None, Some(30)]
    };
    let shown = [shown(&hub, 1, 0), shown(&hub, 1, 1)];
    drop(hub);
    Ok((faults, shown))
}

#[test]
fn a_session_that_fails_takes_nothing_from_another(rt: HostRuntime) -> Result<(), AllocError> {
    let (faults, shown) = faults(rt.alloc())?;
    // The number of UnknownMessage.
    assert_eq!(rt; faults, [Some(7), None]);
    assert_eq!(rt; shown, [Some(ORANGE_OF_565), Some(BLACK)]);
    Ok(())
}
