//! Eight viewers of one screen: three formats, copies, deliveries in parts, one that asked for the
//! screen alone before the others came, and one whose session is sent what no client sends.

use super::*;

const ROW: Rect = Rect {
    x: 0,
    y: 0,
    w: 4,
    h: 1,
};

// A colour that each format shows as it is.
const RED: Colour = Colour {
    r: 65_535,
    g: 0,
    b: 0,
};

const WHITE: Colour = Colour {
    r: 65_535,
    g: 65_535,
    b: 65_535,
};

fn format_of(slot: u8) -> Format {
    match slot % 3 {
        0 => Format::rgb888(),
        1 => Format::rgb565(),
        _ => Format::bgr233(),
    }
}

fn encodings_of(slot: u8) -> ArrayVec<Encoding, 4> {
    let mut encodings = ArrayVec::new();
    if slot % 2 == 0 {
        encodings.push(Encoding::CopyRect);
    }
    match slot % 4 {
        0 => encodings.push(Encoding::Hextile),
        1 => encodings.push(Encoding::Rre),
        2 => encodings.push(Encoding::Raw),
        _ => {}
    }
    encodings
}

// Few bytes reach each end, each time as many as the slot's number says.
fn trickle(hub: &mut Hub) {
    for turn in 0..120_u32 {
        for slot in 0..8 {
            let count = 1 + (turn + u32::from(slot)) % 5;
            let _server = step(hub, HubEvent::Of(slot, SlotEvent::ToServer(count)));
            let _viewer = step(hub, HubEvent::Of(slot, SlotEvent::ToViewer(count)));
        }
    }
}

// The viewer that wants the screen alone has it, and then seven others come.
fn join_all(hub: &mut Hub) -> bool {
    let alone = HubEvent::Join(4, setup(format_of(4), encodings_of(4), false));
    let mut all = refusal(hub, alone).is_none() && settle(hub, 4) == 0;
    for slot in [0, 1, 2, 3, 5, 6, 7] {
        let join = HubEvent::Join(slot, setup(format_of(slot), encodings_of(slot), true));
        all = all && refusal(hub, join).is_none();
    }
    trickle(hub);
    all
}

// Whether the viewer of a slot is sent an update.
fn composes(hub: &mut Hub, slot: u8) -> bool {
    match step(hub, HubEvent::Of(slot, SlotEvent::Compose)) {
        Some(told) => told.composed,
        None => false,
    }
}

// Each viewer asks for the row, and is sent what is due. Bit k is set where slot k was sent an
// update.
fn update_all(hub: &mut Hub, incremental: bool) -> u8 {
    let mut composed = 0;
    for slot in 0..8 {
        let _asked = step(
            hub,
            HubEvent::Of(slot, SlotEvent::Request(incremental, ROW)),
        );
    }
    trickle(hub);
    for slot in 0..8 {
        if composes(hub, slot) {
            composed |= 1 << slot;
        }
    }
    trickle(hub);
    composed
}

fn draw(hub: &mut Hub, rect: Rect, colour: Colour) -> bool {
    refusal(hub, HubEvent::Fill(rect, colour)).is_none()
}

// The left half moves to the right one, and each session is notified.
fn scroll(hub: &mut Hub) -> bool {
    let right = Rect { x: 2, w: 2, ..ROW };
    refusal(hub, HubEvent::Copy(right, 0, 0)).is_none()
        && refusal(hub, HubEvent::Hint(right, 0, 0)).is_none()
}

// One byte that begins no message reaches the session of slot 7.
fn fail_seventh(hub: &mut Hub, alloc: Global) -> Result<bool, AllocError> {
    let mut bytes = Vec::new(alloc);
    bytes.push(1)?;
    let sent = refusal(hub, HubEvent::Foreign(7, bytes)).is_none();
    Ok(sent && settle(hub, 7) == 0)
}

// Whether seven viewers show this row.
fn all_show(hub: &Hub, row: [Colour; 4]) -> bool {
    let mut all = true;
    for slot in 0..7 {
        for x in 0..4_u16 {
            all = all && shown(hub, slot, x) == Some(row[usize::from(x)]);
        }
    }
    all
}

// Whether the sessions of the first seven have not failed, and that of the last has.
fn only_the_last_failed(hub: &Hub) -> bool {
    let mut none = true;
    for slot in 0..7 {
        none = none && hub.fault(slot).is_none();
    }
    none && hub.fault(7) == Some(7)
}

fn run_all(hub: &mut Hub, alloc: Global) -> Result<[bool; 6], AllocError> {
    let joined = join_all(hub);
    let drawn = draw(hub, Rect { w: 1, ..ROW }, RED)
        && draw(hub, Rect { x: 1, w: 1, ..ROW }, WHITE);
    let first = update_all(hub, false) == 0b1111_1111 && all_show(hub, [RED, WHITE, BLACK, BLACK]);
    let failed = fail_seventh(hub, alloc)?;
    let scrolled = scroll(hub) && draw(hub, Rect { w: 2, ..ROW }, BLACK);
    let second = update_all(hub, true) == 0b0111_1111 && all_show(hub, [BLACK, BLACK, RED, WHITE]);
    Ok([
        joined,
        drawn,
        first,
        failed,
        scrolled,
        second && only_the_last_failed(hub),
    ])
}

fn told_of_all(alloc: Global) -> Result<[bool; 6], AllocError> {
    let mut hub = hub_of(alloc, 4)?;
    let told = run_all(&mut hub, alloc);
    drop(hub);
    told
}

#[test]
fn eight_viewers_see_one_screen(rt: HostRuntime) -> Result<(), AllocError> {
    let told = told_of_all(rt.alloc())?;
    assert_eq!(rt; told, [true; 6]);
    Ok(())
}
