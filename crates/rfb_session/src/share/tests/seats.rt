//! A ninth viewer, one that asks for the screen alone, and what is reported with a seat.

use super::*;
use crate::seats::Seats;
use crate::share::event::{Heard, SeatEvent};

// Eight join, in the order of the seats; a ninth does not, before one has left.
fn ninth_waits(share: &mut Share) -> bool {
    let mut all = true;
    for seat in Seats::all().iter() {
        all = seated(share) == Some(seat) && all;
    }
    all && share.join() == Ok(None) && share.left(at(3)) && seated(share) == Some(at(3))
}

fn told_of_a_ninth(alloc: Global) -> Result<bool, AllocError> {
    let mut share = share_of_two_places(alloc)?;
    let told = ninth_waits(&mut share);
    drop(share);
    Ok(told)
}

#[test]
fn a_ninth_viewer_gets_no_seat(rt: HostRuntime) -> Result<(), AllocError> {
    let told = told_of_a_ninth(rt.alloc())?;
    assert!(rt; told);
    Ok(())
}

// Whether one byte was taken, and the seats 0 and 1 were emptied by it.
fn empties_two(heard: &Heard) -> bool {
    heard.used == 1
        && heard.ended == Seats::none().with(at(0)).with(at(1))
        && heard.seat == at(2)
        && matches!(heard.event, Some(SeatEvent::Ready { shared: false }))
}

// Whether it says that key "a" went down at seat 2, section 7.5.4.
fn tells_the_key(heard: &Heard) -> bool {
    heard.used == 8
        && heard.ended.is_empty()
        && heard.seat == at(2)
        && matches!(
            heard.event,
            Some(SeatEvent::Key {
                down: true,
                key: 97
            })
        )
}

// The third asks for the screen alone, and a key follows in the same bytes.
fn asks_alone(share: &mut Share) -> bool {
    let bytes = b"\0\x04\x01\0\0\0\0\0\x61";
    let emptied = match share.received(at(2), bytes) {
        Ok(heard) => empties_two(&heard),
        Err(_) => false,
    };
    let keyed = match share.received(at(2), &bytes[1..]) {
        Ok(heard) => tells_the_key(&heard),
        Err(_) => false,
    };
    emptied && keyed && takes(share, at(2), SERVER_INIT)
}

// Two viewers have joined, and a third is about to say whether it shares the screen.
fn three_joined(share: &mut Share) -> bool {
    let two = greeted(share, ALONE) && greeted(share, SHARED);
    two && seated(share) == Some(at(2))
        && takes(share, at(2), GREETING)
        && send(share, at(2), CLIENT_VERSION)
        && takes(share, at(2), TYPES)
        && send(share, at(2), CHOICE)
        && takes(share, at(2), SUCCESS)
}

fn told_of_one_alone(alloc: Global) -> Result<[bool; 3], AllocError> {
    let mut share = share_of_two_places(alloc)?;
    let told = [
        three_joined(&mut share),
        asks_alone(&mut share),
        !share.left(at(0)) && !share.left(at(1)) && share.left(at(2)),
    ];
    drop(share);
    Ok(told)
}

#[test]
fn the_other_seats_are_emptied_at_the_byte_that_asks(rt: HostRuntime) -> Result<(), AllocError> {
    let told = told_of_one_alone(rt.alloc())?;
    assert_eq!(rt; told, [true; 3]);
    Ok(())
}
