//! Which seats are to be served.

use super::*;
use crate::seats::Seats;

// Whether exactly these seats are to be served.
fn serves(share: &Share, seats: Seats) -> bool {
    share.to_serve() == seats
}

// A viewer is served from its greeting on, until composing finds nothing to do.
fn rests_after_its_handshake(share: &mut Share) -> bool {
    greeted(share, SHARED)
        && serves(share, Seats::none().with(at(0)))
        && composes(share, at(0), Composing::NotDue)
        && serves(share, Seats::none())
}

// What it asks for is composed, and written, and then it rests again.
fn rests_after_an_update(share: &mut Share) -> bool {
    send(share, at(0), ASKS_ALL)
        && composes(share, at(0), Composing::Composed)
        && serves(share, Seats::none().with(at(0)))
        && takes(share, at(0), BLACK_UPDATE)
        && composes(share, at(0), Composing::NotDue)
        && serves(share, Seats::none())
}

// A drawing is everyone's.
fn is_stirred_by_a_drawing(share: &mut Share) -> bool {
    send(share, at(0), ASKS_CHANGES)
        && composes(share, at(0), Composing::NotDue)
        && serves(share, Seats::none())
        && paint(share, RED)
        && share.to_serve().has(at(0))
        && composes(share, at(0), Composing::Composed)
        && takes(share, at(0), RED_UPDATE)
}

fn told_of_work(alloc: Global) -> Result<[bool; 3], AllocError> {
    let mut share = share_of_two_places(alloc)?;
    let told = [
        rests_after_its_handshake(&mut share),
        rests_after_an_update(&mut share),
        is_stirred_by_a_drawing(&mut share),
    ];
    drop(share);
    Ok(told)
}

#[test]
fn a_seat_rests_until_something_comes(rt: HostRuntime) -> Result<(), AllocError> {
    let told = told_of_work(rt.alloc())?;
    assert_eq!(rt; told, [true; 3]);
    Ok(())
}

#[test]
fn a_seat_is_a_number_below_eight(rt: HostRuntime) {
    let mut numbers = 0_u8;
    for seat in Seats::all().iter() {
        assert!(rt; Seat::new(seat.number()) == Some(seat));
        numbers = seat.number().saturating_add(numbers);
    }
    assert_eq!(rt; numbers, 28);
    assert!(rt; Seat::new(8).is_none());
}
