//! Eight viewers: one is stuck, one floods, and one is at fault.

use super::*;
use crate::seats::Seats;

// Every viewer but those two asks for what has changed, and takes this update.
fn others_take(share: &mut Share, update: &[u8]) -> bool {
    let mut all = true;
    for seat in Seats::all().iter() {
        if seat != at(5) && seat != at(7) {
            all = send(share, seat, ASKS_CHANGES)
                && composes(share, seat, Composing::Composed)
                && takes(share, seat, update)
                && all;
        }
    }
    all
}

// The sixth asks once and takes three bytes. It gets no second update before the rest.
fn is_stuck(share: &mut Share) -> bool {
    let asked = send(share, at(5), ASKS_ALL) && composes(share, at(5), Composing::Composed);
    share.written(at(5), 3);
    asked && composes(share, at(5), Composing::Waiting)
}

// The eighth sends a byte that begins no message, section 7.5, and what it sends later is lost.
fn is_at_fault(share: &mut Share) -> bool {
    !send(share, at(7), b"\x63")
        && !send(share, at(7), ASKS_ALL)
        && composes(share, at(7), Composing::NotDue)
        && share.fault(at(7)) == Some(rfb_server::ServerFault::UnknownMessage(99))
}

// A hundred requests, and one update.
fn floods(share: &mut Share) -> bool {
    let mut sent = true;
    for _turn in 0..100_u32 {
        sent = send(share, at(0), ASKS_ALL) && sent;
    }
    sent && composes(share, at(0), Composing::Composed)
        && takes(share, at(0), BLUE_UPDATE)
        && composes(share, at(0), Composing::NotDue)
}

// What was left of the first update comes, and then the newest picture.
fn goes_on(share: &mut Share) -> bool {
    send(share, at(5), ASKS_CHANGES)
        && composes(share, at(5), Composing::Waiting)
        && takes(share, at(5), &BLACK_UPDATE[3..])
        && composes(share, at(5), Composing::Composed)
        && takes(share, at(5), BLUE_UPDATE)
}

fn told_of_eight(alloc: Global) -> Result<[bool; 7], AllocError> {
    let mut share = share_of_two_places(alloc)?;
    let told = [
        all_greeted(&mut share),
        is_stuck(&mut share),
        is_at_fault(&mut share),
        paint(&mut share, RED) && others_take(&mut share, RED_UPDATE),
        paint(&mut share, BLUE) && others_take(&mut share, BLUE_UPDATE),
        floods(&mut share),
        goes_on(&mut share),
    ];
    drop(share);
    Ok(told)
}

#[test]
fn seven_follow_the_screen_beside_one_that_is_stuck(rt: HostRuntime) -> Result<(), AllocError> {
    let told = told_of_eight(rt.alloc())?;
    assert_eq!(rt; told, [true; 7]);
    Ok(())
}
