//! What is too little to look for twins: two cells of a screen that has four, and nothing at all.

use crate::{LateSession, ServerSetup, Session};
use rfb_hello::Version;
use std::alloc::{AllocError, Global};

// Requests for the upper cells, section 7.5.3, and for one place more.
const ASKS_TWO: &[u8] = b"\x03\0\0\0\0\0\0\x80\0\x40";

const ASKS_A_THIRD: &[u8] = b"\x03\0\0\x7F\0\x40\0\x01\0\x01";

// What it answers before its viewer asks, and after each request.
fn told_of_cells(alloc: Global) -> Result<[bool; 3], AllocError> {
    let mut session = Session::new(alloc, 128, 65, b"t".as_slice(), Version::V38, 4)?;
    let before = session.is_slight();
    session.feed(b"RFB 003.003\n").ok();
    session.feed(b"\x01").ok();
    session.feed(ASKS_TWO).ok();
    let two = session.is_slight();
    session.feed(ASKS_A_THIRD).ok();
    let told = [before, two, session.is_slight()];
    drop(session);
    Ok(told)
}

// Whether nothing needs sending: at first, once the handshake is done, and once a place is asked.
fn told_of_stillness(alloc: Global) -> Result<[bool; 3], AllocError> {
    let mut session = LateSession::new(alloc, ServerSetup::usual(128, 65, b"t"))?;
    let before = session.is_still();
    session.feed(b"RFB 003.003\n").ok();
    session.feed(b"\x01").ok();
    let shaken = session.is_still();
    session.feed(ASKS_A_THIRD).ok();
    let told = [before, shaken, session.is_still()];
    drop(session);
    Ok(told)
}

#[test]
fn two_cells_are_slight_and_three_are_not(rt: HostRuntime) -> Result<(), AllocError> {
    assert_eq!(rt; told_of_cells(rt.alloc())?, [true, true, false]);
    Ok(())
}

#[test]
fn a_session_is_still_until_a_place_is_asked_for_whole(rt: HostRuntime) -> Result<(), AllocError> {
    assert_eq!(rt; told_of_stillness(rt.alloc())?, [true, true, false]);
    Ok(())
}
