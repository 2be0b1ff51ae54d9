//! What requests bring at the edges: none of a row's places, and a row of more than one cell.

use super::scene::{Step, feed, first_wrong_of, ready};
use crate::Server;
use std::alloc::{AllocError, Global};

const OF_NO_WIDTH: &[Step<'static>] = &[Step::Feed(b"\x03\0\0\0\0\0\0\0\0\x01"), Step::Quiet];

#[test]
fn a_request_of_no_width_brings_nothing(rt: HostRuntime) {
    assert_eq!(rt; first_wrong_of(rt.alloc(), 4, 1, OF_NO_WIDTH), None);
}

// Whether the bytes are an update of 65 black places: 64 of the first cell, and one of the second.
fn is_of_two_cells(bytes: &[u8]) -> bool {
    let (front, back) = bytes.split_at(bytes.len().min(272));
    let (heads, first) = front.split_at(front.len().min(16));
    heads == b"\0\0\0\x02\0\0\0\0\0\x40\0\x01\0\0\0\0".as_slice()
        && first.len() == 256
        && first.iter().all(|byte| *byte == 0)
        && back == b"\0\x40\0\0\0\x01\0\x01\0\0\0\0\0\0\0\0".as_slice()
}

fn brings_two_cells(server: &mut Server, alloc: Global) -> bool {
    feed(server, b"\x03\0\0\0\0\0\0\x41\0\x01".as_slice());
    let mut out = Vec::new(alloc);
    server.compose(&mut out) == Ok(true) && is_of_two_cells(out.as_slice())
}

fn row_brings_two_cells(alloc: Global) -> Result<bool, AllocError> {
    let mut server = ready(alloc, 65, 1)?;
    let brought = brings_two_cells(&mut server, alloc);
    drop(server);
    Ok(brought)
}

#[test]
fn a_row_of_two_cells_takes_two_rectangles(rt: HostRuntime) -> Result<(), AllocError> {
    assert!(rt; row_brings_two_cells(rt.alloc())?);
    Ok(())
}
