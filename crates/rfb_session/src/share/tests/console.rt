//! A console for eight viewers, as README.md has it.

use super::*;
use crate::share::event::SeatEvent;
use std::test::Fail;

const WHOLE: Rect = Rect {
    x: 0,
    y: 0,
    w: 2,
    h: 1,
};

const LAST: Rect = Rect {
    x: 1,
    y: 0,
    w: 1,
    h: 1,
};

// The handshake of a viewer that shares the screen, section 7.1 to 7.3.1.
const HANDSHAKE: &[u8] = b"RFB 003.008\n\x01\x01";

// Both places are asked for, and key "a" goes down, section 7.5.4.
const ASKS_AND_TYPES: &[u8] = b"\x03\0\0\0\0\0\0\x02\0\x01\x04\x01\0\0\0\0\0\x61";

// Sections 7.6.1 and 7.7.1: the column of the first turn, moved to the left, and the second one.
const UPDATE: &[u8] = b"\0\0\0\x01\0\0\0\0\0\x02\0\x01\0\0\0\0\x1E\x14\x0A\0\x42\x37\x2C\0";

// What viewers sent is received at their seats, and keys go down. What is there moves to the left,
// and a column comes from the right: it is blue until it has three bytes a place. Then each viewer
// is sent what it lacks.
fn serve(
    share: &mut Share,
    came: &[(Seat, &[u8])],
    column: &[u8],
    keys: &mut Vec<u32>,
    sent: &mut Vec<u8>,
) -> Result<(), Fail> {
    for (seat, bytes) in came {
        let mut rest = *bytes;
        while !rest.is_empty() {
            let heard = share.received(*seat, rest)?;
            rest = &rest[heard.used..];
            if let Some(SeatEvent::Key { down: true, key }) = heard.event {
                keys.push(key)?;
            }
        }
    }
    share.draw(&Drawing::Scroll(WHOLE, -1, 0))?;
    share.draw(&Drawing::Fill(LAST, BLUE))?;
    share.draw(&Drawing::Bytes(LAST, column))?;
    for seat in share.to_serve().iter() {
        share.compose(seat)?;
        let waits = share.to_write(seat);
        sent.extend_from_slice(waits)?;
        let count = waits.len();
        share.written(seat, count);
    }
    Ok(())
}

// Two viewers at the first seats: what all were sent, and the keys that they typed.
fn serve_two(share: &mut Share, keys: &mut Vec<u32>, sent: &mut Vec<u8>) -> Result<(), Fail> {
    let both = [at(0), at(1)];
    for seat in both {
        share.join()?;
        share.written(seat, GREETING.len());
    }
    let came = [(both[0], HANDSHAKE), (both[1], HANDSHAKE)];
    serve(share, &came, b"\x0A\x14\x1E", keys, sent)?;
    let came = [(both[0], ASKS_AND_TYPES), (both[1], ASKS_AND_TYPES)];
    serve(share, &came, b"\x2C\x37\x42", keys, sent)
}

fn ends_with_updates(sent: &[u8]) -> bool {
    match sent.strip_suffix(UPDATE) {
        Some(front) => front.ends_with(UPDATE),
        None => false,
    }
}

fn two_are_served(alloc: Global) -> Result<bool, Fail> {
    let mut share = share_of_two_places(alloc)?;
    let (mut keys, mut sent) = (Vec::new(alloc), Vec::new(alloc));
    let served = serve_two(&mut share, &mut keys, &mut sent);
    drop(share);
    served?;
    Ok(keys.as_slice() == [97, 97].as_slice() && ends_with_updates(&sent))
}

#[test]
fn a_console_is_a_share_in_a_loop(rt: HostRuntime) -> Result<(), Fail> {
    assert!(rt; two_are_served(rt.alloc())?);
    Ok(())
}
