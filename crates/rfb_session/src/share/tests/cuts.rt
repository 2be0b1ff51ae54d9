//! A client that sends and takes byte by byte, and one that leaves in the middle of an update.

use super::*;

// All that a client of version 3.8 sends up to its first request, and all that it is sent.
const SENT: &[u8] = b"RFB 003.008\n\x01\x01\x03\0\0\0\0\0\0\x02\0\x01";

const TAKEN: &[u8] = b"RFB 003.008\n\x01\x01\0\0\0\0\0\x02\0\x01\x20\x18\0\x01\0\xFF\0\xFF\0\xFF\
    \x10\x08\0\0\0\0\0\0\0\x03rfb\0\0\0\x01\0\0\0\0\0\x02\0\x01\0\0\0\0\0\0\xFF\0\0\0\xFF\0";

// One byte that waits is taken, if it is the next one of these: how many were taken then.
fn next_taken(share: &mut Share, seat: Seat, count: usize) -> usize {
    let waiting = share.to_write(seat);
    if waiting.is_empty() || count >= TAKEN.len() || waiting[0] != TAKEN[count] {
        return count;
    }
    share.written(seat, 1);
    count + 1
}

// Bytes go one by one each way; it is composed in vain while any wait. It gives how many were
// taken as they must be.
fn trickle(share: &mut Share, seat: Seat) -> usize {
    let mut taken = 0;
    for turn in 0..90_usize {
        if turn < SENT.len() {
            let _sent = send(share, seat, &SENT[turn..turn + 1]);
        }
        taken = next_taken(share, seat, taken);
        let _composed = share.compose(seat);
    }
    taken
}

fn trickled(alloc: Global) -> Result<[bool; 3], AllocError> {
    let mut share = share_of_two_places(alloc)?;
    let painted = paint(&mut share, RED);
    let seated = seated(&mut share) == Some(at(0));
    let taken = trickle(&mut share, at(0));
    let told = [
        painted && seated,
        taken == TAKEN.len(),
        share.to_write(at(0)).is_empty(),
    ];
    drop(share);
    Ok(told)
}

#[test]
fn byte_by_byte_a_client_is_sent_the_same(rt: HostRuntime) -> Result<(), AllocError> {
    let told = trickled(rt.alloc())?;
    assert_eq!(rt; told, [true; 3]);
    Ok(())
}

// A client takes three bytes of an update and leaves; the next one begins with its own greeting.
fn leaves_inside_an_update(share: &mut Share) -> bool {
    let asked = greeted(share, SHARED)
        && send(share, at(0), ASKS_ALL)
        && composes(share, at(0), Composing::Composed);
    share.written(at(0), 3);
    asked
        && share.left(at(0))
        && !share.left(at(0))
        && share.to_write(at(0)).is_empty()
        && composes(share, at(0), Composing::NoSuchSeat)
        && greeted(share, SHARED)
}

fn told_of_a_leaving(alloc: Global) -> Result<bool, AllocError> {
    let mut share = share_of_two_places(alloc)?;
    let told = leaves_inside_an_update(&mut share);
    drop(share);
    Ok(told)
}

#[test]
fn nothing_of_a_viewer_that_left_is_sent_to_the_next(rt: HostRuntime) -> Result<(), AllocError> {
    let told = told_of_a_leaving(rt.alloc())?;
    assert!(rt; told);
    Ok(())
}
