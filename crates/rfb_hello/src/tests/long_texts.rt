//! A name of the greatest length, and screens at the edge of what is admitted.

use super::ends::{feed_viewer as feed, reason_of, viewer_fault as fault_at, viewer_of};
use crate::{Fed, HelloFault, Version, ViewerHello, ViewerStep};
use std::alloc::{AllocError, Global};

// A server of 3.3 that takes security type None.
const BEGUN: [&[u8]; 2] = [b"RFB 003.003\n", b"\0\0\0\x01"];

// ServerInit of a screen of 1 by 1 whose name has 4,294,967,295 bytes.
const LONGEST_NAME: &[u8] = b"\0\x01\0\x01................\xFF\xFF\xFF\xFF";

// Whether bytes give an event.
fn tells(hello: &mut ViewerHello, bytes: &[u8]) -> bool {
    match feed(hello, bytes) {
        Ok(Fed { event, .. }) => event.is_some(),
        Err(_) => false,
    }
}

// Whether `wanted` of the bytes are taken, with no event.
fn takes(hello: &mut ViewerHello, bytes: &[u8], wanted: usize) -> bool {
    match feed(hello, bytes) {
        Ok(Fed { used, event }) => used == wanted && event.is_none(),
        Err(_) => false,
    }
}

fn has_begun(hello: &mut ViewerHello) -> bool {
    let [version, security] = BEGUN;
    fault_at(hello, version).is_none() && fault_at(hello, security).is_none()
}

// Whether 48 slices of a name are taken one after another.
fn takes_the_name(hello: &mut ViewerHello, slice: &[u8]) -> bool {
    let [version, security] = BEGUN;
    let mut good = tells(hello, version) && tells(hello, security) && tells(hello, LONGEST_NAME);
    for _ in 0..48 {
        good &= takes(hello, slice, 65_536);
    }
    good
}

fn is_name_taken(alloc: Global, slice: &[u8]) -> bool {
    let mut hello = viewer_of(alloc, Version::V38, 16, 1_048_576);
    let good = takes_the_name(&mut hello, slice);
    drop(hello);
    good
}

#[test]
fn the_longest_name_is_taken_slice_by_slice(rt: HostRuntime) -> Result<(), AllocError> {
    // 3 MiB of it. The first MiB is kept.
    let mut slice = Vec::new(rt.alloc());
    slice.resize(65_536, b'n')?;
    assert!(rt; is_name_taken(rt.alloc(), &slice));
    Ok(())
}

// Screens, how many places are admitted, and the fault.
const SCREENS: [(&[u8], u32, Option<HelloFault>); 5] = [
    (b"\0\0\xFF\xFF", 16_777_216, Some(HelloFault::ScreenEmpty)),
    (b"\xFF\xFF\0\0", 16_777_216, Some(HelloFault::ScreenEmpty)),
    (
        b"\xFF\xFF\xFF\xFF",
        16_777_216,
        Some(HelloFault::ScreenTooLarge),
    ),
    (
        b"\x10\0\x10\x01",
        16_777_216,
        Some(HelloFault::ScreenTooLarge),
    ),
    (b"\x10\0\x10\0", 16_777_216, None),
];

// Whether these bytes end in that fault, or else in the end of the handshake.
fn ends_as(hello: &mut ViewerHello, bytes: &[u8], wanted: Option<HelloFault>) -> bool {
    match feed(hello, bytes) {
        Ok(Fed { event, .. }) => {
            wanted.is_none() && matches!(event, Some(ViewerStep::Ready { .. }))
        }
        Err(fault) => wanted == Some(fault),
    }
}

// Whether a screen is judged at the last of the twenty bytes after its size, which end in a name of
// no bytes.
fn judges(hello: &mut ViewerHello, size: &[u8], wanted: Option<HelloFault>) -> bool {
    has_begun(hello)
        && takes(hello, size, 4)
        && takes(hello, &[0; 19], 19)
        && ends_as(hello, &[0], wanted)
}

fn is_judged(alloc: Global, size: &[u8], max_places: u32, wanted: Option<HelloFault>) -> bool {
    let mut hello = viewer_of(alloc, Version::V38, max_places, 16);
    let good = judges(&mut hello, size, wanted);
    drop(hello);
    good
}

#[test]
fn a_screen_is_judged_at_its_last_byte_before_the_name(rt: HostRuntime) {
    for (size, max_places, wanted) in SCREENS {
        assert!(rt; is_judged(rt.alloc(), size, max_places, wanted));
    }
}

// Whether a screen is refused at the last byte of a name's length, with no reason.
fn refuses(hello: &mut ViewerHello, size: &[u8], length: &[u8], wanted: HelloFault) -> bool {
    has_begun(hello)
        && fault_at(hello, size).is_none()
        && fault_at(hello, &[0; 16]).is_none()
        && fault_at(hello, length) == Some(wanted)
        && reason_of(hello).is_empty()
}

fn is_refused(alloc: Global, size: &[u8], length: &[u8], wanted: HelloFault) -> bool {
    let mut hello = viewer_of(alloc, Version::V38, 16_777_216, u32::MAX);
    let good = refuses(&mut hello, size, length, wanted);
    drop(hello);
    good
}

#[test]
fn a_refused_screen_is_reported_of_whatever_name_it_has(rt: HostRuntime) {
    let screens = [
        (b"\0\0\0\x01", HelloFault::ScreenEmpty),
        (b"\0\x01\0\0", HelloFault::ScreenEmpty),
        (b"\x10\0\x10\x01", HelloFault::ScreenTooLarge),
    ];
    for (size, wanted) in screens {
        for length in [b"\0\0\0\x01", b"\xFF\xFF\xFF\xFF"] {
            assert!(rt; is_refused(rt.alloc(), size, length, wanted));
        }
    }
}
