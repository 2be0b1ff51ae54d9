//! With which byte a viewer fails, and how many bytes it has used then. The numbers were counted by
//! hand in the tables of RFC 6143: the handshake has 40 bytes, the head of an update 4, that of a
//! rectangle 12. Bytes follow each fault.

use super::*;
use crate::ViewerFault;
use std::test::Fail;

// What follows the handshake, the byte of the fault, and the fault.
const STREAMS: &[(&[u8], u64, ViewerFault)] = &[
    // A message of type 9.
    (b"\x02\x09\0\0\0", 42, ViewerFault::UnknownMessage(9)),
    // RRE with a number and a background, 5 bytes, and a subrectangle, 9, that leaves it.
    (
        b"\0\0\0\x01\0\0\0\0\0\x02\0\x01\0\0\0\x02\0\0\0\x01\x10\x20\0\x02\0\0\0\x01\0\x01\0\0",
        70,
        ViewerFault::SubrectOutside,
    ),
    // A rectangle that leaves the screen.
    (
        b"\0\0\0\x01\0\x01\0\0\0\x02\0\x01\0\0\0\0\0\0\0",
        56,
        ViewerFault::RectOutside,
    ),
    // CopyRect, whose source has 4 bytes.
    (
        b"\0\0\0\x01\0\0\0\0\0\x02\0\x01\0\0\0\x01\0\x01\0\0\0\0",
        60,
        ViewerFault::SourceOutside,
    ),
    // A mask without a background.
    (
        b"\0\0\0\x01\0\0\0\0\0\x02\0\x01\0\0\0\x05\0\0\0\0",
        57,
        ViewerFault::NoBackground,
    ),
];

// The fault of bytes in slices of a size, and how many bytes were used then.
fn fault_of(viewer: &mut Viewer, bytes: &[u8], size: usize) -> Option<(ViewerFault, u64)> {
    let mut rest = bytes;
    for _ in 0..bytes.len() {
        let slice = rest.get(..size).unwrap_or(rest);
        match viewer.feed(slice) {
            Ok(fed) => rest = rest.get(fed.used..).unwrap_or_default(),
            Err(fault) => return Some((fault, viewer.taken())),
        }
    }
    None
}

#[test]
fn a_fault_has_its_byte_whatever_the_slices(rt: HostRuntime) -> Result<(), Fail> {
    for (bytes, count, fault) in STREAMS {
        for size in [1, 2, 3, 7, 64] {
            let mut viewer = ready(rt.alloc(), Format::bgr233(), HELLO_2_BY_1);
            assert_eq!(rt; viewer.taken(), 40);
            assert!(rt; fault_of(&mut viewer, bytes, size) == Some((*fault, *count)));
            assert!(rt; viewer.feed(b"\x02").is_err() && viewer.taken() == *count);
        }
    }
    Ok(())
}
