//! With which byte a server's client fails, and how many bytes it has used then. The numbers were
//! counted by hand in the tables of RFC 6143: a client's handshake of 3.8 has 14 bytes, a
//! SetPixelFormat 20, a FramebufferUpdateRequest 10. Bytes follow each fault.

use crate::{Server, ServerFault, ServerSetup};
use std::test::Fail;

// What a client sends, the byte of the fault, and the fault.
const STREAMS: &[(&[u8], u64, ServerFault)] = &[
    // No version.
    (b"RFB 003.00A\n\x01\x01", 12, ServerFault::BadVersion),
    // Another security type than None.
    (
        b"RFB 003.008\n\x02\x01\0",
        13,
        ServerFault::BadSecurityChoice,
    ),
    // A message of type 9, after a request.
    (
        b"RFB 003.008\n\x01\x01\x03\0\0\0\0\0\0\x02\0\x01\x09\0",
        25,
        ServerFault::UnknownMessage(9),
    ),
    // A format of 7 bits a pixel.
    (
        b"RFB 003.008\n\x01\x01\0\0\0\0\x07\x07\0\x01\0\x01\0\x01\0\x01\0\x01\x02\0\0\0\x02\0",
        34,
        ServerFault::BadBits,
    ),
];

// The fault of bytes in slices of a size, and how many bytes were used then.
fn fault_of(server: &mut Server, bytes: &[u8], size: usize) -> Option<(ServerFault, u64)> {
    let mut rest = bytes;
    for _ in 0..bytes.len() {
        let slice = rest.get(..size).unwrap_or(rest);
        match server.feed(slice) {
            Ok(fed) => rest = rest.get(fed.used..).unwrap_or_default(),
            Err(fault) => return Some((fault, server.taken())),
        }
    }
    None
}

#[test]
fn a_clients_fault_has_its_byte_whatever_the_slices(rt: HostRuntime) -> Result<(), Fail> {
    for (bytes, count, fault) in STREAMS {
        for size in [1, 2, 3, 7, 64] {
            let mut server = Server::of(rt.alloc(), ServerSetup::usual(2, 1, b"t"))?;
            let found = fault_of(&mut server, bytes, size);
            assert!(rt; found == Some((*fault, *count)));
            let again = server.feed(b"\x04");
            assert!(rt; again.is_err() && server.taken() == *count);
            drop(server);
        }
    }
    Ok(())
}
