//! How many bytes are pending after each byte of a handshake, and where the handshake is open.

use super::ends::{
    is_server_open, is_viewer_open, server_fault, server_of, server_pending, viewer_fault,
    viewer_of, viewer_pending,
};
use crate::{ServerHello, Version, ViewerHello};
use std::alloc::Global;

// What the other end sends, and how many bytes are pending after each of them: a text of 12, a
// count and each type, a word of 4, ServerInit of 24 up to the name, and each byte of that.
const LISTED: (&[u8], &[usize]) = (
    b"RFB 003.008\n\x02\x02\x01\0\0\0\0\0\x01\0\x01................\0\0\0\x02ab",
    &[
        1, 2, 3, 4, 5, 6, 7, 8, 9, 10, 11, 0, 0, 0, 0, 1, 2, 3, 0, 1, 2, 3, 4, 5, 6, 7, 8, 9, 10,
        11, 12, 13, 14, 15, 16, 17, 18, 19, 20, 21, 22, 23, 0, 0, 0,
    ],
);

// After the word of 3.3, or a count of no types, the length of a reason and each byte of it.
const REFUSED_BY_WORD: (&[u8], &[usize]) = (
    b"RFB 003.003\n\0\0\0\0\0\0\0\x02N",
    &[
        1, 2, 3, 4, 5, 6, 7, 8, 9, 10, 11, 0, 1, 2, 3, 0, 1, 2, 3, 0, 0,
    ],
);

const REFUSED_BY_COUNT: (&[u8], &[usize]) = (
    b"RFB 003.007\n\0\0\0\0\x02N",
    &[1, 2, 3, 4, 5, 6, 7, 8, 9, 10, 11, 0, 0, 1, 2, 3, 0, 0],
);

const FAILED: (&[u8], &[usize]) = (
    b"RFB 003.008\n\x01\x01\0\0\0\x07\0\0\0\x02N",
    &[
        1, 2, 3, 4, 5, 6, 7, 8, 9, 10, 11, 0, 0, 0, 1, 2, 3, 0, 1, 2, 3, 0, 0,
    ],
);

const CLIENT: (&[u8], &[usize]) = (
    b"RFB 003.008\n\x01\x01",
    &[1, 2, 3, 4, 5, 6, 7, 8, 9, 10, 11, 0, 0, 0],
);

// Whether each byte is taken where the end is open, and after it as many are pending as are wanted.
fn viewer_keeps(hello: &mut ViewerHello, stream: &[u8], pending: &[usize]) -> bool {
    let mut good = stream.len() == pending.len();
    for (byte, wanted) in stream.chunks(1).zip(pending) {
        good &= is_viewer_open(hello)
            && viewer_fault(hello, byte).is_none()
            && viewer_pending(hello) == *wanted;
    }
    good
}

// The same of an end that was fed nothing.
fn is_kept(alloc: Global, stream: &[u8], pending: &[usize]) -> bool {
    let mut hello = viewer_of(alloc, Version::V38, 16, 1);
    let good = viewer_keeps(&mut hello, stream, pending);
    drop(hello);
    good
}

#[test]
fn a_viewer_keeps_what_stands_after_the_last_whole_piece(rt: HostRuntime) {
    for (stream, pending) in [LISTED, REFUSED_BY_WORD, REFUSED_BY_COUNT, FAILED] {
        assert!(rt; is_kept(rt.alloc(), stream, pending));
    }
}

// Whether each byte is taken where the end is open, and after it as many are pending as are wanted;
// and whether it is not open after the last.
fn server_keeps(hello: &mut ServerHello, stream: &[u8], pending: &[usize]) -> bool {
    let mut good = stream.len() == pending.len();
    for (byte, wanted) in stream.chunks(1).zip(pending) {
        good &= is_server_open(hello)
            && server_fault(hello, byte).is_none()
            && server_pending(hello) == *wanted;
    }
    good && !is_server_open(hello)
}

fn is_kept_by_server(stream: &[u8], pending: &[usize]) -> bool {
    let mut hello = server_of(Version::V38, 1, 1, b"");
    let good = server_keeps(&mut hello, stream, pending);
    drop(hello);
    good
}

#[test]
fn a_server_keeps_what_stands_after_the_last_whole_piece(rt: HostRuntime) {
    let (stream, pending) = CLIENT;
    assert!(rt; is_kept_by_server(stream, pending));
}

const DONE: [&[u8]; 3] = [
    b"RFB 003.003\n",
    b"\0\0\0\x01",
    b"\0\x01\0\x01................\0\0\0\0",
];

// Whether each slice is taken where the end is open, and it is not open after the last.
fn is_closed_after(hello: &mut ViewerHello, slices: [&[u8]; 3]) -> bool {
    let mut good = true;
    for bytes in slices {
        good &= is_viewer_open(hello) && viewer_fault(hello, bytes).is_none();
    }
    good && !is_viewer_open(hello)
}

fn is_done(alloc: Global) -> bool {
    let mut hello = viewer_of(alloc, Version::V38, 16, 1);
    let good = is_closed_after(&mut hello, DONE);
    drop(hello);
    good
}

#[test]
fn a_handshake_that_is_done_is_not_open(rt: HostRuntime) {
    assert!(rt; is_done(rt.alloc()));
}

// Whether it fails at these bytes, is not open then, and keeps none.
fn is_failed_by(hello: &mut ViewerHello, bytes: &[u8]) -> bool {
    viewer_fault(hello, bytes).is_some() && !is_viewer_open(hello) && viewer_pending(hello) == 0
}

fn is_failed(alloc: Global) -> bool {
    let mut hello = viewer_of(alloc, Version::V38, 16, 1);
    let good = is_failed_by(&mut hello, b"RFB 003.00x\n");
    drop(hello);
    good
}

#[test]
fn a_handshake_that_has_failed_is_not_open(rt: HostRuntime) {
    assert!(rt; is_failed(rt.alloc()));
}
