//! A viewer's handshake to the byte, whole and byte by byte, and the faults of a server.

use super::*;
use crate::tests::ends::{feed_viewer as feed, reason_of, viewer_fault as fault_at, viewer_of};

// ServerInit of a screen of 2 by 1, with the format rgb888, and the name "t".
const SERVER_INIT: [u8; 25] = [
    0, 2, 0, 1, 0x20, 0x18, 0, 1, 0, 0xFF, 0, 0xFF, 0, 0xFF, 0x10, 0x08, 0, 0, 0, 0, 0, 0, 0, 1,
    b't',
];

// What an end has told of a server's bytes, and whether a fault came again.
#[derive(Drop)]
struct Told {
    sent: ArrayVec<u8, 64>,
    screens: ArrayVec<(u16, u16), 4>,
    ready: Option<(u16, u16, Version, u32)>,
    name: ArrayVec<u8, 64>,
    left: usize,
    fault: Option<HelloFault>,
    stays: bool,
    reason: ArrayVec<u8, 64>,
}

// Keeps bytes that fit.
fn keep(kept: &mut ArrayVec<u8, 64>, bytes: &[u8]) {
    let _fits = kept.try_extend_from_slice(bytes);
}

fn note_screen(told: &mut Told, width: u16, height: u16) {
    let _fits = told.screens.try_push((width, height));
}

fn note(event: &Option<ViewerStep>, told: &mut Told) {
    match event {
        None => {}
        Some(ViewerStep::Reply(reply)) => keep(&mut told.sent, reply.as_slice()),
        Some(ViewerStep::Screen { width, height }) => note_screen(told, *width, *height),
        Some(
            ViewerStep::Ready {
                width,
                height,
                version,
                name,
                name_length,
            },
        ) => {
            told.ready = Some((*width, *height, *version, *name_length));
            keep(&mut told.name, name.as_slice());
        }
    }
}

// Whether the fault comes again, for these bytes and for none.
fn fails_again(hello: &mut ViewerHello, bytes: &[u8], fault: HelloFault) -> bool {
    fault_at(hello, bytes) == Some(fault) && fault_at(hello, &[]) == Some(fault)
}

// Notes what an end reports of a slice. How many bytes it used, if no fault came.
fn take(hello: &mut ViewerHello, slice: &[u8], told: &mut Told) -> Option<usize> {
    match feed(hello, slice) {
        Ok(Fed { used, event }) => {
            note(&event, told);
            Some(used)
        }
        Err(fault) => {
            told.fault = Some(fault);
            told.stays = fails_again(hello, slice, fault);
            None
        }
    }
}

fn take_all(hello: &mut ViewerHello, server: &[u8], at_a_time: usize, told: &mut Told) {
    let mut rest = server;
    for _ in 0..=server.len() {
        let slice = rest.get(..at_a_time).unwrap_or(rest);
        match take(hello, slice, told) {
            Some(used) => rest = rest.get(used..).unwrap_or_default(),
            None => break,
        }
    }
    told.left = rest.len();
    keep(&mut told.reason, reason_of(hello));
}

// All that an end reports of bytes that are handed in a few at a time. It shares the screen, and
// admits 64 places.
fn told_of(
    alloc: Global,
    limit: Version,
    text_limit: u32,
    server: &[u8],
    at_a_time: usize,
) -> Told {
    let mut told = Told {
        sent: ArrayVec::new(),
        screens: ArrayVec::new(),
        ready: None,
        name: ArrayVec::new(),
        left: 0,
        fault: None,
        stays: true,
        reason: ArrayVec::new(),
    };
    let mut hello = viewer_of(alloc, limit, 64, text_limit);
    take_all(&mut hello, server, at_a_time, &mut told);
    drop(hello);
    told
}

// The bytes of pieces one after another.
fn joined(pieces: &[&[u8]]) -> ArrayVec<u8, 64> {
    let mut all = ArrayVec::new();
    for piece in pieces {
        keep(&mut all, piece);
    }
    all
}

impl Told {
    // Whether it went to the end of a handshake at that version, and answered so.
    fn is_handshake(&self, version: Version, answers: &[u8]) -> bool {
        self.sent.as_slice() == answers
            && self.screens.as_slice() == [(2, 1)].as_slice()
            && self.ready == Some((2, 1, version, 1))
            && self.name.as_slice() == b"t".as_slice()
            && self.left == 0
            && self.ends_in(None)
    }

    // Whether it ended in that fault, or in none.
    fn ends_in(&self, fault: Option<HelloFault>) -> bool {
        self.stays && self.fault == fault
    }

    // Whether it ended so, and this was kept of a reason.
    fn fails_with(&self, fault: Option<HelloFault>, reason: &[u8]) -> bool {
        self.ends_in(fault) && self.reason.as_slice() == reason
    }
}

// Whether a server's bytes lead to the end of a handshake.
fn shakes(
    alloc: Global,
    server: &[u8],
    at_a_time: usize,
    version: Version,
    answers: &[u8],
) -> bool {
    let told = told_of(alloc, Version::V38, 16, server, at_a_time);
    let good = told.is_handshake(version, answers);
    drop(told);
    good
}

const HANDSHAKES: [(Version, &[u8], &[u8], &[u8]); 3] = [
    (
        Version::V38,
        b"RFB 003.008\n",
        &[1, 1, 0, 0, 0, 0],
        b"RFB 003.008\n\x01\x01",
    ),
    (
        Version::V37,
        b"RFB 003.007\n",
        &[1, 1],
        b"RFB 003.007\n\x01\x01",
    ),
    (
        Version::V33,
        b"RFB 003.003\n",
        &[0, 0, 0, 1],
        b"RFB 003.003\n\x01",
    ),
];

#[test]
fn each_version_has_its_own_handshake(rt: HostRuntime) {
    for (version, text, security, answers) in HANDSHAKES {
        let server = joined(&[text, security, &SERVER_INIT]);
        for at_a_time in [1, 3, 64] {
            assert!(rt; shakes(rt.alloc(), server.as_slice(), at_a_time, version, answers));
        }
    }
}

// Whether a server's version is answered so.
fn is_answered(alloc: Global, limit: Version, text: &[u8], answer: &[u8]) -> bool {
    let told = told_of(alloc, limit, 16, text, 5);
    let good = told.sent.as_slice() == answer && told.ends_in(None);
    drop(told);
    good
}

#[test]
fn a_version_above_the_limit_or_unknown_is_answered_below_it(rt: HostRuntime) {
    let texts = [
        (Version::V37, b"RFB 003.008\n", b"RFB 003.007\n"),
        (Version::V38, b"RFB 004.001\n", b"RFB 003.003\n"),
        (Version::V38, b"RFB 003.007\n", b"RFB 003.007\n"),
    ];
    for (limit, text, answer) in texts {
        assert!(rt; is_answered(rt.alloc(), limit, text, answer));
    }
}

// ServerInit of the same screen with no name.
const UNNAMED: [u8; 24] = [
    0, 2, 0, 1, 0x20, 0x18, 0, 1, 0, 0xFF, 0, 0xFF, 0, 0xFF, 0x10, 0x08, 0, 0, 0, 0, 0, 0, 0, 0,
];

fn is_ready_unnamed(alloc: Global) -> bool {
    let server = joined(&[b"RFB 003.003\n", &[0, 0, 0, 1], &UNNAMED]);
    let told = told_of(alloc, Version::V38, 16, server.as_slice(), 64);
    let good = told.ready == Some((2, 1, Version::V33, 0))
        && told.screens.is_empty()
        && told.name.is_empty();
    drop(told);
    good
}

#[test]
fn an_empty_name_is_ready_at_once(rt: HostRuntime) {
    assert!(rt; is_ready_unnamed(rt.alloc()));
}

// Whether a server's bytes end in that fault, or in none, with as much of the reason.
fn fails_with(
    alloc: Global,
    server: &[u8],
    text_limit: u32,
    at_a_time: usize,
    fault: Option<HelloFault>,
    reason: &[u8],
) -> bool {
    let told = told_of(alloc, Version::V38, text_limit, server, at_a_time);
    let good = told.fails_with(fault, reason);
    drop(told);
    good
}

// Whether the fault comes at the last byte, with as much of the reason.
fn fails_at_the_end(
    alloc: Global,
    server: &[u8],
    text_limit: u32,
    at_a_time: usize,
    fault: HelloFault,
    reason: &[u8],
) -> bool {
    match server.split_last() {
        Some((_, front)) => {
            fails_with(alloc, front, text_limit, at_a_time, None, &[])
                && fails_with(alloc, server, text_limit, at_a_time, Some(fault), reason)
        }
        None => false,
    }
}

// What a server sends, in two parts; how many bytes of a text are kept; the fault; and what is kept
// of its reason.
const FAULTS: [(&[u8], &[u8], u32, HelloFault, &[u8]); 9] = [
    (b"RFB 3.8\n....", &[], 16, HelloFault::BadVersion, b""),
    (
        V38_TEXT,
        b"\x00\x00\x00\x00\x02No",
        16,
        HelloFault::Refused(2),
        b"No",
    ),
    (
        V38_TEXT,
        b"\x00\x00\x00\x00\x02No",
        1,
        HelloFault::Refused(2),
        b"N",
    ),
    (V38_TEXT, &[0, 0, 0, 0, 0], 16, HelloFault::Refused(0), b""),
    (V38_TEXT, &[2, 2, 5], 16, HelloFault::NoneNotOffered, b""),
    (
        V38_TEXT,
        b"\x01\x01\x00\x00\x00\x01\x00\x00\x00\x02No",
        16,
        HelloFault::SecurityFailed(2),
        b"No",
    ),
    (
        b"RFB 003.003\n",
        &[0, 0, 0, 3],
        16,
        HelloFault::BadSecurityWord,
        b"",
    ),
    (
        V33_AND_NONE,
        b"\x00\x02\x00\x00................\x00\x00\x00\x01",
        16,
        HelloFault::ScreenEmpty,
        b"",
    ),
    (
        V33_AND_NONE,
        b"\x00\x41\x00\x01................\x00\x00\x00\x00",
        16,
        HelloFault::ScreenTooLarge,
        b"",
    ),
];

const V38_TEXT: &[u8] = b"RFB 003.008\n";

const V33_AND_NONE: &[u8] = b"RFB 003.003\n\x00\x00\x00\x01";

#[test]
fn a_fault_comes_at_its_last_byte_with_the_reason_that_is_kept(rt: HostRuntime) {
    for (front, back, limit, fault, reason) in FAULTS {
        let server = joined(&[front, back]);
        let server = server.as_slice();
        for at_a_time in [1, 64] {
            assert!(rt; fails_at_the_end(rt.alloc(), server, limit, at_a_time, fault, reason));
        }
    }
}
