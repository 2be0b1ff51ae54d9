//! A server's handshake to the byte, whole and byte by byte, and the faults of a client.

use super::*;
use crate::tests::ends::{feed_server as feed, server_fault as fault_at, server_of};

const RGB888: [u8; 16] = [
    0x20, 0x18, 0, 1, 0, 0xFF, 0, 0xFF, 0, 0xFF, 0x10, 0x08, 0, 0, 0, 0,
];

// ServerInit of a screen of 2 by 1 with the name "t".
const SERVER_INIT: [u8; 25] = [
    0, 2, 0, 1, 0x20, 0x18, 0, 1, 0, 0xFF, 0, 0xFF, 0, 0xFF, 0x10, 0x08, 0, 0, 0, 0, 0, 0, 0, 1,
    b't',
];

// What an end answered to a client's bytes; how many it left; the fault, if there was one, and
// whether it came again.
#[derive(Drop)]
struct Answers {
    sent: ArrayVec<u8, 64>,
    left: usize,
    fault: Option<HelloFault>,
    stays: bool,
}

impl Answers {
    // Whether it ended in that fault, or in none.
    fn ends_in(&self, fault: Option<HelloFault>) -> bool {
        self.stays && self.fault == fault
    }

    // Whether it took all, with no fault.
    fn is_whole(&self) -> bool {
        self.left == 0 && self.ends_in(None)
    }
}

// Keeps bytes that fit.
fn keep(sent: &mut ArrayVec<u8, 64>, bytes: &[u8]) {
    let _fits = sent.try_extend_from_slice(bytes);
}

// Keeps what is to be sent.
fn note(event: &Option<ServerStep>, sent: &mut ArrayVec<u8, 64>) {
    match event {
        None => {}
        Some(ServerStep::Reply(reply)) => keep(sent, reply.as_slice()),
        Some(ServerStep::Ready { reply, .. }) => keep(sent, reply.as_slice()),
    }
}

// Whether the fault comes again, for these bytes and for none.
fn fails_again(hello: &mut ServerHello, bytes: &[u8], fault: HelloFault) -> bool {
    fault_at(hello, bytes) == Some(fault) && fault_at(hello, &[]) == Some(fault)
}

// Notes what an end answers to a slice. How many bytes it used, if no fault came.
fn take(hello: &mut ServerHello, slice: &[u8], answers: &mut Answers) -> Option<usize> {
    match feed(hello, slice) {
        Ok(Fed { used, event }) => {
            note(&event, &mut answers.sent);
            Some(used)
        }
        Err(fault) => {
            answers.fault = Some(fault);
            answers.stays = fails_again(hello, slice, fault);
            None
        }
    }
}

fn take_all(hello: &mut ServerHello, client: &[u8], at_a_time: usize, answers: &mut Answers) {
    let mut rest = client;
    for _ in 0..=client.len() {
        let slice = rest.get(..at_a_time).unwrap_or(rest);
        match take(hello, slice, answers) {
            Some(used) => rest = rest.get(used..).unwrap_or_default(),
            None => break,
        }
    }
    answers.left = rest.len();
}

// All that an end answers to a client's bytes, handed in a few at a time.
fn answers_to(offer: Version, client: &[u8], at_a_time: usize) -> Answers {
    let mut answers = Answers {
        sent: ArrayVec::new(),
        left: 0,
        fault: None,
        stays: true,
    };
    let mut hello = server_of(offer, 2, 1, b"t");
    take_all(&mut hello, client, at_a_time, &mut answers);
    drop(hello);
    answers
}

// Whether it answers the security type and then ServerInit.
fn shakes(offer: Version, client: &[u8], at_a_time: usize, security: &[u8]) -> bool {
    let told = answers_to(offer, client, at_a_time);
    let rest = told.sent.as_slice().strip_prefix(security);
    told.is_whole() && rest == Some(SERVER_INIT.as_slice())
}

const HANDSHAKES: [(Version, &[u8], &[u8]); 3] = [
    (Version::V38, b"RFB 003.008\n\x01\x01", &[1, 1, 0, 0, 0, 0]),
    (Version::V37, b"RFB 003.007\n\x01\x01", &[1, 1]),
    (Version::V33, b"RFB 003.003\n\x01", &[0, 0, 0, 1]),
];

fn is_rgb888() -> bool {
    SERVER_INIT.get(4..20) == Some(RGB888.as_slice())
}

#[test]
fn each_version_has_its_own_handshake(rt: HostRuntime) {
    for (offer, client, security) in HANDSHAKES {
        for at_a_time in [1, 3, 64] {
            assert!(rt; shakes(offer, client, at_a_time, security));
        }
    }
    assert!(rt; is_rgb888());
}

// Whether an end that offers 3.7 greets with it.
fn greets() -> bool {
    let hello = server_of(Version::V37, 1, 1, b"");
    let text = hello.greeting();
    drop(hello);
    text == *b"RFB 003.007\n"
}

#[test]
fn a_greeting_is_the_offer(rt: HostRuntime) {
    assert!(rt; greets());
}

fn is_reply(event: &Option<ServerStep>) -> bool {
    matches!(event, Some(ServerStep::Reply(_)))
}

// Whether the handshake is done at version 3.3, with that shared flag.
fn is_ready(event: &Option<ServerStep>, shares: bool) -> bool {
    match event {
        Some(
            ServerStep::Ready {
                version,
                shared,
                ..
            },
        ) => *version == Version::V33 && *shared == shares,
        _ => false,
    }
}

// Whether the version's text is answered.
fn has_begun(hello: &mut ServerHello) -> bool {
    match feed(hello, b"RFB 003.003\n") {
        Ok(Fed { used, event }) => used == 12 && is_reply(&event),
        Err(_) => false,
    }
}

// Whether the first byte alone is taken, and the handshake is done then.
fn is_done_at(hello: &mut ServerHello, init: &[u8], shares: bool) -> bool {
    match feed(hello, init) {
        Ok(Fed { used, event }) => used == 1 && is_ready(&event, shares),
        Err(_) => false,
    }
}

// Whether no byte is taken, with no event.
fn is_passed(hello: &mut ServerHello, bytes: &[u8]) -> bool {
    match feed(hello, bytes) {
        Ok(Fed { used, event }) => used == 0 && event.is_none(),
        Err(_) => false,
    }
}

fn shares_by(flag: u8, shares: bool) -> bool {
    let mut hello = server_of(Version::V38, 2, 1, b"t");
    let good = has_begun(&mut hello)
        && is_done_at(&mut hello, &[flag, 3, 0], shares)
        && is_passed(&mut hello, &[3, 0]);
    drop(hello);
    good
}

#[test]
fn ready_tells_the_version_and_the_shared_flag(rt: HostRuntime) {
    for (flag, shares) in [(0, false), (1, true), (0xFF, true)] {
        assert!(rt; shares_by(flag, shares));
    }
}

// Whether an end of 3.7 answers the word of security type None alone.
fn is_taken_as_3_3(text: &[u8]) -> bool {
    let told = answers_to(Version::V37, text, 5);
    told.is_whole() && told.sent.as_slice() == [0, 0, 0, 1].as_slice()
}

#[test]
fn a_number_that_is_not_published_is_taken_as_3_3(rt: HostRuntime) {
    for text in [b"RFB 003.889\n", b"RFB 004.001\n", b"RFB 000.000\n"] {
        assert!(rt; is_taken_as_3_3(text));
    }
}

// Whether a client's bytes end in that fault, or in none.
fn ends_in(offer: Version, client: &[u8], at_a_time: usize, fault: Option<HelloFault>) -> bool {
    let told = answers_to(offer, client, at_a_time);
    told.ends_in(fault)
}

// Whether the fault comes at the last byte.
fn fails_at_the_end(offer: Version, client: &[u8], at_a_time: usize, fault: HelloFault) -> bool {
    match client.split_last() {
        Some((_, front)) => {
            ends_in(offer, front, at_a_time, None) && ends_in(offer, client, at_a_time, Some(fault))
        }
        None => false,
    }
}

const FAULTS: [(Version, &[u8], HelloFault); 6] = [
    (Version::V38, b"RFB 3.8\n....", HelloFault::BadVersion),
    (Version::V38, b"RFB 003.00a\n", HelloFault::BadVersion),
    (Version::V38, b"RFB 003.008\r", HelloFault::BadVersion),
    (Version::V33, b"RFB 003.008\n", HelloFault::VersionTooHigh),
    (Version::V37, b"RFB 003.008\n", HelloFault::VersionTooHigh),
    (
        Version::V37,
        b"RFB 003.007\n\x02",
        HelloFault::BadSecurityChoice,
    ),
];

#[test]
fn a_fault_comes_at_its_last_byte_and_stays(rt: HostRuntime) {
    for (offer, client, fault) in FAULTS {
        for at_a_time in [1, 64] {
            assert!(rt; fails_at_the_end(offer, client, at_a_time, fault));
        }
    }
}
