//! A session whose memory is refused at the end of its handshake: the same byte, fed again, ends
//! it. They pass too where each allocation fails in turn.

use crate::{LateFault, LateSession, ServerEvent, ServerSetup};
use rfb_hello::Fed;
use std::alloc::{AllocError, Global};

// A client of version 3.3 up to its ClientInit, RFC 6143 sections 7.1.1 and 7.3.1, which follows.
const VERSION: &[u8] = b"RFB 003.003\n";

const SHARED: &[u8] = b"\x01";

fn new_session(alloc: Global) -> Result<LateSession, AllocError> {
    LateSession::new(alloc, ServerSetup::usual(2, 1, b"t"))
}

// A session, by a second call where the first one was refused memory.
fn session_at_last(alloc: Global) -> Result<LateSession, AllocError> {
    match new_session(alloc) {
        Ok(session) => Ok(session),
        Err(_) => new_session(alloc),
    }
}

fn is_ready(told: &Result<Fed<ServerEvent>, LateFault>) -> bool {
    matches!(
        told,
        Ok(Fed {
            used: 1,
            event: Some(ServerEvent::Ready { shared: true, .. }),
        },)
    )
}

fn ends_its_handshake(session: &mut LateSession) -> bool {
    let told = session.feed(SHARED);
    if matches!(told, Err(LateFault::NoMemory)) {
        return is_ready(&session.feed(SHARED));
    }
    is_ready(&told)
}

#[test]
fn a_session_that_was_refused_memory_is_ready_by_the_same_byte(
    rt: HostRuntime,
) -> Result<(), AllocError> {
    let mut session = session_at_last(rt.alloc())?;
    let begun = session.feed(VERSION).is_ok();
    let done = ends_its_handshake(&mut session);
    drop(session);
    assert!(rt; begun && done);
    Ok(())
}

// A request for both places, RFC 6143 section 7.5.3.
const ASKS: &[u8] = b"\x03\0\0\0\0\0\0\x02\0\x01";

fn waits_once_it_asked(session: &mut LateSession) -> bool {
    !session.is_asked()
        && session.feed(VERSION).is_ok()
        && !session.is_asked()
        && ends_its_handshake(session)
        && !session.is_asked()
        && session.feed(ASKS).is_ok()
        && session.is_asked()
}

#[test]
fn a_viewer_of_a_late_session_waits_once_it_has_asked(rt: HostRuntime) -> Result<(), AllocError> {
    let mut session = session_at_last(rt.alloc())?;
    let waits = waits_once_it_asked(&mut session);
    drop(session);
    assert!(rt; waits);
    Ok(())
}
