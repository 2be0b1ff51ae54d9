//! The list of encodings that a session keeps, and what it remembers of a copy.

use super::*;
use crate::Server;
use rfb_wire::Encoding;

// The handshake; 16, Hextile, CopyRect, -223 and Hextile again; then a list without numbers.
const ROWS: &[(&[u8], &[Encoding])] = &[
    (b"RFB 003.003\n", &[]),
    (b"\x01", &[]),
    (b"\x02\0\0\x05", &[]),
    (b"\0\0\0\x10\0\0\0\x05\0\0\0\x01\xFF\xFF\xFF\x21\0\0\0", &[]),
    (b"\x05", &[Encoding::Hextile, Encoding::CopyRect]),
    (b"\x02\0\0\0", &[]),
];

// Whether it takes the bytes, and then has that list.
fn lists(session: &mut Session, bytes: &[u8], wanted: &[Encoding]) -> bool {
    session.fault().is_none()
        && session.feed(bytes).is_ok()
        && session.encodings.as_slice() == wanted
}

fn lists_each(session: &mut Session) -> bool {
    let mut all = true;
    for (bytes, wanted) in ROWS {
        all = all && lists(session, bytes, wanted);
    }
    all
}

fn takes_lists(alloc: Global) -> Result<bool, AllocError> {
    let name = b"t".as_slice();
    let mut session = Session::new(alloc, 2, 1, name, Version::V38, 4)?;
    let listed = lists_each(&mut session);
    drop(session);
    Ok(listed)
}

#[test]
fn a_list_takes_effect_with_its_last_number_each_encoding_once(
    rt: HostRuntime,
) -> Result<(), AllocError> {
    assert!(rt; takes_lists(rt.alloc())?);
    Ok(())
}

// ---- what is claimed of a copy

// The handshake; CopyRect alone; requests for two columns of eight places, whole and what changed.
const BEFORE: &[&[u8]] = &[
    b"RFB 003.003\n",
    b"\x01",
    b"\x02\0\0\x01\0\0\0\x01",
    b"\x03\0\0\0\0\0\0\x02\0\x08",
];

const CHANGED: &[u8] = b"\x03\x01\0\0\0\0\0\x02\0\x08";

fn feed(server: &mut Server, bytes: &[u8]) {
    let _told = server.feed(bytes);
}

const THREE_ROWS: Rect = Rect {
    x: 0,
    y: 0,
    w: 2,
    h: 3,
};

const NO_COLUMN: Rect = Rect {
    x: 1,
    y: 0,
    w: 0,
    h: 3,
};

const NO_ROW: Rect = Rect {
    x: 0,
    y: 1,
    w: 2,
    h: 0,
};

const ITSELF: Rect = Rect {
    x: 0,
    y: 1,
    w: 2,
    h: 1,
};

// Three rows are copied from row 5; then one onto itself, and copies without a place.
fn copies(server: &mut Server) -> bool {
    server.copy(THREE_ROWS, 0, 5).is_ok()
        && server.copy(ITSELF, 0, 1).is_ok()
        && server.copy(NO_COLUMN, 0, 5).is_ok()
        && server.copy(NO_ROW, 0, 5).is_ok()
}

// Whether that is done to a black screen, and nothing is to be sent then.
fn copies_black(server: &mut Server, alloc: Global) -> bool {
    for bytes in BEFORE {
        feed(server, bytes);
    }
    let mut out = Vec::new(alloc);
    let sent = server.compose(&mut out) == Ok(true);
    let copied = copies(server);
    feed(server, CHANGED);
    sent && copied && server.compose(&mut out) == Ok(false)
}

fn claims_three_rows(session: &Session) -> bool {
    match session.claim {
        Some(claim) => {
            claim.to == THREE_ROWS
                && claim.sx == 0
                && claim.sy == 5
                && claim.has(0)
                && claim.has(1)
                && claim.has(2)
        }
        None => false,
    }
}

fn claims(alloc: Global) -> Result<bool, AllocError> {
    let name = b"t".as_slice();
    let mut server = Server::new(alloc, 2, 8, name, Version::V38, 4)?;
    let copied = copies_black(&mut server, alloc);
    let (screen, session) = server.into_parts();
    let claimed = copied && claims_three_rows(&session);
    drop(screen);
    drop(session);
    Ok(claimed)
}

#[test]
fn what_changes_nothing_leaves_what_is_claimed_of_a_copy(
    rt: HostRuntime,
) -> Result<(), AllocError> {
    assert!(rt; claims(rt.alloc())?);
    Ok(())
}
