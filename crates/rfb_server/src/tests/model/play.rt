//! A server and the model, at the same events.

ghost use Rattle.std.specs.Prelude.{◌≤◌};

use super::draw::{copy, fill, hint, put};
use super::lot::Lot;
use super::messages::{ask, list, set_format};
use super::plain::Plain;
use super::update::update_of;
use crate::Server;
use crate::hint::Hint;
use rfb_hello::Version;
use std::alloc::{AllocError, Global};

fn feed(server: &mut Server, bytes: &[u8]) {
    let _told = server.feed(bytes);
}

// A server after the handshake of 3.3.
fn ready(alloc: Global, width: u16, height: u16) -> Result<Server, AllocError>
    requires columns { (1 ≤ width) × (width ≤ 4096) }
    requires rows { (1 ≤ height) × (height ≤ 4096) }
{
    let name = b"t".as_slice();
    let mut server = Server::new(alloc, width, height, name, Version::V38, 4)?;
    feed(&mut server, b"RFB 003.003\n".as_slice());
    feed(&mut server, b"\x01".as_slice());
    Ok(server)
}

// Whether the server answers with exactly these bytes, or not at all.
fn answers(server: &mut Server, alloc: Global, wanted: Option<Vec<u8>>) -> bool {
    let mut out = Vec::new(alloc);
    match (server.compose(&mut out), wanted) {
        (Ok(true), Some(bytes)) => out.as_slice() == bytes.as_slice(),
        (Ok(false), None) => out.is_empty(),
        _ => false,
    }
}

// Whether both compose the same.
fn composes_alike(
    server: &mut Server,
    plain: &mut Plain,
    alloc: Global,
    hints: &mut Vec<Hint>,
) -> bool {
    let wanted = update_of(plain, server.screen(), alloc, hints.as_slice());
    if wanted.is_some() {
        hints.clear();
    }
    answers(server, alloc, wanted)
}

// One event; whether both compose the same, where they do.
fn is_alike(
    server: &mut Server,
    plain: &mut Plain,
    alloc: Global,
    hints: &mut Vec<Hint>,
    lot: &mut Lot,
) -> bool {
    match lot.up_to(15) {
        0..=2 => fill(server, lot),
        3 => put(server, alloc, lot),
        4..=5 => copy(server, hints, lot),
        6 => hint(server, hints, lot),
        7..=10 => ask(server, plain, lot),
        11 => set_format(server, plain, lot),
        12 => list(server, plain, alloc, lot),
        _ => return composes_alike(server, plain, alloc, hints),
    }
    true
}

fn are_alike(server: &mut Server, plain: &mut Plain, alloc: Global, lot: &mut Lot) -> bool {
    let mut hints = Vec::new(alloc);
    let mut alike = true;
    for _ in 0..64 {
        alike = alike && is_alike(server, plain, alloc, &mut hints, lot);
    }
    alike
}

/// Whether a server of that size and the model answer alike over events that are drawn by lot.
pub(super) fn plays(
    alloc: Global,
    width: u16,
    height: u16,
    lot: &mut Lot,
) -> Result<bool, AllocError>
    requires columns { (1 ≤ width) × (width ≤ 4096) }
    requires rows { (1 ≤ height) × (height ≤ 4096) }
{
    let mut plain = Plain::new(alloc, width, height)?;
    let mut server = ready(alloc, width, height)?;
    let alike = are_alike(&mut server, &mut plain, alloc, lot);
    drop(server);
    Ok(alike)
}
