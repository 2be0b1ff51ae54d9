//! Engines over a wire that holds its history: what is read and what is written, in order.

ghost use Rattle.std.specs.Prelude.{◌≡◌, None};
ghost use Rattle.rfb_session.specs.Wire.{Tells};

use super::devices::Recolouring;
use super::streams::{CLIENT, HANDSHAKE, UPDATE};
use super::{joined, server_of_two_places, viewer_in};
use crate::engine::{Nowhere, Wire, serve_over, view_over};
use rfb_pixel::Format;
use std::alloc::{AllocError, Global};
use std::io;
use std::io::ErrorKind;

// How many bytes a server reads, and how many it writes then, by RFC 6143: its version; the
// security types; SecurityResult; ServerInit; and an update.
const SERVER_TURNS: [(usize, usize); 5] = [(0, 12), (12, 2), (1, 4), (1, 27), (10, 24)];

// The same of a viewer: its version; the security type; ClientInit; its format, its encodings and a
// request; and nothing after the last update that it asks for.
const VIEWER_TURNS: [(usize, usize); 5] = [(12, 12), (2, 1), (4, 1), (27, 38), (24, 0)];

// Gives one byte a read and takes one a write. Of each it notes whether it was written.
#[derive(Drop)]
struct Talk<'a> {
    unread: &'a [u8],
    history: Vec<bool>,
    failed_reads: u64,
    failed_writes: u64,
}

impl Wire for Talk<'_> {
    ghost known = { λ t. record {
      unread = None;
      written = None;
      failed_reads = t.failed_reads;
      failed_writes = t.failed_writes;
      lent = None;
    } };

    ghost steps = { λ old step new. Tells step
        (record {
          unread = None;
          written = None;
          failed_reads = old.failed_reads;
          failed_writes = old.failed_writes;
          lent = None;
        })
        (record {
          unread = None;
          written = None;
          failed_reads = new.failed_reads;
          failed_writes = new.failed_writes;
          lent = None;
        }) };

    fn read(&mut self, buf: &mut [u8]) -> io::Result<usize> {
        if self.unread.is_empty() {
            return Ok(0);
        }
        if self.history.push(false).is_err() {
            self.failed_reads += 1;
            return Err(io::Error::from(ErrorKind::OutOfMemory));
        }
        buf[0] = self.unread[0];
        self.unread = &self.unread[1..];
        Ok(1)
    }

    fn write(&mut self, _buf: &[u8]) -> io::Result<usize> {
        if self.history.push(true).is_err() {
            self.failed_writes += 1;
            return Err(io::Error::from(ErrorKind::OutOfMemory));
        }
        Ok(1)
    }

    ghost tells = { λ old new step told. told };
}

fn talking(alloc: Global, unread: &[u8]) -> Talk<'_>
    ensures reads { result.failed_reads ≡ 0 }
    ensures writes { result.failed_writes ≡ 0 }
{
    Talk {
        unread,
        history: Vec::new(alloc),
        failed_reads: 0,
        failed_writes: 0,
    }
}

// The history of these turns.
fn history(alloc: Global, turns: &[(usize, usize)]) -> Result<Vec<bool>, AllocError> {
    let mut history = Vec::new(alloc);
    for (read, written) in turns {
        for _ in 0..*read {
            history.push(false)?;
        }
        for _ in 0..*written {
            history.push(true)?;
        }
    }
    Ok(history)
}

#[test]
fn a_server_has_answered_before_each_read(rt: HostRuntime) -> Result<(), AllocError> {
    let mut wire = talking(rt.alloc(), CLIENT);
    assert!(rt; is_served(rt.alloc(), &mut wire)?);
    let expected = history(rt.alloc(), &SERVER_TURNS)?;
    assert!(rt; wire.history.as_slice() == expected.as_slice());
    Ok(())
}

// Whether one update was sent there.
fn is_served(alloc: Global, wire: &mut Talk<'_>) -> Result<bool, AllocError>
    requires reads { wire.old.failed_reads ≡ 0 }
    requires writes { wire.old.failed_writes ≡ 0 }
{
    let mut server = server_of_two_places(alloc)?;
    let mut scene = Recolouring { drawings: 0 };
    let answer = serve_over(alloc, wire, &mut server, &mut scene);
    Ok(matches!(answer, Ok(1)))
}

#[test]
fn a_viewer_has_answered_and_asked_before_each_read(rt: HostRuntime) -> Result<(), AllocError> {
    let bytes = joined(rt.alloc(), &[HANDSHAKE, UPDATE])?;
    let mut wire = talking(rt.alloc(), &bytes);
    assert!(rt; is_viewed(rt.alloc(), &mut wire));
    let expected = history(rt.alloc(), &VIEWER_TURNS)?;
    assert!(rt; wire.history.as_slice() == expected.as_slice());
    Ok(())
}

// Whether one update is viewed there.
fn is_viewed(alloc: Global, wire: &mut Talk<'_>) -> bool
    requires reads { wire.old.failed_reads ≡ 0 }
    requires writes { wire.old.failed_writes ≡ 0 }
{
    let mut viewer = viewer_in(alloc, Format::rgb888());
    let answer = view_over(wire, &mut Nowhere, &mut viewer, 1);
    matches!(answer, Ok(1))
}
