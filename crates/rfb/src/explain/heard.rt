//! The first bytes that a server sent, as they come.

use crate::explain::Origin;
use crate::explain::greeting::VERSION_SIZE;
use crate::streams::is_late;
use arrayvec::ArrayVec;
use rfb_wire::pieces::append;
use std::io::{ErrorKind, Write};

// Each time that this number of bytes came, a line says that more come.
const STRETCH: u64 = 16_777_216;

/// The first bytes that came of a server, as many as a version has; and how many came in all.
#[derive(Drop)]
pub struct Heard {
    origin: Origin,
    bytes: ArrayVec<u8, VERSION_SIZE>,
    total: u64,
    // Whether a read failed that had waited for its limit.
    is_late: bool,
}

impl Heard {
    /// Nothing yet.
    pub fn new(origin: Origin) -> Heard {
        Heard {
            origin,
            bytes: ArrayVec::new(),
            total: 0,
            is_late: false,
        }
    }

    /// These bytes came. From time to time it is printed how much did.
    pub fn hear<N: Write>(&mut self, bytes: &[u8], notes: &mut N) {
        self.keep(bytes);
        let before = self.total;
        self.total = self.total.saturating_add(bytes.len() as u64);
        if before / STRETCH != self.total / STRETCH {
            let _ = writeln!(notes, "rfb: {} bytes came, and more are read", self.total);
        }
    }

    /// A read failed so.
    pub fn end(&mut self, kind: ErrorKind) {
        self.is_late = is_late(kind);
    }

    /// Whether a read failed that had waited for its limit.
    pub fn is_late(&self) -> bool {
        self.is_late
    }

    /// Where they come from.
    pub fn origin(&self) -> Origin {
        self.origin
    }

    /// What is kept.
    pub fn as_slice(&self) -> &[u8] {
        self.bytes.as_slice()
    }

    /// How many bytes came.
    pub fn total(&self) -> u64 {
        self.total
    }

    // Keeps these bytes, as far as there is room.
    fn keep(&mut self, bytes: &[u8]) {
        let left = VERSION_SIZE - self.bytes.len();
        append(&mut self.bytes, &bytes[..left.min(bytes.len())]);
    }
}
