//! A writer that keeps nothing.

ghost use Rattle.std.specs.Prelude.{None};

use crate::engine::device::Sink;
use std::io;

/// A sink that takes all bytes, and keeps none of them.
#[derive(Drop)]
pub struct Nowhere;

impl Sink for Nowhere {
    ghost written = { λ n. None };

    ghost failed = { λ n. 0 };

    ghost reference = { λ n. None };

    fn write(&mut self, buf: &[u8]) -> io::Result<usize> {
        Ok(buf.len())
    }

    fn failures(&self) -> u64 {
        0
    }
}
