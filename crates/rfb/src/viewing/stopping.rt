//! A sink that fails once a film is cut.

ghost use Rattle.std.specs.Prelude.{◌≡◌, None};

use rfb_session::Sink;
use std::cell::Cell;
use std::io;
use std::io::ErrorKind;

/// A sink that takes all bytes and keeps none of them, until a flag is set: then each write fails.
/// So an engine that writes there what it feeds ends at once when its watcher sets the flag.
#[derive(Drop)]
pub struct Stopping<'a> {
    is_cut: &'a Cell<bool>,
    failures: u64,
}

impl<'a> Stopping<'a> {
    ghost use Rattle.rfb.specs.Film.{stopped_so_often};

    /// It fails once `is_cut` is set.
    pub fn new(is_cut: &'a Cell<bool>) -> Stopping<'a>
        ensures { stopped_so_often result ≡ 0 }
    {
        Stopping {
            is_cut,
            failures: 0,
        }
    }
}

impl Sink for Stopping<'_> {
    ghost written = { λ s. None };

    ghost failed = { λ s. s.failures };

    ghost reference = { λ s. None };

    fn write(&mut self, buf: &[u8]) -> io::Result<usize> {
        if self.is_cut.get() {
            self.failures += 1;
            return Err(io::Error::from(ErrorKind::BrokenPipe));
        }
        Ok(buf.len())
    }

    fn failures(&self) -> u64 {
        self.failures
    }
}
