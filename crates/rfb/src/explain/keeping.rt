//! A writer that keeps the error of what failed, so that it can be reported afterwards.

ghost use Rattle.std.specs.Prelude.{◌≡◌};

use std::io;
use std::io::Write;

/// A writer that keeps the error of a write that failed.
#[derive(Drop)]
pub struct Writing<'a, W> {
    writer: W,
    failure: &'a mut Option<io::Error>,
}

impl<'a, W> Writing<'a, W> {
    ghost use Rattle.rfb.specs.Explain.{written_by};

    /// Writes to `writer`.
    pub fn new(writer: W, failure: &'a mut Option<io::Error>) -> Writing<'a, W>
        ensures { written_by result ≡ writer }
    {
        Writing { writer, failure }
    }
}

impl<W: Write> Write for Writing<'_, W> {
    ghost contents = { λ w. W.contents w.writer };

    fn write(&mut self, buf: &[u8]) -> io::Result<usize> {
        let result = self.writer.write(buf);
        if let Err(error) = &result {
            *self.failure = Some(*error);
        }
        result
    }

    fn flush(&mut self) -> io::Result<()> {
        self.writer.flush()
    }
}
