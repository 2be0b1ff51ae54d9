//! Readers and writers that are short, or that fail at a call.

ghost use Rattle.std.specs.Prelude.{⊤, None, Some};
ghost use Rattle.rfb_codec.specs.Effect.{IsAlike};

use crate::engine::{Scene, Sink, Source};
use rfb_picture::Rect;
use rfb_pixel::Colour;
use rfb_server::Server;
use std::alloc::Global;
use std::io;
use std::io::{ErrorKind, Read, Write};

// Gives at most `most` bytes a call.
#[derive(Drop)]
pub struct Reader<'a> {
    pub bytes: &'a [u8],
    pub most: usize,
}

impl Read for Reader<'_> {
    fn read(&mut self, buf: &mut [u8]) -> io::Result<usize> {
        let count = self.most.min(buf.len());
        self.bytes.read(&mut buf[..count])
    }
}

// Takes at most `most` bytes a call.
#[derive(Drop)]
pub struct Writer {
    pub bytes: Vec<u8>,
    pub most: usize,
}

impl Write for Writer {
    fn write(&mut self, buf: &[u8]) -> io::Result<usize> {
        let count = self.most.min(buf.len());
        self.bytes.extend_from_slice(&buf[..count])?;
        Ok(count)
    }

    fn flush(&mut self) -> io::Result<()> {
        Ok(())
    }
}

// Gives one byte a call, and fails after a number of calls. Its bytes are known.
#[derive(Drop)]
pub struct FailingReader<'a> {
    pub unread: &'a [u8],
    pub calls: usize,
    pub failures: u64,
}

impl Source for FailingReader<'_> {
    ghost unread = { λ r. Some r.unread.now };

    ghost failed = { λ r. r.failures };

    fn read(&mut self, buf: &mut [u8]) -> io::Result<usize> {
        if self.calls == 0 {
            self.failures += 1;
            return Err(io::Error::from(ErrorKind::Interrupted));
        }
        self.calls -= 1;
        if self.unread.is_empty() || buf.is_empty() {
            return Ok(0);
        }
        buf[0] = self.unread[0];
        self.unread = &self.unread[1..];
        Ok(1)
    }

    fn failures(&self) -> u64 {
        self.failures
    }
}

// Takes one byte a call, and fails after a number of calls. Its bytes are known.
#[derive(Drop)]
pub struct FailingWriter {
    pub written: Vec<u8>,
    pub calls: usize,
    pub failures: u64,
}

impl Sink for FailingWriter {
    ghost written = { λ w. Some w.written.items };

    ghost failed = { λ w. w.failures };

    ghost reference = { λ w. None };

    fn write(&mut self, buf: &[u8]) -> io::Result<usize> {
        if buf.is_empty() {
            return Ok(0);
        }
        if self.calls == 0 || self.written.push(buf[0]).is_err() {
            self.failures += 1;
            return Err(io::Error::from(ErrorKind::BrokenPipe));
        }
        self.calls -= 1;
        Ok(1)
    }

    fn failures(&self) -> u64 {
        self.failures
    }
}

// Takes one byte a call, and none after a number of calls. Its bytes are known.
#[derive(Drop)]
pub struct FullWriter {
    pub written: Vec<u8>,
    pub calls: usize,
    pub failures: u64,
}

impl Sink for FullWriter {
    ghost written = { λ w. Some w.written.items };

    ghost failed = { λ w. w.failures };

    ghost reference = { λ w. None };

    fn write(&mut self, buf: &[u8]) -> io::Result<usize> {
        if buf.is_empty() {
            return Ok(0);
        }
        if self.calls == 0 || self.written.push(buf[0]).is_err() {
            self.failures += 1;
            return Ok(0);
        }
        self.calls -= 1;
        Ok(1)
    }

    fn failures(&self) -> u64 {
        self.failures
    }
}

// Makes both places (65535, 0, 4112), then (0, 65535, 8224), and then black.
#[derive(Drop)]
pub struct Recolouring {
    pub drawings: u8,
}

impl Scene for Recolouring {
    ghost shows = { λ old before after new. ⊤ };

    fn draw(&mut self, server: &mut Server) {
        let (r, g, b) = match self.drawings {
            0 => (65_535, 0, 4112),
            1 => (0, 65_535, 8224),
            _ => (0, 0, 0),
        };
        self.drawings = self.drawings.saturating_add(1);
        let row = Rect {
            x: 0,
            y: 0,
            w: 2,
            h: 1,
        };
        let _ = server.fill(row, Colour { r, g, b });
    }
}
