//! Doors in memory, and a clock that counts turns.

ghost use Rattle.std.specs.Prelude.{Some, None};

use crate::doors::{Answer, Clock, Duplex, Pause};
use std::io;
use std::io::{ErrorKind, Read, Write};

// Gives and takes at most `most` bytes a call. Its bytes are known.
#[derive(Drop)]
pub struct Pipe<'a> {
    pub unread: &'a [u8],
    pub written: Vec<u8>,
    pub most: usize,
}

impl Duplex for Pipe<'_> {
    ghost unread = { λ p. Some p.unread.now };

    ghost written = { λ p. Some p.written.items };

    fn read(&mut self, buf: &mut [u8]) -> io::Result<usize> {
        if self.most == 0 {
            return Err(io::Error::from(ErrorKind::WouldBlock));
        }
        let count = self.most.min(buf.len());
        self.unread.read(&mut buf[..count])
    }

    fn write(&mut self, buf: &[u8]) -> io::Result<usize> {
        let count = self.most.min(buf.len());
        self.written.extend_from_slice(&buf[..count])?;
        Ok(count)
    }
}

// Each read and each write gives this error.
#[derive(Drop)]
pub struct Broken(pub ErrorKind);

impl Duplex for Broken {
    ghost unread = { λ b. None };

    ghost written = { λ b. None };

    fn read(&mut self, _buf: &mut [u8]) -> io::Result<usize> {
        Err(io::Error::from(self.0))
    }

    fn write(&mut self, _buf: &[u8]) -> io::Result<usize> {
        Err(io::Error::from(self.0))
    }
}

// So many turns at most. Doors are ready, or are not; and it counts the bytes that left, and how
// often it was left to sleep.
#[derive(Drop)]
pub struct Ticks {
    pub turns: usize,
    pub is_ready: bool,
    pub left: usize,
    pub slept: usize,
}

impl Ticks {
    // Doors that are ready, for so many turns.
    pub fn ready(turns: usize) -> Ticks {
        Ticks {
            turns,
            is_ready: true,
            left: 0,
            slept: 0,
        }
    }
}

impl Clock for Ticks {
    ghost readable = { λ t d. t.is_ready };

    ghost writable = { λ t d. t.is_ready };

    fn now(&self) -> u64 {
        0
    }

    fn wait(&mut self, pause: Pause) -> bool {
        if self.turns == 0 {
            return false;
        }
        self.turns -= 1;
        if pause != Pause::Look {
            self.slept = self.slept.saturating_add(1);
        }
        true
    }

    fn reads(&self, _door: usize) -> bool {
        self.is_ready
    }

    fn writes(&self, _door: usize) -> bool {
        self.is_ready
    }

    fn heard(&mut self, _door: usize, _answer: Answer, _most: usize) {}

    fn told(&mut self, _door: usize, answer: Answer) {
        if let Answer::Moved(left) = answer {
            self.left = self.left.saturating_add(left);
        }
    }
}
