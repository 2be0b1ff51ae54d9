//! A connection that says how long it waits.

use crate::reaching::Patient;
use crate::streams::is_late;
use std::io;
use std::io::{Read, Write};
use std::net::OpenStream;
use std::time::{Clock, Duration};

// After so many seconds without a byte it is said that there is no end.
const QUIET: u64 = 3;

const ENDLESS: &str = "rfb: it waits as long as it takes: there is no --timeout";

/// A connection to a server. Where there is no deadline, the first read that waits for three
/// seconds says so on `notes`, and waits on.
#[derive(Drop)]
pub struct Waiting<'a, S, C, N> {
    connection: Patient<'a, S, C>,
    notes: N,
    is_told: bool,
}

impl<'a, S: OpenStream, C: Clock, N> Waiting<'a, S, C, N> {
    /// Reads what the connection gives.
    pub fn new(connection: Patient<'a, S, C>, notes: N) -> Waiting<'a, S, C, N> {
        let is_told = !connection.is_endless();
        if !is_told {
            connection.rest(Some(Duration::from_secs(QUIET)));
        }
        Waiting {
            connection,
            notes,
            is_told,
        }
    }
}

impl<S: Read + OpenStream, C: Clock, N: Write> Read for Waiting<'_, S, C, N> {
    fn read(&mut self, buf: &mut [u8]) -> io::Result<usize> {
        match self.connection.read(buf) {
            Err(error) if !self.is_told && is_late(error.kind()) => {
                self.is_told = true;
                let _ = writeln!(self.notes, "{ENDLESS}");
                self.connection.rest(None);
                self.connection.read(buf)
            }
            ended => ended,
        }
    }
}
