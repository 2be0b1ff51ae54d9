//! A file that is read in place of standard input.

use crate::explain::tell_unread;
use crate::streams::is_lasting;
use std::io;
use std::io::{Read, Write};

/// A file, and why a read of it failed for good, if one did.
#[derive(Drop)]
pub struct Source<F> {
    file: F,
    failure: Option<io::Error>,
}

impl<F> Source<F> {
    /// Reads the file.
    pub fn new(file: F) -> Source<F> {
        Source {
            file,
            failure: None,
        }
    }

    /// Says why a read of the file, which has this path, failed for good, if one did.
    pub fn tell_failure<N: Write>(&self, path: &str, notes: &mut N) {
        if let Some(error) = &self.failure {
            tell_unread(path, error, notes);
        }
    }
}

impl<F: Read> Read for Source<F> {
    ghost remaining = { λ source. F.remaining source.file };

    fn read(&mut self, buf: &mut [u8]) -> io::Result<usize> {
        let result = self.file.read(buf);
        if let Err(error) = &result {
            if is_lasting(error.kind()) {
                self.failure = Some(*error);
            }
        }
        result
    }
}
