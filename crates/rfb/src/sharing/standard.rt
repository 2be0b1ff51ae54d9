//! The standard streams of the process: which of them it has, and when they are ready.

use crate::explain::{Notes, tell_closed_output};
use crate::fault::{Failure, Fault};
use libc::net::{POLLNVAL, POLLOUT, poll};
use libc::types::pollfd;
use mio::unix::SourceFd;
use mio::{Interest, Registry, Token};
use std::io::Write;
use std::os::fd::RawFd;

/// The descriptors of standard input, standard output and standard error.
pub const INPUT: RawFd = 0;

pub const OUTPUT: RawFd = 1;

pub const ERRORS: RawFd = 2;

/// Which of the standard streams the process was started with.
#[derive(Clone, Copy)]
pub struct Streams {
    pub input: bool,
    pub output: bool,
    pub errors: bool,
}

/// Which standard streams are open, and whether sentences are said. They are where standard error
/// is open, unless it is to be quiet. It fails where standard output is closed, and says so. It is
/// asked before anything is opened, since what is opened takes the place of a stream that is not.
pub fn streams_for<E: Write>(errors: &mut E, is_quiet: bool) -> Result<(Streams, bool), Failure> {
    let streams = open_streams();
    let says = streams.errors && !is_quiet;
    if !streams.output {
        tell_closed_output(&mut Notes::new(errors, says));
        return Err(Failure::Fault(Fault::Device));
    }
    Ok((streams, says))
}

// Looks which standard streams are open.
fn open_streams() -> Streams {
    let mut asked = [asked_of(INPUT, 0), asked_of(OUTPUT, 0), asked_of(ERRORS, 0)];
    let _ = poll(&mut asked, 0);
    let [input, output, errors] = asked;
    Streams {
        input: is_open(input),
        output: is_open(output),
        errors: is_open(errors),
    }
}

/// Whether a write to a stream does not wait, or would fail. Two streams may be one pipe, and
/// others may write there too, so one that was ready need not be any more.
pub fn takes_more(fd: RawFd) -> bool {
    let mut asked = [asked_of(fd, POLLOUT)];
    poll(&mut asked, 0) != 0
}

// What is asked of a descriptor, beside whether it is open.
fn asked_of(fd: RawFd, events: i16) -> pollfd {
    pollfd {
        fd,
        events,
        revents: 0,
    }
}

// Whether it is.
fn is_open(asked: pollfd) -> bool {
    asked.revents & POLLNVAL == 0
}

/// A stream of the process, which blocks: it is used once where it says that it is ready, and then
/// it has to say so again.
#[derive(Clone, Copy)]
pub struct Blocking {
    fd: RawFd,
    door: usize,
    interest: Interest,
    // Whether it says when it is ready. A file never does, and always is; and so is a stream that
    // the process does not have.
    tells: bool,
}

impl Blocking {
    /// The stream with this descriptor, at a door. It is among the sources from here on, if it is
    /// open.
    pub fn at(
        door: usize,
        fd: RawFd,
        interest: Interest,
        is_open: bool,
        registry: &Registry,
    ) -> Blocking {
        let tells = is_open
            && registry
                .register(&mut SourceFd(&fd), Token(door), interest)
                .is_ok();
        Blocking {
            fd,
            door,
            interest,
            tells,
        }
    }

    /// Whether it is ready now for all that is known. Where it says when it is, it is asked to say
    /// so again.
    pub fn is_ready_again(&self, registry: &Registry) -> bool {
        if !self.tells {
            return true;
        }
        let token = Token(self.door);
        registry
            .reregister(&mut SourceFd(&self.fd), token, self.interest)
            .is_err()
    }

    /// The door that it is at.
    pub fn door(&self) -> usize {
        self.door
    }

    /// Whether it is always ready.
    pub fn is_constant(&self) -> bool {
        !self.tells
    }
}
