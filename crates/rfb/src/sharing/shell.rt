//! The system as the loop of a core knows it: which doors are ready, the time, and who comes.

pub mod callee;
mod clock;
mod entry;

use crate::sharing::ready::Ready;
use crate::sharing::shell::callee::Callee;
use crate::sharing::standard::{Blocking, ERRORS, INPUT, OUTPUT, Streams};
use mio::unix::SourceFd;
use mio::{Events, Interest, Poll, Token};
use rfb_session::console::{DOORS, LINES, NOTES};
use rfb_session::relay::SERVER;
use std::alloc::Global;
use std::io;
use std::net::Net;
use std::os::fd::{AsRawFd, RawFd};
use std::time::{Clock, Instant};

// The token of the listener; a door has its number.
const LISTENER: Token = Token(DOORS);

// How many sources there are at most: each door but what is missing, and the listener.
const SOURCES: usize = DOORS + 1;

// What is known of the listener.
#[derive(Clone, Copy, PartialEq, Eq)]
enum Ear {
    // Nobody waits.
    Quiet,
    // Somebody may.
    Ringing,
    // Somebody may, who could not be had: the process has too many descriptors, say. It is tried
    // again once anything else has happened, which may have closed one.
    Barred,
}

/// What is at the doors before anybody comes, beside the streams that are written.
#[derive(Clone, Copy)]
pub struct Front<'a> {
    /// The door of standard input, which blocks, if it is read.
    pub input: Option<usize>,
    /// The descriptor of the connection to a server, which does not, if there is one.
    pub server: Option<RawFd>,
    /// Whom to call once that has ended, if anybody.
    pub callee: Option<Callee<'a>>,
}

/// A poll over the doors and a listener, and a clock.
#[derive(Drop)]
pub struct Shell<'a, L, C> {
    clock: &'a C,
    start: Instant,
    // The time that was read last, in milliseconds from the start on.
    time: u64,
    poll: Poll,
    events: Events<Global>,
    // What is worth a read, and what a write.
    reads: Ready,
    writes: Ready,
    // Which connections were reported to have ended, or to have failed.
    ending: Ready,
    // Standard input, where it is read.
    input: Option<Blocking>,
    // Whom to call, where anybody.
    callee: Option<Callee<'a>>,
    output: Blocking,
    errors: Blocking,
    listener: Option<L>,
    ear: Ear,
    // The connection that was accepted last, or begun.
    newest: Option<RawFd>,
    // Whether anything happened since the last wait began.
    is_stirred: bool,
    // Whether the core is to do a turn at once: bytes have left that it may have kept others' doors
    // shut for, or a write has failed.
    wants_turn: bool,
}

impl<'a, L: AsRawFd + Drop, C: Net + Clock> Shell<'a, L, C> {
    /// Looks at what is at the doors, and at a listener that does not wait, if there is one.
    pub fn new(
        rt: &'a C,
        alloc: Global,
        listener: Option<L>,
        front: Front<'a>,
        streams: Streams,
    ) -> io::Result<Shell<'a, L, C>> {
        let poll = Poll::new(rt)?;
        let registry = poll.registry();
        let (reads, writes) = (Interest::READABLE, Interest::WRITABLE);
        let output = Blocking::at(LINES, OUTPUT, writes, streams.output, registry);
        let errors = Blocking::at(NOTES, ERRORS, writes, streams.errors, registry);
        let mut ready = (Ready::none(), Ready::none());
        ready.1.note(LINES, output.is_constant());
        ready.1.note(NOTES, errors.is_constant());
        let input = match front.input {
            Some(door) => {
                let input = Blocking::at(door, INPUT, reads, streams.input, registry);
                ready.0.note(door, input.is_constant());
                Some(input)
            }
            None => None,
        };
        if let Some(fd) = front.server {
            registry.register(&mut SourceFd(&fd), Token(SERVER), reads | writes)?;
            ready.0.note(SERVER, true);
            ready.1.note(SERVER, true);
        }
        if let Some(listener) = &listener {
            registry.register(&mut SourceFd(&listener.as_raw_fd()), LISTENER, reads)?;
        }
        let (reads, writes) = ready;
        Ok(Shell {
            clock: rt,
            start: Instant::now(rt)?,
            time: 0,
            poll,
            events: Events::with_capacity(alloc, SOURCES)?,
            reads,
            writes,
            ending: Ready::none(),
            input,
            callee: front.callee,
            output,
            errors,
            listener,
            ear: Ear::Quiet,
            newest: None,
            is_stirred: false,
            wants_turn: false,
        })
    }
}
