//! What is at the doors of a core.

ghost use Rattle.std.specs.Prelude.{◌≤◌, None, length};
ghost use Rattle.std.specs.Io.{WritesAtMost};

use crate::sharing::standard::{ERRORS, OUTPUT, Streams, takes_more};
use mio::net::TcpStream;
use rfb_session::console::{DOORS, LINES, NOTES};
use rfb_session::doors::{Counted, Duplex, Place};
use std::alloc::{AllocError, Global};
use std::io;
use std::io::{ErrorKind, Read, Write};
use std::os::fd::RawFd;

// What a pipe takes without waiting where it can be written, in bytes.
const AT_ONCE: usize = 4096;

/// A stream of the process, or a connection.
#[derive(Drop)]
pub enum Tenant<'a, R, W, E, S> {
    /// Standard input, which is only read.
    Input(&'a mut R),
    /// Standard output, which is only written.
    Output(&'a mut W),
    /// Standard error, likewise.
    Errors(&'a mut E),
    /// A connection that does not wait.
    Connection(S),
    /// One that was begun from here, and that may not be there yet: then a read or a write would
    /// wait.
    Called(TcpStream),
    /// A stream without which the process was started. It has ended, and what is written is lost.
    Missing,
}

impl<'a, R, W, E, S> Tenant<'a, R, W, E, S> {
    /// Standard input, if the process has one.
    pub fn input(input: &'a mut R, is_there: bool) -> Tenant<'a, R, W, E, S> {
        if is_there {
            Tenant::Input(input)
        } else {
            Tenant::Missing
        }
    }

    // Standard error, likewise.
    fn errors(errors: &'a mut E, is_there: bool) -> Tenant<'a, R, W, E, S> {
        if is_there {
            Tenant::Errors(errors)
        } else {
            Tenant::Missing
        }
    }
}

/// The bytes of a connection are not known, and of the streams no more is needed.
impl<R: Read, W: Write, E: Write, S: Read + Write> Duplex for Tenant<'_, R, W, E, S> {
    ghost unread = { λ _. None };

    ghost written = { λ _. None };

    fn read(&mut self, buf: &mut [u8]) -> io::Result<usize> {
        match self {
            Tenant::Input(input) => input.read(buf),
            Tenant::Connection(stream) => stream.read(buf),
            Tenant::Called(stream) => stream.read(buf),
            Tenant::Output(_) | Tenant::Errors(_) => Err(io::Error::from(ErrorKind::WouldBlock)),
            Tenant::Missing => Ok(0),
        }
    }

    fn write(&mut self, buf: &[u8]) -> io::Result<usize> {
        match self {
            Tenant::Input(_) => Err(io::Error::from(ErrorKind::WouldBlock)),
            Tenant::Connection(stream) => stream.write(buf),
            Tenant::Called(stream) => stream.write(buf),
            Tenant::Output(output) => write_some(OUTPUT, output, buf),
            Tenant::Errors(errors) => write_some(ERRORS, errors, buf),
            Tenant::Missing => Ok(buf.len()),
        }
    }
}

// Writes as much to the stream of a descriptor as does not wait, and returns how much.
fn write_some<W: Write>(fd: RawFd, output: &mut W, buf: &[u8]) -> io::Result<usize>
    ensures { WritesAtMost result buf.now }
{
    if !takes_more(fd) {
        return Err(io::Error::from(ErrorKind::WouldBlock));
    }
    let count = output.write(&buf[..length_at_once(buf)])?;
    output.flush()?;
    Ok(count)
}

// How many bytes are written at once: whole lines, where there are any. So none is parted by a line
// of another stream that leads to the same place.
fn length_at_once(buf: &[u8]) -> usize
    ensures { result ≤ length buf.now }
{
    let most = buf.len().min(AT_ONCE);
    for cut in 0..most {
        let length = most - cut;
        if buf[length - 1] == b'\n' {
            return length;
        }
    }
    most
}

/// A device at a door, or nobody.
pub type Door<'a, R, W, E, S> = Place<Counted<Tenant<'a, R, W, E, S>>>;

/// As many doors as a core has, with nobody at them. They are made before the streams are lent to
/// their tenants, so where there is no memory for them nothing has been written.
pub fn empty_doors<'a, R: Read, W: Write, E: Write, S: Read + Write + Drop>(
    alloc: Global,
) -> Result<Vec<Door<'a, R, W, E, S>>, AllocError> {
    let mut doors = Vec::with_capacity(alloc, DOORS)?;
    for _door in 0..DOORS {
        doors.push(Place::Empty)?;
    }
    Ok(doors)
}

/// Lets in who is there before anybody comes: a tenant at the first door, one at the second if there
/// is one, and at theirs the streams of the process that lines and notes go to.
pub fn let_in_first<'a, R: Read, W: Write, E: Write, S: Read + Write + Drop>(
    doors: &mut [Door<'a, R, W, E, S>],
    first: Tenant<'a, R, W, E, S>,
    second: Option<Tenant<'a, R, W, E, S>>,
    output: &'a mut W,
    errors: &'a mut E,
    streams: Streams,
) {
    let_in(doors, 0, Counted::new(first));
    if let Some(tenant) = second {
        let_in(doors, 1, Counted::new(tenant));
    }
    let_in(doors, LINES, Counted::new(Tenant::Output(output)));
    let errors = Tenant::errors(errors, streams.errors);
    let_in(doors, NOTES, Counted::new(errors));
}

// Lets a device in at a door.
fn let_in<D: Drop>(doors: &mut [Place<D>], door: usize, device: D) {
    if let Some(place) = doors.get_mut(door) {
        *place = Place::Held(device);
    }
}
