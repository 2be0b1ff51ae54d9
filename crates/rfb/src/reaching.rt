//! How long is waited for a peer: a connection to a server, and those that a listener takes.

use crate::options::address::{Address, Peer};
use rfb_session::turns;
use std::io::{ErrorKind, Read, Write};
use std::net::{Net, OpenListener, OpenStream, SocketAddr, TcpStream, ToSocketAddrs};
use std::time::{Clock, Duration, Instant};
use std::{io, thread};

// How long it rests before what was refused is tried again, in milliseconds.
const PAUSE: u64 = 100;

/// When waiting ends, if ever.
#[derive(Drop)]
pub struct Deadline<'a, C> {
    clock: &'a C,
    end: Option<(Instant, Duration)>,
}

impl<'a, C: Clock> Deadline<'a, C> {
    /// A number of seconds from here on, or never.
    pub fn new(clock: &'a C, seconds: Option<u32>) -> io::Result<Deadline<'a, C>> {
        let end = match seconds {
            Some(seconds) => Some((
                Instant::now(clock)?,
                Duration::from_secs(u64::from(seconds)),
            )),
            None => None,
        };
        Ok(Deadline { clock, end })
    }

    /// Whether there is no end.
    fn is_never(&self) -> bool {
        self.end.is_none()
    }

    /// How much time is left, where there is an end. It is an error where none is.
    fn left(&self) -> io::Result<Option<Duration>> {
        let Some((start, limit)) = self.end else {
            return Ok(None);
        };
        let left = limit.saturating_sub(start.elapsed(self.clock)?);
        if left == Duration::ZERO {
            return Err(io::Error::from(ErrorKind::TimedOut));
        }
        Ok(Some(left))
    }
}

/// Connects to a server. While it is waited for, if that ends, a refused connection is tried again,
/// and each read ends then.
pub fn connect<'a, N: Net + Clock>(
    net: &'a N,
    peer: Peer<'_>,
) -> io::Result<Patient<'a, N::Stream, N>> {
    let deadline = Deadline::new(net, peer.timeout)?;
    let stream = connect_until(net, peer.address, &deadline)?;
    Ok(Patient::new(stream, deadline))
}

/// Connects to a server, once. The connection does not wait from then on.
pub fn connect_once<N: Net>(net: &N, server: Address<'_>) -> io::Result<N::Stream> {
    let stream = TcpStream::connect(net, (server.host, server.port))?;
    hurry(&stream)?;
    Ok(stream)
}

/// The same within so many seconds, in which a refused connection is tried again.
pub fn connect_in_time<N: Net + Clock>(
    net: &N,
    server: Address<'_>,
    seconds: u32,
) -> io::Result<N::Stream> {
    let deadline = Deadline::new(net, Some(seconds))?;
    let stream = connect_until(net, server, &deadline)?;
    hurry(&stream)?;
    Ok(stream)
}

/// A read or a write of this connection does not wait from here on, and what is written goes out at
/// once. It is an error where they would wait.
pub fn hurry<S: OpenStream>(stream: &S) -> io::Result<()> {
    stream.set_nonblocking(true)?;
    let _ = stream.set_nodelay(true);
    Ok(())
}

// Tries to connect until the deadline, or once where there is none.
fn connect_until<N: Net + Clock>(
    net: &N,
    server: Address<'_>,
    deadline: &Deadline<'_, N>,
) -> io::Result<N::Stream> {
    for _turn in 0..turns() {
        let Some(left) = deadline.left()? else {
            return TcpStream::connect(net, (server.host, server.port));
        };
        match connect_within(net, server, left) {
            Err(error) if error.kind() == ErrorKind::ConnectionRefused => {
                let pause = Duration::from_millis(PAUSE);
                if left <= pause {
                    return Err(error);
                }
                thread::sleep(net, pause);
            }
            other => return other,
        }
    }
    Err(io::Error::from(ErrorKind::TimedOut))
}

// Connects to the first address of a host that takes it.
fn connect_within<N: Net>(net: &N, server: Address<'_>, left: Duration) -> io::Result<N::Stream> {
    let mut last = io::Error::from(ErrorKind::NotFound);
    for address in (server.host, server.port).to_socket_addrs(net)? {
        match TcpStream::connect_timeout(net, &address, left) {
            Ok(stream) => return Ok(stream),
            Err(error) => last = error,
        }
    }
    Err(last)
}

/// A connection whose reads end at a deadline, if there is one.
#[derive(Drop)]
pub struct Patient<'a, S, C> {
    stream: S,
    deadline: Deadline<'a, C>,
}

impl<'a, S, C> Patient<'a, S, C> {
    /// Reads what `stream` gives.
    pub fn new(stream: S, deadline: Deadline<'a, C>) -> Patient<'a, S, C> {
        Patient { stream, deadline }
    }
}

impl<S: OpenStream, C: Clock> Patient<'_, S, C> {
    /// Whether its reads wait as long as it takes.
    pub fn is_endless(&self) -> bool {
        self.deadline.is_never()
    }

    /// Where there is no deadline, each read from here on ends after so long, or waits. A
    /// connection that cannot be given a limit keeps the one that it has.
    pub fn rest(&self, limit: Option<Duration>) {
        let _ = self.stream.set_read_timeout(limit);
    }

    /// The same connection, to write to. What is written goes out at once.
    pub fn answering(&self) -> io::Result<S> {
        let _ = self.stream.set_nodelay(true);
        self.stream.try_clone()
    }
}

impl<S: Read + OpenStream, C: Clock> Read for Patient<'_, S, C> {
    /// Reads once, or again after a signal: a process that was stopped and goes on gets one, and
    /// its reads with a limit end by it.
    fn read(&mut self, buf: &mut [u8]) -> io::Result<usize> {
        for _turn in 0..turns() {
            if let Some(left) = self.deadline.left()? {
                self.stream.set_read_timeout(Some(left))?;
            }
            match self.stream.read(buf) {
                Err(error) if error.kind() == ErrorKind::Interrupted => {}
                ended => return ended,
            }
        }
        Err(io::Error::from(ErrorKind::Interrupted))
    }
}

/// A listener whose connections end where nothing comes, or nothing can be sent, for some time.
#[derive(Drop)]
pub struct Timed<'a, L, C> {
    listener: L,
    clock: &'a C,
    seconds: Option<u32>,
}

impl<'a, L, C> Timed<'a, L, C> {
    /// Takes what `listener` takes. A read or a write ends after `seconds` seconds, if there is a
    /// number.
    pub fn new(listener: L, clock: &'a C, seconds: Option<u32>) -> Timed<'a, L, C> {
        Timed {
            listener,
            clock,
            seconds,
        }
    }
}

impl<L: OpenListener, C: Clock> Timed<'_, L, C>
where
    L::Stream: OpenStream,
{
    /// Takes the next connection, and says who is at its other end. Where none can be had, it rests
    /// before it says so: the next one may be had then.
    pub fn accept(&self) -> io::Result<(Steady<L::Stream>, SocketAddr)> {
        match self.listener.accept() {
            Ok((stream, address)) => {
                if let Some(seconds) = self.seconds {
                    let limit = Some(Duration::from_secs(u64::from(seconds)));
                    stream.set_read_timeout(limit)?;
                    stream.set_write_timeout(limit)?;
                }
                Ok((Steady { stream }, address))
            }
            Err(error) => {
                thread::sleep(self.clock, Duration::from_millis(PAUSE));
                Err(error)
            }
        }
    }
}

/// A connection whose reads and writes begin again after a signal: where they have a limit, a
/// process that was stopped and goes on gets one.
#[derive(Drop)]
pub struct Steady<S> {
    stream: S,
}

impl<S: OpenStream> Steady<S> {
    /// The same connection, to write to. What is written goes out at once.
    pub fn answering(&self) -> io::Result<Steady<S>> {
        let _ = self.stream.set_nodelay(true);
        let stream = self.stream.try_clone()?;
        Ok(Steady { stream })
    }
}

impl<S: Read> Read for Steady<S> {
    fn read(&mut self, buf: &mut [u8]) -> io::Result<usize> {
        for _turn in 0..turns() {
            match self.stream.read(buf) {
                Err(error) if error.kind() == ErrorKind::Interrupted => {}
                ended => return ended,
            }
        }
        Err(io::Error::from(ErrorKind::Interrupted))
    }
}

impl<S: Write> Write for Steady<S> {
    fn write(&mut self, buf: &[u8]) -> io::Result<usize> {
        for _turn in 0..turns() {
            match self.stream.write(buf) {
                Err(error) if error.kind() == ErrorKind::Interrupted => {}
                ended => return ended,
            }
        }
        Err(io::Error::from(ErrorKind::Interrupted))
    }

    fn flush(&mut self) -> io::Result<()> {
        self.stream.flush()
    }
}
