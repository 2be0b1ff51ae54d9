//! A connection of this process to itself.

ghost use Rattle.std.specs.Prelude.{OnOk};
ghost use Rattle.std.specs.Io.KnownBytes.{Appends, Consumes};

use crate::writing::write_whole;
use std::io;
use std::io::{ErrorKind, Read, Write};
use std::net::{Net, OpenListener, OpenStream, TcpListener, TcpStream};

/// How many bytes are written before the other end reads them, at most.
pub const PART: usize = 4096;

/// Both ends of a connection.
#[derive(Drop)]
pub struct Link<C> {
    pub server: C,
    pub viewer: C,
}

/// A connection over the loopback address. What is written goes out at once: the other end reads
/// it next.
pub fn connected<N: Net>(net: &N) -> io::Result<Link<N::Stream>> {
    let listener = TcpListener::bind(net, ("127.0.0.1", 0))?;
    let viewer = TcpStream::connect(net, listener.local_addr()?)?;
    let (server, _address) = listener.accept()?;
    let _ = viewer.set_nodelay(true);
    let _ = server.set_nodelay(true);
    Ok(Link { server, viewer })
}

/// Writes these bytes to one end, and reads as many at the other, in their place.
pub fn carry<C: Read + Write>(bytes: &mut [u8], from: &mut C, to: &mut C) -> io::Result<()>
    ensures sent { OnOk result (Appends (C.contents from.old) (C.contents from.new) bytes.old) }
    ensures came { OnOk result (Consumes (C.remaining to.old) (C.remaining to.new) bytes.new) }
{
    match write_whole(bytes, from) {
        Ok(()) => read_whole(bytes, to),
        Err(_) => Err(io::Error::from(ErrorKind::WriteZero)),
    }
}

// Reads as many bytes as there is room for. A read that fails is not tried again, whatever its
// kind.
fn read_whole<C: Read>(bytes: &mut [u8], from: &mut C) -> io::Result<()>
    ensures { OnOk result (Consumes (C.remaining from.old) (C.remaining from.new) bytes.new) }
{
    let mut done = 0;
    while done < bytes.len() {
        let count = from.read(&mut bytes[done..])?;
        if count == 0 {
            return Err(io::Error::from(ErrorKind::UnexpectedEof));
        }
        done += count;
    }
    Ok(())
}
