//! Whom a relay calls: its server, once that went away.

use crate::options::address::Address;
use mio::net::TcpStream;
use std::io;
use std::io::ErrorKind;
use std::net::{Net, SocketAddr, ToSocketAddrs};

/// A server that can be called.
#[derive(Clone, Copy)]
pub struct Callee<'a> {
    server: Address<'a>,
    // Which of the addresses that its name has is called.
    place: usize,
    // Whether it has answered there since it was called.
    has_answered: bool,
}

impl<'a> Callee<'a> {
    /// A server that is there.
    pub fn new(server: Address<'a>) -> Callee<'a> {
        Callee {
            server,
            place: 0,
            has_answered: true,
        }
    }

    /// Bytes of its have come.
    pub fn note_answered(&mut self) {
        self.has_answered = true;
    }

    /// Begins a connection, and does not wait until it is there. Its name is looked up anew. Of
    /// several addresses the next is called where nobody answered at the last.
    pub fn call<N: Net>(&mut self, net: &N) -> io::Result<(TcpStream, SocketAddr)> {
        if !self.has_answered {
            self.place = self.place.saturating_add(1);
        }
        self.has_answered = false;
        let address = self.address(net)?;
        let stream = TcpStream::connect(net, address)?;
        // Where nobody listens, the system may have taken that very port for this end.
        if stream.local_addr()? == address {
            return Err(io::Error::from(ErrorKind::ConnectionRefused));
        }
        let _ = stream.set_nodelay(true);
        Ok((stream, address))
    }

    // The address at its place, or else the first.
    fn address<N: Net>(&mut self, net: &N) -> io::Result<SocketAddr> {
        let mut before = self.place;
        let mut first = None;
        for address in (self.server.host, self.server.port).to_socket_addrs(net)? {
            if before == 0 {
                return Ok(address);
            }
            before -= 1;
            first = first.or(Some(address));
        }
        self.place = 0;
        first.ok_or(io::Error::from(ErrorKind::NotFound))
    }
}
