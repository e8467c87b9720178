//! A socket whose calls don't wait, and what may be done on it.

ghost use Rattle.std.specs.Prelude.{◌≡◌, ◌≤◌, ◌&&◌, IfSome, false, length, not, true};
ghost use Rattle.ts_sockets.specs.Sockets.{AfterRead, AfterWrite};

use mio::event::Event;
use mio::net::TcpStream;
use std::io::{ErrorKind, Read, Write};
use std::net::Shutdown;
use ts_links::Service;

/// The most octets that one read takes.
pub const PIECE: usize = 16_384;

/// A socket whose calls don't wait. An event comes at a change alone, so that what may be done is
/// kept here until the socket refuses it.
#[derive(Drop)]
pub struct Socket {
    stream: TcpStream,
    /// A read may give something.
    readable: bool,
    /// A write may take something.
    writable: bool,
    /// No more comes.
    ended: bool,
    /// Nothing more is written.
    shut: bool,
}

impl Socket {
    /// The socket of a connection that is there: its first read and write are worth while.
    pub fn new(stream: TcpStream) -> Socket
        ensures { result ≡ record {
          stream = stream;
          readable = true;
          writable = true;
          ended = false;
          shut = false;
        } }
    {
        Socket {
            stream,
            readable: true,
            writable: true,
            ended: false,
            shut: false,
        }
    }

    /// The socket of a connection that is being made: an event says when it may be written.
    pub fn dialed(stream: TcpStream) -> Socket
        ensures { result ≡ record {
          stream = stream;
          readable = false;
          writable = false;
          ended = false;
          shut = false;
        } }
    {
        Socket {
            stream,
            readable: false,
            writable: false,
            ended: false,
            shut: false,
        }
    }

    /// Whether a connection that is being made is there. What is written leaves at once then.
    pub fn is_made(&self) -> bool {
        let _nodelay = self.stream.set_nodelay(true);
        matches!(self.stream.take_error(), Ok(None)) && self.stream.peer_addr().is_ok()
    }

    /// An event of the socket.
    pub fn mark(&mut self, event: &Event) {
        if event.is_readable() || event.is_read_closed() || event.is_error() {
            self.readable = true;
        }
        if event.is_writable() || event.is_write_closed() || event.is_error() {
            self.writable = true;
        }
    }

    /// Whether a read may give something.
    pub fn is_readable(&self) -> bool
        ensures { result ≡ (self.now.readable && not self.now.ended) }
    {
        self.readable && !self.ended
    }

    /// Whether a write may take something.
    pub fn is_writable(&self) -> bool
        ensures { result ≡ self.now.writable }
    {
        self.writable
    }

    /// Whether no more comes.
    pub fn is_ended(&self) -> bool
        ensures { result ≡ self.now.ended }
    {
        self.ended
    }

    /// Whether nothing more is written.
    pub fn is_shut(&self) -> bool
        ensures { result ≡ self.now.shut }
    {
        self.shut
    }

    /// Reads once. How many octets came, and `None` where the connection failed.
    pub fn read(&mut self, buffer: &mut [u8; PIECE]) -> Option<usize>
        ensures count { IfSome result (λ count. count ≤ 16384) }
        ensures after { IfSome result (AfterRead self.old self.new) }
    {
        match self.stream.read(buffer) {
            Ok(0) => {
                self.ended = true;
                Some(0)
            }
            Ok(count) => Some(count),
            Err(error) if error.kind() == ErrorKind::WouldBlock => {
                self.readable = false;
                Some(0)
            }
            Err(error) if error.kind() == ErrorKind::Interrupted => Some(0),
            Err(_) => None,
        }
    }

    /// Writes octets once. How many were taken, and `None` where the connection failed. All that a
    /// loop writes on a socket passes here, and so whoever writes has a service that has kept on
    /// disk what followed from all requests that it answered.
    pub fn write<S: Service>(&mut self, _kept: &S, octets: &[u8]) -> Option<usize>
        requires { S.is_kept _kept.now }
        ensures count { IfSome result (λ count. count ≤ length octets.now) }
        ensures after { IfSome result (AfterWrite self.old self.new) }
    {
        match self.stream.write(octets) {
            Ok(count) => Some(count),
            Err(error) if error.kind() == ErrorKind::WouldBlock => {
                self.writable = false;
                Some(0)
            }
            Err(error) if error.kind() == ErrorKind::Interrupted => Some(0),
            Err(_) => None,
        }
    }

    /// Ends what is written. The system would else take the last octets away where the peer has
    /// sent more.
    pub fn shut(&mut self)
        ensures { self.new ≡ record self.old { shut = true; stream = self.new.stream } }
    {
        if !self.shut {
            self.shut = true;
            let _shut = self.stream.shutdown(Shutdown::Write);
        }
    }
}
