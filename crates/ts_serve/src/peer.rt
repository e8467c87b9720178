//! Peers: what answers a stream of requests.

ghost use Rattle.std.specs.Prelude.{◌≡◌, ◌++◌, ◌*◌, ◌<◌, ◌≤◌, List, ℕ, Some, [], length};
ghost use Rattle.std.specs.Prelude.{IfErr, IfOk, IfSome};
ghost use Rattle.ts_question.specs.Question.{StoreQuestion};
ghost use Rattle.ts_node.specs.Machine.{store_of};
ghost use Rattle.ts_node.specs.Node.{IsSound};
ghost use Rattle.ts_command.specs.Octets.{octets_of};
ghost use Rattle.ts_serve.specs.Turn.{ServerTurn};
ghost use Rattle.ts_serve.specs.Stream.{IsServedSomehow};

use crate::fault::ServeFault;
use crate::sending::write_octets;
use crate::server::Server;
use crate::serving::serve;
use crate::timed::TimedStream;
use std::alloc::Global;
use std::io::{ErrorKind, Read};
use std::net::Net;
use std::rt::Clock;
use ts_command::{Command, Outcome};
use ts_disk::Disk;
use ts_node::Machine;
use ts_question::{Answer, Question};
use ts_wire::MAX_LENGTH;

/// The most octets that one read takes.
const PIECE: usize = 8192;

/// What answers a stream of requests, as a server does.
pub trait Peer {
    /// The peer can be asked.
    ghost is_ready: { Self → Type 0 };

    /// Hands a stream over, and returns all that it is answered. A peer on a connection may answer
    /// as many octets as so many frames have at most, and no more.
    ///
    /// # Errors
    ///
    /// What kept the stream from being handed over, or the answers from coming.
    fn exchange(&mut self, octets: &[u8], frames: u16) -> Result<Vec<u8>, ServeFault>
        requires { is_ready self.old }
        ensures { is_ready self.new };
}

/// The server at an address, a host's name or number, a colon and a port. Each exchange is a
/// connection of its own.
#[derive(Drop)]
pub struct TcpPeer<'a, N: Net + Clock> {
    alloc: Global,
    net: &'a N,
    address: String,
    /// How many milliseconds an exchange takes at most.
    most: u64,
}

/// A server in memory. An exchange is answered with what the server writes.
#[derive(Drop)]
pub struct ServerPeer<D: Disk, M> {
    alloc: Global,
    server: Server<D, M>,
}

/// How many octets so many frames have at most: 8,388,612 each, with the four of its length.
pub fn room_for(frames: u16) -> usize
    ensures { result ≡ frames * 8388612 }
{
    usize::from(frames) * (MAX_LENGTH + 4)
}

/// All that a reader gives up to its end, which is at most so many octets. An interrupted read is
/// made again.
///
/// # Errors
///
/// `ReadLimit` where the reader gives more: nothing is read after the octets that exceed it. `Read`
/// where a read fails; `Memory`.
pub fn read_all<R: Read>(alloc: Global, reader: &mut R, most: usize) -> Result<Vec<u8>, ServeFault>
    // What the reader gives is all there, where it tells its octets.
    ensures all { IfOk result (λ octets. IfSome (R.remaining reader.old)
        (λ all. octets.items ≡ all)) }
    ensures room { IfOk result (λ octets. length octets.items ≤ most) }
    // No shorter answer is refused as too long.
    ensures longer { IfErr result (λ fault. fault ≡ ServeFault.ReadLimit
        → IfSome (R.remaining reader.old) (λ all. most < length all)) }
{
    let mut octets = Vec::new(alloc);
    let mut buffer = [0; PIECE];
    for _read in 0..u64::MAX {
        match reader.read(&mut buffer) {
            Ok(0) => return Ok(octets),
            Ok(count) if most - octets.len() < count => return Err(ServeFault::ReadLimit),
            Ok(count) => octets.extend_from_slice(&buffer[..count])?,
            Err(error) if error.kind() == ErrorKind::Interrupted => {}
            Err(_) => return Err(ServeFault::Read),
        }
    }
    Err(ServeFault::Read)
}

impl<'a, N: Net + Clock> TcpPeer<'a, N> {
    /// The server at this address. No connection is made yet.
    pub fn new(alloc: Global, net: &'a N, address: String) -> TcpPeer<'a, N> {
        TcpPeer {
            alloc,
            net,
            address,
            most: u64::MAX,
        }
    }

    /// From now on an exchange takes at most so many milliseconds, and never longer than a
    /// [`TimedStream`] does.
    pub fn limit(&mut self, most: u64)
        ensures { self.new ≡ record self.old { most = most } }
    {
        self.most = most;
    }
}

impl<N: Net + Clock> Peer for TcpPeer<'_, N> {
    ghost is_ready = { λ _. Unit {0} };

    /// `Write` where the connection is not made within [`LONGEST_DIAL`](crate::LONGEST_DIAL)
    /// seconds, or a write fails; `Read` where a read fails, and `ReadLimit` where more is answered
    /// than so many frames; `Memory`. A read or write fails where the exchange has no time left:
    /// see [`TimedStream`].
    fn exchange(&mut self, octets: &[u8], frames: u16) -> Result<Vec<u8>, ServeFault> {
        let address = self.address.as_str();
        let Some(mut stream) = TimedStream::connect(self.net, address, self.most) else {
            return Err(ServeFault::Write);
        };
        write_octets(&mut stream, octets)?;
        if stream.end_writing().is_err() {
            return Err(ServeFault::Write);
        }
        read_all(self.alloc, &mut stream, room_for(frames))
    }
}

impl<
    D: Disk,
    M: Machine<Command, Outcome = Outcome, Question = Question, Answer = Answer>,
> ServerPeer<D, M> {
    /// This server, as a peer.
    pub fn new(alloc: Global, server: Server<D, M>) -> ServerPeer<D, M>
        ensures { result.server ≡ server }
    {
        ServerPeer { alloc, server }
    }

    /// Gives the server back.
    pub fn close(self) -> Server<D, M>
        ensures { result ≡ self.server }
    {
        let ServerPeer {
            alloc: _alloc,
            server,
        } = self;
        server
    }
}

impl<D: Disk, M: Machine<Command, Outcome = Outcome, Question = Question, Answer = Answer>> Peer
    for ServerPeer<D, M> {
    ghost is_ready = { λ peer. IsSound D.state octets_of M.commands peer.server.node };

    /// `Memory` and `Write` where the server's answers find no memory. Another fault of the server
    /// is seen in its answers alone, as through a connection. The server's answers are taken as
    /// they are: frames are not counted.
    fn exchange(&mut self, octets: &[u8], _frames: u16) -> Result<Vec<u8>, ServeFault>
        requires { IsSound D.state octets_of M.commands self.old.server.node }
        ensures ready { IsSound D.state octets_of M.commands self.new.server.node }
        ensures served { IfOk result (λ answers. IsServedSomehow
            (ServerTurn D.state (store_of StoreQuestion M.client_id M.outcome) M.basis M.is_answer)
            octets.now
            self.old.server self.new.server answers.items) }
    {
        let mut reader = octets;
        let mut answers = Vec::new(self.alloc);
        match serve(&mut self.server, &mut reader, &mut answers) {
            Ok(()) | Err(ServeFault::Cut | ServeFault::Frame(_)) => Ok(answers),
            Err(fault) => Err(fault),
        }
    }
}
