//! A node as a client reaches it: with a key, or without one.

ghost use Rattle.std.specs.Prelude.{◌≤◌, IfOk, length};

use std::alloc::Global;
use std::io::{ErrorKind, Read, Write};
use std::net::Net;
use std::random::RandomSource;
use std::rt::Clock;
use ts_access::{EntranceFault, Key, Visitor};
use ts_guard::MAX_CONTENT;
use ts_keyring::draw;
use ts_serve::{Peer, READ_LIMIT, ServeFault, TcpPeer, TimedStream, room_for, write_octets};
use ts_wire::FrameFault;

/// The most octets that one read takes.
const PIECE: usize = 8192;

/// How many reads are made at most until the challenge has come.
const GREETING_READS: u32 = 64;

/// The node at an address, which is shown a key. Each exchange is a connection of its own.
#[derive(Drop)]
pub struct KeyedPeer<'a, N: Net + Clock + RandomSource> {
    alloc: Global,
    net: &'a N,
    address: String,
    key: Key,
    /// How many milliseconds an exchange takes at most.
    most: u64,
}

/// A node as a client reaches it.
#[derive(Drop)]
pub enum ReachedNode<'a, N: Net + Clock + RandomSource> {
    /// Without a key.
    Open(TcpPeer<'a, N>),
    /// With a key.
    Keyed(KeyedPeer<'a, N>),
}

/// What ends an exchange with a key.
fn fault_of(fault: EntranceFault) -> ServeFault {
    match fault {
        EntranceFault::Memory => ServeFault::Memory,
        EntranceFault::Hello(_) => ServeFault::Frame(FrameFault::Version),
        EntranceFault::UnknownKey | EntranceFault::Guard(_) => ServeFault::Read,
    }
}

/// Reads once; an interrupted read is made again. How many octets came.
fn read_some<S: Read>(stream: &mut S, buffer: &mut [u8; PIECE]) -> Result<usize, ServeFault>
    ensures { IfOk result (λ count. count ≤ 8192) }
{
    for _read in 0..READ_LIMIT {
        match stream.read(buffer) {
            Ok(count) => return Ok(count),
            Err(error) if error.kind() == ErrorKind::Interrupted => {}
            Err(_) => return Err(ServeFault::Read),
        }
    }
    Err(ServeFault::Read)
}

/// Reads until the challenge has come.
fn meet<S: Read>(
    stream: &mut S,
    visitor: &mut Visitor,
    buffer: &mut [u8; PIECE],
) -> Result<(), ServeFault> {
    for _read in 0..GREETING_READS {
        if visitor.has_begun() {
            return Ok(());
        }
        let count = read_some(stream, buffer)?;
        if count == 0 {
            return Err(ServeFault::Cut);
        }
        visitor.push(&buffer[..count])?;
        if let Err(fault) = visitor.take() {
            return Err(fault_of(fault));
        }
    }
    Err(ServeFault::Cut)
}

/// Writes octets, sealed.
fn write_sealed<S: Write>(
    alloc: Global,
    stream: &mut S,
    visitor: &mut Visitor,
    octets: &[u8],
) -> Result<(), ServeFault> {
    for piece in octets.chunks(MAX_CONTENT) {
        let mut record = Vec::new(alloc);
        match visitor.seal(piece, &mut record) {
            Ok(true) => write_octets(stream, &record)?,
            Ok(false) | Err(_) => return Err(ServeFault::Write),
        }
    }
    Ok(())
}

/// Puts what is opened of the octets that came behind others.
fn open_all(visitor: &mut Visitor, out: &mut Vec<u8>) -> Result<(), ServeFault> {
    for _step in 0..visitor.held_count().saturating_add(1) {
        match visitor.take() {
            Ok(Some(octets)) => out.extend_from_slice(&octets)?,
            Ok(None) => return Ok(()),
            Err(fault) => return Err(fault_of(fault)),
        }
    }
    Ok(())
}

/// All that is opened of what comes until the other end has closed, which is at most so many
/// octets. `ReadLimit` where it is more: nothing is read after the octets that exceed it.
fn read_opened<S: Read>(
    alloc: Global,
    stream: &mut S,
    visitor: &mut Visitor,
    buffer: &mut [u8; PIECE],
    most: usize,
) -> Result<Vec<u8>, ServeFault>
    ensures { IfOk result (λ octets. length octets.items ≤ most) }
{
    let mut out = Vec::new(alloc);
    for _read in 0..u64::MAX {
        if most < out.len() {
            return Err(ServeFault::ReadLimit);
        }
        let count = read_some(stream, buffer)?;
        if count == 0 {
            return Ok(out);
        }
        visitor.push(&buffer[..count])?;
        open_all(visitor, &mut out)?;
    }
    Err(ServeFault::Read)
}

impl<N: Net + Clock + RandomSource> Peer for KeyedPeer<'_, N> {
    ghost is_ready = { λ _. Unit {0} };

    /// As a `TcpPeer`; `Cut` where the node ends the connection before it sends a challenge;
    /// `Frame` where it wants no key; `Read` where a record is not one of its key.
    fn exchange(&mut self, octets: &[u8], frames: u16) -> Result<Vec<u8>, ServeFault> {
        let Some(nonce) = draw(self.net) else {
            return Err(ServeFault::Read);
        };
        let address = self.address.as_str();
        let Some(mut stream) = TimedStream::connect(self.net, address, self.most) else {
            return Err(ServeFault::Write);
        };
        let mut buffer = [0; PIECE];
        let mut visitor = Visitor::new(self.alloc, self.key.id, self.key.secret, nonce);
        write_octets(&mut stream, &visitor.hello())?;
        meet(&mut stream, &mut visitor, &mut buffer)?;
        write_sealed(self.alloc, &mut stream, &mut visitor, octets)?;
        if stream.end_writing().is_err() {
            return Err(ServeFault::Write);
        }
        read_opened(
            self.alloc,
            &mut stream,
            &mut visitor,
            &mut buffer,
            room_for(frames),
        )
    }
}

impl<'a, N: Net + Clock + RandomSource> ReachedNode<'a, N> {
    /// The node at this address, which is shown this key. No connection is made yet.
    pub fn new(alloc: Global, net: &'a N, address: String, key: Option<Key>) -> ReachedNode<'a, N> {
        match key {
            None => ReachedNode::Open(TcpPeer::new(alloc, net, address)),
            Some(key) => ReachedNode::Keyed(KeyedPeer {
                alloc,
                net,
                address,
                key,
                most: u64::MAX,
            }),
        }
    }

    /// From now on an exchange takes at most so many milliseconds, as of a `TcpPeer`.
    pub fn limit(&mut self, most: u64) {
        match self {
            ReachedNode::Open(peer) => peer.limit(most),
            ReachedNode::Keyed(peer) => peer.most = most,
        }
    }
}

impl<N: Net + Clock + RandomSource> Peer for ReachedNode<'_, N> {
    ghost is_ready = { λ _. Unit {0} };

    fn exchange(&mut self, octets: &[u8], frames: u16) -> Result<Vec<u8>, ServeFault> {
        match self {
            ReachedNode::Open(peer) => peer.exchange(octets, frames),
            ReachedNode::Keyed(peer) => peer.exchange(octets, frames),
        }
    }
}
