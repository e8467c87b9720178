//! Connections are accepted.

ghost use Rattle.std.specs.Prelude.{◌≡◌, filter, length, map};
ghost use Rattle.ts_links.specs.Calls.{IsQuiet};
ghost use Rattle.ts_sockets.specs.Doors.{are_too_many, is_due};
ghost use Rattle.ts_sockets.specs.Rooms.{IsDispensable, IsEarliest, IsLatest, is_reader};
ghost use Rattle.ts_sockets.specs.Rooms.{reader_at, unknown_at};
ghost use Rattle.ts_sockets.specs.inside.Found.{IsEarlier, IsLater};

use crate::access::Access;
use crate::counts::{Counts, Why};
use crate::door::Door;
use crate::lock::Lock;
use crate::socket::Socket;
use mio::net::{TcpListener, TcpStream};
use mio::{Interest, Registry, Token};
use std::alloc::Global;
use std::io;
use std::io::ErrorKind;
use std::net::SocketAddr;
use std::random::RandomSource;
use ts_links::Connections;
use ts_links::reaching::{close, open};

/// The most connections that one round accepts.
pub const ACCEPTS: u32 = 64;

/// How many milliseconds pass until an accept that failed is tried again.
const RETRY: u64 = 100;

/// When to accept next.
#[derive(Clone, Copy, Debug, PartialEq, Eq)]
pub enum Accepts {
    /// When the listener has an event.
    AtEvent,
    /// In the next round.
    Now,
    /// At this moment.
    At(u64),
}

impl Accepts {
    /// Whether it is time, where the listener has an event or not.
    pub fn is_due(self, event: bool, now: u64) -> bool
        ensures { result ≡ is_due self event now }
    {
        match self {
            Accepts::AtEvent => event,
            Accepts::Now => true,
            Accepts::At(moment) => moment <= now,
        }
    }

    /// When to accept again, after an error of the listener.
    pub fn after(error: &io::Error, now: u64, counts: &mut Counts) -> Accepts {
        if error.kind() == ErrorKind::WouldBlock {
            return Accepts::AtEvent;
        }
        counts.failed_accepts = counts.failed_accepts.saturating_add(1);
        Accepts::At(now.saturating_add(RETRY))
    }
}

/// What new connections are accepted with.
#[derive(Drop)]
pub struct Entry<'a, R> {
    pub rt: &'a R,
    pub alloc: Global,
    pub registry: &'a Registry,
    pub access: &'a Access<'a>,
}

/// Puts the door of a slot in its place. `false` where its events, or random octets, can't be had.
fn put_door<R: RandomSource>(
    doors: &mut [Option<Door>],
    mut stream: TcpStream,
    from: SocketAddr,
    entry: &Entry<'_, R>,
    slot: usize,
    now: u64,
) -> bool {
    let both = Interest::READABLE | Interest::WRITABLE;
    if slot >= doors.len()
        || entry
            .registry
            .register(&mut stream, Token(slot), both)
            .is_err()
    {
        return false;
    }
    let mut lock = None;
    if entry.access.is_locked() {
        lock = Lock::new(entry.rt, entry.alloc, entry.access.node, now);
        if lock.is_none() {
            return false;
        }
    }
    doors[slot] = Some(Door::new(Socket::new(stream), from, lock));
    true
}

/// When the connection of a door was accepted, if it has shown no key.
fn unknown_since(place: &Option<Door>) -> Option<u64>
    ensures { result ≡ unknown_at place.now }
{
    match place {
        Some(
            Door {
                lock: Some(lock),
                ..
            },
        ) => lock.unknown_since(),
        _ => None,
    }
}

/// The slot of the connection that has shown no key for the longest time.
fn longest_unknown(doors: &[Option<Door>]) -> Option<usize>
    ensures { IsEarliest (map unknown_at doors.now) result }
{
    let mut found: Option<(usize, u64)> = None;
    for slot in 0..doors.len() {
        if let Some(since) = unknown_since(&doors[slot]) {
            found = Some(earlier(found, slot, since));
        }
    }
    match found {
        Some((slot, _)) => Some(slot),
        None => None,
    }
}

/// The one that is found, or this one where it is earlier.
fn earlier(found: Option<(usize, u64)>, slot: usize, since: u64) -> (usize, u64)
    ensures { IsEarlier found (slot, since) result }
{
    match found {
        Some((before, earliest)) if earliest <= since => (before, earliest),
        _ => (slot, since),
    }
}

/// When the connection of a door was accepted, if it has shown the key of a reader.
fn reader_since(place: &Option<Door>) -> Option<u64>
    ensures { result ≡ reader_at place.now }
{
    match place {
        Some(
            Door {
                lock: Some(lock),
                ..
            },
        ) => lock.reader_since(),
        _ => None,
    }
}

/// Whether so many readers leave less than an eighth of the places to others.
fn are_too_many(readers: usize, places: usize) -> bool
    ensures { result ≡ are_too_many readers places }
{
    readers > places - places / 8
}

/// Whether the connection of a door has shown the key of a reader.
fn is_reader(place: &Option<Door>) -> bool
    ensures { result ≡ is_reader place.now }
{
    reader_since(place).is_some()
}

/// How many connections have shown the key of a reader.
fn count_readers(doors: &[Option<Door>]) -> usize
    ensures { result ≡ length (filter is_reader doors.now) }
{
    let mut count = 0;
    for place in doors.iter() {
        if is_reader(place) {
            count += 1;
        }
    }
    count
}

/// The slot of the reader that came last.
fn latest_reader(doors: &[Option<Door>]) -> Option<usize>
    ensures { IsLatest (map reader_at doors.now) result }
{
    let mut found: Option<(usize, u64)> = None;
    for slot in 0..doors.len() {
        if let Some(since) = reader_since(&doors[slot]) {
            found = Some(later(found, slot, since));
        }
    }
    match found {
        Some((slot, _)) => Some(slot),
        None => None,
    }
}

/// The one that is found, or this one where it is not earlier.
fn later(found: Option<(usize, u64)>, slot: usize, since: u64) -> (usize, u64)
    ensures { IsLater found (slot, since) result }
{
    match found {
        Some((before, latest)) if latest > since => (before, latest),
        _ => (slot, since),
    }
}

/// The slot of the connection that makes room where keys are wanted: the one that has shown none
/// for the longest time; else, where readers leave less than an eighth of the places to peers and
/// admins, the reader that came last.
fn dispensable(doors: &[Option<Door>]) -> Option<usize>
    ensures { IsDispensable doors.now result }
{
    if let Some(slot) = longest_unknown(doors) {
        return Some(slot);
    }
    if are_too_many(count_readers(doors), doors.len()) {
        latest_reader(doors)
    } else {
        None
    }
}

/// Closes a connection, and opens its slot anew: where keys are wanted, the one that has shown none
/// for the longest time, and else one of too many readers; where none are, the one that has been
/// idle longest. `None` where there is none.
fn make_room(
    table: &mut Connections,
    doors: &mut [Option<Door>],
    is_locked: bool,
    now: u64,
    counts: &mut Counts,
) -> Option<usize>
    ensures { IsQuiet table.old table.new }
{
    let slot = if is_locked {
        dispensable(doors)?
    } else {
        table.idlest()?
    };
    if slot < doors.len() {
        doors[slot] = None;
    }
    counts.closed(Why::MadeRoom);
    let _closed = close(table, slot);
    open(table, now)
}

/// A slot for a new connection: one that is closed, or that of a connection which makes room.
fn find_slot(
    table: &mut Connections,
    doors: &mut [Option<Door>],
    is_locked: bool,
    now: u64,
    counts: &mut Counts,
) -> Option<usize>
    ensures { IsQuiet table.old table.new }
{
    if counts.open < doors.len() as u64 {
        return open(table, now);
    }
    make_room(table, doors, is_locked, now, counts)
}

/// Lets a connection in, if there is a slot for it. Else it is closed.
fn let_in<R: RandomSource>(
    table: &mut Connections,
    doors: &mut [Option<Door>],
    stream: TcpStream,
    from: SocketAddr,
    entry: &Entry<'_, R>,
    now: u64,
    counts: &mut Counts,
)
    ensures { IsQuiet table.old table.new }
{
    let is_locked = entry.access.is_locked();
    let Some(slot) = find_slot(table, doors, is_locked, now, counts) else {
        counts.refuse();
        return;
    };
    counts.opened();
    if put_door(doors, stream, from, entry, slot, now) {
        return;
    }
    counts.closed(Why::Failed);
    let _closed = close(table, slot);
}

/// Accepts connections, each into a slot, until none waits or one can't be accepted.
pub fn accept_some<R: RandomSource>(
    table: &mut Connections,
    doors: &mut [Option<Door>],
    listener: &TcpListener,
    entry: &Entry<'_, R>,
    now: u64,
    counts: &mut Counts,
) -> Accepts
    ensures { IsQuiet table.old table.new }
{
    for _accept in 0..ACCEPTS {
        match listener.accept() {
            Ok((stream, from)) => {
                let _nodelay = stream.set_nodelay(true);
                let_in(table, doors, stream, from, entry, now, counts);
            }
            Err(error) => return Accepts::after(&error, now, counts),
        }
    }
    Accepts::Now
}
