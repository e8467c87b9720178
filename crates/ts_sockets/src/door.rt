//! The socket of a slot, and what is known of it.

ghost use Rattle.std.specs.Prelude.{◌≡◌};
ghost use Rattle.ts_links.specs.Calls.{IsQuiet};
ghost use Rattle.ts_links.specs.Table.{waits_at};
ghost use Rattle.ts_sockets.specs.Doors.{failure_of, is_over_at, waits};

use crate::counts::Why;
use crate::lock::{HandOver, Lock};
use crate::socket::{PIECE, Socket};
use std::net::SocketAddr;
use ts_access::Key;
use ts_links::reaching::{arrive, leave};
use ts_links::{Connections, Service, Stage};

/// The socket of a slot, and what a round does with it.
#[derive(Drop)]
pub struct Door {
    pub socket: Socket,
    /// The address of its client.
    pub from: SocketAddr,
    /// It is to be looked at in this round.
    pub hot: bool,
    /// How many requests were taken of it in this round.
    pub taken: u32,
    /// The next one had to wait in this round, for a command that was under way.
    pub held: bool,
    /// It failed in this round.
    pub failed: bool,
    /// What keys are wanted for.
    pub(crate) lock: Option<Lock>,
}

impl Door {
    /// The door of a new connection.
    pub(crate) fn new(socket: Socket, from: SocketAddr, lock: Option<Lock>) -> Door {
        Door {
            socket,
            from,
            hot: true,
            taken: 0,
            held: false,
            failed: false,
            lock,
        }
    }

    /// Whether its client has shown no key for so many milliseconds, or lives too long on one.
    pub fn is_over(&self, millis: u64, now: u64) -> bool
        ensures { result ≡ is_over_at self.now.lock millis now }
    {
        match &self.lock {
            Some(lock) => lock.is_over(millis, now),
            None => false,
        }
    }

    /// Why it failed, where it has: its lock may not have let it in.
    pub fn failure(&self) -> Why
        ensures { result ≡ failure_of self.now.lock }
    {
        match &self.lock {
            Some(lock) if lock.is_denied() => Why::Denied,
            _ => Why::Failed,
        }
    }

    /// Whether something waits to be written.
    pub fn waits(&self, table: &Connections, slot: usize) -> bool
        ensures { result ≡ waits self.now.lock (waits_at table.now.links.items slot) }
    {
        let is_ready = match &self.lock {
            Some(lock) => lock.waits(),
            None => false,
        };
        is_ready || !table.waiting(slot).is_empty()
    }
}

/// Whether a read is worth while: of a connection that was refused all is read, and dropped.
fn may_read(table: &Connections, door: &Door, slot: usize) -> bool {
    if !door.socket.is_readable() {
        return false;
    }
    match table.stage(slot) {
        Stage::Open => table.reads(slot),
        Stage::Refused => true,
        Stage::Closed => false,
    }
}

/// Hands on octets that came: as they are, or as the lock of the door lets them through. `false`
/// where the connection failed.
fn take_in(
    table: &mut Connections,
    door: &mut Door,
    keys: &[Key],
    slot: usize,
    piece: &[u8],
    now: u64,
) -> bool
    ensures { IsQuiet table.old table.new }
{
    match &mut door.lock {
        Some(lock) => lock.push(piece) && lock.hand_on(table, keys, slot, now) != HandOver::Failed,
        None => piece.is_empty() || arrive(table, slot, piece, now),
    }
}

/// Reads once, if there is room, and hands on what has come. `false` where the connection failed.
pub fn read_once(
    table: &mut Connections,
    door: &mut Door,
    keys: &[Key],
    slot: usize,
    buffer: &mut [u8; PIECE],
    now: u64,
) -> bool
    ensures { IsQuiet table.old table.new }
{
    let mut count = 0;
    if may_read(table, door, slot) {
        let Some(read) = door.socket.read(buffer) else {
            return false;
        };
        count = read;
    }
    if table.stage(slot) == Stage::Refused {
        return true;
    }
    take_in(table, door, keys, slot, &buffer[..count], now)
}

/// Writes once what waits on a slot. `false` where the connection failed.
fn write_plain<S: Service>(
    table: &mut Connections,
    service: &S,
    door: &mut Door,
    slot: usize,
    now: u64,
) -> bool
    requires { S.is_kept service.now }
    ensures { IsQuiet table.old table.new }
{
    if table.waiting(slot).is_empty() {
        return true;
    }
    let octets = table.waiting(slot);
    match door.socket.write(service, octets) {
        Some(count) => leave(table, slot, count, now),
        None => false,
    }
}

/// Writes once what is ready in the lock of a door.
fn write_ready<S: Service>(service: &S, door: &mut Door) -> bool
    requires { S.is_kept service.now }
{
    let Some(lock) = &mut door.lock else {
        return true;
    };
    if !lock.waits() {
        return true;
    }
    match door.socket.write(service, lock.octets()) {
        Some(count) => {
            lock.written(count);
            true
        }
        None => false,
    }
}

/// Seals what waits on a slot. `false` where it can't be.
fn seal_some(table: &mut Connections, door: &mut Door, slot: usize, now: u64) -> bool
    ensures { IsQuiet table.old table.new }
{
    match &mut door.lock {
        Some(lock) => lock.seal(table, slot, now),
        None => true,
    }
}

/// Writes once, if something waits. `false` where the connection failed.
fn write_once<S: Service>(
    table: &mut Connections,
    service: &S,
    door: &mut Door,
    slot: usize,
    now: u64,
) -> bool
    requires { S.is_kept service.now }
    ensures { IsQuiet table.old table.new }
{
    if !door.socket.is_writable() {
        return true;
    }
    if door.lock.is_none() {
        return write_plain(table, service, door, slot, now);
    }
    seal_some(table, door, slot, now) && write_ready(service, door)
}

/// Hands on what the lock of a door still lets through, now that there may be room.
fn hand_on_rest(
    table: &mut Connections,
    door: &mut Door,
    keys: &[Key],
    slot: usize,
    now: u64,
) -> HandOver
    ensures { IsQuiet table.old table.new }
{
    match &mut door.lock {
        Some(lock) => lock.hand_on(table, keys, slot, now),
        None => HandOver::Nothing,
    }
}

/// Ends a round of a connection: what its lock still lets through is handed on, and what waits is
/// written once. Whether octets were handed on, and `None` where the connection failed.
pub fn finish<S: Service>(
    table: &mut Connections,
    service: &S,
    door: &mut Door,
    keys: &[Key],
    slot: usize,
    now: u64,
) -> Option<bool>
    requires { S.is_kept service.now }
    ensures { IsQuiet table.old table.new }
{
    let handed = hand_on_rest(table, door, keys, slot, now);
    if handed == HandOver::Failed {
        return None;
    }
    if !write_once(table, service, door, slot, now) {
        return None;
    }
    Some(handed == HandOver::Some)
}

/// Writes what a lock has ready, before a connection is closed that failed: why no key was taken.
pub fn write_last<S: Service>(service: &S, door: &mut Door)
    requires { S.is_kept service.now }
{
    let _written = write_ready(service, door);
}

/// Ends what is written on a connection that was refused, once all has left.
pub fn shut_if_done(table: &Connections, door: &mut Door, slot: usize) {
    if table.stage(slot) == Stage::Refused && !door.waits(table, slot) {
        door.socket.shut();
    }
}
