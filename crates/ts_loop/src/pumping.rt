//! What one round does at one slot: first it reads and takes requests, and once what followed from
//! them is kept on disk it writes.

ghost use Rattle.std.specs.Prelude.{◌≡◌, length, nat_le};
ghost use Rattle.ts_links.specs.Calls.{HasReached, IsQuiet};
ghost use Rattle.ts_links.specs.Table.{waits_at};

use crate::shared::Shared;
use crate::watch::{Watch, kind_at, moment};
use std::alloc::Global;
use std::net::SocketAddr;
use std::rt::Clock;
use ts_access::Key;
use ts_links::reaching::take_some;
use ts_links::{Connections, MAX_WAITING, Service, Stage};
use ts_sockets::{Door, PIECE, finish, read_once, shut_if_done, write_last};

/// The most requests of one connection that are taken before the others have their turn.
const TURNS: u32 = 64;

/// What a round has at hand.
#[derive(Clone, Copy)]
pub(crate) struct Round<'a, R> {
    pub rt: &'a R,
    pub alloc: Global,
    pub keys: &'a [Key],
    /// The moment, in milliseconds since the loop began.
    pub now: u64,
}

/// What became of a connection in a round.
#[derive(Clone, Copy, Debug, PartialEq, Eq)]
pub(crate) enum PumpEnd {
    /// It waits for its socket.
    Waits,
    /// It could do more.
    More,
    /// Its request has to wait for a command that is under way.
    Held,
    /// Its client has closed it, and all was answered.
    Ended,
    /// It failed.
    Failed,
}

/// What is left to do on an open connection of which so many requests were taken.
fn left_open(table: &Connections, door: &Door, slot: usize, taken: u32) -> PumpEnd {
    let waits = door.waits(table, slot);
    let reads = door.socket.is_readable() && table.reads(slot);
    if taken == TURNS || reads || (waits && door.socket.is_writable()) {
        return PumpEnd::More;
    }
    if door.socket.is_ended() && !waits {
        return PumpEnd::Ended;
    }
    PumpEnd::Waits
}

/// What is left to do on a connection that was refused.
fn left_refused(door: &Door) -> PumpEnd {
    let socket = &door.socket;
    if socket.is_shut() && socket.is_ended() {
        return PumpEnd::Ended;
    }
    if socket.is_readable() || (!socket.is_shut() && socket.is_writable()) {
        return PumpEnd::More;
    }
    PumpEnd::Waits
}

/// What is left to do on a connection.
fn what_is_left(table: &Connections, door: &Door, slot: usize, taken: u32) -> PumpEnd {
    match table.stage(slot) {
        Stage::Open => left_open(table, door, slot, taken),
        Stage::Refused => left_refused(door),
        Stage::Closed => PumpEnd::Failed,
    }
}

/// Whether so much waits on a slot that no request is taken.
fn has_no_room(table: &Connections, slot: usize) -> bool
    ensures { result ≡ nat_le 65536 (length (waits_at table.now.links.items slot)) }
{
    table.waiting(slot).len() >= MAX_WAITING
}

/// Takes the first request of a connection, and counts it. How many were taken, and whether memory
/// was there.
fn take_next<S: Service, R: Clock>(
    round: &Round<'_, R>,
    table: &mut Connections,
    service: &mut S,
    slot: usize,
    watch: &mut Watch,
) -> (u32, bool)
    requires { S.is_ready service.old }
    ensures reached { HasReached S.turn S.keeps service.old table.old service.new table.new }
    ensures ready { S.is_ready service.new }
{
    let asked = kind_at(table.octets_held(slot), 0);
    let place = table.waiting(slot).len();
    let begun = moment(round.rt);
    let (taken, good) = take_some(table, slot, service, 1, round.now);
    if taken > 0 {
        watch.took(round.rt, begun);
        watch.answered(asked, kind_at(table.waiting(slot), place));
    }
    (taken, good)
}

/// Takes the first request of a connection, unless it has to wait for a command that is under way,
/// or until there is room for its answer. How many were taken, and whether memory was there.
fn take_one<S: Service, R: Clock>(
    round: &Round<'_, R>,
    table: &mut Connections,
    service: &mut S,
    shared: &mut Shared,
    slot: usize,
    from: SocketAddr,
) -> (u32, bool)
    requires { S.is_ready service.old }
    ensures reached { HasReached S.turn S.keeps service.old table.old service.new table.new }
    ensures ready { S.is_ready service.new }
{
    let carrier = &mut shared.carrier;
    if has_no_room(table, slot) || carrier.holds_back(table.octets_held(slot), round.now) {
        return (0, true);
    }
    carrier.see(table.octets_held(slot), slot, from, round.now);
    take_next(round, table, service, slot, &mut shared.watch)
}

/// Takes requests of a connection, up to one that has to wait. How many, and whether memory was
/// there.
fn take_turns<S: Service, R: Clock>(
    round: &Round<'_, R>,
    table: &mut Connections,
    service: &mut S,
    shared: &mut Shared,
    slot: usize,
    from: SocketAddr,
) -> (u32, bool)
    requires { S.is_ready service.old }
    ensures reached { HasReached S.turn S.keeps service.old table.old service.new table.new }
    ensures ready { S.is_ready service.new }
{
    for turns in 0..TURNS {
        let (taken, good) = take_one(round, table, service, shared, slot, from);
        if taken == 0 || !good {
            return (turns, good);
        }
    }
    (TURNS, true)
}

/// One read and some turns of a connection. What it is answered waits.
pub(crate) fn begin<S: Service, R: Clock>(
    round: &Round<'_, R>,
    table: &mut Connections,
    service: &mut S,
    shared: &mut Shared,
    door: &mut Door,
    slot: usize,
    buffer: &mut [u8; PIECE],
)
    requires { S.is_ready service.old }
    ensures reached { HasReached S.turn S.keeps service.old table.old service.new table.new }
    ensures ready { S.is_ready service.new }
{
    door.taken = 0;
    door.held = false;
    door.failed = !read_once(table, door, round.keys, slot, buffer, round.now);
    if door.failed {
        return;
    }
    let from = door.from;
    let (taken, good) = take_turns(round, table, service, shared, slot, from);
    door.taken = taken;
    door.failed = !good;
    shared.counts.taken = shared.counts.taken.saturating_add(u64::from(taken));
    // The gate may open before the round ends, and then the connection has to be looked at again.
    door.held = shared
        .carrier
        .holds_back(table.octets_held(slot), round.now);
}

/// One write of a connection, and what is left to do on it.
pub(crate) fn end<S: Service, R>(
    round: &Round<'_, R>,
    table: &mut Connections,
    service: &S,
    door: &mut Door,
    slot: usize,
) -> PumpEnd
    requires { S.is_kept service.now }
    ensures { IsQuiet table.old table.new }
{
    if door.failed {
        write_last(service, door);
        return PumpEnd::Failed;
    }
    let was_full = has_no_room(table, slot);
    let Some(more) = finish(table, service, door, round.keys, slot, round.now) else {
        return PumpEnd::Failed;
    };
    shut_if_done(table, door, slot);
    if door.held {
        return PumpEnd::Held;
    }
    // No event says that there is room for the answers to requests that are held.
    if more || (was_full && !has_no_room(table, slot)) {
        return PumpEnd::More;
    }
    what_is_left(table, door, slot, door.taken)
}
