//! What one round does at all slots: all are read and their requests are taken, and once what came
//! of them is kept on disk, by one append, all are written.

ghost use Rattle.ts_links.specs.Calls.{HasReached, IsQuiet};

use crate::pumping::{PumpEnd, Round, begin, end};
use crate::shared::Shared;
use crate::web::{WEB, Web};
use mio::{Events, Token};
use std::rt::Clock;
use ts_links::reaching::close;
use ts_links::{Connections, Deadlines, Service};
use ts_peers::{Carrier, PEERS};
use ts_sockets::{Counts, Door, PIECE, Why};

/// The token of the listener. The door of a slot has the slot's number.
pub(crate) const LISTENER: Token = Token(usize::MAX);

/// How many milliseconds pass until late connections are looked for again.
const SWEEP: u64 = 100;

/// Marks the doors and lines that have something to do. Whether the listener has.
pub(crate) fn mark(
    doors: &mut [Option<Door>],
    carrier: &mut Carrier,
    web: &mut Option<Web>,
    events: &Events,
) -> bool {
    let mut accepts = false;
    for event in events.iter() {
        if event.token() == LISTENER {
            accepts = true;
        } else if event.token().0 >= PEERS {
            carrier.mark(event.token().0 - PEERS, event);
        } else if event.token().0 >= WEB {
            if let Some(web) = web {
                web.mark(event.token().0 - WEB, event);
            }
        } else if let Some(Some(door)) = doors.get_mut(event.token().0) {
            door.hot = true;
            door.socket.mark(event);
        }
    }
    accepts
}

/// Closes the connection of a slot.
fn close_slot(
    table: &mut Connections,
    place: &mut Option<Door>,
    slot: usize,
    why: Why,
    counts: &mut Counts,
)
    ensures { IsQuiet table.old table.new }
{
    *place = None;
    counts.closed(why);
    let _closed = close(table, slot);
}

/// What is known of a slot after a round: whether it could do more.
fn settle(
    table: &mut Connections,
    place: &mut Option<Door>,
    slot: usize,
    pumped: PumpEnd,
    counts: &mut Counts,
) -> bool
    ensures { IsQuiet table.old table.new }
{
    if pumped == PumpEnd::More {
        return true;
    }
    if pumped == PumpEnd::Held {
        return false;
    }
    if pumped == PumpEnd::Waits {
        if let Some(door) = place {
            door.hot = false;
        }
        return false;
    }
    let why = match place {
        _ if pumped == PumpEnd::Ended => Why::Ended,
        Some(door) => door.failure(),
        None => Why::Failed,
    };
    close_slot(table, place, slot, why, counts);
    false
}

/// A round of a slot begins, if it is to be looked at: it is read, and its requests are taken.
fn begin_slot<S: Service, R: Clock>(
    round: &Round<'_, R>,
    table: &mut Connections,
    service: &mut S,
    shared: &mut Shared,
    place: &mut Option<Door>,
    slot: usize,
    buffer: &mut [u8; PIECE],
)
    requires { S.is_ready service.old }
    ensures reached { HasReached S.turn S.keeps service.old table.old service.new table.new }
    ensures ready { S.is_ready service.new }
{
    let Some(door) = place else {
        return;
    };
    if door.hot {
        begin(round, table, service, shared, door, slot, buffer);
    }
}

/// A round of all doors that are to be looked at begins, from the one on that is behind the slot
/// whose command was taken last, so that each client's command has its turn.
pub(crate) fn begin_all<S: Service, R: Clock>(
    round: &Round<'_, R>,
    table: &mut Connections,
    service: &mut S,
    shared: &mut Shared,
    doors: &mut [Option<Door>],
    buffer: &mut [u8; PIECE],
)
    requires { S.is_ready service.old }
    ensures reached { HasReached S.turn S.keeps service.old table.old service.new table.new }
    ensures ready { S.is_ready service.new }
{
    let slots = doors.len();
    let first = shared.carrier.next_slot();
    for step in 0..slots {
        let slot = first.wrapping_add(step) % slots;
        let place = &mut doors[slot];
        begin_slot(round, table, service, shared, place, slot, buffer);
    }
}

/// A round of a slot ends, if it is to be looked at: it is written. Whether it could do more.
fn end_slot<S: Service, R>(
    round: &Round<'_, R>,
    table: &mut Connections,
    service: &S,
    place: &mut Option<Door>,
    slot: usize,
    counts: &mut Counts,
) -> bool
    requires { S.is_kept service.now }
    ensures { IsQuiet table.old table.new }
{
    let Some(door) = place else {
        return false;
    };
    if !door.hot {
        return false;
    }
    let pumped = end(round, table, service, door, slot);
    settle(table, place, slot, pumped, counts)
}

/// A round of all doors that are to be looked at ends. Whether one could do more.
pub(crate) fn end_all<S: Service, R>(
    round: &Round<'_, R>,
    table: &mut Connections,
    service: &S,
    doors: &mut [Option<Door>],
    counts: &mut Counts,
) -> bool
    requires { S.is_kept service.now }
    ensures { IsQuiet table.old table.new }
{
    let mut more = false;
    for slot in 0..doors.len() {
        let place = &mut doors[slot];
        if end_slot(round, table, service, place, slot, counts) {
            more = true;
        }
    }
    more
}

/// Whether a connection has shown no key for as long as a request may take, or lives too long on
/// one.
fn is_over(place: &Option<Door>, deadlines: &Deadlines, now: u64) -> bool {
    match place {
        Some(door) => door.is_over(deadlines.request_ms, now),
        None => false,
    }
}

/// Closes the connection of a slot if its time is over. A request that has to wait is not late.
fn sweep_slot(
    table: &mut Connections,
    shared: &mut Shared,
    place: &mut Option<Door>,
    slot: usize,
    deadlines: &Deadlines,
    now: u64,
)
    ensures { IsQuiet table.old table.new }
{
    let is_late = table.is_late(slot, deadlines, now)
        && !shared.carrier.holds_back(table.octets_held(slot), now);
    if !is_late && !is_over(place, deadlines, now) {
        return;
    }
    close_slot(table, place, slot, Why::Late, &mut shared.counts);
}

/// Closes the connections whose time is over, if a tenth of a second has gone since that was done.
/// When it was done last.
pub(crate) fn sweep(
    table: &mut Connections,
    shared: &mut Shared,
    doors: &mut [Option<Door>],
    deadlines: &Deadlines,
    swept: u64,
    now: u64,
) -> u64
    ensures { IsQuiet table.old table.new }
{
    if now.saturating_sub(swept) < SWEEP {
        return swept;
    }
    for slot in 0..doors.len() {
        sweep_slot(table, shared, &mut doors[slot], slot, deadlines, now);
    }
    now
}
