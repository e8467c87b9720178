//! What the loop asks of its own node: it is a client of it, on a connection without a socket.

ghost use Rattle.ts_links.specs.Calls.{HasReached};

use std::alloc::Global;
use ts_links::reaching::{arrive, close, open, take_some};
use ts_links::{Connections, Service};

/// Has a slot's connection bring a request, and gives what it is answered.
fn ask_at<S: Service>(
    table: &mut Connections,
    service: &mut S,
    alloc: Global,
    slot: usize,
    request: &[u8],
    now: u64,
) -> Option<Vec<u8>>
    requires { S.is_ready service.old }
    ensures reached { HasReached S.turn S.keeps service.old table.old service.new table.new }
    ensures ready { S.is_ready service.new }
{
    let came = arrive(table, slot, request, now);
    let (taken, good) = take_some(table, slot, service, 1, now);
    if !came || taken == 0 || !good {
        return None;
    }
    Vec::from_slice(alloc, table.waiting(slot)).ok()
}

/// Asks the node, and gives the text of its answers. `None` where no slot is closed, or memory was
/// refused: the request may have been taken then.
pub fn ask<S: Service>(
    table: &mut Connections,
    service: &mut S,
    alloc: Global,
    request: &[u8],
    now: u64,
) -> Option<Vec<u8>>
    requires { S.is_ready service.old }
    ensures reached { HasReached S.turn S.keeps service.old table.old service.new table.new }
    ensures ready { S.is_ready service.new }
{
    let slot = open(table, now)?;
    let answer = ask_at(table, service, alloc, slot, request, now);
    let _closed = close(table, slot);
    answer
}
