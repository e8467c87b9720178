//! The calls on all connections, by what a loop over them keeps.

ghost use Rattle.ts_links.specs.Calls.{HasArrived, HasClosed, HasReached, IsQuiet};
ghost use Rattle.ts_links.specs.Table.{LeaveGives, OpenGives};

use crate::connections::Connections;
use crate::link::TakeResult;
use crate::service::Service;

/// `Connections::open`.
pub fn open(table: &mut Connections, now: u64) -> Option<usize>
    ensures quiet { IsQuiet table.old table.new }
    ensures opens { OpenGives table.old.links.items now result table.new.links.items }
{
    table.open(now)
}

/// `Connections::arrive`. Whether the octets were taken.
pub fn arrive(table: &mut Connections, slot: usize, piece: &[u8], now: u64) -> bool
    ensures quiet { IsQuiet table.old table.new }
    ensures arrives { HasArrived table.old slot piece.now now result table.new }
{
    table.arrive(slot, piece, now).is_ok()
}

/// `Connections::leave`.
pub fn leave(table: &mut Connections, slot: usize, count: usize, now: u64) -> bool
    ensures quiet { IsQuiet table.old table.new }
    ensures leaves { LeaveGives table.old.links.items slot count now result
        table.new.links.items }
{
    table.leave(slot, count, now)
}

/// `Connections::close`.
pub fn close(table: &mut Connections, slot: usize) -> bool
    ensures quiet { IsQuiet table.old table.new }
    ensures closes { HasClosed table.old slot result table.new }
{
    table.close(slot)
}

/// `Connections::take`, at most so many times. How many requests and faults were taken, and whether
/// memory was there for their answers.
pub fn take_some<S: Service>(
    table: &mut Connections,
    slot: usize,
    service: &mut S,
    most: u32,
    now: u64,
) -> (u32, bool)
    requires { S.is_ready service.old }
    ensures reached { HasReached S.turn S.keeps service.old table.old service.new table.new }
    ensures ready { S.is_ready service.new }
{
    for taken in 0..most {
        match table.take(slot, service, now) {
            Ok(TakeResult::Nothing) => return (taken, true),
            Ok(_) => {}
            Err(_) => return (taken, false),
        }
    }
    (most, true)
}
