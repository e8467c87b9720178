//! All connections, in numbered slots.

ghost use Rattle.std.specs.Prelude.{◌≡◌, ◌≤◌, ◌<◌, true, false, ℕ, All, IfOk, length};
ghost use Rattle.ts_links.specs.Events.{Change, event};
ghost use Rattle.ts_links.specs.Moves.{Closed, IsUnused};
ghost use Rattle.ts_links.specs.Table.{ArriveGives, FirstClosed, LeaveGives, OpenGives};
ghost use Rattle.ts_links.specs.Turns.{Gives};

use crate::link::{Link, TakeResult};
use crate::service::Service;
use std::alloc::{AllocError, Global};

/// Why octets that came were not taken.
#[derive(Clone, Copy, Debug, PartialEq, Eq)]
pub enum ArriveFault {
    /// The slot's connection is not open, or there is no such slot.
    NotOpen,
    /// As many octets are held as may, and the first frame of them is whole.
    Full,
    /// Memory was refused.
    Memory,
}

/// Connections in numbered slots.
#[derive(Drop)]
pub struct Connections {
    alloc: Global,
    pub(crate) links: Vec<Link>,
}

impl Connections {
    /// So many slots, of which none is open.
    ///
    /// # Errors
    ///
    /// Memory that is refused.
    pub fn new(alloc: Global, slots: usize) -> Result<Connections, AllocError>
        ensures unused { IfOk result (λ c. All IsUnused c.links.items) }
        ensures slots { IfOk result (λ c. length c.links.items ≡ slots) }
    {
        let mut links = Vec::new(alloc);
        for _slot in 0..slots {
            links.push(Link::new(alloc))?;
        }
        Ok(Connections { alloc, links })
    }

    /// How many slots there are.
    pub fn slots(&self) -> usize
        ensures { result ≡ length self.now.links.items }
    {
        self.links.len()
    }

    /// Opens the first slot that is closed; `None` where none is.
    pub fn open(&mut self, now: u64) -> Option<usize>
        ensures { OpenGives self.old.links.items now result self.new.links.items }
    {
        let slot = first_closed(&self.links)?;
        let link = &mut self.links[slot];
        link.open(now);
        Some(slot)
    }

    /// Octets came on a connection.
    ///
    /// # Errors
    ///
    /// `NotOpen` and `Full` where it takes none; `Memory` that is refused. Nothing changes then.
    pub fn arrive(&mut self, slot: usize, piece: &[u8], now: u64) -> Result<(), ArriveFault>
        ensures { ArriveGives self.old.links.items slot piece.now now result self.new.links.items }
    {
        if slot >= self.links.len() {
            return Err(ArriveFault::NotOpen);
        }
        let link = &mut self.links[slot];
        if !link.is_open() {
            return Err(ArriveFault::NotOpen);
        }
        if !link.has_room() {
            return Err(ArriveFault::Full);
        }
        match link.arrive(piece, now) {
            Ok(()) => Ok(()),
            Err(_) => Err(ArriveFault::Memory),
        }
    }

    /// This many octets of a connection's answers were handed on. `false`, and nothing changes,
    /// where fewer wait.
    pub fn leave(&mut self, slot: usize, count: usize, now: u64) -> bool
        ensures { LeaveGives self.old.links.items slot count now result self.new.links.items }
    {
        if slot >= self.links.len() || count > self.links[slot].waits.len() {
            return false;
        }
        let link = &mut self.links[slot];
        link.leave(count, now);
        true
    }

    /// Ends a connection. `false` where there is no such slot.
    pub fn close(&mut self, slot: usize) -> bool
        ensures closed { result ≡ true → (now : ℕ) →
            Change self.old.links.items (event slot now Closed) self.new.links.items }
        ensures none { result ≡ false → (self.new.links.items ≡ self.old.links.items)
            × (length self.old.links.items ≤ slot) }
    {
        if slot >= self.links.len() {
            return false;
        }
        let link = &mut self.links[slot];
        link.close();
        true
    }

    /// A connection's turn: takes its first frame, if that is whole and there is room for answers,
    /// and puts the answers behind those that wait.
    ///
    /// # Errors
    ///
    /// Memory that is refused. Nothing was done then, or an answer is lost and the connection is
    /// closed.
    pub fn take<S: Service>(
        &mut self,
        slot: usize,
        service: &mut S,
        now: u64,
    ) -> Result<TakeResult, AllocError>
        requires { S.is_ready service.old }
        ensures gives { Gives S.turn service.old self.old.links.items slot now result
            service.new self.new.links.items }
        ensures ready { S.is_ready service.new }
    {
        if slot >= self.links.len() {
            return Ok(TakeResult::Nothing);
        }
        let link = &mut self.links[slot];
        link.take(self.alloc, service, now)
    }
}

/// The first slot that is closed.
fn first_closed(links: &[Link]) -> Option<usize>
    ensures { FirstClosed links.now (length links.now) result }
{
    for slot in 0..links.len() {
        if links[slot].is_closed() {
            return Some(slot);
        }
    }
    None
}
