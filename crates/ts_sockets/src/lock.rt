//! The lock of a slot: what comes on its socket is opened, and what leaves is sealed.

ghost use Rattle.std.specs.Prelude.{◌≡◌, ◌≤◌, ◌||◌, drop, length, nat_lt};
ghost use Rattle.ts_links.specs.Calls.{IsQuiet};
ghost use Rattle.ts_sockets.specs.Doors.{is_denial, is_over, reader_since, unknown_since};

use std::alloc::Global;
use std::random::RandomSource;
use ts_access::{Entrance, EntranceFault, Key, Role};
use ts_guard::MAX_CONTENT;
use ts_keyring::draw;
use ts_links::Connections;
use ts_links::reaching::{arrive, leave};
use ts_queue::Queue;
use ts_serve::refusal;
use ts_wire::FrameFault;

/// How many milliseconds a connection lives at most on one key.
const LONGEST_LIFE: u64 = 3_600_000;

/// What stands between the socket of a slot and its connection, where keys are wanted.
#[derive(Drop)]
pub(crate) struct Lock {
    alloc: Global,
    entrance: Entrance,
    /// What is ready to be written: the challenge, and sealed records.
    out: Queue,
    /// When the connection was accepted.
    since: u64,
    /// Whether what came was not let through: it shows no key that is known, or isn't sealed with
    /// it.
    is_denied: bool,
}

/// What became of the octets that a lock holds.
#[derive(Clone, Copy, Debug, PartialEq, Eq)]
pub(crate) enum HandOver {
    /// None was let through, or there was no room.
    Nothing,
    /// Some were handed on.
    Some,
    /// The connection failed: nothing more is let through.
    Failed,
}

impl Lock {
    /// The lock of a new connection to a node, whose challenge is ready to be written. `None` where
    /// the system gives no random octets, or no memory.
    pub fn new(source: &impl RandomSource, alloc: Global, node: u8, now: u64) -> Option<Lock> {
        let entrance = Entrance::new(alloc, node, draw(source)?);
        let mut out = Queue::new(alloc);
        out.push(&entrance.hello()).ok()?;
        Some(Lock {
            alloc,
            entrance,
            out,
            since: now,
            is_denied: false,
        })
    }

    /// Octets came on the socket. `false` where memory was refused.
    pub fn push(&mut self, piece: &[u8]) -> bool {
        self.entrance.push(piece).is_ok()
    }

    /// Whether the connection's time is over: no key was shown for so many milliseconds, or it
    /// lives for an hour on a key that may have been withdrawn since.
    pub fn is_over(&self, millis: u64, now: u64) -> bool
        ensures { result ≡ is_over self.now millis now }
    {
        let longest = if self.entrance.has_begun() {
            LONGEST_LIFE
        } else {
            millis
        };
        longest <= now.saturating_sub(self.since)
    }

    /// When the connection was accepted, if no key was shown since.
    pub fn unknown_since(&self) -> Option<u64>
        ensures { result ≡ unknown_since self.now }
    {
        if self.entrance.has_begun() {
            return None;
        }
        Some(self.since)
    }

    /// When the connection was accepted, if the key that was shown is a reader's.
    pub fn reader_since(&self) -> Option<u64>
        ensures { result ≡ reader_since self.now }
    {
        match self.entrance.role() {
            Some(Role::Reader) => Some(self.since),
            _ => None,
        }
    }

    /// What is ready to be written.
    pub fn octets(&self) -> &[u8]
        ensures { result.now ≡ self.now.out }
    {
        self.out.octets()
    }

    /// Whether something is ready to be written.
    pub fn waits(&self) -> bool
        ensures { result ≡ nat_lt 0 (length self.now.out) }
    {
        self.out.len() > 0
    }

    /// So many of the octets that were ready are written.
    pub fn written(&mut self, count: usize)
        requires { count ≤ length self.old.out }
        ensures { self.new ≡ record self.old { out = drop count self.old.out } }
    {
        self.out.skip(count);
    }

    /// Whether what came was not let through.
    pub fn is_denied(&self) -> bool
        ensures { result ≡ self.now.is_denied }
    {
        self.is_denied
    }

    /// What came is not let through. Octets that are no greeting are answered as servers without
    /// keys answer a frame of another version, so that a client without a key learns why it is not
    /// served.
    fn turn_away(&mut self, fault: EntranceFault)
        ensures { self.new.is_denied
            ≡ (self.old.is_denied || is_denial fault) }
    {
        self.is_denied = self.is_denied || !matches!(fault, EntranceFault::Memory);
        if !matches!(fault, EntranceFault::Hello(_)) {
            return;
        }
        if let Ok(octets) = refusal(self.alloc, FrameFault::Version) {
            let _pushed = self.out.push(&octets);
        }
    }

    /// Hands on what is let through, while the connection has room.
    pub fn hand_on(
        &mut self,
        table: &mut Connections,
        keys: &[Key],
        slot: usize,
        now: u64,
    ) -> HandOver
        ensures { IsQuiet table.old table.new }
    {
        let mut handed = HandOver::Nothing;
        for _step in 0..self.entrance.held_count().saturating_add(1) {
            if !table.reads(slot) {
                return handed;
            }
            match self.entrance.take(keys) {
                Ok(Some(octets)) => {
                    if !arrive(table, slot, &octets, now) {
                        return HandOver::Failed;
                    }
                    handed = HandOver::Some;
                }
                Ok(None) => return handed,
                Err(fault) => {
                    self.turn_away(fault);
                    return HandOver::Failed;
                }
            }
        }
        handed
    }

    /// Seals what waits to leave a slot, if nothing is ready to be written yet: at most one record.
    /// `false` where it can't be sealed.
    pub fn seal(&mut self, table: &mut Connections, slot: usize, now: u64) -> bool
        ensures { IsQuiet table.old table.new }
    {
        let count = table.waiting(slot).len().min(MAX_CONTENT);
        if count == 0 || self.waits() {
            return true;
        }
        let mut record = Vec::new(self.alloc);
        match self
            .entrance
            .seal(&table.waiting(slot)[..count], &mut record)
        {
            Ok(true) => {}
            Ok(false) | Err(_) => return false,
        }
        if self.out.push(&record).is_err() {
            return false;
        }
        leave(table, slot, count, now)
    }
}
