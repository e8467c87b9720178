//! One connection.

ghost use Rattle.std.specs.Prelude.{◌≡◌, ◌≤◌, ◌++◌, true, false, length, take, OnOk, OnErr};
ghost use Rattle.ts_links.specs.Moves.{HasCome, HasLeft, HasRoom, IsClosed, IsOpened, IsUnused};
ghost use Rattle.ts_links.specs.Moves.{is_open};

use crate::front::size_of;
use crate::times::Times;
use std::alloc::{AllocError, Global};
use ts_queue::Queue;

/// How many octets of answers may wait before no more requests are taken.
pub const MAX_WAITING: usize = 65_536;

/// How many octets may be held before no more are read, once the first frame of them is whole.
pub const MAX_HELD: usize = 65_536;

/// The state of a connection.
#[derive(Clone, Copy, Debug, PartialEq, Eq)]
pub enum Stage {
    /// The slot has no connection.
    Closed,
    /// Requests are taken.
    Open,
    /// A fault was answered. What waits may leave, and nothing more is taken.
    Refused,
}

/// What a connection's turn took.
#[derive(Clone, Copy, Debug, PartialEq, Eq)]
pub enum TakeResult {
    /// A request, and its answers wait.
    Request,
    /// A wrong frame, and its answer waits.
    Fault,
    /// Nothing: no whole frame is there, or as many octets wait as may, or it is not open.
    Nothing,
}

/// One connection.
#[derive(Drop)]
pub struct Link {
    /// What came and was not taken.
    pub(crate) held: Queue,
    /// What waits to leave.
    pub(crate) waits: Queue,
    pub(crate) stage: Stage,
    pub(crate) times: Times,
}

impl Link {
    /// A connection that is not open.
    pub(crate) fn new(alloc: Global) -> Link
        ensures { IsUnused result }
    {
        Link {
            held: Queue::new(alloc),
            waits: Queue::new(alloc),
            stage: Stage::Closed,
            times: Times::opened(0),
        }
    }

    /// Begins a new connection.
    pub(crate) fn open(&mut self, now: u64)
        requires { self.old.stage ≡ Stage.Closed }
        ensures { IsOpened self.old self.new now }
    {
        self.held.clear();
        self.waits.clear();
        self.stage = Stage::Open;
        self.times = Times::opened(now);
    }

    /// Ends the connection. What is held and what waits is lost.
    pub(crate) fn close(&mut self)
        ensures { IsClosed self.old self.new }
    {
        self.held.clear();
        self.waits.clear();
        self.stage = Stage::Closed;
    }

    /// Whether it is open, and no fault was answered.
    pub(crate) fn is_open(&self) -> bool
        ensures open { result ≡ true → self.now.stage ≡ Stage.Open }
        ensures other { result ≡ false → self.now.stage ≡ Stage.Open → ⊥ }
    {
        self.stage == Stage::Open
    }

    /// Whether there is no connection.
    pub(crate) fn is_closed(&self) -> bool
        ensures closed { result ≡ true → self.now.stage ≡ Stage.Closed }
        ensures open { result ≡ false → is_open self.now.stage ≡ true }
    {
        match self.stage {
            Stage::Closed => true,
            Stage::Open | Stage::Refused => false,
        }
    }

    /// Whether more may be read.
    pub(crate) fn has_room(&self) -> bool
        ensures room { result ≡ true → HasRoom self.now }
        ensures full { result ≡ false → HasRoom self.now → ⊥ }
    {
        if self.held.len() < MAX_HELD {
            return true;
        }
        match size_of(self.held.octets()) {
            Ok(None) => true,
            Ok(Some(_)) | Err(_) => false,
        }
    }

    /// Takes octets that came.
    ///
    /// # Errors
    ///
    /// Memory that is refused. Nothing changes then.
    pub(crate) fn arrive(&mut self, piece: &[u8], now: u64) -> Result<(), AllocError>
        requires open { self.old.stage ≡ Stage.Open }
        requires room { HasRoom self.old }
        ensures came { OnOk result (HasCome self.old self.new piece.now now) }
        ensures unchanged { OnErr result (self.new ≡ self.old) }
    {
        let times = self.times.came(self.held.octets(), now);
        self.held.push(piece)?;
        self.times = times;
        Ok(())
    }

    /// Lets octets that were handed on leave.
    pub(crate) fn leave(&mut self, count: usize, now: u64)
        requires { count ≤ length self.old.waits }
        ensures { HasLeft self.old self.new (take count self.old.waits) now }
    {
        self.times = self.times.left(self.waits.octets(), count, now);
        self.waits.skip(count);
    }

    /// Puts octets behind those that wait. Where memory is refused, the connection is closed.
    pub(crate) fn put(&mut self, octets: &[u8]) -> Result<(), AllocError>
        ensures put { OnOk result (self.new ≡ record self.old
            { waits = self.old.waits ++ octets.now }) }
        ensures lost { OnErr result (self.new ≡ record self.old { stage = Stage.Closed }) }
    {
        match self.waits.push(octets) {
            Ok(()) => Ok(()),
            Err(error) => {
                self.stage = Stage::Closed;
                Err(error)
            }
        }
    }
}
