//! What a loop has done.

ghost use Rattle.std.specs.Prelude.{◌≡◌};
ghost use Rattle.ts_sockets.specs.Counts.{closed, nothing, opened, over, refused};

/// What a loop has done, and how often.
#[derive(Clone, Copy, Debug, PartialEq, Eq)]
pub struct Counts {
    /// Connections that were accepted into a slot.
    pub accepted: u64,
    /// Connections that were accepted and closed at once, since no slot was free.
    pub refused: u64,
    /// Idle connections that made room for another.
    pub made_room: u64,
    /// Calls of `accept` that failed.
    pub failed_accepts: u64,
    /// Requests and faults that were taken.
    pub taken: u64,
    /// Connections whose client had closed them, and all was answered.
    pub ended: u64,
    /// Connections whose time was over.
    pub late: u64,
    /// Connections that showed no key that is known, where keys are wanted, or whose octets were
    /// not sealed with it.
    pub denied: u64,
    /// Connections that failed otherwise.
    pub failed: u64,
    /// How many are open.
    pub open: u64,
    /// The most that were open at once.
    pub most: u64,
}

impl Counts {
    /// Nothing was done.
    pub fn new() -> Counts
        ensures { result ≡ nothing }
    {
        Counts {
            accepted: 0,
            refused: 0,
            made_room: 0,
            failed_accepts: 0,
            taken: 0,
            ended: 0,
            late: 0,
            denied: 0,
            failed: 0,
            open: 0,
            most: 0,
        }
    }

    /// A connection was opened.
    pub fn opened(&mut self)
        ensures { self.new ≡ opened self.old }
    {
        self.accepted = self.accepted.saturating_add(1);
        self.open = self.open.saturating_add(1);
        self.most = self.most.max(self.open);
    }

    /// A connection was closed at once, since no slot was free.
    pub fn refuse(&mut self)
        ensures { self.new ≡ refused self.old }
    {
        self.refused = self.refused.saturating_add(1);
    }

    /// A connection was closed.
    pub fn closed(&mut self, why: Why)
        ensures { self.new ≡ closed why self.old }
    {
        self.open = self.open.saturating_sub(1);
        match why {
            Why::Ended => self.ended = self.ended.saturating_add(1),
            Why::Late => self.late = self.late.saturating_add(1),
            Why::Denied => self.denied = self.denied.saturating_add(1),
            Why::Failed => self.failed = self.failed.saturating_add(1),
            Why::MadeRoom => self.made_room = self.made_room.saturating_add(1),
        }
    }

    /// How many connections are over.
    pub fn over(&self) -> u64
        ensures { result ≡ over self.now }
    {
        let closed = self.ended.saturating_add(self.late);
        let failed = self.failed.saturating_add(self.denied);
        let others = self.made_room.saturating_add(self.refused);
        closed.saturating_add(failed).saturating_add(others)
    }
}

/// Why a connection was closed.
#[derive(Clone, Copy, Debug, PartialEq, Eq)]
pub enum Why {
    Ended,
    Late,
    Denied,
    Failed,
    MadeRoom,
}
