//! When a connection is late.

ghost use Rattle.std.specs.Prelude.{◌≡◌};
ghost use Rattle.ts_http.specs.Times.{begun_at, enter_phase, idle_since, is_late, lighten, longest};

/// What a connection does.
#[derive(Clone, Copy, Debug, PartialEq, Eq)]
pub enum Phase {
    /// Nothing is asked.
    Idle,
    /// A request comes.
    Request,
    /// The node is asked.
    Asked,
    /// An answer waits to leave.
    Answer,
    /// Nothing more is answered.
    Ended,
}

/// Since when a connection does what it does.
#[derive(Clone, Copy, Debug, PartialEq, Eq)]
pub struct Times {
    pub phase: Phase,
    /// The moment, in milliseconds.
    pub since: u64,
    /// How many octets have left since then.
    pub left: usize,
}

/// After how many octets that left an answer has its time anew.
const STRIDE: usize = 65_536;

/// How many octets of a body give it a second more.
const MEBIBYTE: u64 = 1_048_576;

/// How many milliseconds a phase may last, of a request whose body has so many octets.
fn longest(phase: Phase, idle_ms: u64, request_ms: u64, size: u64) -> u64
    ensures { result ≡ longest phase idle_ms request_ms size }
{
    match phase {
        Phase::Idle => idle_ms,
        Phase::Request => request_ms.saturating_add(size / MEBIBYTE * 1_000),
        Phase::Asked => u64::MAX,
        Phase::Answer | Phase::Ended => request_ms,
    }
}

impl Times {
    /// A new connection, at this moment.
    pub fn new(now: u64) -> Times
        ensures { result ≡ begun_at now }
    {
        Times {
            phase: Phase::Idle,
            since: now,
            left: 0,
        }
    }

    /// The connection does this at this moment.
    pub fn enter(&mut self, phase: Phase, now: u64)
        ensures { self.new ≡ enter_phase phase now self.old }
    {
        if self.phase != phase {
            self.begin(phase, now);
        }
    }

    /// The connection begins to do this.
    fn begin(&mut self, phase: Phase, now: u64)
        ensures { self.new ≡ record { phase = phase; since = now; left = 0 } }
    {
        self.phase = phase;
        self.since = now;
        self.left = 0;
    }

    /// So many octets left.
    pub fn leave(&mut self, count: usize, now: u64)
        ensures { self.new ≡ lighten count now self.old }
    {
        self.left = self.left.saturating_add(count);
        if self.left >= STRIDE {
            self.left = 0;
            self.since = now;
        }
    }

    /// Since when nothing is asked.
    pub fn idle_since(&self) -> Option<u64>
        ensures { result ≡ idle_since self.now }
    {
        match self.phase {
            Phase::Idle => Some(self.since),
            Phase::Request | Phase::Asked | Phase::Answer | Phase::Ended => None,
        }
    }

    /// Whether it lasts too long, of a request whose body has so many octets.
    pub fn is_late(&self, idle_ms: u64, request_ms: u64, size: u64, now: u64) -> bool
        ensures { result ≡ is_late self.now idle_ms request_ms size now }
    {
        longest(self.phase, idle_ms, request_ms, size) <= now.saturating_sub(self.since)
    }
}
