//! When to connect to a peer.

ghost use Rattle.std.specs.Prelude.{◌≡◌};
ghost use Rattle.ts_carrier.specs.Dial.{after_loss, delay_after, is_due, is_silent, new_dial};
ghost use Rattle.ts_carrier.specs.declared.dial.Phase.TheVariants as phases;

/// The delay after a first failure, in milliseconds.
pub const FIRST_DELAY: u64 = 50;

/// The longest delay, in milliseconds.
pub const LONGEST_DELAY: u64 = 5_000;

/// How many milliseconds a peer may take to answer.
pub const SILENCE: u64 = 5_000;

/// A peer has a second more to answer for each so many octets that it was sent.
const SECOND: u64 = 262_144;

/// How many milliseconds a connection lasts at least for the delay to begin anew.
const LASTING: u64 = 1_000;

/// How far the connection to a peer is.
#[derive(Clone, Copy, Debug, PartialEq, Eq)]
pub enum Phase {
    /// There is none, and none is tried before this moment.
    Down { until: u64 },
    /// It has been tried since this moment.
    Dialing { since: u64 },
    /// There is one since this moment.
    Up { since: u64 },
}

/// When to connect to a peer. Moments are milliseconds.
#[derive(Clone, Copy, Debug, PartialEq, Eq)]
pub struct Dial {
    pub phase: Phase,
    /// How long to wait after the next failure.
    pub delay: u64,
}

/// The delay that was kept, or the first one where a connection had lasted.
fn delay_after(dial: Dial, now: u64) -> u64
    ensures { result ≡ delay_after dial.phase dial.delay now }
{
    match dial.phase {
        Phase::Up { since } if now.saturating_sub(since) >= LASTING => FIRST_DELAY,
        _ => dial.delay,
    }
}

/// Whether a peer is silent for too long that was heard last at this moment, and was sent so many
/// octets since.
pub(crate) fn is_silent(heard: u64, sent: u64, now: u64) -> bool
    ensures { result ≡ is_silent heard sent now }
{
    now.saturating_sub(heard) >= SILENCE + sent / SECOND * 1_000
}

impl Dial {
    /// A connection that may be tried at once.
    pub fn new() -> Dial
        ensures { result ≡ new_dial }
    {
        Dial {
            phase: Phase::Down { until: 0 },
            delay: FIRST_DELAY,
        }
    }

    /// Whether it is time to connect.
    pub fn is_due(self, now: u64) -> bool
        ensures { result ≡ is_due self.phase now }
    {
        match self.phase {
            Phase::Down { until } => until <= now,
            _ => false,
        }
    }

    /// A connection is tried.
    pub fn begin(&mut self, now: u64)
        ensures { self.new ≡ record self.old { phase = phases.Dialing now } }
    {
        self.phase = Phase::Dialing { since: now };
    }

    /// There is a connection.
    pub fn reach(&mut self, now: u64)
        ensures { self.new ≡ record self.old { phase = phases.Up now } }
    {
        self.phase = Phase::Up { since: now };
    }

    /// The connection is lost, or there was none: the next is tried after the delay and, by chance,
    /// up to half of it more; the delay is twice as long then, at most [`LONGEST_DELAY`].
    pub fn lose(&mut self, now: u64, chance: u64)
        ensures { self.new ≡ after_loss self.old now chance }
    {
        let delay = delay_after(*self, now);
        let more = chance % (delay / 2 + 1);
        self.phase = Phase::Down {
            until: now.saturating_add(delay).saturating_add(more),
        };
        self.delay = delay.saturating_mul(2).min(LONGEST_DELAY);
    }
}
