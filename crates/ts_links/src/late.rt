//! Whether a connection is late.

ghost use Rattle.std.specs.Prelude.{◌≡◌};
ghost use Rattle.ts_links.specs.Times.{is_late, is_silent, is_slow, is_unread};

use crate::link::{Link, MAX_WAITING, Stage};
use crate::times::{Deadlines, more_time};

impl Link {
    /// Whether an answer waits too long.
    fn is_unread(&self, deadlines: &Deadlines, now: u64) -> bool
        ensures { result ≡ is_unread deadlines.now self.now now }
    {
        self.waits.len() > 0 && deadlines.request_ms <= now.saturating_sub(self.times.unread)
    }

    /// Whether a frame takes too long to come whole.
    fn is_slow(&self, deadlines: &Deadlines, now: u64) -> bool
        ensures { result ≡ is_slow deadlines.now self.now now }
    {
        let more = more_time(self.held.octets());
        self.held.len() > 0
            && self.waits.len() < MAX_WAITING
            && deadlines.request_ms <= now.saturating_sub(self.times.asked).saturating_sub(more)
    }

    /// Whether nothing was asked for too long.
    fn is_silent(&self, deadlines: &Deadlines, now: u64) -> bool
        ensures { result ≡ is_silent deadlines.now self.now now }
    {
        self.held.len() == 0
            && self.waits.len() == 0
            && deadlines.idle_ms <= now.saturating_sub(self.times.idle)
    }

    /// Whether the connection's time is over.
    pub(crate) fn is_late(&self, deadlines: &Deadlines, now: u64) -> bool
        ensures { result ≡ is_late deadlines.now self.now now }
    {
        match self.stage {
            Stage::Closed => false,
            Stage::Open => {
                self.is_unread(deadlines, now)
                    || self.is_slow(deadlines, now)
                    || self.is_silent(deadlines, now)
            }
            Stage::Refused => deadlines.request_ms <= now.saturating_sub(self.times.unread),
        }
    }
}
