//! What a loop allows.

ghost use Rattle.std.specs.Prelude.{◌≡◌, ◌-◌, ◌^◌};

use ts_links::Deadlines;

/// What a loop allows.
#[derive(Clone, Copy, Debug, PartialEq, Eq)]
pub struct Limits {
    /// How many milliseconds a connection may ask nothing.
    pub idle_ms: u64,
    /// How many milliseconds a request may take to come whole, with a second more for each mebibyte
    /// that it announces; and how many an answer may wait, and again after each 64 KiB that left.
    pub request_ms: u64,
    /// How many connections there may be at once.
    pub connections_at_once: usize,
    /// After how many connections that are over the loop ends.
    pub connections: u64,
}

impl Limits {
    /// 30 seconds without a request, 5 for a request, 512 connections at once, and no end.
    pub fn usual() -> Limits
        ensures { result ≡ record {
          idle_ms = 30000;
          request_ms = 5000;
          connections_at_once = 512;
          connections = 2 ^ 64 - 1;
        } }
    {
        Limits {
            idle_ms: 30_000,
            request_ms: 5_000,
            connections_at_once: 512,
            connections: u64::MAX,
        }
    }

    /// The times that a connection has.
    pub fn deadlines(&self) -> Deadlines
        ensures { result ≡ record { idle_ms = self.now.idle_ms; request_ms = self.now.request_ms } }
    {
        Deadlines {
            idle_ms: self.idle_ms,
            request_ms: self.request_ms,
        }
    }
}
