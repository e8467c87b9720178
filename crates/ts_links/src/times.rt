//! When a connection is late. Moments are milliseconds on one clock, and are arguments.

ghost use Rattle.std.specs.Prelude.{◌≡◌, length};
ghost use Rattle.ts_links.specs.Times.{announced_length, more_time, times_came, times_left};
ghost use Rattle.ts_links.specs.Times.{times_opened};
ghost use Rattle.ts_links.specs.Times.{times_refused, times_took};

/// How long connections may take, in milliseconds.
#[derive(Clone, Copy, Debug, PartialEq, Eq)]
pub struct Deadlines {
    /// How long nothing may be asked.
    pub idle_ms: u64,
    /// How long a frame may take to come whole, with a second more for each mebibyte that it
    /// announces; and how long an answer may wait, and again after each 65,536 octets that leave.
    pub request_ms: u64,
}

/// The moments from which a connection's times count.
#[derive(Clone, Copy, Debug, PartialEq, Eq)]
pub struct Times {
    /// When an answer left last, or the connection was opened.
    pub(crate) idle: u64,
    /// When the frame at the front began to come.
    pub(crate) asked: u64,
    /// Since when the answers that wait can be read.
    pub(crate) unread: u64,
    /// How many octets have left since then.
    pub(crate) gone: u64,
}

/// How many octets leave before those that wait get more time.
const STEP: u64 = 65_536;

impl Deadlines {
    /// 30 seconds without a request, and 5 for a request or an answer.
    pub fn usual() -> Deadlines
        ensures idle { result.idle_ms ≡ 30000 }
        ensures request { result.request_ms ≡ 5000 }
    {
        Deadlines {
            idle_ms: 30_000,
            request_ms: 5_000,
        }
    }
}

/// The length that the first four octets announce, or 0.
pub(crate) fn announced_length(octets: &[u8]) -> u32
    ensures { result ≡ announced_length octets.now }
{
    let [a, b, c, d, ..] = octets else {
        return 0;
    };
    let high = u32::from(*a) * 256 + u32::from(*b);
    let low = u32::from(*c) * 256 + u32::from(*d);
    high * 65_536 + low
}

/// How many milliseconds more a frame that begins so may take to come whole.
pub(crate) fn more_time(held: &[u8]) -> u64
    ensures { result ≡ more_time held.now }
{
    1000 * u64::from(announced_length(held) / 1_048_576)
}

impl Times {
    /// The times of a connection that is opened at this moment.
    pub(crate) fn opened(now: u64) -> Times
        ensures { result ≡ times_opened now }
    {
        Times {
            idle: now,
            asked: now,
            unread: now,
            gone: 0,
        }
    }

    /// Octets came, behind those held.
    pub(crate) fn came(self, held: &[u8], now: u64) -> Times
        ensures { result ≡ times_came held.now self now }
    {
        let asked = if held.is_empty() { now } else { self.asked };
        Times { asked, ..self }
    }

    /// A request was taken, while these octets waited.
    pub(crate) fn took(self, waits: &[u8], now: u64) -> Times
        ensures { result ≡ times_took waits.now self now }
    {
        let idle = self.idle;
        if waits.is_empty() {
            return Times {
                idle,
                asked: now,
                unread: now,
                gone: 0,
            };
        }
        Times { asked: now, ..self }
    }

    /// A fault was answered.
    pub(crate) fn refused(self, now: u64) -> Times
        ensures { result ≡ times_refused self now }
    {
        Times {
            unread: now,
            gone: 0,
            ..self
        }
    }

    /// So many of these octets left.
    pub(crate) fn left(self, waits: &[u8], count: usize, now: u64) -> Times
        ensures { result ≡ times_left waits.now count self now }
    {
        let asked = if waits.len() >= 65_536 {
            now
        } else {
            self.asked
        };
        if STEP.saturating_sub(self.gone) <= count as u64 {
            return Times {
                idle: now,
                asked,
                unread: now,
                gone: 0,
            };
        }
        Times {
            idle: now,
            asked,
            unread: self.unread,
            gone: self.gone + count as u64,
        }
    }
}
