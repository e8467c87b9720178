//! A connection that takes no longer than it may.

ghost use Rattle.std.specs.Prelude.{◌≡◌, ◌+◌, ◌*◌, ◌-◌, ◌/◌, min};

use crate::connection::{LONGEST_DIAL, LONGEST_WAIT};
use std::io;
use std::io::{ErrorKind, Read, Write};
use std::net::{Net, OpenStream, Shutdown, TcpStream, ToSocketAddrs};
use std::rt::Clock;
use std::time::{Duration, Instant};

/// A connection to a server. It takes [`LONGEST_WAIT`] seconds from its first step on, with a
/// second more for each mebibyte that was sent and received, or a time that it is given where that
/// is less. A read or write that would wait longer than is left of it fails, and so do those after
/// it.
#[derive(Drop)]
pub struct TimedStream<'a, N: Net + Clock> {
    net: &'a N,
    stream: N::Stream,
    /// When the first place was dialed.
    start: Instant,
    /// The time that it is given, in milliseconds.
    most: u64,
    /// How many octets were sent and received.
    octets: u64,
}

/// How many milliseconds a read or write may wait on a connection that has brought so many octets
/// in so many milliseconds, and takes so many at most. No time is left where it is 0.
fn longest_wait(octets: u64, elapsed: u64, most: u64) -> u64
    ensures { result ≡ min (min most (1000 * (60 + octets / 1048576)) - elapsed) 60000 }
{
    let whole = most.min(1000 * (LONGEST_WAIT + octets / 1_048_576));
    whole.saturating_sub(elapsed).min(1000 * LONGEST_WAIT)
}

/// How long the next step of a connection may wait: `TimedOut` where no time is left.
fn next_wait<N: Clock>(net: &N, start: Instant, octets: u64, most: u64) -> io::Result<Duration> {
    let elapsed = start.elapsed(net)?.as_millis();
    let elapsed = u64::try_from(elapsed).unwrap_or(u64::MAX);
    match longest_wait(octets, elapsed, most) {
        0 => Err(ErrorKind::TimedOut.into()),
        millis => Ok(Duration::from_millis(millis)),
    }
}

impl<'a, N: Net + Clock> TimedStream<'a, N> {
    /// A connection to an address, which takes at most so many milliseconds. What is written is
    /// sent at once. `None` where none of the places that the address names is reached, each within
    /// [`LONGEST_DIAL`] seconds.
    pub fn connect(net: &'a N, address: &str, most: u64) -> Option<TimedStream<'a, N>> {
        let start = Instant::now(net).ok()?;
        for place in address.to_socket_addrs(net).ok()? {
            let wait = next_wait(net, start, 0, most).ok()?;
            let wait = wait.min(Duration::from_secs(LONGEST_DIAL));
            if let Ok(stream) = TcpStream::connect_timeout(net, &place, wait) {
                stream.set_nodelay(true).ok()?;
                return Some(TimedStream {
                    net,
                    stream,
                    start,
                    most,
                    octets: 0,
                });
            }
        }
        None
    }

    /// Tells the other end that nothing more is written.
    pub fn end_writing(&self) -> io::Result<()> {
        self.stream.shutdown(Shutdown::Write)
    }

    /// How long the next read or write may wait.
    fn next_wait(&self) -> io::Result<Duration> {
        next_wait(self.net, self.start, self.octets, self.most)
    }
}

impl<N: Net + Clock> Read for TimedStream<'_, N> {
    fn read(&mut self, buf: &mut [u8]) -> io::Result<usize> {
        let wait = self.next_wait()?;
        self.stream.set_read_timeout(Some(wait))?;
        let count = self.stream.read(buf)?;
        self.octets = self.octets.saturating_add(count as u64);
        Ok(count)
    }
}

impl<N: Net + Clock> Write for TimedStream<'_, N> {
    fn write(&mut self, buf: &[u8]) -> io::Result<usize> {
        let wait = self.next_wait()?;
        self.stream.set_write_timeout(Some(wait))?;
        let count = self.stream.write(buf)?;
        self.octets = self.octets.saturating_add(count as u64);
        Ok(count)
    }

    fn flush(&mut self) -> io::Result<()> {
        self.stream.flush()
    }
}
