//! How a connection is set up.

use std::io;
use std::net::OpenStream;
use std::time::Duration;

/// How many seconds one read or write waits for the other end; and how many a client's exchange
/// takes, with one more for each mebibyte that is sent and received.
pub const LONGEST_WAIT: u64 = 60;

/// How many seconds a connection may take to be made, to each place that an address names.
pub const LONGEST_DIAL: u64 = 5;

/// Has the reads and writes of a connection fail where they wait longer than that, and has what is
/// written sent at once. The system would else hold an answer back until the one before it is
/// acknowledged, which takes 40 ms where requests come many at a time.
pub(crate) fn set_up<S: OpenStream>(stream: &S) -> io::Result<()> {
    let longest = Some(Duration::from_secs(LONGEST_WAIT));
    stream.set_read_timeout(longest)?;
    stream.set_write_timeout(longest)?;
    stream.set_nodelay(true)
}
