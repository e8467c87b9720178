//! Exchanges whose answer is too long, or does not come.

use std::io;
use std::io::Read;
use std::net::TcpListener;
use std::test::Fail;
use std::time::{Duration, Instant};
use ts_serve::{Peer, ServeFault, TcpPeer, read_all, room_for};

/// A reader that never ends. It counts its reads.
#[derive(Drop)]
struct Endless {
    reads: u64,
}

impl Read for Endless {
    fn read(&mut self, buf: &mut [u8]) -> io::Result<usize> {
        self.reads = self.reads.saturating_add(1);
        Ok(buf.len())
    }
}

#[test]
fn what_is_too_long_is_read_no_further(rt: HostRuntime) -> Result<(), Fail> {
    let mut reader = Endless { reads: 0 };
    let read = read_all(rt.alloc(), &mut reader, room_for(1));
    assert_eq!(rt; read.err(), Some(ServeFault::ReadLimit));
    // Of 8,192 octets each: 1,024 are 8,388,608, and the next one exceeds 8,388,612.
    assert_eq!(rt; reader.reads, 1025);
    Ok(())
}

#[test]
fn what_just_fits_is_read(rt: HostRuntime) -> Result<(), Fail> {
    let octets: &[u8] = b"four";
    let mut reader = octets;
    let read = read_all(rt.alloc(), &mut reader, 4)?;
    assert_eq!(rt; read.as_slice(), octets);
    let mut reader = octets;
    let read = read_all(rt.alloc(), &mut reader, 3);
    assert_eq!(rt; read.err(), Some(ServeFault::ReadLimit));
    Ok(())
}

/// A connection waits in the listener's queue, and nobody accepts it.
#[test]
fn a_silent_server_is_waited_for_no_longer(rt: HostRuntime) -> Result<(), Fail> {
    let alloc = rt.alloc();
    let listener = TcpListener::bind(&rt, "127.0.0.1:0")?;
    let address = listener.local_addr()?;
    let address = format!(in alloc; "{address}")?;
    let mut peer = TcpPeer::new(alloc, &rt, address);
    peer.limit(200);
    let start = Instant::now(&rt)?;
    let answer = peer.exchange(b"\x00\x00\x00\x02\x02\x15", 1);
    assert_eq!(rt; answer.err(), Some(ServeFault::Read));
    let elapsed = start.elapsed(&rt)?;
    assert!(rt; Duration::from_millis(200) <= elapsed && elapsed < Duration::from_secs(10));
    Ok(())
}
