//! Listeners, and places for what they accept.

use mio::net::TcpListener;
use std::alloc::AllocError;
use std::net::{Net, ToSocketAddrs};

/// Why there is no listener at an address.
#[derive(Clone, Copy, Debug, PartialEq, Eq)]
pub(crate) enum ListenFault {
    /// The system gives none there.
    Address,
    /// Other machines reach the address, and they may not.
    Unprotected,
}

/// The listener at an address, whose calls don't wait, and whether this machine alone reaches it.
/// `mio` asks for the longest backlog. An address that others reach is refused, unless it is open.
pub(crate) fn listener_at<R: Net>(
    rt: &R,
    address: &str,
    open: bool,
) -> Result<(TcpListener, bool), ListenFault> {
    let Ok(found) = address.to_socket_addrs(rt) else {
        return Err(ListenFault::Address);
    };
    for place in found {
        let is_loopback = place.ip().is_loopback();
        if !open && !is_loopback {
            return Err(ListenFault::Unprotected);
        }
        if let Ok(listener) = TcpListener::bind(rt, place) {
            return Ok((listener, is_loopback));
        }
    }
    Err(ListenFault::Address)
}

/// Adds so many places for connections that are to come.
pub(crate) fn add_places<D: Drop>(
    places: &mut Vec<Option<D>>,
    slots: usize,
) -> Result<(), AllocError> {
    for _slot in 0..slots {
        places.push(None)?;
    }
    Ok(())
}
