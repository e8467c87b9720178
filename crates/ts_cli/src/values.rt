//! What words write.

ghost use Rattle.std.specs.Prelude.{◌↔◌, ℕ, ℤ, List, IfSome, IsTrue, MatchOption};
ghost use Rattle.ts_time.specs.Text.{IsGeneral};
ghost use Rattle.ts_cli.specs.Values.{IsAddress, IsAddressed, IsPeer};

use std::net::SocketAddrV6;
use ts_literal::number_in;
use ts_time::{Moment, read_general};

/// Stands between the host and the port of an address.
const COLON: char = ':';

/// Stands between the number of a peer and its address.
const EQUALS: char = '=';

/// The host and the port of an address: a host, which is not empty and has no colon, a colon, and a
/// port of 0 to 65,535 in decimal without leading zeros. `None` exactly where the text is no
/// address.
pub fn address_of(text: &str) -> Option<(&str, u16)>
    ensures { MatchOption result ((host : List ℕ) (port : ℕ) → ¬ (IsAddress text.now host port))
        (λ found. IsAddress text.now found.0.now found.1) }
{
    let (host, port) = text.split_once(COLON)?;
    if host.is_empty() {
        return None;
    }
    let port = number_in(port, 0, 65_535)?;
    Some((host, port as u16))
}

/// Whether a text is an address: a host and a port, or an IPv6 address in brackets and a port, as
/// `[::1]:7101`.
pub fn is_address(text: &str) -> bool
    ensures { IsTrue result ↔ IsAddressed text.now }
{
    if address_of(text).is_some() {
        return true;
    }
    text.parse::<SocketAddrV6>().is_ok()
}

/// The number of a node, 1 to 9, and its address, with an equals sign between.
pub fn peer_of(text: &str) -> Option<(u8, &str)>
    ensures { IfSome result (λ found. IsPeer text.now found.0 found.1.now) }
{
    let (node, address) = text.split_once(EQUALS)?;
    let node = number_in(node, 1, 9)?;
    if !is_address(address) {
        return None;
    }
    Some((node as u8, address))
}

/// The moment that a text names as a GeneralizedTime.
pub(crate) fn moment_of(text: &str) -> Option<Moment>
    ensures { MatchOption result ((m : ℤ) → ¬ (IsGeneral text.now m)) (IsGeneral text.now) }
{
    match read_general(text.as_bytes()) {
        Ok(moment) => Some(moment),
        Err(_) => None,
    }
}
