//! The host that is asked for.

ghost use Rattle.std.specs.Prelude.{◌≡◌, ◌==◌, nat_lt, length};
ghost use Rattle.std.specs.List.{list_all, list_any};
ghost use Rattle.ts_verify.specs.Hosts.{Reads, fault_of, is_dot, is_name_octet, is_numeric_octet};
ghost use Rattle.ts_verify.specs.Hosts.{labels, without_dot};

use crate::fault::HostFault;
use std::net::IpAddr;

/// A host name, of letters, digits, hyphens and underscores in labels.
#[derive(Clone, Copy, Debug)]
pub struct HostName<'a> {
    text: &'a [u8],
}

/// The host that a certificate is to be for.
#[derive(Clone, Copy, Debug)]
pub enum Host<'a> {
    /// A domain name.
    Name(HostName<'a>),
    /// An IP address.
    Address(IpAddr),
}

/// A text without the dot at its end.
fn without_dot(text: &[u8]) -> &[u8]
    ensures { result.now ≡ without_dot text.now }
{
    match text {
        [front @ .., b'.'] => front,
        _ => text,
    }
}

/// Whether an octet is a dot.
fn is_dot(octet: u8) -> bool
    ensures { result ≡ is_dot octet }
{
    octet == b'.'
}

/// Whether an octet may occur in a host name: a letter, a digit, a hyphen, an underscore or a dot.
fn is_name_octet(octet: u8) -> bool
    ensures { result ≡ is_name_octet octet }
{
    matches!(octet, b'a'..=b'z' | b'A'..=b'Z' | b'0'..=b'9' | b'-' | b'_' | b'.')
}

/// Whether an octet is a digit or a dot.
fn is_numeric_octet(octet: u8) -> bool
    ensures { result ≡ is_numeric_octet octet }
{
    matches!(octet, b'0'..=b'9' | b'.')
}

/// Whether a label is empty.
fn has_empty_label(name: &[u8]) -> bool
    ensures { result ≡ list_any (λ label. length label == 0) (labels name.now) }
{
    name.split(|octet| is_dot(*octet))
        .any(|label| label.is_empty())
}

/// Whether a label has more than 63 octets.
fn has_long_label(name: &[u8]) -> bool
    ensures { result ≡ list_any (λ label. nat_lt 63 (length label)) (labels name.now) }
{
    name.split(|octet| is_dot(*octet))
        .any(|label| label.len() > 63)
}

/// Whether each octet of a name may occur in a host name.
fn has_name_octets(name: &[u8]) -> bool
    ensures { result ≡ list_all is_name_octet name.now }
{
    name.iter().all(|octet| is_name_octet(*octet))
}

/// Whether a name consists of digits and dots alone.
fn is_numeric(name: &[u8]) -> bool
    ensures { result ≡ list_all is_numeric_octet name.now }
{
    name.iter().all(|octet| is_numeric_octet(*octet))
}

/// The first rule of host names that a name breaks.
fn fault_of(name: &[u8]) -> Option<HostFault>
    ensures { result ≡ fault_of name.now }
{
    if name.len() > 253 {
        return Some(HostFault::LongName);
    }
    if has_empty_label(name) {
        return Some(HostFault::EmptyLabel);
    }
    if has_long_label(name) {
        return Some(HostFault::LongLabel);
    }
    if !has_name_octets(name) {
        return Some(HostFault::BadOctet);
    }
    if is_numeric(name) {
        return Some(HostFault::Numeric);
    }
    None
}

impl<'a> Host<'a> {
    /// The host that a text asks for: an IP address, and else a host name. One dot at the end of a
    /// name does not count.
    ///
    /// # Errors
    ///
    /// The first rule of host names that the text breaks, which is no address.
    pub fn parse(text: &'a [u8]) -> Result<Host<'a>, HostFault>
        ensures { Reads text.now result }
    {
        if let Ok(ip) = IpAddr::parse_ascii(text) {
            return Ok(Host::Address(ip));
        }
        let name = without_dot(text);
        match fault_of(name) {
            Some(fault) => Err(fault),
            None => Ok(Host::Name(HostName { text: name })),
        }
    }
}

impl<'a> HostName<'a> {
    /// The octets of the name.
    pub fn text(self) -> &'a [u8]
        ensures { result.now ≡ self.entry.text.now }
    {
        self.text
    }
}
