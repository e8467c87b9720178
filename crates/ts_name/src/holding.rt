//! Names that lie in a subtree (RFC 5280 4.2.1.10).

ghost use Rattle.std.specs.Prelude.{◌≡◌, ◌↔◌, ◌<◌, IsTrue, length};
ghost use Rattle.ts_name.specs.GeneralView.{general_in};
ghost use Rattle.ts_name.specs.Holds.{EndsIn, Holds, IsBelow, IsWithinDomain, IsWithinRange};
ghost use Rattle.ts_name.specs.SubtreeView.{subtree_in};

use crate::general::General;
use crate::subtree::Subtree;

impl Subtree<'_> {
    /// Whether a name lies in the subtree: a distinguished name whose first relative distinguished
    /// names are those of the base, a host that is the domain or ends in a dot and the domain, an
    /// IP address that has the bits of the range under its mask. A name of another form than the
    /// base lies in none, nor does one of a form that is not processed.
    pub fn holds(self, name: General<'_>) -> bool
        ensures { IsTrue result ↔ Holds (subtree_in self.entry).base (general_in name.entry) }
    {
        match self.base {
            General::DirectoryName(subtree) => match name {
                General::DirectoryName(name) => name.within(subtree),
                _ => false,
            },
            General::DnsName(domain) => match name {
                General::DnsName(host) => is_within_domain(host, domain),
                _ => false,
            },
            General::IpAddress(range) => match name {
                General::IpAddress(address) => is_within_range(address, range),
                _ => false,
            },
            _ => false,
        }
    }
}

/// Whether a text ends in another, whatever the case of their letters.
fn ends_in(text: &[u8], end: &[u8]) -> bool
    ensures { IsTrue result ↔ EndsIn text.now end.now }
{
    if text.len() < end.len() {
        return false;
    }
    let (_, last) = text.split_at(text.len() - end.len());
    last.eq_ignore_ascii_case(end)
}

/// Whether a host is a domain, or ends in a dot and the domain.
fn is_below(host: &[u8], domain: &[u8]) -> bool
    ensures { IsTrue result ↔ IsBelow host.now domain.now }
{
    if host.len() <= domain.len() {
        return host.eq_ignore_ascii_case(domain);
    }
    host[host.len() - domain.len() - 1] == b'.' && ends_in(host, domain)
}

/// Whether a host lies in the domain of a constraint.
pub fn is_within_domain(host: &[u8], domain: &[u8]) -> bool
    ensures { IsTrue result ↔ IsWithinDomain host.now domain.now }
{
    match domain {
        [] => true,
        [b'.', ..] => domain.len() < host.len() && ends_in(host, domain),
        _ => is_below(host, domain),
    }
}

/// Whether an address lies in a range.
pub fn is_within_range(address: &[u8], range: &[u8]) -> bool
    ensures { IsTrue result ↔ IsWithinRange address.now range.now }
{
    if range.len() % 2 != 0 || range.len() / 2 != address.len() {
        return false;
    }
    let (base, mask) = range.split_at(address.len());
    for (i, octet) in address.iter().enumerate() {
        if octet & mask[i] != base[i] & mask[i] {
            return false;
        }
    }
    true
}
