//! The names that a certificate presents.

ghost use Rattle.std.specs.Prelude.{◌≡◌, ◌↔◌, IsTrue, Some};
ghost use Rattle.ts_name.specs.GeneralView.{general_in};
ghost use Rattle.ts_ext.specs.GeneralNames.{general_names_of};
ghost use Rattle.ts_ext.specs.NameViews.{alternatives_in};
ghost use Rattle.ts_ext.specs.declared.known.Known.TheVariants.{SubjectAltName};
ghost use Rattle.ts_cert.specs.CertView.{cert_in};
ghost use Rattle.ts_cert.specs.Stated.{stated_value};
ghost use Rattle.ts_verify.specs.Hosts.{IsFor, IsNamed, SomeOf, octets_in};

use crate::host::Host;
use crate::matching::matches;
use std::net::IpAddr;
use ts_cert::Cert;
use ts_ext::AlternativeNames;
use ts_name::General;

/// Whether octets are those of an address.
fn is_address(octets: &[u8], ip: IpAddr) -> bool
    ensures { IsTrue result ↔ (octets.now ≡ octets_in ip) }
{
    match ip {
        IpAddr::V4(ip) => octets == ip.octets().as_slice(),
        IpAddr::V6(ip) => octets == ip.octets().as_slice(),
    }
}

/// Whether a name is that of a host.
fn is_named(host: Host<'_>, name: General<'_>) -> bool
    ensures { IsTrue result ↔ IsNamed host.entry (general_in name.entry) }
{
    match (host, name) {
        (Host::Name(host), General::DnsName(pattern)) => matches(pattern, host.text()),
        (Host::Address(ip), General::IpAddress(octets)) => is_address(octets, ip),
        _ => false,
    }
}

/// Whether one of these names is that of a host.
fn has_name(names: AlternativeNames<'_>, host: Host<'_>) -> bool
    ensures { IsTrue result ↔ SomeOf (IsNamed host.entry) (alternatives_in names.entry) }
{
    for name in names.iter() {
        if is_named(host, name) {
            return true;
        }
    }
    false
}

/// Whether a certificate is for a host: one of the names of its subjectAltName is that of the host.
/// Its subject does not count.
pub fn is_for(cert: &Cert<'_>, host: Host<'_>) -> bool
    ensures { IsTrue result ↔ IsFor host.entry
        (stated_value SubjectAltName general_names_of (cert_in cert.now).tbsCertificate) }
{
    match cert.subject_alt_name() {
        Some(names) => has_name(names, host),
        None => false,
    }
}
