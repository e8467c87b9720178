//! The verdict on a chain of certificates that are given in any order, with its exact reason, and
//! whether its leaf is for a host.
//!
//! ```text
//! let report = verify(alloc, &certificates, &anchors, &inputs, &crls, host, &check)?;
//! ```
//!
//! - [`verify`]: the leaf is the first certificate that issued none of the others, by names, or the
//!   first of all where each issued another (`specs/Leaf`). The search of `ts_search` is asked for
//!   a chain; where it finds none, the chain by names from the leaf up is judged, under an anchor
//!   that its top certificate names as its issuer; of several with one name the first whose key has
//!   signed counts, else the first (`specs/Lines`).
//!   The verdict is that of path validation on the chain that is reported, under the anchor that is
//!   reported (`specs/Judged`); the finding says it, and of a valid chain whether its leaf is for
//!   the host (`specs/Report`, `IsReport`). Out of memory is the only error.
//!
//! # Hosts
//!
//! Whether a certificate is for a host (RFC 9525 6): by the names of its subjectAltName, never by
//! its subject.
//!
//! ```text
//! let host = Host::parse(b"www.example.com")?;    // a host name, or an IP address
//! if is_for(&certificate, host) { .. }
//! ```
//!
//! A host name is compared with dNSName alone, by whole labels and whatever the case of ASCII
//! letters. A wildcard is the whole left-most label of a dNSName, stands for exactly one label, and
//! other labels follow it; an asterisk anywhere else matches nothing. An IP address is compared
//! with iPAddress alone, by its octets: four of IPv4, sixteen of IPv6.
//!
//! - [`is_for`]: true exactly where one of the names of subjectAltName is that of the host (`IsFor`
//!   in `specs/Hosts`, `Matches` in `specs/Matching`). A certificate without that extension is for
//!   no host.
//! - [`Host::parse`]: the address that the text writes, and of a text that writes none the host
//!   name, without a dot at its end, exactly where it breaks no rule; else the first rule that it
//!   breaks (`Reads`): at most 253 octets, labels of 1 to 63, of letters, digits, hyphens and
//!   underscores, and not digits and dots alone.
//! - [`HostName::text`]: the octets of the name.
//!
//! A name in other letters than ASCII is given as its A-labels. Where hyphens stand in a label is
//! not looked at. An IPv6 address is given without brackets, and without a zone.
//!
//! # Not promised
//!
//! How long it takes. Only tested: the examples of RFC 9525 and a certificate of OpenSSL
//! (`tests/words/verify.rows`). SRV-IDs and URI-IDs (RFC 9525 6.5) are not looked at.
#![tactic(auto)]

mod fault;
mod host;
mod judging;
mod leaf;
mod line;
mod matching;
mod presented;
mod report;
mod verifying;

pub use fault::HostFault;
pub use host::{Host, HostName};
pub use presented::is_for;
pub use report::{Finding, Report};
pub use verifying::verify;
