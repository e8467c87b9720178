//! What is reported of a chain of certificates.

use ts_cert::Cert;
use ts_der::OidRef;
use ts_path::Anchor;
use ts_reason::Reason;

/// What is found of a chain.
#[derive(Drop)]
pub enum Finding<'a> {
    /// The chain is valid, and its leaf is for the host that is asked, if one is. The policies that
    /// are accepted, ascending by the content octets of their object identifiers.
    Valid(Vec<OidRef<'a>>),
    /// A certificate of the chain does not meet a condition.
    Invalid {
        /// The place in the chain, counted from 1, the anchor's side.
        position: u8,
        reason: Reason<OidRef<'a>>,
    },
    /// The chain is valid, and its leaf is not for the host that is asked (RFC 9525 6).
    OtherHost,
}

/// The report on a chain of certificates.
#[derive(Drop)]
pub struct Report<'a> {
    pub finding: Finding<'a>,
    /// The chain that was judged, from the anchor's side to the leaf.
    pub chain: Vec<Cert<'a>>,
    /// The place of its anchor among those that were given, from 0.
    pub anchor_place: usize,
    /// That anchor.
    pub anchor: Anchor<'a>,
    /// Whether a CRL was given. Where none was, revocation was not looked at.
    pub has_lists: bool,
}
