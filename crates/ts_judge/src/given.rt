//! What is judged, and how.

use ts_der::Oid;
use ts_time::Moment;

/// What is judged, each value in DER.
#[derive(Debug, Drop)]
pub struct GivenChain {
    /// The certificates of trust anchors. Those that are none by a rule of RFC 5280 do not count.
    pub anchors: Vec<Vec<u8>>,
    /// The leaf and the certificates between, in any order.
    pub certificates: Vec<Vec<u8>>,
    /// Complete CRLs and delta CRLs, in any order.
    pub crls: Vec<Vec<u8>>,
    /// The policies that the user accepts (RFC 5280 6.1.1 (c)); none stands for any.
    pub policies: Vec<Oid>,
    /// The purpose that the leaf is to have, if one is asked for, as the content octets of its
    /// object identifier.
    pub purpose: Option<Vec<u8>>,
}

/// How a chain is judged.
#[derive(Clone, Copy, Debug)]
pub struct VerifyOptions {
    /// The moment at which it is judged (RFC 5280 6.1.1 (b)).
    pub moment: Moment,
    /// Whether a certificate is taken whose status no CRL gives, although there are CRLs.
    pub soft: bool,
    /// Whether delta CRLs are used (6.3.1 (b)).
    pub use_deltas: bool,
    /// Whether a policy has to be valid for the chain (6.1.1 (f)).
    pub explicit_policy: bool,
    /// Whether policies may not be mapped (6.1.1 (e)).
    pub inhibit_policy_mapping: bool,
    /// Whether anyPolicy does not stand for other policies (6.1.1 (g)).
    pub inhibit_any_policy: bool,
}
