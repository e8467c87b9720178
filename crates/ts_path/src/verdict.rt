//! What validation answers.

use ts_der::OidRef;
use ts_reason::Reason;

/// The verdict on a chain.
#[derive(Drop)]
pub enum Verdict<'a> {
    /// Each certificate meets each condition. The policies that are accepted, ascending by the
    /// content octets of their object identifiers (RFC 5280 6.1.6).
    Valid(Vec<OidRef<'a>>),
    /// A certificate does not meet a condition: of all that fail, the one at the least position,
    /// and there the one of the least number.
    Invalid {
        /// The place in the chain, counted from 1, the anchor's side.
        position: u8,
        reason: Reason<OidRef<'a>>,
    },
}
