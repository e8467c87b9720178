//! What a search answers.

use ts_der::OidRef;

/// The answer of a search.
#[derive(Drop)]
pub enum SearchAnswer<'a> {
    /// A chain is valid under an anchor.
    Found {
        /// The anchor's place among the anchors, from 0.
        anchor: usize,
        /// The places of the chain's certificates, from the anchor's side: 0 is the leaf, which is
        /// last, and 1 the first of the pool.
        chain: Vec<u8>,
        /// The policies that are accepted, ascending by the content octets of their object
        /// identifiers.
        policies: Vec<OidRef<'a>>,
    },
    /// No candidate is valid under any anchor.
    NoPath,
    /// None of the first 4,096 candidates is valid under any anchor, and there are more.
    SearchLimit,
}
