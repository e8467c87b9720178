//! Rules of extensions, whose places count.

/// A rule that the extensions of a CRL and of its entries keep.
#[derive(Clone, Copy)]
pub(crate) enum ExtensionRule {
    /// A CRL of version 1 has none (RFC 5280 5.1.2.1).
    OldVersion,
    /// None occurs twice (RFC 5280 4.2).
    Repeated,
    /// The value of each is one that its extension has (RFC 5280 5.2, 5.3).
    Values,
}
