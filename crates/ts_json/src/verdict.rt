//! The fields of a verdict.

/// The fields of a verdict on a chain of certificates.
#[derive(Drop)]
pub struct VerdictFields {
    /// Whether the chain is valid.
    pub valid: bool,
    /// The place of the certificate that is not good, counted from 1, the anchor's side.
    pub position: Option<u64>,
    /// How many certificates the chain has.
    pub of: u64,
    /// The reason, as `Expired`.
    pub reason: Option<String>,
    /// The standard and its section, as `5280 6.1.3 (a)(2)`.
    pub section: Option<String>,
    /// The subject of the certificate that is not good.
    pub subject: Option<String>,
    /// The verdict in plain words.
    pub explanation: String,
    /// The accepted policies, in dotted form.
    pub policies: Vec<String>,
    /// The name of the trust anchor.
    pub anchor: String,
    /// Whether revocation was looked at.
    pub revocation_checked: bool,
}
