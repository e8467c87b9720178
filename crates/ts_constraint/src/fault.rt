//! Why the names of a certificate are refused.

use crate::form::Form;

/// The first condition that the names of a certificate do not meet, with the form of the first name
/// that does not meet it.
#[derive(Clone, Copy, Debug, PartialEq, Eq)]
pub enum NameFault {
    /// There is a constraint on names of this form, which this profile does not process (RFC 5280
    /// 4.2.1.10).
    Unsupported(Form),
    /// A name of this form lies in none of the subtrees of its form that a source permits (RFC 5280
    /// 6.1.3 (b)).
    NotPermitted(Form),
    /// A name of this form lies in a subtree that a source excludes (RFC 5280 6.1.3 (c)).
    Excluded(Form),
}
