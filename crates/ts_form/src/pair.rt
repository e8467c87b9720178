//! Pairs of texts.

/// The most pairs that are taken from a form or an object. There are 11 fields of a question, of
/// which only `chain` and `policies` may be given more than once, each at most about 32 times.
pub(crate) const MAX_PAIRS: usize = 256;

/// A name and a value.
#[derive(Debug, Drop)]
pub struct Pair {
    /// The name of a field.
    pub name: String,
    /// What it is given.
    pub value: String,
}
