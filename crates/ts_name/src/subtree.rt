//! General subtrees.

use crate::general::General;
use ts_der::Integer;

/// A subtree of names, as it lies in the source (RFC 5280 4.2.1.10, `GeneralSubtree`).
#[derive(Clone, Copy)]
pub struct Subtree<'a> {
    pub(crate) base: General<'a>,
    /// The minimum, where it is not the default 0.
    pub(crate) minimum: Option<Integer<'a>>,
    pub(crate) maximum: Option<Integer<'a>>,
}
