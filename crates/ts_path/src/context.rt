//! What every certificate of a chain is judged by.

use crate::anchor::Anchor;
use crate::inputs::Inputs;
use ts_revoke::Crls;
use ts_sig::SignatureCheck;

/// What is asked of a chain beside its certificates: under which anchor, by which inputs, with
/// which CRLs at hand, and by which check of signatures.
#[derive(Drop)]
pub(crate) struct Context<'c, 'l, 'a, S: SignatureCheck> {
    pub(crate) anchor: &'c Anchor<'a>,
    pub(crate) inputs: &'c Inputs<'a>,
    pub(crate) crls: &'c Crls<'l>,
    pub(crate) check: &'c S,
}
