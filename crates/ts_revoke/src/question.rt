//! What is asked of the CRLs.

use crate::crls::Crls;
use crate::issuer::Issuer;
use ts_cert::Cert;
use ts_time::Moment;

/// The arguments of `status` but for the check of signatures.
#[derive(Clone, Copy)]
pub(crate) struct Question<'a> {
    pub crls: &'a Crls<'a>,
    pub cert: &'a Cert<'a>,
    pub issuer: &'a Issuer<'a>,
    pub moment: Moment,
    pub use_deltas: bool,
}
