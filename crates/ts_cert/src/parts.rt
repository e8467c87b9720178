//! The parts of a certificate, each read.

use crate::tbs::TbsCertificate;
use ts_field::AlgorithmIdentifier;

/// The parts of a certificate while it is read from front to back (RFC 5280 4.1).
#[derive(Clone, Copy)]
pub(crate) struct Parts<'a> {
    pub tbs: &'a [u8],
    pub fields: TbsCertificate<'a>,
    pub signature_algorithm: AlgorithmIdentifier<'a>,
    pub signature_value: &'a [u8],
    /// The offset of the algorithm identifier beside the signature.
    pub identifier_at: usize,
}
