//! The fields that version 1 of a certificate does not have.

ghost use Rattle.std.specs.Prelude.{◌≡◌};
ghost use Rattle.ts_cert.specs.inside.AllLocated.{fault_within};

use ts_der::{Bits, Element};
use ts_shape::CertFault;

/// The offsets at which the fields stand that a version may not have, or would stand.
#[derive(Clone, Copy)]
pub(crate) struct Places {
    pub issuer_unique_id: usize,
    pub subject_unique_id: usize,
    pub extensions: usize,
}

/// Unique identifiers and extensions (RFC 5280 4.1.2.8, 4.1.2.9).
#[derive(Clone, Copy)]
pub(crate) struct OptionalFields<'a> {
    pub issuer_unique_id: Option<Bits<'a>>,
    pub subject_unique_id: Option<Bits<'a>>,
    /// The SEQUENCE within the explicit tag.
    pub extensions: Option<Element<'a>>,
    /// The first rule that the extensions break.
    pub extensions_fault: Option<CertFault>,
    ghost judged: { extensions_fault ≡ fault_within extensions },
    pub places: Places,
}
