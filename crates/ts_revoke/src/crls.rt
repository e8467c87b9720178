//! The CRLs at hand.

ghost use Rattle.std.specs.Prelude.{◌≡◌, []};

use ts_crl::Crl;

/// The CRLs that a store holds, each kind in store order.
#[derive(Clone, Copy)]
pub struct Crls<'a> {
    /// The complete CRLs. A delta CRL among them is not used.
    pub lists: &'a [Crl<'a>],
    /// The delta CRLs (RFC 5280 5.2.4).
    pub deltas: &'a [Crl<'a>],
}

impl<'a> Crls<'a> {
    /// No CRL at all.
    pub fn none() -> Crls<'a>
        ensures lists { result.lists.now ≡ [] }
        ensures deltas { result.deltas.now ≡ [] }
    {
        Crls {
            lists: &[],
            deltas: &[],
        }
    }
}
