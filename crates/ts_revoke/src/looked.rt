//! What a question has learned of a CRL, so that neither its signature nor its entries are asked
//! twice.

ghost use Rattle.std.specs.Prelude.{◌≡◌, get_or, set};
ghost use Rattle.ts_crl.specs.ListView.{crl_in};
ghost use Rattle.ts_revoke.specs.declared.looked.Looked.TheVariants.{NotYet};
ghost use Rattle.ts_revoke.specs.Decision.{revoking as revoking_of};
ghost use Rattle.ts_revoke.specs.Listed.{listed as listed_of};
ghost use Rattle.ts_revoke.specs.inside.Looked.{IsLooked};
ghost use Rattle.ts_revoke.specs.Usable.{serves as serves_of};
ghost use Rattle.ts_revoke.specs.View.{question_in};

use crate::deltas::listed;
use crate::entries::revoking;
use crate::question::Question;
use crate::usable::serves;
use ts_crl::Crl;
use ts_sig::SignatureCheck;

/// What is known of a CRL.
#[derive(Clone, Copy, Debug, PartialEq, Eq)]
pub(crate) enum Looked {
    /// Nothing: its signature was not checked.
    NotYet,
    /// It does not serve.
    Refused,
    /// It serves. Its entries were not searched.
    Serves,
    /// It serves, and revokes for this reason, if for any.
    Searched(Option<u8>),
}

/// The number of CRLs, the first ones, for which this is kept: as many as a store holds. For those
/// after them it is found again.
pub(crate) const KEPT: usize = 1_024;

/// What is known of the CRL at a place.
pub(crate) fn looked_at(table: &[Looked], place: usize) -> Looked
    ensures { result ≡ get_or table.now place NotYet }
{
    if place < table.len() {
        table[place]
    } else {
        Looked::NotYet
    }
}

/// Keeps what is known of the CRL at a place, where the table has one.
pub(crate) fn keep(table: &mut [Looked], place: usize, looked: Looked)
    ensures { table.new ≡ set table.old place looked }
{
    if place < table.len() {
        table[place] = looked;
    }
}

/// Whether a CRL serves. Its signature is checked only where that is not known.
pub(crate) fn serves_as<S: SignatureCheck>(
    looked: Looked,
    crl: &Crl<'_>,
    q: &Question<'_>,
    check: &S,
) -> bool
    requires known { IsLooked (question_in q.now (S.accepts check.now)) (crl_in crl.now) looked }
    ensures { result ≡ serves_of (question_in q.now (S.accepts check.now)) (crl_in crl.now) }
{
    match looked {
        Looked::NotYet => serves(crl, q, check),
        Looked::Refused => false,
        Looked::Serves | Looked::Searched(_) => true,
    }
}

/// The reason for which a CRL that serves revokes, if for any. Its entries are searched only where
/// that is not known.
pub(crate) fn revoking_as<S: SignatureCheck>(
    looked: Looked,
    crl: &Crl<'_>,
    q: &Question<'_>,
    check: &S,
) -> Option<u8>
    requires known { IsLooked (question_in q.now (S.accepts check.now)) (crl_in crl.now) looked }
    ensures { result ≡ revoking_of
        (listed_of (question_in q.now (S.accepts check.now)) (crl_in crl.now)) }
{
    match looked {
        Looked::Searched(reason) => reason,
        _ => revoking(listed(crl, q, check)),
    }
}
