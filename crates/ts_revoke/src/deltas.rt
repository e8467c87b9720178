//! What a CRL, with its delta CRL, says of the certificate.

ghost use Rattle.std.specs.List.{find};
ghost use Rattle.std.specs.Prelude.{◌≡◌, map, option_map};
ghost use Rattle.std.specs.Option.{option_and_then};
ghost use Rattle.ts_cert.specs.CertView.{cert_in};
ghost use Rattle.ts_crl.specs.ListView.{crl_in};
ghost use Rattle.ts_crl.specs.Slots.{is_same_slot};
ghost use Rattle.ts_revoke.specs.Listed.{counts_for as counts_for_list};
ghost use Rattle.ts_revoke.specs.Listed.{reason_in_list as listed_in_list};
ghost use Rattle.ts_revoke.specs.Listed.{delta_of as delta_of_list};
ghost use Rattle.ts_revoke.specs.Listed.{listed as listed_of};
ghost use Rattle.ts_revoke.specs.View.{question_in};

use crate::entries::listed_in;
use crate::numbers::continues;
use crate::question::Question;
use crate::usable::{is_current, is_signed};
use ts_crl::Crl;
use ts_sig::SignatureCheck;

/// The first delta CRL of a CRL's slot.
fn of_slot<'a, 'b>(crl: &Crl<'_>, deltas: &'a [Crl<'b>]) -> Option<&'a Crl<'b>>
    ensures { option_map (λ d. crl_in d.now) result
        ≡ find (λ d. is_same_slot (crl_in crl.now) d) (map crl_in deltas.now) }
{
    for delta in deltas {
        if crl.is_same_slot(*delta) {
            return Some(delta);
        }
    }
    None
}

/// Whether a delta CRL counts for a CRL. The signature comes last, since it costs most.
fn counts_for<S: SignatureCheck>(
    crl: &Crl<'_>,
    delta: &Crl<'_>,
    q: &Question<'_>,
    check: &S,
) -> bool
    ensures { result ≡ counts_for_list (question_in q.now (S.accepts check.now)) (crl_in crl.now)
        (crl_in delta.now) }
{
    is_current(delta, q.moment) && continues(crl, delta) && is_signed(delta, q, check)
}

/// The reason of the delta CRL's entry, where the CRL has a delta CRL that counts and lists the
/// serial number.
fn listed_by_delta<S: SignatureCheck>(crl: &Crl<'_>, q: &Question<'_>, check: &S) -> Option<u8>
    ensures { result ≡ option_and_then
        (listed_in_list (cert_in q.now.cert.now).tbsCertificate.serialNumber)
        (delta_of_list (question_in q.now (S.accepts check.now)) (crl_in crl.now)) }
{
    if !q.use_deltas {
        return None;
    }
    match of_slot(crl, q.crls.deltas) {
        Some(delta) => {
            if counts_for(crl, delta, q, check) {
                listed_in(delta, q.cert.serial_number())
            } else {
                None
            }
        }
        None => None,
    }
}

/// The reason that the delta CRL, or else the CRL, gives for the certificate.
#[tactic(auto, unfolding(crate::specs::Listed::listed))]
pub(crate) fn listed<S: SignatureCheck>(crl: &Crl<'_>, q: &Question<'_>, check: &S) -> Option<u8>
    ensures { result ≡ listed_of (question_in q.now (S.accepts check.now)) (crl_in crl.now) }
{
    match listed_by_delta(crl, q, check) {
        Some(reason) => Some(reason),
        None => listed_in(crl, q.cert.serial_number()),
    }
}
