//! The numbers of CRLs and of delta CRLs.

ghost use Rattle.std.specs.Prelude.{◌≡◌, option_map};
ghost use Rattle.ts_crl.specs.ListView.{crl_in};
ghost use Rattle.ts_revoke.specs.Numbers.{lies_between as lies_between_of};
ghost use Rattle.ts_revoke.specs.Numbers.{continues as continues_list};

use ts_crl::{Crl, is_lower_number};
use ts_ext::CrlNumber;

/// Whether a number is at least the base number, and less than a newer one.
fn lies_between(
    base: Option<CrlNumber<'_>>,
    number: Option<CrlNumber<'_>>,
    newer: Option<CrlNumber<'_>>,
) -> bool
    ensures { result ≡ lies_between_of (option_map (λ n. n.octets.now) base.entry)
        (option_map (λ n. n.octets.now) number.entry)
        (option_map (λ n. n.octets.now) newer.entry) }
{
    match (base, number, newer) {
        (Some(base), Some(number), Some(newer)) => {
            !is_lower_number(number, base) && is_lower_number(number, newer)
        }
        _ => false,
    }
}

/// Whether a delta CRL states the changes since a CRL.
pub(crate) fn continues(crl: &Crl<'_>, delta: &Crl<'_>) -> bool
    ensures { result ≡ continues_list (crl_in crl.now) (crl_in delta.now) }
{
    lies_between(
        delta.base_crl_number(),
        crl.crl_number(),
        delta.crl_number(),
    )
}
