//! Sets of the eight reasons.

ghost use Rattle.std.specs.Prelude.{◌≡◌};
ghost use Rattle.ts_der.specs.BitsView.{bits_in};
ghost use Rattle.ts_ext.specs.NamedBits.{bit, flag_number};
ghost use Rattle.ts_revoke.specs.Reasons.{reasons_where, all_reasons, intersection as both};
ghost use Rattle.ts_revoke.specs.Reasons.{union as either, is_all as is_all_reasons};
ghost use Rattle.ts_revoke.specs.Reasons.{is_subset as lies_within};

use ts_ext::{ReasonFlags, ReasonSet};

/// All reasons.
pub(crate) fn all() -> ReasonSet
    ensures { result ≡ all_reasons }
{
    ReasonSet::all()
}

/// The reasons of a ReasonFlags.
pub(crate) fn reasons_of(flags: ReasonFlags<'_>) -> ReasonSet
    ensures { result ≡ reasons_where (λ flag. bit (flag_number flag) (bits_in flags.entry.bits)) }
{
    flags.reasons()
}

/// The reasons that are in both sets.
pub(crate) fn intersection(s: ReasonSet, t: ReasonSet) -> ReasonSet
    ensures { result ≡ both s t }
{
    s.intersection(t)
}

/// The reasons that are in one of the sets.
pub(crate) fn union(s: ReasonSet, t: ReasonSet) -> ReasonSet
    ensures { result ≡ either s t }
{
    s.union(t)
}

/// Whether a set is all-reasons.
#[tactic(auto, unfolding(crate::specs::Reasons::is_all))]
pub(crate) fn is_all(s: ReasonSet) -> bool
    ensures { result ≡ is_all_reasons s }
{
    s.key_compromise
        && s.ca_compromise
        && s.affiliation_changed
        && s.superseded
        && s.cessation_of_operation
        && s.certificate_hold
        && s.privilege_withdrawn
        && s.aa_compromise
}

/// Whether a set holds no reason that another one lacks.
#[tactic(auto, unfolding(crate::specs::Reasons::is_subset))]
pub(crate) fn is_within(s: ReasonSet, t: ReasonSet) -> bool
    ensures { result ≡ lies_within s t }
{
    (!s.key_compromise || t.key_compromise)
        && (!s.ca_compromise || t.ca_compromise)
        && (!s.affiliation_changed || t.affiliation_changed)
        && (!s.superseded || t.superseded)
        && (!s.cessation_of_operation || t.cessation_of_operation)
        && (!s.certificate_hold || t.certificate_hold)
        && (!s.privilege_withdrawn || t.privilege_withdrawn)
        && (!s.aa_compromise || t.aa_compromise)
}
