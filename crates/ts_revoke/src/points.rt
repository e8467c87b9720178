//! Distribution points, and the CRLs that are for them.

ghost use Rattle.std.specs.Prelude.{◌≡◌, option_map};
ghost use Rattle.ts_der.specs.BitsView.{bits_in};
ghost use Rattle.ts_ext.specs.NameViews.{point_name_in, point_in, issuing_point_in};
ghost use Rattle.ts_revoke.specs.inside.ByList.{offered_by, is_for_some as is_for_some_of};
ghost use Rattle.ts_revoke.specs.Reasons.{all_reasons, intersection as both};
ghost use Rattle.ts_revoke.specs.Usable.{reasons_in, scope_reasons as reasons_of_scope, mask_of};
ghost use Rattle.ts_revoke.specs.Usable.{name_shared, is_named as is_named_at};
ghost use Rattle.ts_revoke.specs.Usable.{is_own as is_own_point};

use crate::names::share;
use crate::reasons::{all, intersection, is_within, reasons_of};
use ts_ext::{DistributionPoint, IssuingDistributionPoint, PointName, ReasonFlags, ReasonSet};

/// The reasons of a ReasonFlags, and all of them where it is absent.
fn reasons(flags: Option<ReasonFlags<'_>>) -> ReasonSet
    ensures { result ≡ reasons_in (option_map (λ r. bits_in r.bits) flags.entry) }
{
    match flags {
        Some(flags) => reasons_of(flags),
        None => all(),
    }
}

/// The reasons that a CRL is for.
fn scope_reasons(scope: &Option<IssuingDistributionPoint<'_>>) -> ReasonSet
    ensures { result ≡ reasons_of_scope (option_map issuing_point_in scope.now) }
{
    match scope {
        Some(scope) => reasons(scope.only_some_reasons),
        None => all(),
    }
}

/// The mask of a distribution point and a CRL.
pub(crate) fn mask(
    point: &DistributionPoint<'_>,
    scope: &Option<IssuingDistributionPoint<'_>>,
) -> ReasonSet
    ensures { result ≡ mask_of (point_in point.now) (option_map issuing_point_in scope.now) }
{
    intersection(scope_reasons(scope), reasons(point.reasons))
}

/// The mask of a distribution point without reasons and a CRL.
pub(crate) fn mask_without_reasons(scope: &Option<IssuingDistributionPoint<'_>>) -> ReasonSet
    ensures { result ≡ both (reasons_of_scope (option_map issuing_point_in scope.now)) all_reasons }
{
    intersection(scope_reasons(scope), all())
}

/// Whether a name, if a CRL has one, is shared with that of a distribution point.
fn is_shared(name: &Option<PointName<'_>>, point: &Option<PointName<'_>>) -> bool
    ensures { result ≡ name_shared (option_map point_name_in name.now)
        (option_map point_name_in point.now) }
{
    match (name, point) {
        (None, _) => true,
        (Some(PointName::FullName(names)), Some(PointName::FullName(others))) => {
            share(names.element, others.element)
        }
        _ => false,
    }
}

/// Whether a CRL is for a distribution point, by their names.
pub(crate) fn is_named(
    point: &DistributionPoint<'_>,
    scope: &Option<IssuingDistributionPoint<'_>>,
) -> bool
    ensures { result ≡ is_named_at (point_in point.now) (option_map issuing_point_in scope.now) }
{
    match scope {
        Some(scope) => is_shared(&scope.name, &point.name),
        None => true,
    }
}

/// Whether a distribution point has neither cRLIssuer nor a relative name.
pub(crate) fn is_own(point: &DistributionPoint<'_>) -> bool
    ensures { result ≡ is_own_point (point_in point.now) }
{
    point.crl_issuer.is_none() && !matches!(point.name, Some(PointName::RelativeName(_)))
}

/// The reasons of a distribution point that pass 1 may take, none of any other.
pub(crate) fn own_reasons(point: &DistributionPoint<'_>) -> ReasonSet
    ensures { result ≡ offered_by (point_in point.now) }
{
    if is_own(point) {
        reasons(point.reasons)
    } else {
        ReasonSet::none()
    }
}

/// Whether a CRL of this scope is for one of these reasons.
pub(crate) fn is_for_some(scope: &Option<IssuingDistributionPoint<'_>>, some: ReasonSet) -> bool
    ensures { result ≡ is_for_some_of (option_map issuing_point_in scope.now) some }
{
    !is_within(intersection(scope_reasons(scope), some), ReasonSet::none())
}
