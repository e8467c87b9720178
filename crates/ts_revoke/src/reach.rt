//! At which of a certificate's distribution points a CRL is used.

ghost use Rattle.std.specs.Prelude.{◌≡◌, ◌+◌, ◌<◌, [], Some, None, unwrap_or, option_map};
ghost use Rattle.std.specs.Prelude.{if◌then◌else◌};
ghost use Rattle.ts_der.specs.Element.{inside};
ghost use Rattle.ts_der.specs.View.{now};
ghost use Rattle.ts_shape.specs.Items.{items_at};
ghost use Rattle.ts_ext.specs.NamedBits.{no_reasons};
ghost use Rattle.ts_ext.specs.NameViews.{point_in, points_in, issuing_point_in};
ghost use Rattle.ts_ext.specs.Points.{point_item};
ghost use Rattle.ts_revoke.specs.inside.ByList.{is_reached as is_reached_at, first_reached};
ghost use Rattle.ts_revoke.specs.inside.ByList.{reached_reasons};
ghost use Rattle.ts_revoke.specs.Decision.{or_reason};
ghost use Rattle.ts_revoke.specs.Usable.{mask_of};

use crate::points::{is_named, is_own, mask};
use crate::reasons::{is_within, union};
use ts_der::Element;
use ts_ext::{DistributionPoint, DistributionPoints, IssuingDistributionPoint, ReasonSet};
use ts_shape::SequenceItems;

/// The place of the first distribution point at which a CRL is used, and the union of its masks at
/// all of them.
#[derive(Clone, Copy, Debug, PartialEq, Eq)]
pub(crate) struct Reach {
    pub place: Option<usize>,
    pub reasons: ReasonSet,
}

/// Whether pass 1 uses a CRL of this scope at a distribution point. The names come last, since they
/// cost most.
#[tactic(auto, unfolding(crate::specs::inside::ByList::is_reached))]
fn is_reached(point: &DistributionPoint<'_>, scope: &Option<IssuingDistributionPoint<'_>>) -> bool
    ensures { result ≡ is_reached_at (option_map issuing_point_in scope.now) (point_in point.now) }
{
    is_own(point) && !is_within(mask(point, scope), ReasonSet::none()) && is_named(point, scope)
}

/// The mask at a distribution point, none where the CRL is not used there.
fn mask_if(
    point: &DistributionPoint<'_>,
    scope: &Option<IssuingDistributionPoint<'_>>,
    reached: bool,
) -> ReasonSet
    ensures { result ≡ (if reached
        then mask_of (point_in point.now) (option_map issuing_point_in scope.now) else no_reasons) }
{
    if reached {
        mask(point, scope)
    } else {
        ReasonSet::none()
    }
}

/// The first place, when one more was looked at.
fn first_place(place: Option<usize>, reached: bool, index: usize) -> Option<usize>
    ensures { result ≡ or_reason place (if reached then Some index else None) }
{
    match place {
        Some(place) => Some(place),
        None if reached => Some(index),
        None => None,
    }
}

/// The next place, of which there are no more than octets.
fn next(index: usize, octets: usize) -> usize
    ensures { index < octets → result ≡ index + 1 }
{
    if index < octets { index + 1 } else { index }
}

/// Where a CRL of this scope is used, of the distribution points within an element.
fn reach_within<'a>(points: Element<'a>, scope: &Option<IssuingDistributionPoint<'_>>) -> Reach
    ensures place { result.place ≡ first_reached (option_map issuing_point_in scope.now) 0
        (items_at point_item (inside (now points.entry))) }
    ensures reasons { result.reasons
        ≡ reached_reasons (option_map issuing_point_in scope.now)
        (items_at point_item (inside (now points.entry))) }
{
    let octets = points.content.len();
    let mut place = None;
    let mut reasons = ReasonSet::none();
    let mut index: usize = 0;
    for point in SequenceItems::<'a, DistributionPoint<'a>>::within(points) {
        let reached = is_reached(&point, scope);
        place = first_place(place, reached, index);
        reasons = union(reasons, mask_if(&point, scope, reached));
        index = next(index, octets);
    }
    Reach { place, reasons }
}

/// Where a CRL of this scope is used, of the distribution points that a certificate may have.
pub(crate) fn reached_among(
    points: &Option<DistributionPoints<'_>>,
    scope: &Option<IssuingDistributionPoint<'_>>,
) -> Reach
    ensures place { result.place ≡ first_reached (option_map issuing_point_in scope.now) 0
        (unwrap_or (option_map points_in points.now) []) }
    ensures reasons { result.reasons
        ≡ reached_reasons (option_map issuing_point_in scope.now)
        (unwrap_or (option_map points_in points.now) []) }
{
    match points {
        Some(points) => reach_within(points.list.element, scope),
        None => Reach {
            place: None,
            reasons: ReasonSet::none(),
        },
    }
}
