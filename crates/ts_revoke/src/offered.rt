//! The reasons of the distribution points that pass 1 may take.

ghost use Rattle.std.specs.Prelude.{◌≡◌, [], unwrap_or, option_map};
ghost use Rattle.ts_der.specs.Element.{inside};
ghost use Rattle.ts_der.specs.View.{now};
ghost use Rattle.ts_shape.specs.Items.{items_at};
ghost use Rattle.ts_ext.specs.NameViews.{points_in};
ghost use Rattle.ts_ext.specs.Points.{point_item};
ghost use Rattle.ts_crl.specs.ListView.{crl_in};
ghost use Rattle.ts_crl.specs.Profile.{scope_of};
ghost use Rattle.ts_revoke.specs.inside.ByList.{offered, is_for_some as is_for_some_of};

use crate::points::{is_for_some, own_reasons};
use crate::reasons::{is_within, union};
use ts_crl::Crl;
use ts_der::Element;
use ts_ext::{DistributionPoint, DistributionPoints, ReasonSet};
use ts_shape::SequenceItems;

/// The reasons of the distribution points within an element.
fn offered_within<'a>(points: Element<'a>) -> ReasonSet
    ensures { result ≡ offered (items_at point_item (inside (now points.entry))) }
{
    let mut reasons = ReasonSet::none();
    for point in SequenceItems::<'a, DistributionPoint<'a>>::within(points) {
        reasons = union(reasons, own_reasons(&point));
    }
    reasons
}

/// The reasons of the distribution points that a certificate may have.
pub(crate) fn offered_among(points: &Option<DistributionPoints<'_>>) -> ReasonSet
    ensures { result ≡ offered (unwrap_or (option_map points_in points.now) []) }
{
    match points {
        Some(points) => offered_within(points.list.element),
        None => ReasonSet::none(),
    }
}

/// Whether a CRL is for one of these reasons. Where there is none its scope is not read.
#[tactic(auto, using(crate::proofs::Offering::none_for_some))]
pub(crate) fn is_wanted(crl: &Crl<'_>, offered: ReasonSet) -> bool
    ensures { result ≡ is_for_some_of (scope_of (crl_in crl.now)) offered }
{
    if is_within(offered, ReasonSet::none()) {
        return false;
    }
    is_for_some(&crl.scope(), offered)
}
