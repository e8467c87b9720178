//! Pass 1: the certificate's own distribution points.

ghost use Rattle.std.specs.Prelude.{◌≡◌, true, [], Some, None, map, unwrap_or, option_map};
ghost use Rattle.ts_ext.specs.NamedBits.{no_reasons};
ghost use Rattle.ts_ext.specs.NameViews.{points_in};
ghost use Rattle.ts_cert.specs.CertView.{cert_in};
ghost use Rattle.ts_crl.specs.ListView.{crl_in};
ghost use Rattle.ts_revoke.specs.inside.ByList.{offered as offered_by_points, at_place};
ghost use Rattle.ts_revoke.specs.inside.ByList.{earlier as earlier_of, found_by, reasons_by};
ghost use Rattle.ts_revoke.specs.inside.ByList.{found_after};
ghost use Rattle.ts_revoke.specs.inside.ByList.{reasons_after};
ghost use Rattle.ts_revoke.specs.inside.Looked.{IsLooked, AreLooked};
ghost use Rattle.ts_revoke.specs.Usable.{all_points, serves as serves_of};
ghost use Rattle.ts_revoke.specs.View.{question_in};

use crate::deltas::listed;
use crate::entries::revoking;
use crate::found::Found;
use crate::looked::{Looked, keep};
use crate::offered::{is_wanted, offered_among};
use crate::question::Question;
use crate::reach::reached_among;
use crate::reasons::union;
use crate::usable::serves;
use ts_crl::Crl;
use ts_ext::{DistributionPoints, ReasonSet};
use ts_sig::SignatureCheck;

/// What CRLs say in pass 1: the first revocation, and the union of the masks.
#[derive(Clone, Copy, Debug, PartialEq, Eq)]
pub(crate) struct Seen {
    pub found: Option<Found>,
    pub reasons: ReasonSet,
}

/// What one CRL says in pass 1, and what was learned of it on the way.
#[derive(Clone, Copy, Debug, PartialEq, Eq)]
struct Said {
    found: Option<Found>,
    reasons: ReasonSet,
    looked: Looked,
}

/// A CRL that says nothing.
fn nothing(looked: Looked) -> Said
    ensures found { result.found ≡ None }
    ensures reasons { result.reasons ≡ no_reasons }
    ensures looked { result.looked ≡ looked }
{
    Said {
        found: None,
        reasons: ReasonSet::none(),
        looked,
    }
}

/// The revocation at the lesser place, of two; of two at one place, the first.
#[tactic(auto, unfolding(crate::specs::inside::ByList::earlier))]
fn earlier(found: Option<Found>, next: Option<Found>) -> Option<Found>
    ensures { result ≡ earlier_of found next }
{
    match (found, next) {
        (None, next) => next,
        (Some(a), None) => Some(a),
        (Some(a), Some(b)) => { if b.place < a.place { Some(b) } else { Some(a) } }
    }
}

/// The revocation by a CRL that is used from a place on, if it revokes.
fn found_at(place: usize, reason: Option<u8>) -> Option<Found>
    ensures { result ≡ at_place (Some place) reason }
{
    match reason {
        Some(reason) => Some(Found { place, reason }),
        None => None,
    }
}

/// What a CRL that serves says in pass 1. Its entries are searched only where it is used at some
/// point.
#[tactic(auto, unfolding(crate::specs::inside::ByList::found_by, crate::specs::inside::ByList::reasons_by))]
fn said_where_served<S: SignatureCheck>(
    points: &Option<DistributionPoints<'_>>,
    crl: &Crl<'_>,
    q: &Question<'_>,
    check: &S,
) -> Said
    requires served { serves_of (question_in q.now (S.accepts check.now)) (crl_in crl.now) ≡ true }
    ensures found { result.found ≡ found_by (question_in q.now (S.accepts check.now))
        (unwrap_or (option_map points_in points.now) []) (crl_in crl.now) }
    ensures reasons { result.reasons
        ≡ reasons_by (question_in q.now (S.accepts check.now))
        (unwrap_or (option_map points_in points.now) []) (crl_in crl.now) }
    ensures looked { IsLooked (question_in q.now (S.accepts check.now))
        (crl_in crl.now) result.looked }
{
    let reach = reached_among(points, &crl.scope());
    let Some(place) = reach.place else {
        return Said {
            found: None,
            reasons: reach.reasons,
            looked: Looked::Serves,
        };
    };
    let reason = revoking(listed(crl, q, check));
    Said {
        found: found_at(place, reason),
        reasons: reach.reasons,
        looked: Looked::Searched(reason),
    }
}

/// What one CRL says in pass 1, where these are the reasons that its points offer. Its signature is
/// checked only where it is for one of them; names are compared after that.
#[tactic(auto, using(crate::proofs::Offering::finds_none, crate::proofs::Offering::covers_none, crate::proofs::Offering::refused_finds_none, crate::proofs::Offering::refused_covers_none))]
fn said_by<S: SignatureCheck>(
    points: &Option<DistributionPoints<'_>>,
    offered: ReasonSet,
    crl: &Crl<'_>,
    q: &Question<'_>,
    check: &S,
) -> Said
    requires offered { offered ≡ offered_by_points
        (unwrap_or (option_map points_in points.now) []) }
    ensures found { result.found ≡ found_by (question_in q.now (S.accepts check.now))
        (unwrap_or (option_map points_in points.now) []) (crl_in crl.now) }
    ensures reasons { result.reasons
        ≡ reasons_by (question_in q.now (S.accepts check.now))
        (unwrap_or (option_map points_in points.now) []) (crl_in crl.now) }
    ensures looked { IsLooked (question_in q.now (S.accepts check.now))
        (crl_in crl.now) result.looked }
{
    if !is_wanted(crl, offered) {
        return nothing(Looked::NotYet);
    }
    if !serves(crl, q, check) {
        return nothing(Looked::Refused);
    }
    said_where_served(points, crl, q, check)
}

/// What all CRLs say in pass 1, with these points. What is learned of them goes into a table.
fn seen_among<S: SignatureCheck>(
    points: &Option<DistributionPoints<'_>>,
    q: &Question<'_>,
    check: &S,
    table: &mut [Looked],
) -> Seen
    requires looked { AreLooked (question_in q.now (S.accepts check.now)) q.now.crls.now.lists.now
        table.old }
    ensures found { result.found ≡ found_after (question_in q.now (S.accepts check.now))
        (unwrap_or (option_map points_in points.now) []) None
        (map crl_in q.now.crls.now.lists.now) }
    ensures reasons { result.reasons
        ≡ reasons_after (question_in q.now (S.accepts check.now))
        (unwrap_or (option_map points_in points.now) []) no_reasons
        (map crl_in q.now.crls.now.lists.now) }
    ensures looked { AreLooked (question_in q.now (S.accepts check.now)) q.now.crls.now.lists.now
        table.new }
{
    let offered = offered_among(points);
    let mut found = None;
    let mut reasons = ReasonSet::none();
    for (place, crl) in q.crls.lists.iter().enumerate() {
        let said = said_by(points, offered, crl, q, check);
        found = earlier(found, said.found);
        reasons = union(reasons, said.reasons);
        keep(table, place, said.looked);
    }
    Seen { found, reasons }
}

/// Pass 1. What is learned of the CRLs goes into a table.
pub(crate) fn own_pass<S: SignatureCheck>(q: &Question<'_>, check: &S, table: &mut [Looked]) -> Seen
    requires looked { AreLooked (question_in q.now (S.accepts check.now)) q.now.crls.now.lists.now
        table.old }
    ensures found { result.found ≡ found_after (question_in q.now (S.accepts check.now))
        (all_points (cert_in q.now.cert.now)) None (map crl_in q.now.crls.now.lists.now) }
    ensures reasons { result.reasons
        ≡ reasons_after (question_in q.now (S.accepts check.now))
        (all_points (cert_in q.now.cert.now)) no_reasons (map crl_in q.now.crls.now.lists.now) }
    ensures looked { AreLooked (question_in q.now (S.accepts check.now)) q.now.crls.now.lists.now
        table.new }
{
    seen_among(&q.cert.crl_distribution_points(), q, check, table)
}
