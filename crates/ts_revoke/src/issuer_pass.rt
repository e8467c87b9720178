//! Pass 2: the distribution point that is named by the certificate's issuer.

ghost use Rattle.std.specs.Prelude.{◌≡◌, map, option_map};
ghost use Rattle.ts_ext.specs.NameViews.{point_name_in, issuing_point_in};
ghost use Rattle.ts_cert.specs.CertView.{cert_in};
ghost use Rattle.ts_crl.specs.ListView.{crl_in};
ghost use Rattle.ts_revoke.specs.inside.ByList.{is_taken as is_taken_at, revoked_at, reasons_at};
ghost use Rattle.ts_revoke.specs.inside.ByList.{status_after};
ghost use Rattle.ts_revoke.specs.inside.Looked.{IsLooked, AreLooked};
ghost use Rattle.ts_revoke.specs.Usable.{name_shared, is_named, issuer_point};
ghost use Rattle.ts_revoke.specs.View.{question_in};

use crate::looked::{Looked, looked_at, revoking_as, serves_as};
use crate::names::holds_directory_name;
use crate::points::mask_without_reasons;
use crate::question::Question;
use crate::reasons::{is_all, is_within, union};
use crate::verdict::Status;
use ts_cert::Cert;
use ts_crl::Crl;
use ts_ext::{IssuingDistributionPoint, PointName, ReasonSet};
use ts_sig::SignatureCheck;

/// Whether a name, if a CRL has one, is the certificate's issuer among others.
fn is_shared(name: &Option<PointName<'_>>, cert: &Cert<'_>) -> bool
    ensures { result ≡ name_shared (option_map point_name_in name.now)
        (issuer_point (cert_in cert.now)).distributionPoint }
{
    match name {
        None => true,
        Some(PointName::FullName(names)) => holds_directory_name(cert.issuer(), names.element),
        Some(PointName::RelativeName(_)) => false,
    }
}

/// Whether a CRL of this scope is for the point that is named by the certificate's issuer.
fn is_for_issuer(cert: &Cert<'_>, scope: &Option<IssuingDistributionPoint<'_>>) -> bool
    ensures { result ≡ is_named (issuer_point (cert_in cert.now))
        (option_map issuing_point_in scope.now) }
{
    match scope {
        Some(scope) => is_shared(&scope.name, cert),
        None => true,
    }
}

/// Whether pass 2 uses a CRL, when these reasons are covered. The names come last, so that only a
/// signed CRL has its names compared.
#[tactic(auto, unfolding(crate::specs::inside::ByList::is_taken))]
fn is_taken<S: SignatureCheck>(
    looked: Looked,
    crl: &Crl<'_>,
    q: &Question<'_>,
    check: &S,
    covered: ReasonSet,
) -> bool
    requires known { IsLooked (question_in q.now (S.accepts check.now)) (crl_in crl.now) looked }
    ensures { result ≡ is_taken_at (question_in q.now (S.accepts check.now))
        (issuer_point (cert_in q.now.cert.now)) covered (crl_in crl.now) }
{
    let scope = crl.scope();
    !is_within(mask_without_reasons(&scope), covered)
        && serves_as(looked, crl, q, check)
        && is_for_issuer(q.cert, &scope)
}

/// What one CRL says in pass 2: the reason for which it revokes, and its mask.
#[tactic(auto, unfolding(crate::specs::inside::ByList::revoked_at, crate::specs::inside::ByList::reasons_at))]
fn said_by<S: SignatureCheck>(
    looked: Looked,
    crl: &Crl<'_>,
    q: &Question<'_>,
    check: &S,
    covered: ReasonSet,
) -> (Option<u8>, ReasonSet)
    requires known { IsLooked (question_in q.now (S.accepts check.now)) (crl_in crl.now) looked }
    ensures revoked { result.0 ≡ revoked_at (question_in q.now (S.accepts check.now))
        (issuer_point (cert_in q.now.cert.now)) covered (crl_in crl.now) }
    ensures reasons { result.1 ≡ reasons_at (question_in q.now (S.accepts check.now))
        (issuer_point (cert_in q.now.cert.now)) covered (crl_in crl.now) }
{
    if !is_taken(looked, crl, q, check, covered) {
        return (None, ReasonSet::none());
    }
    (
        revoking_as(looked, crl, q, check),
        mask_without_reasons(&crl.scope()),
    )
}

/// Pass 2, when these reasons are covered. What the table knows of a CRL is not asked again.
pub(crate) fn issuer_pass<S: SignatureCheck>(
    q: &Question<'_>,
    check: &S,
    covered: ReasonSet,
    table: &[Looked],
) -> Status
    requires looked { AreLooked (question_in q.now (S.accepts check.now)) q.now.crls.now.lists.now
        table.now }
    ensures { result ≡ status_after (question_in q.now (S.accepts check.now))
        (issuer_point (cert_in q.now.cert.now)) covered covered
        (map crl_in q.now.crls.now.lists.now) }
{
    let mut reasons = covered;
    for (place, crl) in q.crls.lists.iter().enumerate() {
        let looked = looked_at(table, place);
        let (revoked, more) = said_by(looked, crl, q, check, covered);
        if let Some(reason) = revoked {
            return Status::Revoked(reason);
        }
        reasons = union(reasons, more);
    }
    if is_all(reasons) {
        Status::Good
    } else {
        Status::Undetermined
    }
}
