//! What is asked of a CRL, at whatever distribution point.

ghost use Rattle.std.specs.Prelude.{◌≡◌, option_map};
ghost use Rattle.ts_der.specs.BitsView.{bits_in};
ghost use Rattle.ts_ext.specs.NameViews.{issuing_point_in};
ghost use Rattle.ts_cert.specs.CertView.{cert_in};
ghost use Rattle.ts_crl.specs.ListView.{crl_in};
ghost use Rattle.ts_revoke.specs.Usable.{is_current as is_current_list};
ghost use Rattle.ts_revoke.specs.Usable.{is_signed as is_signed_list};
ghost use Rattle.ts_revoke.specs.Usable.{may_sign_crl as usage_may_sign};
ghost use Rattle.ts_revoke.specs.Usable.{has_ca_flag as is_ca_of, covers as scope_covers};
ghost use Rattle.ts_revoke.specs.Usable.{serves as serves_of};
ghost use Rattle.ts_revoke.specs.View.{question_in};

use crate::names::is_same;
use crate::question::Question;
use ts_cert::Cert;
use ts_crl::Crl;
use ts_ext::{IssuingDistributionPoint, KeyUsage};
use ts_sig::SignatureCheck;
use ts_time::Moment;

/// Whether the moment lies between thisUpdate and nextUpdate, or is one of them.
pub(crate) fn is_current(crl: &Crl<'_>, moment: Moment) -> bool
    ensures { result ≡ is_current_list moment (crl_in crl.now) }
{
    let Some(next) = crl.next_update() else {
        return false;
    };
    crl.this_update().moment <= moment && moment <= next.moment
}

/// Whether the key that signed the certificate signed the CRL.
pub(crate) fn is_signed<S: SignatureCheck>(crl: &Crl<'_>, q: &Question<'_>, check: &S) -> bool
    ensures { result ≡ is_signed_list (question_in q.now (S.accepts check.now)) (crl_in crl.now) }
{
    check.good(
        crl.signature_algorithm().whole,
        &q.issuer.key,
        &crl.signed(),
        crl.signature(),
    )
}

/// Whether the issuer may sign CRLs, as far as its certificate says.
pub(crate) fn may_sign(usage: Option<KeyUsage<'_>>) -> bool
    ensures { result ≡ usage_may_sign (option_map (λ u. bits_in u.bits) usage.entry) }
{
    match usage {
        Some(usage) => usage.crl_sign(),
        None => true,
    }
}

/// Whether the certificate is that of a CA.
fn is_ca(cert: &Cert<'_>) -> bool
    ensures { result ≡ is_ca_of (cert_in cert.now) }
{
    match cert.basic_constraints() {
        Some(constraints) => constraints.ca,
        None => false,
    }
}

/// Whether a CRL of this scope is for certificates of CAs, or for those of others.
fn covers(ca: bool, scope: &Option<IssuingDistributionPoint<'_>>) -> bool
    ensures { result ≡ scope_covers ca (option_map issuing_point_in scope.now) }
{
    match scope {
        Some(scope) => {
            !scope.only_attribute_certs
                && (!scope.only_user_certs || !ca)
                && (!scope.only_ca_certs || ca)
        }
        None => true,
    }
}

/// Whether the CRL may be used for the certificate, at whatever distribution point; a delta CRL may
/// not, by itself. The signature comes last, since it costs most.
#[tactic(auto, unfolding(crate::specs::Usable::serves))]
pub(crate) fn serves<S: SignatureCheck>(crl: &Crl<'_>, q: &Question<'_>, check: &S) -> bool
    ensures { result ≡ serves_of (question_in q.now (S.accepts check.now)) (crl_in crl.now) }
{
    !crl.is_delta()
        && is_same(crl.issuer(), q.cert.issuer())
        && is_current(crl, q.moment)
        && may_sign(q.issuer.key_usage)
        && covers(is_ca(q.cert), &crl.scope())
        && is_signed(crl, q, check)
}
