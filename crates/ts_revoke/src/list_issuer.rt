//! Who may have signed a CRL.

ghost use Rattle.std.specs.Prelude.{◌≡◌};
ghost use Rattle.ts_cert.specs.CertView.{cert_in};
ghost use Rattle.ts_crl.specs.ListView.{crl_in};
ghost use Rattle.ts_revoke.specs.Vouched.{has_signed, is_issuer};

use crate::key::own_key;
use crate::names::is_same;
use crate::usable::may_sign;
use ts_cert::Cert;
use ts_crl::Crl;
use ts_sig::SignatureCheck;

/// Whether a certificate is one of the CRL's issuer.
#[tactic(auto, unfolding(crate::specs::Vouched::is_issuer))]
pub(crate) fn is_issuer(crl: &Crl<'_>, cert: &Cert<'_>) -> bool
    ensures { result ≡ is_issuer (crl_in crl.now) (cert_in cert.now) }
{
    is_same(crl.issuer(), cert.subject()) && may_sign(cert.key_usage())
}

/// Whether a certificate is one of the CRL's issuer, and its key signed the CRL.
#[tactic(auto, unfolding(crate::specs::Vouched::has_signed))]
pub(crate) fn has_signed<S: SignatureCheck>(crl: &Crl<'_>, cert: &Cert<'_>, check: &S) -> bool
    ensures { result ≡ has_signed (S.accepts check.now) (crl_in crl.now) (cert_in cert.now) }
{
    if !is_issuer(crl, cert) {
        return false;
    }
    let key = own_key(&cert.subject_public_key_info());
    check.good(
        crl.signature_algorithm().whole,
        &key,
        &crl.signed(),
        crl.signature(),
    )
}
