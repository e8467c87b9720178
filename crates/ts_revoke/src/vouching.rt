//! Whether a CRL is vouched for.

ghost use Rattle.std.specs.Prelude.{◌≡◌, map, option_map};
ghost use Rattle.std.specs.List.{list_any};
ghost use Rattle.ts_der.specs.Answer.{refusal};
ghost use Rattle.ts_cert.specs.CertView.{cert_in};
ghost use Rattle.ts_crl.specs.ListView.{crl_in};
ghost use Rattle.ts_revoke.specs.Vouched.{doubt_of, has_signed, is_begun, is_issuer, is_over};

use crate::doubt::Doubt;
use crate::list_issuer::{has_signed, is_issuer};
use ts_cert::Cert;
use ts_crl::Crl;
use ts_sig::SignatureCheck;
use ts_time::Moment;

/// Whether one of the certificates is of the CRL's issuer.
fn is_some_issuer(crl: &Crl<'_>, issuers: &[Cert<'_>]) -> bool
    ensures { result ≡ list_any (is_issuer (crl_in crl.now)) (map cert_in issuers.now) }
{
    for issuer in issuers {
        if is_issuer(crl, issuer) {
            return true;
        }
    }
    false
}

/// Whether one of the certificates is of the CRL's issuer and has the key that signed it.
fn is_signed<S: SignatureCheck>(crl: &Crl<'_>, issuers: &[Cert<'_>], check: &S) -> bool
    ensures { result ≡ list_any (has_signed (S.accepts check.now) (crl_in crl.now))
        (map cert_in issuers.now) }
{
    for issuer in issuers {
        if has_signed(crl, issuer, check) {
            return true;
        }
    }
    false
}

/// Whether the CRL is issued at or before the moment.
fn is_begun(crl: &Crl<'_>, moment: Moment) -> bool
    ensures { result ≡ is_begun moment (crl_in crl.now) }
{
    crl.this_update().moment <= moment
}

/// Whether the next CRL was to be issued before the moment.
fn is_over(crl: &Crl<'_>, moment: Moment) -> bool
    ensures { result ≡ is_over moment (crl_in crl.now) }
{
    match crl.next_update() {
        Some(next) => next.moment < moment,
        None => false,
    }
}

/// Vouches for a CRL at a moment: one of these certificates is of its issuer and has the key that
/// signed it, and the moment lies between thisUpdate and nextUpdate, or is one of them.
///
/// # Errors
///
/// The first doubt, exactly where there is one: `NoIssuer`, `Signature`, `NotYet`, `Expired`.
pub fn vouch<S: SignatureCheck>(
    crl: &Crl<'_>,
    issuers: &[Cert<'_>],
    moment: Moment,
    check: &S,
) -> Result<(), Doubt>
    ensures { refusal result ≡ doubt_of (S.accepts check.now) (map cert_in issuers.now) moment
        (crl_in crl.now) }
{
    if !is_some_issuer(crl, issuers) {
        return Err(Doubt::NoIssuer);
    }
    if !is_signed(crl, issuers, check) {
        return Err(Doubt::Signature);
    }
    if !is_begun(crl, moment) {
        return Err(Doubt::NotYet);
    }
    if is_over(crl, moment) {
        return Err(Doubt::Expired);
    }
    Ok(())
}
