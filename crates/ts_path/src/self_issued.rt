//! Self-issued certificates.

ghost use Rattle.std.specs.Prelude.{◌≡◌};
ghost use Rattle.ts_cert.specs.CertView.{cert_in};
ghost use Rattle.ts_path.specs.Names.{is_self_issued as is_self_issued_of};

use ts_cert::Cert;

/// Whether issuer and subject of a certificate are one name (RFC 5280 6.1).
pub(crate) fn is_self_issued(cert: &Cert<'_>) -> bool
    ensures { result ≡ is_self_issued_of (cert_in cert.now) }
{
    cert.is_self_issued()
}
