//! Which certificates issued which, by their names. It is asked once for each pair.

ghost use Rattle.std.specs.Prelude.{◌≡◌, ◌≤◌, ◌<◌, List, ℕ, length, map, filter, IfOk};
ghost use Rattle.std.specs.List.{range_with_len};
ghost use Rattle.ts_name.specs.Sameness.{is_same_name};
ghost use Rattle.ts_cert.specs.CertView.{cert_in};
ghost use Rattle.ts_search.specs.Candidates.{issues as issues_in};
ghost use Rattle.ts_search.specs.inside.Levels.{AreRows, issuers};

use std::alloc::{AllocError, Global};
use ts_cert::Cert;

/// Whether a certificate's subject is another's issuer.
fn issues(above: &Cert<'_>, cert: &Cert<'_>) -> bool
    ensures { result ≡ is_same_name (cert_in cert.now).tbsCertificate.issuer
        (cert_in above.now).tbsCertificate.subject }
{
    cert.issuer().same(above.subject())
}

/// The places of the certificates that issued the one at a place, ascending.
fn issuers_of(alloc: Global, certificates: &[Cert<'_>], place: usize) -> Result<Vec<u8>, AllocError>
    requires few { length certificates.now ≤ 33 }
    requires within { place < length certificates.now }
    ensures { IfOk result (λ row. row.items
        ≡ issuers (issues_in (map cert_in certificates.now)) (length certificates.now) place) }
{
    let cert = certificates[place];
    let mut row = Vec::new(alloc);
    for i in 0..certificates.len() {
        if issues(&certificates[i], &cert) {
            row.push(i as u8)?;
        }
    }
    Ok(row)
}

/// For each certificate the places of those that issued it, ascending.
pub(crate) fn all_issuers(
    alloc: Global,
    certificates: &[Cert<'_>],
) -> Result<Vec<Vec<u8>>, AllocError>
    requires { length certificates.now ≤ 33 }
    ensures { IfOk result (λ rows. AreRows (issues_in (map cert_in certificates.now))
        (length certificates.now) (map (λ row. row.items) rows.items)) }
{
    let mut rows = Vec::new(alloc);
    for place in 0..certificates.len() {
        rows.push(issuers_of(alloc, certificates, place)?)?;
    }
    Ok(rows)
}
