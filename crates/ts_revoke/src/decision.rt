//! The status of a certificate.

ghost use Rattle.std.specs.Prelude.{◌≡◌};
ghost use Rattle.ts_revoke.specs.inside.ByList.{by_list};
ghost use Rattle.ts_revoke.specs.Status.{status_of};
ghost use Rattle.ts_revoke.specs.View.{question_of, question_in};

use crate::crls::Crls;
use crate::issuer::Issuer;
use crate::issuer_pass::issuer_pass;
use crate::looked::{KEPT, Looked};
use crate::own_pass::own_pass;
use crate::question::Question;
use crate::reasons::is_all;
use crate::verdict::Status;
use ts_cert::Cert;
use ts_sig::SignatureCheck;
use ts_time::Moment;

/// Pass 1, then pass 2, each CRL by CRL. Pass 2 asks nothing of a CRL that pass 1 found out.
fn by_lists<S: SignatureCheck>(q: &Question<'_>, check: &S) -> Status
    ensures { result ≡ by_list (question_in q.now (S.accepts check.now)) }
{
    let mut table = [Looked::NotYet; KEPT];
    let own = own_pass(q, check, &mut table);
    match own.found {
        Some(found) => Status::Revoked(found.reason),
        None if is_all(own.reasons) => Status::Good,
        None => issuer_pass(q, check, own.reasons, &table),
    }
}

/// The status of a certificate at a moment, by CRLs (RFC 5280 6.3.3). It allocates nothing but what
/// the signature check does.
///
/// `Revoked` where a usable pair of a pass lists the serial number, 8 (removeFromCRL) aside; else
/// `Good` where the masks of the usable pairs so far cover all reasons; else what pass 2 says, and
/// after that `Undetermined`. However many distribution points the certificate has, a CRL's
/// signature is checked once at most, after its issuer, its dates and its scope, and only where
/// some point that a pass takes is for a reason of its scope; names are compared after that. Its
/// entries are searched once at most, where some pair of it is used. Of CRLs after the first 1,024
/// both may be done once in each pass.
pub fn status<S: SignatureCheck>(
    crls: &Crls<'_>,
    cert: &Cert<'_>,
    issuer: &Issuer<'_>,
    moment: Moment,
    check: &S,
    use_deltas: bool,
) -> Status
    ensures { result ≡ status_of (question_of crls.now cert.now issuer.now moment
        (S.accepts check.now) use_deltas) }
{
    let question = Question {
        crls,
        cert,
        issuer,
        moment,
        use_deltas,
    };
    by_lists(&question, check)
}
