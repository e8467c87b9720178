//! What is wrong with a certificate, in plain words.

ghost use Rattle.std.specs.Prelude.{◌≡◌, ◌++◌, ℤ, List, ℕ, OnOk, Some, codes};
ghost use Rattle.ts_cert.specs.CertView.{cert_in};
ghost use Rattle.ts_line.specs.Lines.{printable};
ghost use Rattle.ts_line.specs.Names.{name_text, oid_text};
ghost use Rattle.ts_sig.specs.Algorithm.{algorithm_named};
ghost use Rattle.ts_time.specs.Text.{IsGeneral};
ghost use Rattle.ts_explain.specs.Why.{IsOfMoment, IsShownMoment, IsWhy, apart};
ghost use Rattle.ts_explain.specs.Why.{extension_words, issuer_words};
ghost use Rattle.ts_explain.specs.Why.{plain_words, revocation_words, signature_words};

use std::alloc::{AllocError, Global};
use ts_cert::Cert;
use ts_der::OidRef;
use ts_line::{Line, write_name, write_oid};
use ts_reason::Reason;
use ts_sig::algorithm_named;
use ts_time::{Moment, print_general};

/// A moment as `2026-01-31 12:00:00 UTC`, if it lies in the years 0 to 9999.
fn moment_text(moment: Moment) -> Option<[u8; 23]>
    ensures { (general : List ℕ) → IsGeneral general moment → result ≡ Some (apart general) }
{
    let [y1, y2, y3, y4, m1, m2, d1, d2, h1, h2, n1, n2, s1, s2, _] = print_general(moment)?;
    Some([
        y1, y2, y3, y4, b'-', m1, m2, b'-', d1, d2, b' ', h1, h2, b':', n1, n2, b':', s1, s2, b' ',
        b'U', b'T', b'C',
    ])
}

/// Writes a moment in this way; any other as its seconds.
fn write_moment(alloc: Global, line: &mut Line, moment: Moment) -> Result<(), AllocError>
    ensures { OnOk result ((shown : List ℕ) × IsShownMoment moment shown
        × (line.new ≡ line.old ++ shown)) }
{
    let Some(text) = moment_text(moment) else {
        let seconds = moment.0;
        return line.text(format!(in alloc; "second {seconds}")?.as_bytes());
    };
    line.text(&text)
}

/// The words for the reason of a revocation (RFC 5280 5.3.1).
fn revocation_words(code: u8) -> &'static str
    ensures { result.now ≡ revocation_words code }
{
    match code {
        1 => "the key was compromised",
        2 => "the key of its CA was compromised",
        3 => "what it says has changed",
        4 => "another has replaced it",
        5 => "it is no longer needed",
        6 => "it is on hold",
        9 => "a privilege was withdrawn",
        10 => "the authority of its attributes was compromised",
        _ => "no reason is given",
    }
}

/// Writes the words for a certificate that is revoked.
fn write_revoked(line: &mut Line, code: u8) -> Result<(), AllocError>
    ensures { OnOk result (line.new ≡ line.old ++ (codes "is revoked: "
        ++ printable (revocation_words code))) }
{
    line.text(b"is revoked: ")?;
    line.text(revocation_words(code).as_bytes())
}

/// Writes the words for a moment before or after the validity of a certificate.
fn write_validity(
    alloc: Global,
    line: &mut Line,
    words: &str,
    moment: Moment,
) -> Result<(), AllocError>
    ensures { OnOk result ((text : List ℕ) × IsOfMoment (printable words.now) moment text
        × (line.new ≡ line.old ++ text)) }
{
    line.text(words.as_bytes())?;
    write_moment(alloc, line, moment)
}

/// Writes the words for an extension that is not processed.
fn write_extension(alloc: Global, line: &mut Line, content: &[u8]) -> Result<(), AllocError>
    ensures { OnOk result (line.new ≡ line.old ++ extension_words content.now) }
{
    line.text(b"has the critical extension ")?;
    write_oid(alloc, line, content)?;
    line.text(b", which is not processed")
}

/// The words for a signature that is not good, before the name of the issuer.
const SIGNATURE: &[u8] =
    b"is not signed by the key above it, or that key is of a kind not checked here; its issuer is ";

/// Writes the words for a certificate that the key above it did not sign, or whose signature is by
/// an algorithm that is not checked here.
fn write_signature(alloc: Global, line: &mut Line, cert: &Cert<'_>) -> Result<(), AllocError>
    ensures { OnOk result (line.new ≡ line.old ++ signature_words
        (algorithm_named (cert_in cert.now).signatureAlgorithm.whole) (cert_in cert.now)) }
{
    match algorithm_named(cert.signature_algorithm().whole) {
        Some(_) => {
            line.text(SIGNATURE)?;
            write_name(alloc, line, cert.issuer())
        }
        None => line.text(b"is signed by an algorithm that is not checked here"),
    }
}

/// Writes the words for a certificate whose issuer is not the subject above it.
fn write_issuer(alloc: Global, line: &mut Line, cert: &Cert<'_>) -> Result<(), AllocError>
    ensures { OnOk result (line.new ≡ line.old ++ issuer_words (cert_in cert.now)) }
{
    line.text(b"has the issuer ")?;
    write_name(alloc, line, cert.issuer())?;
    line.text(b", which is not the subject above it")
}

/// The words for a reason that says nothing else.
fn plain_words(reason: &Reason<OidRef<'_>>) -> &'static str
    ensures { result.now ≡ plain_words reason.now }
{
    match reason {
        Reason::AnchorPurpose => "is under a trust anchor that is not trusted for this purpose",
        Reason::Undetermined => {
            "may be revoked: the CRL that would tell is missing, or not of this moment"
        }
        Reason::UnsupportedConstraint => "has a name whose form is constrained and not processed",
        Reason::NotPermitted => "has a name that lies in no permitted subtree",
        Reason::Excluded => "has a name that lies in an excluded subtree",
        Reason::PolicyRequired => "has no valid policy, and one is required",
        Reason::MapsAny => "maps anyPolicy to a policy or back",
        Reason::NotCa => "issued another one and is not of a CA",
        Reason::PathLength => "is followed by more certificates than a path length allows",
        Reason::KeyUsage => "issued another one and its key is not for that",
        Reason::FinalPolicy => "has none of the policies that are asked for",
        Reason::Purpose => "is not for the purpose that is asked for",
        _ => "",
    }
}

/// Writes why a certificate is not good.
pub(crate) fn write_why(
    alloc: Global,
    line: &mut Line,
    cert: &Cert<'_>,
    reason: &Reason<OidRef<'_>>,
) -> Result<(), AllocError>
    ensures { OnOk result ((words : List ℕ) × IsWhy (cert_in cert.now) reason.now words
        × (line.new ≡ line.old ++ words)) }
{
    let validity = cert.validity();
    match reason {
        Reason::Signature => write_signature(alloc, line, cert),
        Reason::TooEarly => {
            write_validity(
                alloc,
                line,
                "is not valid before ",
                validity.not_before.moment,
            )
        }
        Reason::Expired => {
            write_validity(alloc, line, "expired after ", validity.not_after.moment)
        }
        Reason::Revoked(code) => write_revoked(line, *code),
        Reason::IssuerName => write_issuer(alloc, line, cert),
        Reason::CriticalExtension(oid) => write_extension(alloc, line, oid.content),
        other => line.text(plain_words(other).as_bytes()),
    }
}
