//! The certificates of a question, and which of them is not good.

ghost use Rattle.std.specs.Prelude.{◌≡◌, IfOk, map};
ghost use Rattle.ts_render.specs.Chain.{AreShown, IsShown, certificates_in, failing_in};

use crate::text::moment_text;
use std::alloc::{AllocError, Global};
use ts_cert::Cert;
use ts_line::name_text;
use ts_question::{Question, Reply, Target};

/// A certificate of a question.
#[derive(Debug, Drop)]
pub struct CertificateFields {
    /// Its subject, in printable characters; nothing where it can't be read.
    pub subject: String,
    /// Its notBefore, as 20260131120000Z.
    pub not_before: Option<String>,
    /// Its notAfter.
    pub not_after: Option<String>,
    /// Whether it is the one that is not good.
    pub fails: bool,
}

/// The certificates of a question, as octets.
pub(crate) fn certificates_in(question: &Question) -> &[Vec<u8>]
    ensures { map (λ c. c.items) result.now ≡ certificates_in question.now }
{
    match question.target() {
        Target::Chain { certificates, .. } => certificates.as_slice(),
        Target::Search { certificates } => certificates.as_slice(),
        Target::Store { .. } | Target::Log { .. } => &[],
    }
}

/// The place of the certificate that a reply names as not good, counted from 1.
fn failing_in(reply: &Reply) -> Option<usize>
    ensures { result ≡ failing_in reply.now }
{
    match reply {
        Reply::Invalid { position, .. } => Some(usize::from(*position)),
        Reply::Malformed { index, .. } => Some(usize::from(*index)),
        _ => None,
    }
}

/// What is shown of a certificate.
fn certificate_fields(
    alloc: Global,
    octets: &[u8],
    fails: bool,
) -> Result<CertificateFields, AllocError>
    ensures { IfOk result (λ fields. IsShown octets.now fields × (fields.fails ≡ fails)) }
{
    let Ok(certificate) = Cert::read(octets) else {
        return Ok(CertificateFields {
            subject: String::new(alloc),
            not_before: None,
            not_after: None,
            fails,
        });
    };
    let validity = certificate.validity();
    Ok(CertificateFields {
        subject: name_text(alloc, certificate.subject())?,
        not_before: moment_text(alloc, validity.not_before.moment.0)?,
        not_after: moment_text(alloc, validity.not_after.moment.0)?,
        fails,
    })
}

/// What is shown of the certificates of a question, in its order. The one is marked that a reply
/// names as not good.
///
/// # Errors
///
/// Out of memory.
pub fn chain_fields(
    alloc: Global,
    question: &Question,
    reply: &Reply,
) -> Result<Vec<CertificateFields>, AllocError>
    ensures { IfOk result (λ fields. AreShown fields.items 1 (certificates_in question.now)
        (failing_in reply.now)) }
{
    let failing = failing_in(reply);
    let mut all = Vec::new(alloc);
    for (place, octets) in certificates_in(question).iter().enumerate() {
        let fails = failing == Some(place + 1);
        all.push(certificate_fields(alloc, octets, fails)?)?;
    }
    Ok(all)
}
