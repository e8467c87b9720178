//! Certificates.

ghost use Rattle.std.specs.Prelude.{◌≡◌, ℕ, List, Ok, IfOk, IfErr, OnOk};
ghost use Rattle.ts_time.specs.Civil.{IsInYears};
ghost use Rattle.ts_cert.specs.Certificate.{Certificate};
ghost use Rattle.ts_cert.specs.Reading.{certificate_of};
ghost use Rattle.ts_make.specs.Description.{IsDescribed, IsSignedBy};
ghost use Rattle.ts_make.specs.Times.{IsTimeOf};
ghost use Rattle.ts_make.specs.inside.TimeView.{time_octets};
ghost use Rattle.ts_make.specs.Made.{made_certificate};
ghost use Rattle.ts_make.specs.Sayable.{IsSayable, IfWritten};
ghost use Rattle.ts_make.specs.inside.Writing.{Writes};
ghost use Rattle.ts_make.specs.Making.{AnswersMade, IsRefusal};

use crate::description::CertText;
use crate::elements::{append, append_bits, element};
use crate::fault::MakeFault;
use crate::tbs::write_tbs;
use crate::times::TimeText;
use std::alloc::Global;
use ts_cert::Cert;
use ts_der::tag::SEQUENCE;
use ts_octets::MAX_CERTIFICATE;
use ts_sig::{STAND_IN_ALGORITHM, digest_signature};

/// What is signed, the algorithm and the signature, as one element (RFC 5280 4.1.1).
#[tactic(auto, unfolding(crate::specs::Made::made_certificate))]
fn write_certificate(
    alloc: Global,
    text: &CertText<'_>,
    before: &TimeText,
    after: &TimeText,
) -> Result<Vec<u8>, MakeFault>
    ensures exact { Writes result (made_certificate (time_octets before.now) (time_octets after.now)
        text.now) }
    ensures sayable { OnOk result (IsSayable text.now) }
{
    let mut fields = write_tbs(alloc, text, before, after)?;
    let signature = digest_signature(text.signer, &fields);
    append(&mut fields, STAND_IN_ALGORITHM.as_slice())?;
    append_bits(alloc, &mut fields, signature.as_slice())?;
    element(alloc, SEQUENCE, &fields)
}

/// Writes a certificate, and refuses it where it can't be read.
fn write_readable(
    alloc: Global,
    text: &CertText<'_>,
    before: &TimeText,
    after: &TimeText,
) -> Result<Vec<u8>, MakeFault>
    ensures exact { AnswersMade result
        (made_certificate (time_octets before.now) (time_octets after.now) text.now) }
    ensures sayable { IfWritten result (IsSayable text.now) }
{
    let octets = write_certificate(alloc, text, before, after)?;
    if octets.len() > MAX_CERTIFICATE {
        return Err(MakeFault::TooLong);
    }
    match Cert::read(&octets) {
        Ok(_) => Ok(octets),
        Err(fault) => Err(MakeFault::Unreadable(fault)),
    }
}

/// The DER of the certificate that a description says, signed by the stand-in under the signer's
/// key.
///
/// # Errors
///
/// `TooLong` exactly where the octets would be more than 65,536; `Unreadable` exactly where reading
/// would not take them: a moment lies outside the years 0 to 9999, which no certificate can say, or
/// the extensions are not those that a certificate may have; `Memory` only where memory ran out.
pub fn make_cert(alloc: Global, text: &CertText<'_>) -> Result<Vec<u8>, MakeFault>
    // It is the one certificate that says the description, where a certificate may be so long.
    ensures made { (before after : List ℕ) × IsTimeOf before text.now.from
        × IsTimeOf after text.now.to
        × AnswersMade result (made_certificate before after text.now) }
    // Reading it gives the description.
    ensures described { IfOk result
        (λ v. (c : Certificate) × (certificate_of v.items ≡ Ok c) × IsDescribed text.now c) }
    // It is signed by the stand-in under the signer's key.
    ensures signed { IfOk result (λ v. (c : Certificate) × (certificate_of v.items ≡ Ok c)
        × IsSignedBy text.now.signer.now c) }
    // Moments outside of the years 0 to 9999 have no encoding.
    ensures years { OnOk result (IsInYears 0 9999 text.now.from × IsInYears 0 9999 text.now.to) }
    // A certificate that was written is refused for no other reason.
    ensures refused { IfErr result (IsRefusal text.now) }
{
    write_readable(
        alloc,
        text,
        &TimeText::of(text.from),
        &TimeText::of(text.to),
    )
}
