//! The shape of a certificate: what is signed, the algorithm, the signature.

ghost use Rattle.std.specs.Prelude.{◌≡◌};
ghost use Rattle.ts_der.specs.Answer.{Answers, refusal};
ghost use Rattle.ts_der.specs.View.{now};
ghost use Rattle.ts_cert.specs.Reading.{signed_of, with_one_algorithm, whole_of, certificate_of};
ghost use Rattle.ts_cert.specs.CertView.{unagreed_in, parts_in};

use crate::algorithm::read_algorithm_beside;
use crate::parts::Parts;
use crate::rules::broken_rule;
use crate::tbs::read_tbs;
use ts_der::tag::SEQUENCE;
use ts_der::{DerFault, Element, Reader};
use ts_field::next_bits;
use ts_octets::MAX_CERTIFICATE;
use ts_shape::{CertFault, CertRule};

/// The parts that a SEQUENCE holds, of which the two algorithm identifiers have not been compared.
#[tactic(auto, unfolding(crate::specs::Reading::signed_of))]
fn read_signed<'a>(element: Element<'a>) -> Result<Parts<'a>, CertFault>
    ensures { Answers unagreed_in result (signed_of (now element.entry)) }
{
    let mut fields = element.reader();
    let tbs = fields.element(SEQUENCE)?;
    let signed = read_tbs(tbs)?;
    let identifier = fields.element(SEQUENCE)?;
    let signature_algorithm = read_algorithm_beside(identifier, signed.signature)?;
    let signature_value = next_bits(&mut fields)?;
    fields.end()?;
    Ok(Parts {
        tbs: tbs.whole,
        fields: signed,
        signature_algorithm,
        signature_value,
        identifier_at: identifier.at,
    })
}

/// Nothing, where a certificate's two algorithm identifiers are one (RFC 5280 4.1.1.2).
#[tactic(auto, unfolding(crate::specs::Reading::with_one_algorithm))]
fn agrees(parts: &Parts<'_>) -> Result<(), CertFault>
    ensures { refusal result ≡ refusal (with_one_algorithm (unagreed_in parts.now)) }
{
    if parts.fields.signature.whole != parts.signature_algorithm.whole {
        return Err(CertFault {
            kind: CertRule::AlgorithmMismatch,
            at: parts.identifier_at,
        });
    }
    Ok(())
}

/// The parts of the certificate that octets are, with nothing after it.
#[tactic(auto, unfolding(crate::specs::Reading::whole_of, crate::specs::Reading::with_one_algorithm))]
fn read_whole(octets: &[u8]) -> Result<Parts<'_>, CertFault>
    ensures { Answers parts_in result (whole_of octets.now) }
{
    let mut reader = Reader::new(octets);
    let element = reader.element(SEQUENCE)?;
    let parts = read_signed(element)?;
    reader.end()?;
    agrees(&parts)?;
    match broken_rule(parts.fields.version, &parts.fields.optional_fields) {
        Some(fault) => Err(fault),
        None => Ok(parts),
    }
}

/// The parts of the certificate that octets are, which are at most 65,536.
#[tactic(auto, unfolding(crate::specs::Reading::certificate_of))]
pub(crate) fn read_parts(octets: &[u8]) -> Result<Parts<'_>, CertFault>
    ensures { Answers parts_in result (certificate_of octets.now) }
{
    if octets.len() > MAX_CERTIFICATE {
        return Err(CertFault {
            kind: CertRule::Der(DerFault::TooLarge),
            at: 0,
        });
    }
    read_whole(octets)
}
