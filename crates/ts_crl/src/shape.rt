//! The shape of a CRL: what is signed, the algorithm, the signature.

ghost use Rattle.ts_der.specs.Answer.{Answers};
ghost use Rattle.ts_der.specs.View.{now};
ghost use Rattle.ts_crl.specs.ListView.{located_list_in};
ghost use Rattle.ts_crl.specs.Reading.{crl_signed_of, crl_whole_of, shape_of};

use crate::crl::Crl;
use crate::tbs::read_tbs;
use ts_der::tag::SEQUENCE;
use ts_der::{DerFault, Element, Reader};
use ts_digest::Message;
use ts_field::{next_bits, read_algorithm};
use ts_octets::MAX_CRL;
use ts_shape::{CertFault, CertRule};

/// The parts that a SEQUENCE holds.
#[tactic(auto, unfolding(crate::specs::Reading::crl_signed_of))]
fn read_signed<'a>(element: Element<'a>) -> Result<Crl<'a>, CertFault>
    ensures { Answers located_list_in result (crl_signed_of (now element.entry)) }
{
    let mut fields = element.reader();
    let tbs = fields.element(SEQUENCE)?;
    let signed = read_tbs(tbs)?;
    let identifier = fields.element(SEQUENCE)?;
    let signature_algorithm = read_algorithm(identifier)?;
    let signature_value = next_bits(&mut fields)?;
    fields.end()?;
    Ok(Crl {
        tbs: Message::of(tbs.whole),
        version: signed.version,
        signature: signed.signature,
        issuer: signed.issuer,
        this_update: signed.this_update,
        next_update: signed.next_update,
        revoked: signed.revoked,
        extensions: signed.extensions,
        signature_algorithm,
        signature_value,
        identifier_at: identifier.at,
    })
}

/// The CRL that octets are, with nothing after it.
#[tactic(auto, unfolding(crate::specs::Reading::crl_whole_of))]
fn read_whole(octets: &[u8]) -> Result<Crl<'_>, CertFault>
    ensures { Answers located_list_in result (crl_whole_of octets.now) }
{
    let mut reader = Reader::new(octets);
    let crl = read_signed(reader.element(SEQUENCE)?)?;
    reader.end()?;
    Ok(crl)
}

/// The CRL that octets are, of at most `MAX_CRL` octets and with nothing after it.
#[tactic(auto, unfolding(crate::specs::Reading::shape_of))]
pub(crate) fn read_shape(octets: &[u8]) -> Result<Crl<'_>, CertFault>
    ensures { Answers located_list_in result (shape_of octets.now) }
{
    if octets.len() > MAX_CRL {
        return Err(CertFault {
            kind: CertRule::Der(DerFault::TooLarge),
            at: 0,
        });
    }
    read_whole(octets)
}
