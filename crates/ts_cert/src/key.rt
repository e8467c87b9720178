//! The subject's public key.

ghost use Rattle.ts_der.specs.Answer.{Answers};
ghost use Rattle.ts_der.specs.View.{now};
ghost use Rattle.ts_shape.specs.Steps.{Takes};
ghost use Rattle.ts_cert.specs.Reading.{key_of, key_at};
ghost use Rattle.ts_cert.specs.View.{key_in};

use ts_der::tag::SEQUENCE;
use ts_der::{Element, Fault, Reader};
use ts_field::{AlgorithmIdentifier, next_algorithm, next_bits};

/// The subject's public key and its algorithm, as they lie in the source (RFC 5280 4.1.2.7).
#[derive(Clone, Copy, Debug)]
pub struct SubjectPublicKeyInfo<'a> {
    /// The algorithm that the key is for, with its parameters.
    pub algorithm: AlgorithmIdentifier<'a>,
    /// The octets of the key, those of a BIT STRING without unused bits.
    pub subject_public_key: &'a [u8],
}

/// The key that a SEQUENCE is.
#[tactic(auto, unfolding(crate::specs::Reading::key_of))]
#[inline(always)]
fn read_key<'a>(element: Element<'a>) -> Result<SubjectPublicKeyInfo<'a>, Fault>
    ensures { Answers key_in result (key_of (now element.entry)) }
{
    let mut fields = element.reader();
    let algorithm = next_algorithm(&mut fields)?;
    let subject_public_key = next_bits(&mut fields)?;
    fields.end()?;
    Ok(SubjectPublicKeyInfo {
        algorithm,
        subject_public_key,
    })
}

/// The key that is next, which the reader has then passed.
#[tactic(auto, unfolding(crate::specs::Reading::key_at, ts_shape::specs::Fields::within))]
#[inline(always)]
pub(crate) fn next_key<'a>(fields: &mut Reader<'a>) -> Result<SubjectPublicKeyInfo<'a>, Fault>
    ensures { Takes key_in fields.new result (key_at fields.old) }
{
    read_key(fields.element(SEQUENCE)?)
}
