//! Algorithm identifiers.

ghost use Rattle.std.specs.Option.{option_copied};
ghost use Rattle.ts_der.specs.Answer.{Answers};
ghost use Rattle.ts_der.specs.View.{now};
ghost use Rattle.ts_shape.specs.Steps.{Takes};
ghost use Rattle.ts_field.specs.Algorithm.{parameters_at, algorithm_of, algorithm_at};
ghost use Rattle.ts_field.specs.View.{algorithm_in};

use crate::fields::next_oid;
use ts_der::tag::SEQUENCE;
use ts_der::{Element, Fault, Reader};

/// The identifier of an algorithm, as it lies in the source (RFC 5280 4.1.1.2).
#[derive(Clone, Copy, Debug)]
pub struct AlgorithmIdentifier<'a> {
    /// The algorithm: the content octets of its OBJECT IDENTIFIER.
    pub algorithm: &'a [u8],
    /// The parameters: a whole element, header included, of any type; `None` where there are none.
    pub parameters: Option<&'a [u8]>,
    /// The whole identifier, header included.
    pub whole: &'a [u8],
}

/// The element that is left, if any is.
#[tactic(auto, unfolding(crate::specs::Algorithm::parameters_at))]
#[inline(always)]
fn next_parameters<'a>(fields: &mut Reader<'a>) -> Result<Option<&'a [u8]>, Fault>
    ensures { Takes (λ p. option_copied p) fields.new result (parameters_at fields.old) }
{
    if fields.is_at_end() {
        return Ok(None);
    }
    Ok(Some(fields.next()?.whole))
}

/// The algorithm identifier that a SEQUENCE is.
#[tactic(auto, unfolding(crate::specs::Algorithm::algorithm_of))]
#[inline(always)]
pub fn read_algorithm<'a>(element: Element<'a>) -> Result<AlgorithmIdentifier<'a>, Fault>
    ensures { Answers algorithm_in result (algorithm_of (now element.entry)) }
{
    let mut fields = element.reader();
    let algorithm = next_oid(&mut fields)?;
    let parameters = next_parameters(&mut fields)?;
    fields.end()?;
    Ok(AlgorithmIdentifier {
        algorithm,
        parameters,
        whole: element.whole,
    })
}

/// The algorithm identifier that is next, which the reader has then passed.
#[tactic(auto, unfolding(crate::specs::Algorithm::algorithm_at, ts_shape::specs::Fields::within))]
#[inline(always)]
pub fn next_algorithm<'a>(fields: &mut Reader<'a>) -> Result<AlgorithmIdentifier<'a>, Fault>
    ensures { Takes algorithm_in fields.new result (algorithm_at fields.old) }
{
    read_algorithm(fields.element(SEQUENCE)?)
}
