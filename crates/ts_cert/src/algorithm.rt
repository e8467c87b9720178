//! The algorithm identifier beside the signature.

ghost use Rattle.std.specs.Prelude.{◌≡◌, ℕ, List};
ghost use Rattle.ts_der.specs.Answer.{Answers};
ghost use Rattle.ts_der.specs.Element.{Fits, encode};
ghost use Rattle.ts_der.specs.View.{now};
ghost use Rattle.ts_shape.specs.Fields.{Within};
ghost use Rattle.ts_field.specs.Algorithm.{IsAlgorithm, algorithm_of};
ghost use Rattle.ts_field.specs.View.{algorithm_in};

use ts_der::{Element, Fault};
use ts_field::{AlgorithmIdentifier, read_algorithm};

/// The algorithm identifier that a SEQUENCE is, beside one that was read. Where it has the octets
/// of that one, as the one beside a signature has those of the one that is signed, it is not read
/// again.
#[inline(always)]
pub(crate) fn read_algorithm_beside<'a>(
    element: Element<'a>,
    other: AlgorithmIdentifier<'a>,
) -> Result<AlgorithmIdentifier<'a>, Fault>
    requires fits { Fits 0x30 element.content.now }
    requires encoded { element.whole.now ≡ encode 0x30 element.content.now }
    requires read { (octets : List ℕ) × Within 0x30 IsAlgorithm octets (algorithm_in other) }
    ensures { Answers algorithm_in result (algorithm_of (now element.entry)) }
{
    if element.whole == other.whole {
        return Ok(other);
    }
    read_algorithm(element)
}
