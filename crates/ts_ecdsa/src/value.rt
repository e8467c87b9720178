//! The octets of a signature.

ghost use Rattle.std.specs.Prelude.{◌≡◌, ℕ, List};
ghost use Rattle.ts_der.specs.Answer.{Answers};
ghost use Rattle.ts_der.specs.Element.{Place};
ghost use Rattle.ts_ecdsa.specs.Reading.{integer_at, parts_of};

use ts_der::{Fault, Integer, Reader, tag};

/// The INTEGER that is next.
#[tactic(auto, unfolding(crate::specs::Reading::integer_at))]
fn next_integer<'a>(reader: &mut Reader<'a>) -> Result<Integer<'a>, Fault>
    ensures { Answers (λ i. (let t : List ℕ × Place = (i.octets.now, reader.new) in t)) result
        (integer_at reader.old) }
{
    let element = reader.element(tag::INTEGER)?;
    element.integer()
}

/// The two numbers of SEQUENCE { r INTEGER, s INTEGER }.
#[tactic(auto, unfolding(crate::specs::Reading::parts_of))]
pub fn signature_parts(octets: &[u8]) -> Result<(Integer<'_>, Integer<'_>), Fault>
    ensures { Answers (λ t. (let u : List ℕ × List ℕ = (t.0.octets.now, t.1.octets.now) in u))
        result (parts_of octets.now) }
{
    let mut outer = Reader::new(octets);
    let content = outer.expect(tag::SEQUENCE)?;
    outer.end()?;
    let mut inner = Reader::new(content);
    let r = next_integer(&mut inner)?;
    let s = next_integer(&mut inner)?;
    inner.end()?;
    Ok((r, s))
}
