//! Qualifiers of a policy.

ghost use Rattle.ts_der.specs.Answer.{Answers};
ghost use Rattle.ts_der.specs.View.{now};
ghost use Rattle.ts_ext.specs.Reading.{policy_qualifier_of};
ghost use Rattle.ts_ext.specs.View.{qualifier_in};

use crate::fields::next_oid;
use ts_der::tag::SEQUENCE;
use ts_der::{Element, Fault, OidRef};
use ts_shape::{FromElement, tagged_as};

/// A qualifier of a policy, as it lies in the source (RFC 5280 4.2.1.4, `PolicyQualifierInfo`).
#[derive(Clone, Copy, Debug)]
pub struct PolicyQualifier<'a> {
    /// What the qualifier is.
    pub id: OidRef<'a>,
    /// The qualifier: a whole element, header included, of any type.
    pub qualifier: &'a [u8],
}

impl<'a> FromElement<'a> for PolicyQualifier<'a> {
    ghost use Rattle.std.specs.Prelude.{[]};
    ghost use Rattle.ts_ext.specs.Policies.{Qualifier};
    ghost use Rattle.ts_ext.specs.Reading.{policy_qualifier_in};

    ghost Record = { Qualifier };

    ghost record_of = { qualifier_in };

    ghost reading = { policy_qualifier_in };

    ghost key_of = { λ _. [] };

    #[tactic(auto, unfolding(ts_shape::specs::Items::of_tag))]
    fn read(element: Element<'a>) -> Result<PolicyQualifier<'a>, Fault> {
        read_policy_qualifier(tagged_as(element, SEQUENCE)?)
    }
}

/// The qualifier that a SEQUENCE is.
#[tactic(auto, unfolding(crate::specs::Reading::policy_qualifier_of))]
fn read_policy_qualifier<'a>(element: Element<'a>) -> Result<PolicyQualifier<'a>, Fault>
    ensures { Answers qualifier_in result (policy_qualifier_of (now element.entry)) }
{
    let mut fields = element.reader();
    let id = next_oid(&mut fields)?;
    let qualifier = fields.next()?.whole;
    fields.end()?;
    Ok(PolicyQualifier { id, qualifier })
}
