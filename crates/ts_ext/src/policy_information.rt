//! A policy of a certificate, with its qualifiers.

ghost use Rattle.std.specs.Prelude.{option_map};
ghost use Rattle.ts_der.specs.Answer.{Answers};
ghost use Rattle.ts_der.specs.Element.{inside};
ghost use Rattle.ts_der.specs.View.{now};
ghost use Rattle.ts_shape.specs.Fields.{optional_of};
ghost use Rattle.ts_shape.specs.Items.{some_of, items_at};
ghost use Rattle.ts_shape.specs.Steps.{Takes};
ghost use Rattle.ts_ext.specs.Reading.{policy_qualifier_in, policy_information_of};
ghost use Rattle.ts_ext.specs.View.{information_in};

use crate::fields::next_oid;
use crate::policy_qualifier::PolicyQualifier;
use ts_der::tag::SEQUENCE;
use ts_der::{Element, Fault, OidRef, Reader};
use ts_shape::{FromElement, Keyed, SequenceOf, tagged_as};

/// A policy of a certificate, as it lies in the source (RFC 5280 4.2.1.4).
#[derive(Clone, Copy)]
pub struct PolicyInformation<'a> {
    /// The policy.
    pub policy_identifier: OidRef<'a>,
    /// Its qualifiers, one or more, where it has any.
    pub policy_qualifiers: Option<SequenceOf<'a, PolicyQualifier<'a>>>,
}

impl<'a> FromElement<'a> for PolicyInformation<'a> {
    ghost use Rattle.ts_ext.specs.Policies.{Information};
    ghost use Rattle.ts_ext.specs.Reading.{policy_information_in};

    ghost Record = { Information };

    ghost record_of = { information_in };

    ghost reading = { policy_information_in };

    ghost key_of = { λ p. p.policyIdentifier };

    #[tactic(auto, unfolding(ts_shape::specs::Items::of_tag))]
    #[inline(always)]
    fn read(element: Element<'a>) -> Result<PolicyInformation<'a>, Fault> {
        read_policy_information(tagged_as(element, SEQUENCE)?)
    }
}

impl<'a> Keyed<'a> for PolicyInformation<'a> {
    /// The policy.
    fn key(&self) -> &'a [u8] {
        self.policy_identifier.content
    }
}

/// The policy that a SEQUENCE is.
#[tactic(auto, unfolding(crate::specs::Reading::policy_information_of))]
#[inline(always)]
fn read_policy_information<'a>(element: Element<'a>) -> Result<PolicyInformation<'a>, Fault>
    ensures { Answers information_in result (policy_information_of (now element.entry)) }
{
    let mut fields = element.reader();
    let policy_identifier = next_oid(&mut fields)?;
    let policy_qualifiers = next_qualifiers_if_any(&mut fields)?;
    fields.end()?;
    Ok(PolicyInformation {
        policy_identifier,
        policy_qualifiers,
    })
}

/// The qualifiers, where a SEQUENCE stands.
#[tactic(auto, unfolding(ts_shape::specs::Fields::optional_of, ts_der::specs::Reading::optional_at))]
#[inline(always)]
fn next_qualifiers_if_any<'a>(
    fields: &mut Reader<'a>,
) -> Result<Option<SequenceOf<'a, PolicyQualifier<'a>>>, Fault>
    ensures { Takes (option_map (λ q. items_at policy_qualifier_in (inside (now q.element))))
        fields.new result (optional_of 48 (some_of policy_qualifier_in) fields.old) }
{
    match fields.optional(SEQUENCE)? {
        Some(element) => Ok(Some(SequenceOf::read(element)?)),
        None => Ok(None),
    }
}
