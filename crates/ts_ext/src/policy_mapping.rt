//! A policy that stands for another.

ghost use Rattle.ts_der.specs.Answer.{Answers};
ghost use Rattle.ts_der.specs.View.{now};
ghost use Rattle.ts_ext.specs.Reading.{policy_mapping_of};
ghost use Rattle.ts_ext.specs.View.{mapping_in};

use crate::fields::next_oid;
use ts_der::tag::SEQUENCE;
use ts_der::{Element, Fault, OidRef};
use ts_shape::{FromElement, tagged_as};

/// Two policies that an authority considers equivalent (RFC 5280 4.2.1.5).
#[derive(Clone, Copy, Debug)]
pub struct PolicyMapping<'a> {
    /// The policy of the issuer's domain.
    pub issuer_domain_policy: OidRef<'a>,
    /// The policy of the subject's domain.
    pub subject_domain_policy: OidRef<'a>,
}

impl<'a> FromElement<'a> for PolicyMapping<'a> {
    ghost use Rattle.std.specs.Prelude.{[]};
    ghost use Rattle.ts_ext.specs.Policies.{Mapping};
    ghost use Rattle.ts_ext.specs.Reading.{policy_mapping_in};

    ghost Record = { Mapping };

    ghost record_of = { mapping_in };

    ghost reading = { policy_mapping_in };

    ghost key_of = { λ _. [] };

    #[tactic(auto, unfolding(ts_shape::specs::Items::of_tag))]
    fn read(element: Element<'a>) -> Result<PolicyMapping<'a>, Fault> {
        read_policy_mapping(tagged_as(element, SEQUENCE)?)
    }
}

/// The mapping that a SEQUENCE is.
#[tactic(auto, unfolding(crate::specs::Reading::policy_mapping_of))]
fn read_policy_mapping<'a>(element: Element<'a>) -> Result<PolicyMapping<'a>, Fault>
    ensures { Answers mapping_in result (policy_mapping_of (now element.entry)) }
{
    let mut fields = element.reader();
    let issuer_domain_policy = next_oid(&mut fields)?;
    let subject_domain_policy = next_oid(&mut fields)?;
    fields.end()?;
    Ok(PolicyMapping {
        issuer_domain_policy,
        subject_domain_policy,
    })
}
