//! Policies that stand for others.

ghost use Rattle.std.specs.Prelude.{◌≡◌, ℕ, List, IfOk, IsOkAnd, option_map};
ghost use Rattle.ts_der.specs.Answer.{Answers, refusal};
ghost use Rattle.ts_der.specs.View.{now};
ghost use Rattle.ts_shape.specs.Fault.{about};
ghost use Rattle.ts_shape.specs.Items.{items_at};
ghost use Rattle.ts_ext.specs.Inner.{inner_fault};
ghost use Rattle.ts_ext.specs.Policies.{Mapping};
ghost use Rattle.ts_ext.specs.Encoding.{ArePolicyMappings};
ghost use Rattle.ts_ext.specs.Table.{policy_mappings, list_rules};
ghost use Rattle.ts_ext.specs.Reading.{policy_mapping_in, policy_mappings_of};
ghost use Rattle.ts_ext.specs.View.{mappings_in};

use crate::policy_mapping::PolicyMapping;
use ts_der::{Element, Fault};
use ts_shape::{SequenceItems, SequenceOf};

/// Which policies an authority considers equivalent, one pair or more (RFC 5280 4.2.1.5).
#[derive(Clone, Copy)]
pub struct PolicyMappings<'a> {
    /// The mappings.
    pub list: SequenceOf<'a, PolicyMapping<'a>>,
}

impl<'a> PolicyMappings<'a> {
    /// The list that a SEQUENCE's content is.
    ///
    /// # Errors
    ///
    /// The first rule that is broken, with its place: of each mapping in turn, its header (a
    /// SEQUENCE), the issuer's policy and the subject's (`OidForm`), and `Trailing`; then `Empty`
    /// where there is no mapping.
    pub fn read(element: Element<'a>) -> Result<PolicyMappings<'a>, Fault>
        ensures found { IfOk result (λ x. ArePolicyMappings element.entry.content.now
            (mappings_in x)) }
        ensures only { (xs : List Mapping) → ArePolicyMappings element.entry.content.now xs
            → IsOkAnd result (λ x. mappings_in x ≡ xs) }
        ensures fault { option_map about (refusal result)
            ≡ inner_fault policy_mappings list_rules (now element.entry) }
        ensures exact { Answers mappings_in result (policy_mappings_of (now element.entry)) }
    {
        read_policy_mappings(element)
    }

    /// The mappings, in their order.
    pub fn iter(self) -> SequenceItems<'a, PolicyMapping<'a>>
        ensures { items_at policy_mapping_in result.rest ≡ mappings_in self.entry }
    {
        self.list.iter()
    }
}

/// The PolicyMappings (RFC 5280 4.2.1.5) that an element's content is, or the first rule that it
/// breaks.
fn read_policy_mappings<'a>(element: Element<'a>) -> Result<PolicyMappings<'a>, Fault>
    ensures { Answers mappings_in result (policy_mappings_of (now element.entry)) }
{
    Ok(PolicyMappings {
        list: SequenceOf::read(element)?,
    })
}
