//! From where on policies count.

ghost use Rattle.std.specs.Prelude.{◌≡◌, Ok, IfOk, option_map};
ghost use Rattle.ts_der.specs.Answer.{Answers, refusal};
ghost use Rattle.ts_der.specs.View.{now};
ghost use Rattle.ts_shape.specs.Fault.{about};
ghost use Rattle.ts_shape.specs.Shape.{no_rules};
ghost use Rattle.ts_ext.specs.Inner.{inner_fault};

use crate::fields::next_small_if_any;
use ts_der::{Element, Fault};

const REQUIRE_EXPLICIT_POLICY: u8 = 0x80;

const INHIBIT_POLICY_MAPPING: u8 = 0x81;

/// After how many certificates a path needs a policy, and may map none (RFC 5280 4.2.1.11).
#[derive(Clone, Copy, Debug, PartialEq, Eq)]
pub struct PolicyConstraints {
    /// How many certificates may follow before an acceptable policy is needed.
    pub require_explicit_policy: Option<u32>,
    /// How many may follow before policies are no longer mapped.
    pub inhibit_policy_mapping: Option<u32>,
}

impl PolicyConstraints {
    ghost use Rattle.ts_ext.specs.declared.policy_constraints.PolicyConstraints.{PolicyConstraints};
    ghost use Rattle.ts_ext.specs.Encoding.{IsPolicyConstraints};
    ghost use Rattle.ts_ext.specs.Table.{policy_constraints_fields};
    ghost use Rattle.ts_ext.specs.Reading.{policy_constraints_of};

    /// The constraints that a SEQUENCE's content is.
    ///
    /// # Errors
    ///
    /// The first rule that is broken, with its place: of [0] and then of [1], where each is, its
    /// header,
    /// `IntegerForm` and, above 4,294,967,295, `TooLarge`; then `Trailing`.
    pub fn read(element: Element<'_>) -> Result<PolicyConstraints, Fault>
        ensures found { IfOk result (IsPolicyConstraints element.entry.content.now) }
        ensures only { (p : PolicyConstraints) → IsPolicyConstraints element.entry.content.now p
            → result ≡ Ok p }
        ensures fault { option_map about (refusal result)
            ≡ inner_fault policy_constraints_fields no_rules (now element.entry) }
        ensures exact { Answers (λ p. p) result (policy_constraints_of (now element.entry)) }
    {
        PolicyConstraints::of_element(element)
    }

    /// The PolicyConstraints (RFC 5280 4.2.1.11) that an element's content is, or the first rule
    /// that it breaks.
    #[tactic(auto, unfolding(crate::specs::Reading::policy_constraints_of))]
    fn of_element(element: Element<'_>) -> Result<PolicyConstraints, Fault>
        ensures { Answers (λ p. p) result (policy_constraints_of (now element.entry)) }
    {
        let mut fields = element.reader();
        let require_explicit_policy = next_small_if_any(&mut fields, REQUIRE_EXPLICIT_POLICY)?;
        let inhibit_policy_mapping = next_small_if_any(&mut fields, INHIBIT_POLICY_MAPPING)?;
        fields.end()?;
        Ok(PolicyConstraints {
            require_explicit_policy,
            inhibit_policy_mapping,
        })
    }
}
