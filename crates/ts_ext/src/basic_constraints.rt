//! Who may issue certificates.

ghost use Rattle.std.specs.Prelude.{◌≡◌, Ok, IfOk, option_map};
ghost use Rattle.ts_der.specs.Answer.{Answers, refusal};
ghost use Rattle.ts_der.specs.View.{now};
ghost use Rattle.ts_shape.specs.Fault.{about};
ghost use Rattle.ts_shape.specs.Shape.{no_rules};
ghost use Rattle.ts_ext.specs.Inner.{inner_fault};

use crate::fields::next_small_if_any;
use ts_der::tag::{BOOLEAN, INTEGER};
use ts_der::{Element, Fault};

/// Whether a certificate is that of an authority, and how many may follow it (RFC 5280 4.2.1.9).
#[derive(Clone, Copy, Debug, PartialEq, Eq)]
pub struct BasicConstraints {
    /// Whether the key may sign certificates.
    pub ca: bool,
    /// How many certificates of authorities that are not self-issued may follow in a path.
    pub path_len_constraint: Option<u32>,
}

impl BasicConstraints {
    ghost use Rattle.ts_ext.specs.declared.basic_constraints.BasicConstraints.{BasicConstraints};
    ghost use Rattle.ts_ext.specs.Encoding.{IsBasicConstraints};
    ghost use Rattle.ts_ext.specs.Table.{basic_constraints_fields};
    ghost use Rattle.ts_ext.specs.Reading.{basic_constraints_of};

    /// The constraints that a SEQUENCE's content is.
    ///
    /// # Errors
    ///
    /// The first rule that is broken, with its place: of cA, where a BOOLEAN stands, its header,
    /// `BooleanForm` and, of FALSE, which is the default, `DefaultEncoded`; of pathLenConstraint,
    /// where an INTEGER stands, its header,
    /// `IntegerForm` and, above 4,294,967,295, `TooLarge`; then `Trailing`.
    pub fn read(element: Element<'_>) -> Result<BasicConstraints, Fault>
        ensures found { IfOk result (IsBasicConstraints element.entry.content.now) }
        ensures only { (b : BasicConstraints) → IsBasicConstraints element.entry.content.now b
            → result ≡ Ok b }
        ensures fault { option_map about (refusal result)
            ≡ inner_fault basic_constraints_fields no_rules (now element.entry) }
        ensures exact { Answers (λ b. b) result (basic_constraints_of (now element.entry)) }
    {
        BasicConstraints::of_element(element)
    }

    /// The BasicConstraints (RFC 5280 4.2.1.9) that an element's content is, or the first rule that
    /// it breaks.
    #[tactic(auto, unfolding(crate::specs::Reading::basic_constraints_of))]
    fn of_element(element: Element<'_>) -> Result<BasicConstraints, Fault>
        ensures { Answers (λ b. b) result (basic_constraints_of (now element.entry)) }
    {
        let mut fields = element.reader();
        let ca = fields.flag(BOOLEAN)?;
        let path_len_constraint = next_small_if_any(&mut fields, INTEGER)?;
        fields.end()?;
        Ok(BasicConstraints {
            ca,
            path_len_constraint,
        })
    }
}
