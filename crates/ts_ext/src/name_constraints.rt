//! Which names may stand below a certificate.

ghost use Rattle.std.specs.Prelude.{◌≡◌, ℕ, IfOk, IsOkAnd, option_map};
ghost use Rattle.ts_der.specs.Answer.{Answers, refusal};
ghost use Rattle.ts_der.specs.View.{now};
ghost use Rattle.ts_shape.specs.Fault.{about};
ghost use Rattle.ts_shape.specs.Fields.{optional_of};
ghost use Rattle.ts_shape.specs.Shape.{no_rules};
ghost use Rattle.ts_shape.specs.Steps.{Takes};
ghost use Rattle.ts_ext.specs.Inner.{inner_fault};
ghost use Rattle.ts_ext.specs.NameViews.{subtrees_in, name_constraints_in};
ghost use Rattle.ts_ext.specs.NameConstraints.{subtrees_of, name_constraints_of};
ghost use Rattle.ts_ext.specs.NameConstraints.{name_constraints_fields, AreConstraints};
ghost use Rattle.ts_ext.specs.NameConstraints.{Constraints};

use ts_der::{Element, Fault, Reader};
use ts_name::Subtree;
use ts_shape::SequenceOf;

const PERMITTED_SUBTREES: u8 = 0xA0;

const EXCLUDED_SUBTREES: u8 = 0xA1;

/// The subtrees in which the names of certificates that follow must lie, and those in which they
/// must not (RFC 5280 4.2.1.10).
#[derive(Clone, Copy)]
pub struct NameConstraints<'a> {
    pub permitted: Option<SequenceOf<'a, Subtree<'a>>>,
    pub excluded: Option<SequenceOf<'a, Subtree<'a>>>,
}

/// Subtrees, where an element of this tag is next.
#[tactic(auto, unfolding(ts_shape::specs::Fields::optional_of, ts_der::specs::Reading::optional_at))]
fn next_subtrees<'a>(
    fields: &mut Reader<'a>,
    tag: u8,
) -> Result<Option<SequenceOf<'a, Subtree<'a>>>, Fault>
    ensures { Takes (option_map subtrees_in) fields.new result
        (optional_of tag subtrees_of fields.old) }
{
    match fields.optional(tag)? {
        Some(element) => Ok(Some(SequenceOf::read(element)?)),
        None => Ok(None),
    }
}

impl<'a> NameConstraints<'a> {
    /// The constraints that a SEQUENCE's content is. Bounds of a subtree and the length of an IP
    /// address are not looked at: `Subtree::is_unbounded`, `has_address_length`.
    ///
    /// # Errors
    ///
    /// The first rule that is broken, with its place: of each list, where it is, its header, of
    /// each subtree its header and the rules of `Subtree::read_element`, and `Empty`; then
    /// `Trailing`.
    pub fn read(element: Element<'a>) -> Result<NameConstraints<'a>, Fault>
        ensures found { IfOk result (λ n. AreConstraints element.entry.content.now
            (name_constraints_in n)) }
        ensures only { (n : Constraints) → AreConstraints element.entry.content.now n
            → IsOkAnd result (λ read. name_constraints_in read ≡ n) }
        ensures fault { option_map about (refusal result)
            ≡ inner_fault name_constraints_fields no_rules (now element.entry) }
        ensures exact { Answers name_constraints_in result
            (name_constraints_of (now element.entry)) }
    {
        read_name_constraints(element)
    }
}

/// The NameConstraints (RFC 5280 4.2.1.10) that an element's content is, or the first rule that it
/// breaks.
#[tactic(auto, unfolding(crate::specs::NameConstraints::name_constraints_of))]
fn read_name_constraints<'a>(element: Element<'a>) -> Result<NameConstraints<'a>, Fault>
    ensures { Answers name_constraints_in result (name_constraints_of (now element.entry)) }
{
    let mut fields = element.reader();
    let permitted = next_subtrees(&mut fields, PERMITTED_SUBTREES)?;
    let excluded = next_subtrees(&mut fields, EXCLUDED_SUBTREES)?;
    fields.end()?;
    Ok(NameConstraints {
        permitted,
        excluded,
    })
}
