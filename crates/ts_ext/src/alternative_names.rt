//! Names beside distinguished names.

ghost use Rattle.std.specs.Prelude.{◌≡◌, List, IfOk, IsOkAnd, option_map};
ghost use Rattle.ts_der.specs.Answer.{Answers, refusal};
ghost use Rattle.ts_der.specs.View.{now};
ghost use Rattle.ts_shape.specs.Fault.{about};
ghost use Rattle.ts_shape.specs.Items.{items_at};
ghost use Rattle.ts_name.specs.General.{GeneralName, general_of};
ghost use Rattle.ts_ext.specs.Inner.{inner_fault};
ghost use Rattle.ts_ext.specs.Table.{list_rules};
ghost use Rattle.ts_ext.specs.GeneralNames.{AreGeneralNames, general_names_of, general_names_items};
ghost use Rattle.ts_ext.specs.NameViews.{alternatives_in};

use ts_der::{Element, Fault};
use ts_name::{General, GeneralNames};
use ts_shape::{SequenceItems, SequenceOf};

/// Names of a subject or an issuer, one or more, of any form (RFC 5280 4.2.1.6, 4.2.1.7, 5.3.3).
#[derive(Clone, Copy)]
pub struct AlternativeNames<'a> {
    /// The names.
    pub list: GeneralNames<'a>,
}

impl<'a> AlternativeNames<'a> {
    /// The list that a SEQUENCE's content is. The length of an IP address is not looked at:
    /// `General::has_address_length`.
    ///
    /// # Errors
    ///
    /// The first rule that is broken, with its place: of each name in turn, its header and the
    /// rules of
    /// `General::read`; then `Empty` where there is none.
    pub fn read(element: Element<'a>) -> Result<AlternativeNames<'a>, Fault>
        ensures found { IfOk result (λ x. AreGeneralNames element.entry.content.now
            (alternatives_in x)) }
        ensures only { (xs : List GeneralName) → AreGeneralNames element.entry.content.now xs
            → IsOkAnd result (λ x. alternatives_in x ≡ xs) }
        ensures fault { option_map about (refusal result)
            ≡ inner_fault general_names_items list_rules (now element.entry) }
        ensures exact { Answers alternatives_in result (general_names_of (now element.entry)) }
    {
        read_alternative_names(element)
    }

    /// The names, in their order.
    pub fn iter(self) -> SequenceItems<'a, General<'a>>
        ensures { items_at general_of result.rest ≡ alternatives_in self.entry }
    {
        self.list.iter()
    }
}

/// The GeneralNames that an element's content is, or the first rule that it breaks.
fn read_alternative_names<'a>(element: Element<'a>) -> Result<AlternativeNames<'a>, Fault>
    ensures { Answers alternatives_in result (general_names_of (now element.entry)) }
{
    Ok(AlternativeNames {
        list: SequenceOf::read(element)?,
    })
}
