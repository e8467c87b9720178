//! The purposes of a key.

ghost use Rattle.std.specs.Prelude.{◌≡◌, ℕ, List, IfOk, IsOkAnd, option_map};
ghost use Rattle.ts_der.specs.Answer.{Answers, refusal};
ghost use Rattle.ts_der.specs.View.{now};
ghost use Rattle.ts_shape.specs.Fault.{about};
ghost use Rattle.ts_shape.specs.Items.{items_at};
ghost use Rattle.ts_ext.specs.Inner.{inner_fault};
ghost use Rattle.ts_ext.specs.Encoding.{AreKeyPurposes};
ghost use Rattle.ts_ext.specs.Table.{ext_key_usage, list_rules};
ghost use Rattle.ts_ext.specs.Reading.{key_purpose_in, ext_key_usage_of};
ghost use Rattle.ts_ext.specs.View.{purposes_in};

use ts_der::{Element, Fault, OidRef};
use ts_shape::{SequenceItems, SequenceOf};

/// For which purposes a key may be used, one or more (RFC 5280 4.2.1.12).
#[derive(Clone, Copy)]
pub struct ExtendedKeyUsage<'a> {
    /// The purposes.
    pub list: SequenceOf<'a, OidRef<'a>>,
}

impl<'a> ExtendedKeyUsage<'a> {
    /// The list that a SEQUENCE's content is.
    ///
    /// # Errors
    ///
    /// The first rule that is broken, with its place: of each purpose in turn, its header (an
    /// OBJECT IDENTIFIER) and
    /// `OidForm`; then `Empty` where there is none.
    pub fn read(element: Element<'a>) -> Result<ExtendedKeyUsage<'a>, Fault>
        ensures found { IfOk result
            (λ x. AreKeyPurposes element.entry.content.now (purposes_in x)) }
        ensures only { (xs : List (List ℕ)) → AreKeyPurposes element.entry.content.now xs
            → IsOkAnd result (λ x. purposes_in x ≡ xs) }
        ensures fault { option_map about (refusal result)
            ≡ inner_fault ext_key_usage list_rules (now element.entry) }
        ensures exact { Answers purposes_in result (ext_key_usage_of (now element.entry)) }
    {
        read_extended_key_usage(element)
    }

    /// The purposes, in their order.
    pub fn iter(self) -> SequenceItems<'a, OidRef<'a>>
        ensures { items_at key_purpose_in result.rest ≡ purposes_in self.entry }
    {
        self.list.iter()
    }
}

/// The extKeyUsage (RFC 5280 4.2.1.12) that an element's content is, or the first rule that it
/// breaks.
fn read_extended_key_usage<'a>(element: Element<'a>) -> Result<ExtendedKeyUsage<'a>, Fault>
    ensures { Answers purposes_in result (ext_key_usage_of (now element.entry)) }
{
    Ok(ExtendedKeyUsage {
        list: SequenceOf::read(element)?,
    })
}
