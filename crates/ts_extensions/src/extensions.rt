//! The extensions of a certificate, of a list or of an entry.

ghost use Rattle.std.specs.List.{find};
ghost use Rattle.std.specs.Str.{bytes_eq};
ghost use Rattle.std.specs.Prelude.{◌≡◌, ◌↔◌, ℕ, List, [], None, IfOk, IsOkAnd, option_map};
ghost use Rattle.ts_der.specs.Answer.{Answers, refusal};
ghost use Rattle.ts_der.specs.Element.{inside};
ghost use Rattle.ts_der.specs.View.{now};
ghost use Rattle.ts_shape.specs.Fault.{about};
ghost use Rattle.ts_shape.specs.Items.{items_at};
ghost use Rattle.ts_shape.specs.Repeats.{first_repeated as first_repeated_of};
ghost use Rattle.ts_ext.specs.Inner.{inner_fault};
ghost use Rattle.ts_extensions.specs.Extension.{Extension as Stated, AreExtensions, extensions};
ghost use Rattle.ts_extensions.specs.Extension.{located_in, extensions_of, all_located_of};
ghost use Rattle.ts_extensions.specs.ExtensionView.{located_as, all_located_in, extensions_in};
ghost use Rattle.ts_ext.specs.Known.{identifier_of};
ghost use Rattle.ts_ext.specs.Table.{list_rules};
ghost use Rattle.ts_extensions.specs.ValueRules.{value_fault, values_fault, AreValid};

use crate::extension::Extension;
use crate::fast_find::pass_another;
use ts_der::{Element, Fault};
use ts_ext::{Holder, Known};
use ts_shape::{CertFault, SequenceItems, SequenceOf, first_repeated};

/// Extensions, one or more (RFC 5280 4.1, 4.2).
#[derive(Clone, Copy)]
pub struct Extensions<'a> {
    /// The extensions.
    pub list: SequenceOf<'a, Extension<'a>>,
}

impl<'a> Extensions<'a> {
    /// The list that a SEQUENCE's content is, whatever the values say.
    ///
    /// # Errors
    ///
    /// The first rule that is broken, with its place: of each extension in turn, its header (a
    /// SEQUENCE), its object identifier (`OidForm`), of critical, where a BOOLEAN stands, its
    /// header, `BooleanForm` and, of FALSE, which is the default, `DefaultEncoded`, the header of
    /// its value (an OCTET STRING), and `Trailing`; then `Empty` where there is no extension.
    pub fn read(element: Element<'a>) -> Result<Extensions<'a>, Fault>
        ensures found { IfOk result (λ x. AreExtensions element.entry.content.now
            (extensions_in x)) }
        ensures only { (xs : List Stated) → AreExtensions element.entry.content.now xs
            → IsOkAnd result (λ x. extensions_in x ≡ xs) }
        ensures fault { option_map about (refusal result)
            ≡ inner_fault extensions list_rules (now element.entry) }
        ensures exact { Answers extensions_in result (extensions_of (now element.entry)) }
        // The same with the place of each.
        ensures placed { Answers all_located_in result (all_located_of (now element.entry)) }
    {
        read_extensions(element)
    }

    /// The list within a SEQUENCE that `read` or `CheckedExtensions::read_explicit` has accepted
    /// before. Of another element it is what precedes the first that is no extension.
    pub fn within(element: Element<'a>) -> Extensions<'a>
        ensures { all_located_in result ≡ items_at located_in (inside (now element.entry)) }
    {
        Extensions {
            list: SequenceOf::within(element),
        }
    }

    /// The extensions, in their order.
    pub fn iter(self) -> SequenceItems<'a, Extension<'a>>
        ensures { items_at located_in result.rest ≡ all_located_in self.entry }
    {
        self.list.iter()
    }

    /// The first of the extensions that is known as this one, if there is one.
    pub fn find(self, known: Known) -> Option<Extension<'a>>
        ensures { option_map located_as result
            ≡ find (λ x. bytes_eq x.extnID (identifier_of known)) (all_located_in self.entry) }
    {
        let wanted = [0x55, 0x1D, known.arc()];
        let mut items = self.iter();
        while !items.rest.is_at_end() {
            if pass_another(&mut items.rest, known.arc()) {
                continue;
            }
            let extension = items.next()?;
            if extension.id.content == wanted.as_slice() {
                return Some(extension);
            }
        }
        None
    }

    /// The first extension, by its place, that has the object identifier of an earlier one, where
    /// there is one (RFC 5280 4.2).
    pub fn first_repeated(self) -> Option<Extension<'a>>
        ensures { option_map located_as result
            ≡ first_repeated_of (λ x. x.extnID) [] (all_located_in self.entry) }
    {
        first_repeated(self.list.element)
    }

    /// The first rule that the values break, one extension after another, as
    /// `Extension::first_fault` finds it in each.
    pub fn broken_rule(self, holder: Holder) -> Option<CertFault>
        ensures fault { result ≡ values_fault holder (all_located_in self.entry) }
        // None exactly where each value is one that its extension has and breaks no rule.
        ensures sound { (result ≡ None) ↔ AreValid holder (extensions_in self.entry) }
    {
        first_broken_value(self, holder)
    }
}

/// The Extensions that an element's content is, or the first rule that it breaks.
fn read_extensions<'a>(element: Element<'a>) -> Result<Extensions<'a>, Fault>
    ensures { Answers all_located_in result (all_located_of (now element.entry)) }
{
    Ok(Extensions {
        list: SequenceOf::read(element)?,
    })
}

/// The first rule that the values of a list break.
#[inline(always)]
fn first_broken_value(extensions: Extensions<'_>, holder: Holder) -> Option<CertFault>
    ensures { result ≡ values_fault holder (all_located_in extensions.entry) }
{
    for extension in extensions.iter() {
        if let Some(fault) = extension.first_fault(holder) {
            return Some(fault);
        }
    }
    None
}
