//! Entries that are read once for their shape and for what the rules of a CRL ask of their
//! extensions.

ghost use Rattle.std.specs.Prelude.{◌≡◌, [], ◌∷◌, length};
ghost use Rattle.ts_der.specs.View.{now};
ghost use Rattle.ts_shape.specs.Fields.{optional_of};
ghost use Rattle.ts_shape.specs.Items.{each, some_of};
ghost use Rattle.ts_shape.specs.Shape.{◌or_else◌};
ghost use Rattle.ts_shape.specs.Steps.{Takes};
ghost use Rattle.ts_ext.specs.declared.known.Holder.TheVariants.{Entry as EntryHolder};
ghost use Rattle.ts_extensions.specs.Extension.{located_in};
ghost use Rattle.ts_extensions.specs.ExtensionView.{located_as};
ghost use Rattle.ts_crl.specs.declared.extension_rule.ExtensionRule.TheVariants.{OldVersion};
ghost use Rattle.ts_crl.specs.declared.extension_rule.ExtensionRule.TheVariants.{Repeated};
ghost use Rattle.ts_crl.specs.EntryView.{located_items_in, placed_in};
ghost use Rattle.ts_crl.specs.Findings.{findings_of};
ghost use Rattle.ts_crl.specs.inside.Findings.{found_in, found_if_any, Notes, NotesNext};
ghost use Rattle.ts_crl.specs.inside.Findings.{NotesAmong};
ghost use Rattle.ts_crl.specs.FindingsView.{findings_in};
ghost use Rattle.ts_crl.specs.Reading.{located_extensions_of, entry_of, located_entry_of};
ghost use Rattle.ts_crl.specs.Rules.{rule_fault as rule_fault_of};

use crate::extension_list::ExtensionList;
use crate::extension_rule::ExtensionRule;
use crate::findings::Findings;
use crate::placed::PlacedFault;
use crate::rules::rule_fault;
use ts_der::tag::SEQUENCE;
use ts_der::{DerFault, Element, Fault, Reader};
use ts_ext::Holder;
use ts_extensions::Extension;
use ts_field::{next_integer, next_time};
use ts_shape::{CertFault, FromElement, tagged_as};

/// The next extension, which the reader has then passed.
#[tactic(auto, unfolding(ts_shape::specs::Items::each))]
fn next_extension<'a>(rest: &mut Reader<'a>) -> Result<Extension<'a>, Fault>
    ensures { Takes located_as rest.new result (each located_in rest.old) }
{
    Extension::read(rest.next()?)
}

/// Reads the extensions that a SEQUENCE's content is, one or more, adds what is found in each, and
/// counts them.
fn note_extensions<'a>(element: Element<'a>, findings: &mut Findings<'a>) -> Result<usize, Fault>
    ensures { NotesAmong (findings_in findings.old) (findings_in findings.new) result
        (some_of located_in (now element.entry)) }
{
    let mut rest = element.reader();
    let mut count = 0;
    while !rest.is_at_end() {
        let extension = next_extension(&mut rest)?;
        findings.note(extension);
        count += 1;
    }
    if element.content.is_empty() {
        return Err(Fault {
            kind: DerFault::Empty,
            at: element.at,
        });
    }
    Ok(count)
}

/// A fault that was found before, else the first place at which the extensions of an entry break a
/// rule.
fn or_fault(
    found: Option<CertFault>,
    rule: ExtensionRule,
    placed: PlacedFault<'_>,
) -> Option<CertFault>
    ensures { result ≡ (found or_else rule_fault_of rule EntryHolder (placed_in placed.entry)) }
{
    match found {
        Some(fault) => Some(fault),
        None => rule_fault(rule, Holder::Entry, placed),
    }
}

/// A fault that was found before, else the first place at which an extension of an entry repeats
/// one before it. The extensions are counted: one alone repeats none.
fn or_repeat(found: Option<CertFault>, placed: PlacedFault<'_>, count: usize) -> Option<CertFault>
    requires { count ≡ length (located_items_in placed.list) }
    ensures { result ≡ (found or_else rule_fault_of Repeated EntryHolder (placed_in placed.entry)) }
{
    if count > 1 {
        or_fault(found, ExtensionRule::Repeated, placed)
    } else {
        found
    }
}

/// Reads the extensions of an entry, which are those that a SEQUENCE is, and adds what is found in
/// them.
#[tactic(auto, unfolding(crate::specs::Reading::located_extensions_of))]
fn note_placed<'a>(element: Element<'a>, findings: &mut Findings<'a>) -> Result<(), Fault>
    ensures { Notes found_in (findings_in findings.old) (findings_in findings.new) result
        (located_extensions_of (now element.entry)) }
{
    let count = note_extensions(element, findings)?;
    let placed = PlacedFault {
        at: element.at,
        list: ExtensionList { element },
    };
    findings.old_version = or_fault(findings.old_version, ExtensionRule::OldVersion, placed);
    findings.repeated = or_repeat(findings.repeated, placed, count);
    Ok(())
}

/// Reads the extensions of an entry if they are next, and adds what is found in them.
#[tactic(auto, unfolding(ts_shape::specs::Fields::optional_of, ts_der::specs::Reading::optional_at))]
fn note_extensions_if_any<'a>(
    fields: &mut Reader<'a>,
    findings: &mut Findings<'a>,
) -> Result<(), Fault>
    ensures { NotesNext found_if_any fields.new (findings_in findings.old)
        (findings_in findings.new) result (optional_of 0x30 located_extensions_of fields.old) }
{
    match fields.optional(SEQUENCE)? {
        Some(element) => note_placed(element, findings),
        None => Ok(()),
    }
}

/// Reads the entry that a SEQUENCE is, and adds what is found in its extensions.
#[tactic(auto, unfolding(crate::specs::Reading::entry_of))]
fn note_entry<'a>(element: Element<'a>, findings: &mut Findings<'a>) -> Result<(), Fault>
    ensures { Notes (λ x. findings_of (x ∷ [])) (findings_in findings.old)
        (findings_in findings.new) result (entry_of (now element.entry)) }
{
    let mut fields = element.reader();
    next_integer(&mut fields)?;
    next_time(&mut fields)?;
    note_extensions_if_any(&mut fields, findings)?;
    fields.end()?;
    Ok(())
}

/// Reads the next entry, which the reader has then passed, and adds what is found in it to what was
/// found before.
#[tactic(auto, unfolding(ts_shape::specs::Items::each, ts_shape::specs::Items::of_tag))]
pub(crate) fn note_next<'a>(rest: &mut Reader<'a>, findings: &mut Findings<'a>) -> Result<(), Fault>
    ensures { NotesNext (λ x. findings_of (x ∷ [])) rest.new (findings_in findings.old)
        (findings_in findings.new) result (each located_entry_of rest.old) }
{
    note_entry(tagged_as(rest.next()?, SEQUENCE)?, findings)
}
