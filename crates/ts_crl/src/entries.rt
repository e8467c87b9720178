//! The entries of a CRL, one after another.

ghost use Rattle.std.specs.List.{find, list_any};
ghost use Rattle.std.specs.Prelude.{◌≡◌, false, [], map, option_map, unwrap_or, IfOk, IsTrue};
ghost use Rattle.std.specs.Str.{bytes_eq};
ghost use Rattle.ts_der.specs.Answer.{Answers};
ghost use Rattle.ts_der.specs.Element.{inside};
ghost use Rattle.ts_der.specs.View.{now};
ghost use Rattle.ts_shape.specs.Fields.{optional_of};
ghost use Rattle.ts_shape.specs.Items.{items_at};
ghost use Rattle.ts_shape.specs.Steps.{Takes};
ghost use Rattle.ts_crl.specs.Entries.{has_serial};
ghost use Rattle.ts_crl.specs.EntryView.{entry_in as said_in, entries_in, revoked_in};
ghost use Rattle.ts_crl.specs.inside.Endings.{ending_of, AreListed};
ghost use Rattle.ts_crl.specs.inside.Findings.{Finds};
ghost use Rattle.ts_crl.specs.FindingsView.{findings_in};
ghost use Rattle.ts_crl.specs.inside.Marks.{mark_of};
ghost use Rattle.ts_crl.specs.inside.MarkView.{mark_as};
ghost use Rattle.ts_crl.specs.Reading.{located_entry_of, revoked_of};

use crate::endings::{Endings, ending};
use crate::entry::Entry;
use crate::findings::Findings;
use crate::mark::Mark;
use crate::noting::note_next;
use crate::revoked::RevokedEntries;
use std::alloc::{AllocError, Global};
use ts_der::tag::SEQUENCE;
use ts_der::{Element, Fault, Integer, Reader};
use ts_shape::{FromElement, SequenceItems};

impl<'a> RevokedEntries<'a> {
    /// The entries, in their order.
    pub fn iter(self) -> SequenceItems<'a, Entry<'a>>
        ensures { items_at located_entry_of result.rest ≡ revoked_in self.entry }
    {
        SequenceItems::within(self.element)
    }

    /// The first entry that has this serial number, by its mark.
    fn mark_of(self, serial: Integer<'_>) -> Option<Mark<'a>>
        ensures { option_map mark_as result
            ≡ find (λ m. bytes_eq m.userCertificate serial.entry.octets.now)
            (items_at mark_of (inside (now self.entry.element))) }
    {
        for mark in SequenceItems::<'a, Mark<'a>>::within(self.element) {
            if mark.serial_number == serial.octets {
                return Some(mark);
            }
        }
        None
    }

    /// Whether the ends of the serial numbers, where they are kept, show that no entry has this
    /// one.
    fn lacks(self, serial: Integer<'_>) -> bool
        ensures { IsTrue result
            → list_any (has_serial serial.entry.octets.now) (entries_in self.entry) ≡ false }
    {
        match self.endings {
            Some(endings) => !endings.contains(serial.octets),
            None => false,
        }
    }

    /// The first entry that has this serial number.
    pub(crate) fn first_of(self, serial: Integer<'_>) -> Option<Entry<'a>>
        ensures { option_map said_in result
            ≡ find (has_serial serial.entry.octets.now) (entries_in self.entry) }
    {
        if self.lacks(serial) {
            return None;
        }
        match self.mark_of(serial) {
            Some(mark) => Entry::read(mark.entry).ok(),
            None => None,
        }
    }
}

/// The ends of the serial numbers of the entries that a SEQUENCE's content is, in their order.
fn endings_in(alloc: Global, entries: Element<'_>) -> Result<Vec<u32>, AllocError>
    ensures { IfOk result (λ endings. endings.items
        ≡ map (λ m. ending_of m.userCertificate) (items_at mark_of (inside (now entries.entry)))) }
{
    let mut endings = Vec::new(alloc);
    for mark in SequenceItems::<Mark<'_>>::within(entries) {
        endings.push(ending(mark.serial_number))?;
    }
    Ok(endings)
}

/// The ends of the serial numbers of these entries.
///
/// # Errors
///
/// Out of memory.
pub(crate) fn endings_of(
    alloc: Global,
    revoked: Option<RevokedEntries<'_>>,
) -> Result<Endings, AllocError>
    ensures { IfOk result (λ endings. AreListed endings.sorted.items
        (unwrap_or (option_map entries_in revoked.entry) [])) }
{
    let mut sorted = match revoked {
        Some(revoked) => endings_in(alloc, revoked.element)?,
        None => Vec::new(alloc),
    };
    sorted.sort_unstable();
    Ok(Endings { sorted })
}

/// What is found in the entries of an element, one after another.
fn check_entries<'a>(element: Element<'a>) -> Result<Findings<'a>, Fault>
    ensures { Finds findings_in result (revoked_of (now element.entry)) }
{
    let mut rest = element.reader();
    let mut findings = Findings::none();
    while !rest.is_at_end() {
        note_next(&mut rest, &mut findings)?;
    }
    Ok(findings)
}

/// The entries that a SEQUENCE's content is.
fn read_revoked<'a>(element: Element<'a>) -> Result<RevokedEntries<'a>, Fault>
    ensures { Answers revoked_in result (revoked_of (now element.entry)) }
{
    let findings = check_entries(element)?;
    Ok(RevokedEntries {
        element,
        findings,
        endings: None,
    })
}

/// The entries, where they are next.
#[tactic(auto, unfolding(ts_shape::specs::Fields::optional_of, ts_der::specs::Reading::optional_at))]
pub(crate) fn next_revoked_if_any<'a>(
    fields: &mut Reader<'a>,
) -> Result<Option<RevokedEntries<'a>>, Fault>
    ensures { Takes (option_map revoked_in) fields.new result
        (optional_of 0x30 revoked_of fields.old) }
{
    match fields.optional(SEQUENCE)? {
        Some(element) => Ok(Some(read_revoked(element)?)),
        None => Ok(None),
    }
}
