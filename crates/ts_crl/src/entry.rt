//! Entries of a CRL.

ghost use Rattle.std.specs.Prelude.{◌≡◌, option_map};
ghost use Rattle.ts_der.specs.Answer.{Answers};
ghost use Rattle.ts_der.specs.View.{now};
ghost use Rattle.ts_extensions.specs.ExtensionView.{extensions_in};
ghost use Rattle.ts_crl.specs.EntryView.{entry_as, entry_in};
ghost use Rattle.ts_crl.specs.Reading.{entry_of};

use crate::placed::{PlacedFault, next_extensions_if_any};
use crate::values::value_if_any;
use ts_der::tag::SEQUENCE;
use ts_der::{Element, Fault, Integer};
use ts_ext::{Ext, Holder, InvalidityDate, Known, ReasonCode};
use ts_extensions::Extensions;
use ts_field::{Stamp, Time, next_integer, next_time};
use ts_shape::{FromElement, tagged_as};

/// A certificate that a CRL says to be revoked, as it lies in the source (RFC 5280 5.1.2.6).
#[derive(Clone, Copy)]
pub struct Entry<'a> {
    pub(crate) serial_number: Integer<'a>,
    pub(crate) date: Stamp,
    pub(crate) extensions: Option<PlacedFault<'a>>,
}

impl<'a> FromElement<'a> for Entry<'a> {
    ghost use Rattle.ts_crl.specs.List.{LocatedEntry};
    ghost use Rattle.ts_crl.specs.Reading.{located_entry_of as reading_of};

    ghost Record = { LocatedEntry };

    ghost record_of = { entry_as };

    ghost reading = { reading_of };

    ghost key_of = { λ e. e.userCertificate };

    #[tactic(auto, unfolding(ts_shape::specs::Items::of_tag))]
    fn read(element: Element<'a>) -> Result<Entry<'a>, Fault> {
        read_entry(tagged_as(element, SEQUENCE)?)
    }
}

impl<'a> Entry<'a> {
    /// The serial number of the certificate, of any length and sign (RFC 5280 5.1.2.6).
    pub fn serial_number(self) -> Integer<'a>
        ensures { result.octets.now ≡ (entry_in self.entry).userCertificate }
    {
        self.serial_number
    }

    /// When the certificate was revoked (RFC 5280 5.1.2.6).
    pub fn revocation_date(self) -> Time
        ensures { result ≡ (entry_in self.entry).revocationDate }
    {
        self.date.time()
    }

    /// The extensions of the entry, where it has any (RFC 5280 5.3).
    pub fn extensions(self) -> Option<Extensions<'a>>
        ensures { option_map extensions_in result ≡ (entry_in self.entry).crlEntryExtensions }
    {
        match self.extensions {
            Some(placed) => Some(placed.list.extensions()),
            None => None,
        }
    }
}

impl<'a> Entry<'a> {
    ghost use Rattle.ts_crl.specs.Values.{reason_of, date_of};

    /// Why the certificate was revoked, where the entry says so (RFC 5280 5.3.1).
    pub fn reason_code(self) -> Option<ReasonCode>
        ensures { result ≡ reason_of (entry_in self.entry) }
    {
        match value_if_any(Holder::Entry, Known::ReasonCode, self.extensions) {
            Some(Ext::ReasonCode(reason)) => Some(reason),
            _ => None,
        }
    }

    /// Since when the certificate is not to be relied on, where the entry says so (RFC 5280 5.3.2).
    pub fn invalidity_date(self) -> Option<InvalidityDate>
        ensures { option_map (λ d. d.seconds) result ≡ date_of (entry_in self.entry) }
    {
        match value_if_any(Holder::Entry, Known::InvalidityDate, self.extensions) {
            Some(Ext::InvalidityDate(date)) => Some(date),
            _ => None,
        }
    }
}

/// The entry that a SEQUENCE is.
#[tactic(auto, unfolding(crate::specs::Reading::entry_of))]
fn read_entry<'a>(element: Element<'a>) -> Result<Entry<'a>, Fault>
    ensures { Answers entry_as result (entry_of (now element.entry)) }
{
    let mut fields = element.reader();
    let serial_number = next_integer(&mut fields)?;
    let date = next_time(&mut fields)?;
    let extensions = next_extensions_if_any(&mut fields)?;
    fields.end()?;
    Ok(Entry {
        serial_number,
        date: Stamp::of(date),
        extensions,
    })
}
