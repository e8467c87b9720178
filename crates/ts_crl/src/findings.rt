//! What the rules of a CRL ask of the extensions of its entries.

ghost use Rattle.std.specs.Prelude.{◌≡◌, ◌||◌, [], ◌∷◌};
ghost use Rattle.std.specs.Option.{option_copied};
ghost use Rattle.ts_shape.specs.Shape.{◌or_else◌};
ghost use Rattle.ts_ext.specs.declared.known.Holder.TheVariants.{Entry as EntryHolder};
ghost use Rattle.ts_ext.specs.declared.known.Known.TheVariants.{CertificateIssuer};
ghost use Rattle.ts_extensions.specs.ExtensionView.{located_as};
ghost use Rattle.ts_extensions.specs.ValueRules.{value_fault as value_fault_of};
ghost use Rattle.ts_crl.specs.EntryView.{extension_as};
ghost use Rattle.ts_crl.specs.Findings.{findings_of};
ghost use Rattle.ts_crl.specs.FindingsView.{findings_in};
ghost use Rattle.ts_crl.specs.Profile.{unprocessed_in};
ghost use Rattle.ts_crl.specs.Values.{is_known};

use ts_ext::{Holder, Known};
use ts_extensions::Extension;
use ts_shape::CertFault;

/// What the rules of a CRL ask of the extensions of its entries (RFC 5280 4.2, 5.1.2.1, 5.3),
/// found while these are read.
#[derive(Clone, Copy)]
pub(crate) struct Findings<'a> {
    /// The first element that holds extensions, of which a CRL of version 1 has none.
    pub old_version: Option<CertFault>,
    /// The first extension that repeats one of its own entry.
    pub repeated: Option<CertFault>,
    /// The first rule that a value breaks.
    pub value: Option<CertFault>,
    /// The object identifier of the first critical extension that is not processed.
    pub unprocessed: Option<&'a [u8]>,
    /// Whether an entry names another issuer.
    pub names_issuer: bool,
}

/// The object identifier of an extension of an entry, if it is critical and not processed.
fn unprocessed_id<'a>(extension: Extension<'a>) -> Option<&'a [u8]>
    ensures { option_copied result
        ≡ unprocessed_in EntryHolder (extension_as extension.entry ∷ []) }
{
    if extension.critical && Known::at(Holder::Entry, extension.id).is_none() {
        Some(extension.id.content)
    } else {
        None
    }
}

/// Whether an extension names the issuer of a certificate.
fn is_issuer(extension: Extension<'_>) -> bool
    ensures { result ≡ is_known CertificateIssuer (extension_as extension.entry) }
{
    extension.id.content == [0x55, 0x1D, Known::CertificateIssuer.arc()].as_slice()
}

impl<'a> Findings<'a> {
    /// What is found in no entries.
    pub(crate) fn none() -> Findings<'a>
        ensures { findings_in result ≡ findings_of [] }
    {
        Findings {
            old_version: None,
            repeated: None,
            value: None,
            unprocessed: None,
            names_issuer: false,
        }
    }

    /// Adds what is found in one more extension of an entry.
    pub(crate) fn note(&mut self, extension: Extension<'a>)
        ensures old_version { self.new.old_version ≡ self.old.old_version }
        ensures repeated { self.new.repeated ≡ self.old.repeated }
        ensures value { self.new.value
            ≡ (self.old.value or_else value_fault_of EntryHolder (located_as extension.entry)) }
        ensures unprocessed { option_copied self.new.unprocessed
            ≡ (option_copied self.old.unprocessed or_else unprocessed_in EntryHolder
            (extension_as extension.entry ∷ [])) }
        ensures issuer { self.new.names_issuer
            ≡ (self.old.names_issuer || is_known CertificateIssuer (extension_as extension.entry)) }
    {
        if self.value.is_none() {
            self.value = extension.first_fault(Holder::Entry);
        }
        if self.unprocessed.is_none() {
            self.unprocessed = unprocessed_id(extension);
        }
        self.names_issuer = self.names_issuer || is_issuer(extension);
    }
}
