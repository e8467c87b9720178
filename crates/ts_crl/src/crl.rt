//! CRLs.

ghost use Rattle.std.specs.Prelude.{◌≡◌, ◌↔◌, None, false, map, option_map, IfOk, IsOkAnd};
ghost use Rattle.ts_der.specs.Answer.{refusal};
ghost use Rattle.ts_name.specs.NameView.{rdns_in};
ghost use Rattle.ts_extensions.specs.ExtensionView.{extensions_in};
ghost use Rattle.ts_field.specs.View.{algorithm_in};
ghost use Rattle.ts_crl.specs.Entries.{first_entry, has_entry};
ghost use Rattle.ts_crl.specs.EntryView.{entry_in, entries_in};
ghost use Rattle.ts_ext.specs.NameViews.{authority_key_in, issuing_point_in};
ghost use Rattle.ts_crl.specs.Fault.{AnswersBy, fault_in};
ghost use Rattle.ts_crl.specs.List.{CertificateList};
ghost use Rattle.ts_crl.specs.Profile.{scope_of};
ghost use Rattle.ts_crl.specs.Values.{crl_number, base_number, key_of};
ghost use Rattle.ts_crl.specs.ListView.{located_list_in, crl_in};
ghost use Rattle.ts_crl.specs.Encoding.{IsCertificateList};
ghost use Rattle.ts_crl.specs.Table.{list_fault, crl_fault, crl_of};

use crate::entry::Entry;
use crate::fault::CrlFault;
use crate::placed::PlacedFault;
use crate::profile::{profile_fault, scope};
use crate::revoked::RevokedEntries;
use crate::rules::placed_fault;
use crate::shape::read_shape;
use crate::values::{base_if_any, value_if_any};
use crate::version::ListVersion;
use ts_der::Integer;
use ts_digest::Message;
use ts_ext::{AuthorityKeyIdentifier, CrlNumber, Ext, Holder, IssuingDistributionPoint, Known};
use ts_extensions::Extensions;
use ts_field::{AlgorithmIdentifier, Stamp, Time};
use ts_name::Name;

/// A CRL as it lies in the source (RFC 5280 5.1).
#[derive(Clone, Copy)]
pub struct Crl<'a> {
    pub(crate) tbs: Message<'a>,
    pub(crate) version: ListVersion,
    pub(crate) signature: AlgorithmIdentifier<'a>,
    pub(crate) issuer: Name<'a>,
    pub(crate) this_update: Stamp,
    pub(crate) next_update: Option<Stamp>,
    pub(crate) revoked: Option<RevokedEntries<'a>>,
    pub(crate) extensions: Option<PlacedFault<'a>>,
    pub(crate) signature_algorithm: AlgorithmIdentifier<'a>,
    pub(crate) signature_value: &'a [u8],
    /// The offset of the algorithm identifier beside the signature.
    pub(crate) identifier_at: usize,
}

impl<'a> Crl<'a> {
    /// The CRL that octets are.
    ///
    /// # Errors
    ///
    /// The first rule that is broken, with its place: first more than 4,194,304 octets (`TooLarge`
    /// at 0); then the shape from front to back, a version other than 2 (`Version`) in its place;
    /// then `AlgorithmMismatch`, at the algorithm identifier beside the signature; then, of a CRL
    /// without a version, `ExtensionsInOldVersion` at the first element that holds extensions; then
    /// `DuplicateExtension` at the first extension that repeats one of its own list; then the first
    /// rule that a value breaks, extension after extension, whose place is 0 where it is not one of
    /// DER.
    ///
    /// Then the rules of this profile, which have no place: `NoNextUpdate`; `CriticalCrlExtension`,
    /// for the first critical extension of the CRL, then of its entries, that is not read there;
    /// `Indirect`; `RelativeName`;
    /// `DeltaCrl`.
    pub fn read(octets: &'a [u8]) -> Result<Crl<'a>, CrlFault<'a>>
        // The octets encode the CRL that is given.
        ensures found { IfOk result (λ crl. IsCertificateList octets.now (crl_in crl)) }
        // A CRL that the octets encode is the one that is given.
        ensures only { (c : CertificateList) → IsCertificateList octets.now c
            → IsOkAnd result (λ crl. crl_in crl ≡ c) }
        ensures fault { option_map fault_in (refusal result) ≡ crl_fault octets.now }
        ensures exact { AnswersBy crl_in fault_in result (crl_of octets.now) }
    {
        read_crl(octets)
    }

    /// The octets that are signed: all of tbsCertList, header included, as they were read (RFC 5280
    /// 5.1.1.3).
    pub fn tbs(self) -> &'a [u8]
        ensures { result.now ≡ (crl_in self.entry).tbs }
    {
        self.tbs.octets
    }

    /// The octets that are signed, with their hash where it is at hand.
    pub fn signed(self) -> Message<'a>
        ensures { result.octets.now ≡ (crl_in self.entry).tbs }
    {
        self.tbs
    }

    /// The version (RFC 5280 5.1.2.1).
    pub fn version(self) -> ListVersion
        ensures { result ≡ (crl_in self.entry).tbsCertList.version }
    {
        self.version
    }

    /// The issuer of the CRL (RFC 5280 5.1.2.3).
    pub fn issuer(self) -> Name<'a>
        ensures { rdns_in result ≡ (crl_in self.entry).tbsCertList.issuer }
    {
        self.issuer
    }

    /// When the CRL was issued (RFC 5280 5.1.2.4).
    pub fn this_update(self) -> Time
        ensures { result ≡ (crl_in self.entry).tbsCertList.thisUpdate }
    {
        self.this_update.time()
    }

    /// By when the next CRL is issued (RFC 5280 5.1.2.5).
    pub fn next_update(self) -> Option<Time>
        ensures { result ≡ (crl_in self.entry).tbsCertList.nextUpdate }
    {
        match self.next_update {
            Some(stamp) => Some(stamp.time()),
            None => None,
        }
    }

    /// The certificates that are revoked; `None` where the CRL has no such field, which is not a
    /// field without entries (RFC 5280 5.1.2.6).
    pub fn revoked(self) -> Option<RevokedEntries<'a>>
        ensures { option_map entries_in result
            ≡ (crl_in self.entry).tbsCertList.revokedCertificates }
    {
        self.revoked
    }

    /// The first entry that has this serial number, by the octets of its INTEGER; `None` exactly
    /// where no entry has it.
    pub fn entry(self, serial: Integer<'_>) -> Option<Entry<'a>>
        ensures first { option_map entry_in result
            ≡ first_entry serial.entry.octets.now (crl_in self.entry) }
        ensures absent { (result ≡ None)
            ↔ (has_entry serial.entry.octets.now (crl_in self.entry) ≡ false) }
    {
        find_entry(self, serial)
    }

    /// The extensions of the CRL, where it has any (RFC 5280 5.1.2.7).
    pub fn extensions(self) -> Option<Extensions<'a>>
        ensures { option_map extensions_in result ≡ (crl_in self.entry).tbsCertList.crlExtensions }
    {
        match self.extensions {
            Some(placed) => Some(placed.list.extensions()),
            None => None,
        }
    }

    /// What the CRL covers, where it says so (RFC 5280 5.2.5).
    pub fn scope(self) -> Option<IssuingDistributionPoint<'a>>
        ensures { option_map issuing_point_in result ≡ scope_of (crl_in self.entry) }
    {
        scope(&self)
    }

    /// The number of the CRL, where it has one (RFC 5280 5.2.3).
    pub fn crl_number(self) -> Option<CrlNumber<'a>>
        ensures { option_map (λ n. n.octets.now) result ≡ crl_number (crl_in self.entry) }
    {
        match value_if_any(Holder::List, Known::CrlNumber, self.extensions) {
            Some(Ext::CrlNumber(number)) => Some(number),
            _ => None,
        }
    }

    /// The number of the CRL that this one states the changes of, where it is a delta (RFC 5280
    /// 5.2.4).
    pub fn base_crl_number(self) -> Option<CrlNumber<'a>>
        ensures { option_map (λ n. n.octets.now) result ≡ base_number (crl_in self.entry) }
    {
        match base_if_any(self.extensions) {
            Some(Ext::CrlNumber(number)) => Some(number),
            _ => None,
        }
    }

    /// The key that signed the CRL, where it says so (RFC 5280 5.2.1).
    pub fn authority_key_identifier(self) -> Option<AuthorityKeyIdentifier<'a>>
        ensures { option_map authority_key_in result ≡ key_of (crl_in self.entry) }
    {
        match value_if_any(Holder::List, Known::AuthorityKeyIdentifier, self.extensions) {
            Some(Ext::AuthorityKeyIdentifier(key)) => Some(key),
            _ => None,
        }
    }

    /// The algorithm of the signature; it is the same within what is signed and beside the
    /// signature (RFC 5280 5.1.1.2).
    pub fn signature_algorithm(self) -> AlgorithmIdentifier<'a>
        ensures { algorithm_in result ≡ (crl_in self.entry).signatureAlgorithm }
    {
        self.signature_algorithm
    }

    /// The octets of the signature (RFC 5280 5.1.1.3).
    pub fn signature(self) -> &'a [u8]
        ensures { result.now ≡ (crl_in self.entry).signatureValue }
    {
        self.signature_value
    }
}

/// The first entry of a CRL that has this serial number.
fn find_entry<'a>(crl: Crl<'a>, serial: Integer<'_>) -> Option<Entry<'a>>
    ensures { option_map entry_in result ≡ first_entry serial.entry.octets.now (crl_in crl.entry) }
{
    let Crl { revoked, .. } = crl;
    match revoked {
        Some(revoked) => revoked.first_of(serial),
        None => None,
    }
}

/// The first rule that a CRL of the right shape breaks.
pub(crate) fn broken_rule<'a>(crl: &Crl<'a>) -> Option<CrlFault<'a>>
    ensures { option_map fault_in result ≡ list_fault (located_list_in crl.now) }
{
    match placed_fault(crl) {
        Some(fault) => Some(CrlFault::Broken(fault)),
        None => profile_fault(crl),
    }
}

/// The CRL that octets are, or the first rule that they break: the rules of the shape come first.
#[tactic(auto, unfolding(crate::specs::Table::crl_of))]
fn read_crl<'a>(octets: &'a [u8]) -> Result<Crl<'a>, CrlFault<'a>>
    ensures { AnswersBy crl_in fault_in result (crl_of octets.now) }
{
    let crl = read_shape(octets)?;
    match broken_rule(&crl) {
        Some(fault) => Err(fault),
        None => Ok(crl),
    }
}
