//! Certificates.

ghost use Rattle.std.specs.Prelude.{◌≡◌, ◌↔◌, IfOk, IsOkAnd, IsTrue};
ghost use Rattle.std.specs.Option.{option_copied};
ghost use Rattle.ts_der.specs.Answer.{Answers, refusal};
ghost use Rattle.ts_name.specs.NameView.{rdns_in};
ghost use Rattle.ts_name.specs.Sameness.{canon_name};
ghost use Rattle.ts_field.specs.View.{algorithm_in};
ghost use Rattle.ts_cert.specs.Certificate.{Certificate};
ghost use Rattle.ts_cert.specs.Reading.{certificate_of};
ghost use Rattle.ts_cert.specs.Encoding.{IsCertificate};
ghost use Rattle.ts_cert.specs.Table.{certificate_fault};
ghost use Rattle.ts_cert.specs.View.{key_in};
ghost use Rattle.ts_cert.specs.Layout.{AreLaidOut};

use crate::key::SubjectPublicKeyInfo;
use crate::layout::Layout;
use crate::part::{algorithm_from, bits_from, integer_from, key_from, name_from, validity_from};
use crate::reading::read_cert;
use crate::validity::Validity;
use crate::version::Version;
use ts_der::Integer;
use ts_field::AlgorithmIdentifier;
use ts_name::Name;
use ts_shape::CertFault;

/// A certificate as it lies in the source (RFC 5280 4.1). Its octets were read, and where its parts
/// begin is kept.
#[derive(Clone, Copy)]
pub struct Cert<'a> {
    pub(crate) octets: &'a [u8],
    pub(crate) layout: Layout,
    ghost laid: { ∥ AreLaidOut octets.now layout ∥₁ },
}

impl<'a> Cert<'a> {
    ghost use Rattle.ts_cert.specs.CertView.{cert_in};

    /// The certificate that octets are.
    ///
    /// # Errors
    ///
    /// The first rule that is broken, with its place: first more than 65,536 octets (`TooLarge` at
    /// 0); then the shape from front to back, a version other than 1, 2 and 3 (`Version`) in its
    /// place; then `AlgorithmMismatch`, at the algorithm identifier beside the signature; then
    /// extensions in a certificate that is not of version 3 (`ExtensionsInOldVersion`), at the
    /// element that holds them; then `DuplicateExtension`, at the first that has the object
    /// identifier of an earlier one; then the values of the known extensions, in order of place,
    /// each by DER first and then by `SubtreeBounds`, `AddressLength` and `DuplicatePolicy` (RFC
    /// 5280 4.1, 4.2).
    #[inline(always)]
    pub fn read(octets: &'a [u8]) -> Result<Cert<'a>, CertFault>
        // The octets encode the certificate that is given.
        ensures found { IfOk result (λ cert. IsCertificate octets.now (cert_in cert)) }
        // A certificate that the octets encode is the one that is given.
        ensures only { (c : Certificate) → IsCertificate octets.now c
            → IsOkAnd result (λ cert. cert_in cert ≡ c) }
        ensures fault { refusal result ≡ certificate_fault octets.now }
        ensures exact { Answers cert_in result (certificate_of octets.now) }
    {
        read_cert(octets)
    }

    /// The octets that are signed: all of tbsCertificate, header included, as they were read (RFC
    /// 5280 4.1.1.3).
    pub fn tbs(self) -> &'a [u8]
        ensures { result.now ≡ (cert_in self.entry).tbs }
    {
        &self.octets[self.layout.tbs..self.layout.signature_algorithm]
    }

    /// The version (RFC 5280 4.1.2.1).
    pub fn version(self) -> Version
        ensures { result ≡ (cert_in self.entry).tbsCertificate.version }
    {
        self.layout.version
    }

    /// The serial number, of any length and sign (RFC 5280 4.1.2.2).
    pub fn serial_number(self) -> Integer<'a>
        ensures { result.octets.now ≡ (cert_in self.entry).tbsCertificate.serialNumber }
    {
        integer_from(self.octets, self.layout.serial_number)
    }

    /// The issuer (RFC 5280 4.1.2.4).
    pub fn issuer(self) -> Name<'a>
        ensures { rdns_in result ≡ (cert_in self.entry).tbsCertificate.issuer }
    {
        name_from(self.octets, self.layout.issuer)
    }

    /// From when to when the certificate is valid (RFC 5280 4.1.2.5).
    pub fn validity(self) -> Validity
        ensures { result ≡ (cert_in self.entry).tbsCertificate.validity }
    {
        validity_from(self.octets, self.layout.validity)
    }

    /// The subject (RFC 5280 4.1.2.6).
    pub fn subject(self) -> Name<'a>
        ensures { rdns_in result ≡ (cert_in self.entry).tbsCertificate.subject }
    {
        name_from(self.octets, self.layout.subject)
    }

    /// Whether issuer and subject are one name (RFC 5280 6.1).
    pub fn is_self_issued(self) -> bool
        ensures { IsTrue result ↔ (canon_name (cert_in self.entry).tbsCertificate.issuer
            ≡ canon_name (cert_in self.entry).tbsCertificate.subject) }
    {
        self.issuer().same(self.subject())
    }

    /// The subject's public key and its algorithm (RFC 5280 4.1.2.7).
    pub fn subject_public_key_info(self) -> SubjectPublicKeyInfo<'a>
        ensures { key_in result ≡ (cert_in self.entry).tbsCertificate.subjectPublicKeyInfo }
    {
        key_from(self.octets, self.layout.subject_public_key_info)
    }

    /// The algorithm of the signature; it is the same within what is signed and beside the
    /// signature (RFC 5280 4.1.1.2).
    pub fn signature_algorithm(self) -> AlgorithmIdentifier<'a>
        ensures { algorithm_in result ≡ (cert_in self.entry).signatureAlgorithm }
    {
        algorithm_from(self.octets, self.layout.signature_algorithm)
    }

    /// The octets of the signature (RFC 5280 4.1.1.3).
    pub fn signature(self) -> &'a [u8]
        ensures { result.now ≡ (cert_in self.entry).signatureValue }
    {
        bits_from(self.octets, self.layout.signature_value)
    }
}
