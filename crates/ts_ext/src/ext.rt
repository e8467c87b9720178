//! The value of an extension by its object identifier.

ghost use Rattle.std.specs.Prelude.{◌≡◌, IfOk, IsOkAnd, option_map};
ghost use Rattle.ts_der.specs.Answer.{Answers, refusal};
ghost use Rattle.ts_der.specs.View.{now};
ghost use Rattle.ts_shape.specs.Fault.{about};
ghost use Rattle.ts_shape.specs.Items.{alone};
ghost use Rattle.ts_ext.specs.Known.{known_at};
ghost use Rattle.ts_ext.specs.Ext.{ExtValue, IsExt, content_of, value_of, ext_of, ext_fault};
ghost use Rattle.ts_ext.specs.ExtView.{ext_in};

use crate::alternative_names::AlternativeNames;
use crate::authority_key_identifier::AuthorityKeyIdentifier;
use crate::basic_constraints::BasicConstraints;
use crate::certificate_policies::CertificatePolicies;
use crate::crl_number::{BaseCrlNumber, CrlNumber};
use crate::distribution_points::DistributionPoints;
use crate::extended_key_usage::ExtendedKeyUsage;
use crate::invalidity_date::InvalidityDate;
use crate::issuing_distribution_point::IssuingDistributionPoint;
use crate::key_usage::KeyUsage;
use crate::known::{Holder, Known};
use crate::name_constraints::NameConstraints;
use crate::policy_constraints::PolicyConstraints;
use crate::policy_mappings::PolicyMappings;
use crate::reason_code::ReasonCode;
use crate::skip_certs::SkipCerts;
use ts_der::{Element, Fault, OidRef};
use ts_shape::tagged_as;

/// The value of an extension (RFC 5280 4.2, 5.2, 5.3).
#[derive(Clone, Copy)]
pub enum Ext<'a> {
    SubjectKeyIdentifier(&'a [u8]),
    KeyUsage(KeyUsage<'a>),
    SubjectAltName(AlternativeNames<'a>),
    IssuerAltName(AlternativeNames<'a>),
    BasicConstraints(BasicConstraints),
    CrlNumber(CrlNumber<'a>),
    ReasonCode(ReasonCode),
    InvalidityDate(InvalidityDate),
    DeltaCrlIndicator(BaseCrlNumber<'a>),
    IssuingDistributionPoint(IssuingDistributionPoint<'a>),
    CertificateIssuer(AlternativeNames<'a>),
    NameConstraints(NameConstraints<'a>),
    CrlDistributionPoints(DistributionPoints<'a>),
    CertificatePolicies(CertificatePolicies<'a>),
    PolicyMappings(PolicyMappings<'a>),
    AuthorityKeyIdentifier(AuthorityKeyIdentifier<'a>),
    PolicyConstraints(PolicyConstraints),
    ExtendedKeyUsage(ExtendedKeyUsage<'a>),
    FreshestCrl(DistributionPoints<'a>),
    InhibitAnyPolicy(SkipCerts),
    /// Of an extension that is not read here: the octets within its OCTET STRING.
    Unknown(&'a [u8]),
}

/// The value of an extension that an element of its tag is.
#[tactic(auto, unfolding(ts_shape::specs::Items::of_tag))]
#[inline(always)]
fn read_value<'a>(known: Known, element: Element<'a>) -> Result<Ext<'a>, Fault>
    ensures { Answers ext_in result (value_of known (now element.entry)) }
{
    Ext::read_content(known, tagged_as(element, known.tag())?)
}

/// The one value within an OCTET STRING.
#[tactic(auto, unfolding(ts_shape::specs::Items::alone, ts_shape::specs::Items::each))]
#[inline(always)]
fn read_alone<'a>(known: Known, octets: Element<'a>) -> Result<Ext<'a>, Fault>
    ensures { Answers ext_in result (alone (value_of known) (now octets.entry)) }
{
    let mut rest = octets.reader();
    let value = read_value(known, rest.next()?)?;
    rest.end()?;
    Ok(value)
}

impl<'a> Ext<'a> {
    /// The value of the extension that an object identifier names in a holder, from its OCTET
    /// STRING; of an extension that is not read there the octets. The tag of the OCTET STRING is
    /// not looked at.
    ///
    /// # Errors
    ///
    /// The first rule that the value breaks, with its place: its header and tag, the rules of its
    /// reader, and `Trailing`.
    pub fn read(holder: Holder, oid: OidRef<'a>, octets: Element<'a>) -> Result<Ext<'a>, Fault>
        ensures found { IfOk result (λ x. IsExt
            (known_at holder oid.entry.content.now) octets.entry.content.now (ext_in x)) }
        ensures only { (x : ExtValue) → IsExt
            (known_at holder oid.entry.content.now) octets.entry.content.now x
            → IsOkAnd result (λ y. ext_in y ≡ x) }
        ensures fault { option_map about (refusal result)
            ≡ ext_fault (known_at holder oid.entry.content.now) (now octets.entry) }
        ensures exact { Answers ext_in result
            (ext_of (known_at holder oid.entry.content.now) (now octets.entry)) }
    {
        read_ext(holder, oid, octets)
    }

    /// The value of an extension that an element's content is. Its tag is not looked at.
    ///
    /// # Errors
    ///
    /// The first rule of its reader that is broken, with its place.
    pub fn read_content(known: Known, element: Element<'a>) -> Result<Ext<'a>, Fault>
        ensures { Answers ext_in result (content_of known (now element.entry)) }
    {
        Ok(match known {
            Known::SubjectKeyIdentifier => Ext::SubjectKeyIdentifier(element.content),
            Known::KeyUsage => Ext::KeyUsage(KeyUsage::read(element)?),
            Known::SubjectAltName => Ext::SubjectAltName(AlternativeNames::read(element)?),
            Known::IssuerAltName => Ext::IssuerAltName(AlternativeNames::read(element)?),
            Known::BasicConstraints => Ext::BasicConstraints(BasicConstraints::read(element)?),
            Known::CrlNumber => Ext::CrlNumber(CrlNumber::read(element)?),
            Known::ReasonCode => Ext::ReasonCode(ReasonCode::read(element)?),
            Known::InvalidityDate => Ext::InvalidityDate(InvalidityDate::read(element)?),
            Known::DeltaCrlIndicator => Ext::DeltaCrlIndicator(BaseCrlNumber::read(element)?),
            Known::IssuingDistributionPoint => Ext::IssuingDistributionPoint(
                IssuingDistributionPoint::read(element)?,
            ),
            Known::CertificateIssuer => Ext::CertificateIssuer(AlternativeNames::read(element)?),
            Known::NameConstraints => Ext::NameConstraints(NameConstraints::read(element)?),
            Known::CrlDistributionPoints => Ext::CrlDistributionPoints(DistributionPoints::read(
                element,
            )?),
            Known::CertificatePolicies => Ext::CertificatePolicies(CertificatePolicies::read(
                element,
            )?),
            Known::PolicyMappings => Ext::PolicyMappings(PolicyMappings::read(element)?),
            Known::AuthorityKeyIdentifier => Ext::AuthorityKeyIdentifier(
                AuthorityKeyIdentifier::read(element)?,
            ),
            Known::PolicyConstraints => Ext::PolicyConstraints(PolicyConstraints::read(element)?),
            Known::ExtendedKeyUsage => Ext::ExtendedKeyUsage(ExtendedKeyUsage::read(element)?),
            Known::FreshestCrl => Ext::FreshestCrl(DistributionPoints::read(element)?),
            Known::InhibitAnyPolicy => Ext::InhibitAnyPolicy(SkipCerts::read(element)?),
        })
    }
}

/// The value of an extension with this object identifier, from the OCTET STRING that holds it. An
/// extension that is not known for the holder keeps its octets unread.
#[tactic(auto, unfolding(crate::specs::Ext::ext_of))]
#[inline(always)]
fn read_ext<'a>(holder: Holder, oid: OidRef<'a>, octets: Element<'a>) -> Result<Ext<'a>, Fault>
    ensures { Answers ext_in result
        (ext_of (known_at holder oid.entry.content.now) (now octets.entry)) }
{
    match Known::at(holder, oid) {
        Some(known) => read_alone(known, octets),
        None => Ok(Ext::Unknown(octets.content)),
    }
}
