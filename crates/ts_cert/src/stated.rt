//! What a certificate says by its unique identifiers and its extensions. Each reader of an
//! extension answers `None` where there is no such extension: of a certificate none stands without
//! its value (`laws::no_missing_value`).

ghost use Rattle.std.specs.Prelude.{◌≡◌, map, option_map};
ghost use Rattle.ts_der.specs.Answer.{Answers};
ghost use Rattle.ts_der.specs.BitsView.{parts_of, bits_in};
ghost use Rattle.ts_der.specs.View.{now};
ghost use Rattle.ts_shape.specs.Items.{alone, tagged_as as tagged_as_of};
ghost use Rattle.ts_ext.specs.declared.known.Known.TheVariants as extension;
ghost use Rattle.ts_ext.specs.AuthorityKey.{content_octets_of, authority_key_of};
ghost use Rattle.ts_extensions.specs.Extension.{unlocated};
ghost use Rattle.ts_extensions.specs.ExtensionView.{extensions_in};
ghost use Rattle.ts_ext.specs.GeneralNames.{general_names_of};
ghost use Rattle.ts_ext.specs.NameConstraints.{name_constraints_of};
ghost use Rattle.ts_ext.specs.NameViews.{alternatives_in, authority_key_in, name_constraints_in};
ghost use Rattle.ts_ext.specs.NameViews.{points_in};
ghost use Rattle.ts_ext.specs.Points.{points_of};
ghost use Rattle.ts_ext.specs.Reading.{key_usage_of, basic_constraints_of, certificate_policies_of};
ghost use Rattle.ts_ext.specs.Reading.{policy_mappings_of, policy_constraints_of, ext_key_usage_of};
ghost use Rattle.ts_ext.specs.Reading.{skip_certs_of};
ghost use Rattle.ts_ext.specs.View.{policies_in, mappings_in, purposes_in};
ghost use Rattle.ts_cert.specs.CertView.{cert_in};
ghost use Rattle.ts_cert.specs.inside.AllLocated.{all_located_within};
ghost use Rattle.ts_cert.specs.Stated.{stated_value};

use crate::certificate::Cert;
use crate::optional_reading::{ISSUER_UNIQUE_ID, SUBJECT_UNIQUE_ID};
use crate::part::{extensions_from, unique_id_from};
use ts_der::{Bits, Element, Fault};
use ts_ext::{
    AlternativeNames, AuthorityKeyIdentifier, BasicConstraints, CertificatePolicies,
    DistributionPoints, ExtendedKeyUsage, KeyUsage, Known, NameConstraints, PolicyConstraints,
    PolicyMappings, SkipCerts,
};
use ts_extensions::Extensions;
use ts_shape::tagged_as;

/// The one element within another, which has this tag.
#[tactic(auto, unfolding(ts_shape::specs::Items::alone, ts_shape::specs::Items::each))]
fn element_within<'a>(octets: Element<'a>, tag: u8) -> Result<Element<'a>, Fault>
    ensures { Answers now result (alone (tagged_as_of tag) (now octets.entry)) }
{
    let mut rest = octets.reader();
    let element = tagged_as(rest.next()?, tag)?;
    rest.end()?;
    Ok(element)
}

impl<'a> Cert<'a> {
    /// The unique identifier of the issuer, if there is one (RFC 5280 4.1.2.8).
    pub fn issuer_unique_id(self) -> Option<Bits<'a>>
        ensures { option_map parts_of result ≡ (cert_in self.entry).tbsCertificate.issuerUniqueID }
    {
        unique_id_from(self.octets, self.layout.issuer_unique_id, ISSUER_UNIQUE_ID)
    }

    /// The unique identifier of the subject, if there is one (RFC 5280 4.1.2.8).
    pub fn subject_unique_id(self) -> Option<Bits<'a>>
        ensures { option_map parts_of result ≡ (cert_in self.entry).tbsCertificate.subjectUniqueID }
    {
        unique_id_from(
            self.octets,
            self.layout.subject_unique_id,
            SUBJECT_UNIQUE_ID,
        )
    }

    /// The extensions, in their order, if there are any (RFC 5280 4.1.2.9).
    pub fn extensions(self) -> Option<Extensions<'a>>
        ensures { option_map extensions_in result ≡ (cert_in self.entry).tbsCertificate.extensions }
    {
        match self.extension_list() {
            Some(element) => Some(Extensions::within(element)),
            None => None,
        }
    }

    /// What tells the key that signed the certificate from others of the issuer (RFC 5280 4.2.1.1).
    #[tactic(auto, using(crate::proofs::StatedValues::stated_none, crate::proofs::StatedReaders::authority_key_identifier))]
    pub fn authority_key_identifier(self) -> Option<AuthorityKeyIdentifier<'a>>
        ensures { option_map authority_key_in result
            ≡ stated_value extension.AuthorityKeyIdentifier authority_key_of
            (cert_in self.entry).tbsCertificate }
    {
        AuthorityKeyIdentifier::read(self.content(Known::AuthorityKeyIdentifier)?).ok()
    }

    /// What tells the key of the subject from others (RFC 5280 4.2.1.2).
    pub fn subject_key_identifier(self) -> Option<&'a [u8]>
        ensures { option_map (λ k. k.now) result
            ≡ stated_value extension.SubjectKeyIdentifier content_octets_of
            (cert_in self.entry).tbsCertificate }
    {
        Some(self.content(Known::SubjectKeyIdentifier)?.content)
    }

    /// What the key may be used for (RFC 5280 4.2.1.3).
    #[tactic(auto, using(crate::proofs::StatedValues::stated_none, crate::proofs::StatedReaders::key_usage))]
    pub fn key_usage(self) -> Option<KeyUsage<'a>>
        ensures { option_map (λ u. bits_in u.bits) result
            ≡ stated_value extension.KeyUsage key_usage_of (cert_in self.entry).tbsCertificate }
    {
        KeyUsage::read(self.content(Known::KeyUsage)?).ok()
    }

    /// The policies under which the certificate was issued (RFC 5280 4.2.1.4).
    #[tactic(auto, using(crate::proofs::StatedValues::stated_none, crate::proofs::StatedReaders::certificate_policies))]
    pub fn certificate_policies(self) -> Option<CertificatePolicies<'a>>
        ensures { option_map policies_in result
            ≡ stated_value extension.CertificatePolicies certificate_policies_of
            (cert_in self.entry).tbsCertificate }
    {
        CertificatePolicies::read(self.content(Known::CertificatePolicies)?).ok()
    }

    /// Which policies of the issuer count as which of the subject (RFC 5280 4.2.1.5).
    #[tactic(auto, using(crate::proofs::StatedValues::stated_none, crate::proofs::StatedReaders::policy_mappings))]
    pub fn policy_mappings(self) -> Option<PolicyMappings<'a>>
        ensures { option_map mappings_in result
            ≡ stated_value extension.PolicyMappings policy_mappings_of
            (cert_in self.entry).tbsCertificate }
    {
        PolicyMappings::read(self.content(Known::PolicyMappings)?).ok()
    }

    /// The names of the subject beside its distinguished name (RFC 5280 4.2.1.6).
    #[tactic(auto, using(crate::proofs::StatedValues::stated_none, crate::proofs::StatedReaders::subject_alt_name))]
    pub fn subject_alt_name(self) -> Option<AlternativeNames<'a>>
        ensures { option_map alternatives_in result
            ≡ stated_value extension.SubjectAltName general_names_of
            (cert_in self.entry).tbsCertificate }
    {
        AlternativeNames::read(self.content(Known::SubjectAltName)?).ok()
    }

    /// The names of the issuer beside its distinguished name (RFC 5280 4.2.1.7).
    #[tactic(auto, using(crate::proofs::StatedValues::stated_none, crate::proofs::StatedReaders::issuer_alt_name))]
    pub fn issuer_alt_name(self) -> Option<AlternativeNames<'a>>
        ensures { option_map alternatives_in result
            ≡ stated_value extension.IssuerAltName general_names_of
            (cert_in self.entry).tbsCertificate }
    {
        AlternativeNames::read(self.content(Known::IssuerAltName)?).ok()
    }

    /// Whether the subject may issue certificates, and how many may follow in a path (RFC 5280
    /// 4.2.1.9).
    #[tactic(auto, using(crate::proofs::StatedValues::stated_none, crate::proofs::StatedReaders::basic_constraints))]
    pub fn basic_constraints(self) -> Option<BasicConstraints>
        ensures { result ≡ stated_value extension.BasicConstraints basic_constraints_of
            (cert_in self.entry).tbsCertificate }
    {
        BasicConstraints::read(self.content(Known::BasicConstraints)?).ok()
    }

    /// Which names may stand below this certificate (RFC 5280 4.2.1.10).
    #[tactic(auto, using(crate::proofs::StatedValues::stated_none, crate::proofs::StatedReaders::name_constraints))]
    pub fn name_constraints(self) -> Option<NameConstraints<'a>>
        ensures { option_map name_constraints_in result
            ≡ stated_value extension.NameConstraints name_constraints_of
            (cert_in self.entry).tbsCertificate }
    {
        NameConstraints::read(self.content(Known::NameConstraints)?).ok()
    }

    /// How many certificates may follow in a path before a policy is needed, and before none may be
    /// mapped (RFC 5280 4.2.1.11).
    #[tactic(auto, using(crate::proofs::StatedValues::stated_none, crate::proofs::StatedReaders::policy_constraints))]
    pub fn policy_constraints(self) -> Option<PolicyConstraints>
        ensures { result ≡ stated_value extension.PolicyConstraints policy_constraints_of
            (cert_in self.entry).tbsCertificate }
    {
        PolicyConstraints::read(self.content(Known::PolicyConstraints)?).ok()
    }

    /// The purposes that the key may be used for (RFC 5280 4.2.1.12).
    #[tactic(auto, using(crate::proofs::StatedValues::stated_none, crate::proofs::StatedReaders::extended_key_usage))]
    pub fn extended_key_usage(self) -> Option<ExtendedKeyUsage<'a>>
        ensures { option_map purposes_in result
            ≡ stated_value extension.ExtendedKeyUsage ext_key_usage_of
            (cert_in self.entry).tbsCertificate }
    {
        ExtendedKeyUsage::read(self.content(Known::ExtendedKeyUsage)?).ok()
    }

    /// Where the lists are found that may revoke this certificate (RFC 5280 4.2.1.13).
    #[tactic(auto, using(crate::proofs::StatedValues::stated_none, crate::proofs::StatedReaders::crl_distribution_points))]
    pub fn crl_distribution_points(self) -> Option<DistributionPoints<'a>>
        ensures { option_map points_in result
            ≡ stated_value extension.CrlDistributionPoints points_of
            (cert_in self.entry).tbsCertificate }
    {
        DistributionPoints::read(self.content(Known::CrlDistributionPoints)?).ok()
    }

    /// How many certificates may follow in a path before anyPolicy no longer stands for other
    /// policies (RFC 5280 4.2.1.14).
    #[tactic(auto, using(crate::proofs::StatedValues::stated_none, crate::proofs::StatedReaders::inhibit_any_policy))]
    pub fn inhibit_any_policy(self) -> Option<SkipCerts>
        ensures { option_map (λ n. n.0) result
            ≡ stated_value extension.InhibitAnyPolicy skip_certs_of
            (cert_in self.entry).tbsCertificate }
    {
        SkipCerts::read(self.content(Known::InhibitAnyPolicy)?).ok()
    }

    /// Where the latest changes of such lists are found (RFC 5280 4.2.1.15).
    #[tactic(auto, using(crate::proofs::StatedValues::stated_none, crate::proofs::StatedReaders::freshest_crl))]
    pub fn freshest_crl(self) -> Option<DistributionPoints<'a>>
        ensures { option_map points_in result
            ≡ stated_value extension.FreshestCrl points_of (cert_in self.entry).tbsCertificate }
    {
        DistributionPoints::read(self.content(Known::FreshestCrl)?).ok()
    }

    /// The SEQUENCE of the extensions, if there are any.
    fn extension_list(self) -> Option<Element<'a>>
        ensures { option_map (map unlocated) (option_map all_located_within result)
            ≡ (cert_in self.entry).tbsCertificate.extensions }
    {
        extensions_from(self.octets, self.layout.extensions)
    }

    /// The element that is the value of an extension, where that stands and its octets are one
    /// element of its tag.
    fn content(self, known: Known) -> Option<Element<'a>>
        ensures { option_map (λ e. e.content.now) result
            ≡ stated_value known content_octets_of (cert_in self.entry).tbsCertificate }
    {
        let list = self.extension_list()?;
        let extension = Extensions::within(list).find(known)?;
        element_within(extension.value, known.tag()).ok()
    }
}
