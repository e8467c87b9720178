//! Laws about the definitions that the clauses of this crate cite. Each is the contract of a
//! function that does nothing.

ghost use Rattle.std.specs.Prelude.{◌≡◌, ℕ, List, Some, None};
ghost use Rattle.ts_ext.specs.declared.known.Holder.TheVariants.{Certificate as CertificateHolder};
ghost use Rattle.ts_ext.specs.declared.known.Known.{Known};
ghost use Rattle.ts_ext.specs.Ext.{ExtValue, content_of};
ghost use Rattle.ts_extensions.specs.Extension.{Extension};
ghost use Rattle.ts_ext.specs.Known.{known_at, identifier_of};
ghost use Rattle.ts_ext.specs.Rules.{broken_rule};
ghost use Rattle.ts_cert.specs.Certificate.{Tbs, Certificate};
ghost use Rattle.ts_cert.specs.Encoding.{IsTbs, IsCertificate};
ghost use Rattle.ts_ext.specs.declared.known.Known.TheVariants as extension;
ghost use Rattle.ts_ext.specs.AuthorityKey.{AreOctetsOf, IsAuthorityKey, authority_key_of};
ghost use Rattle.ts_ext.specs.AuthorityKey.{content_octets_of};
ghost use Rattle.ts_ext.specs.Encoding.{AreCertificatePolicies, AreKeyPurposes, ArePolicyMappings};
ghost use Rattle.ts_ext.specs.Encoding.{IsBasicConstraints, IsKeyUsage, IsPolicyConstraints};
ghost use Rattle.ts_ext.specs.Encoding.{IsSkipCerts};
ghost use Rattle.ts_ext.specs.GeneralNames.{AreGeneralNames, general_names_of};
ghost use Rattle.ts_ext.specs.NameConstraints.{AreConstraints, name_constraints_of};
ghost use Rattle.ts_ext.specs.Points.{ArePoints, points_of};
ghost use Rattle.ts_ext.specs.Reading.{basic_constraints_of, certificate_policies_of};
ghost use Rattle.ts_ext.specs.Reading.{ext_key_usage_of, key_usage_of, policy_constraints_of};
ghost use Rattle.ts_ext.specs.Reading.{policy_mappings_of, skip_certs_of};
ghost use Rattle.ts_cert.specs.Stated.{IsEncoded, known_extension, stated_value};

/// No two lists of octets are one certificate, and none is two.
pub fn one_certificate()
    ensures one_encoding { (octets others : List ℕ) (c : Certificate) → IsCertificate octets c
        → IsCertificate others c → octets ≡ others }
    ensures one_record { (octets : List ℕ) (c d : Certificate) → IsCertificate octets c
        → IsCertificate octets d → c ≡ d }
{}

/// No two lists of octets are the fields of one certificate: what is signed can't be written in a
/// second way.
pub fn one_signed_content()
    ensures { (content other : List ℕ) (fields : Tbs) → IsTbs content fields → IsTbs other fields
        → content ≡ other }
{}

/// No extension of a certificate that is read here stands without its value, and no value that it
/// has breaks a rule.
pub fn no_missing_value()
    ensures has_value { (octets : List ℕ) (c : Certificate) → IsCertificate octets c
        → (known : Known) → known_at CertificateHolder (identifier_of known) ≡ Some known
        → (x : Extension) → known_extension known c.tbsCertificate ≡ Some x
        → (v : ExtValue) × (stated_value known (content_of known) c.tbsCertificate ≡ Some v) }
    ensures keeps_rules { (octets : List ℕ) (c : Certificate) → IsCertificate octets c
        → (known : Known) → known_at CertificateHolder (identifier_of known) ≡ Some known
        → (v : ExtValue) → stated_value known (content_of known) c.tbsCertificate ≡ Some v
        → broken_rule v ≡ None }
{}

/// What a certificate says by each of its extensions is what the octets of the extension encode:
/// nothing where it does not stand, else the one value of them (RFC 5280 4.2). The readers of
/// `Cert` answer these values.
pub fn each_value_is_encoded()
    ensures authority_key_identifier { (octets : List ℕ) (c : Certificate) → IsCertificate octets c
        → IsEncoded extension.AuthorityKeyIdentifier authority_key_of IsAuthorityKey
        c.tbsCertificate }
    ensures subject_key_identifier { (octets : List ℕ) (c : Certificate) → IsCertificate octets c
        → IsEncoded extension.SubjectKeyIdentifier content_octets_of AreOctetsOf c.tbsCertificate }
    ensures key_usage { (octets : List ℕ) (c : Certificate) → IsCertificate octets c
        → IsEncoded extension.KeyUsage key_usage_of IsKeyUsage c.tbsCertificate }
    ensures certificate_policies { (octets : List ℕ) (c : Certificate) → IsCertificate octets c
        → IsEncoded extension.CertificatePolicies certificate_policies_of AreCertificatePolicies
        c.tbsCertificate }
    ensures policy_mappings { (octets : List ℕ) (c : Certificate) → IsCertificate octets c
        → IsEncoded extension.PolicyMappings policy_mappings_of ArePolicyMappings c.tbsCertificate }
    ensures subject_alt_name { (octets : List ℕ) (c : Certificate) → IsCertificate octets c
        → IsEncoded extension.SubjectAltName general_names_of AreGeneralNames c.tbsCertificate }
    ensures issuer_alt_name { (octets : List ℕ) (c : Certificate) → IsCertificate octets c
        → IsEncoded extension.IssuerAltName general_names_of AreGeneralNames c.tbsCertificate }
    ensures basic_constraints { (octets : List ℕ) (c : Certificate) → IsCertificate octets c
        → IsEncoded extension.BasicConstraints basic_constraints_of IsBasicConstraints
        c.tbsCertificate }
    ensures name_constraints { (octets : List ℕ) (c : Certificate) → IsCertificate octets c
        → IsEncoded extension.NameConstraints name_constraints_of AreConstraints c.tbsCertificate }
    ensures policy_constraints { (octets : List ℕ) (c : Certificate) → IsCertificate octets c
        → IsEncoded extension.PolicyConstraints policy_constraints_of IsPolicyConstraints
        c.tbsCertificate }
    ensures extended_key_usage { (octets : List ℕ) (c : Certificate) → IsCertificate octets c
        → IsEncoded extension.ExtendedKeyUsage ext_key_usage_of AreKeyPurposes c.tbsCertificate }
    ensures crl_distribution_points { (octets : List ℕ) (c : Certificate) → IsCertificate octets c
        → IsEncoded extension.CrlDistributionPoints points_of ArePoints c.tbsCertificate }
    ensures inhibit_any_policy { (octets : List ℕ) (c : Certificate) → IsCertificate octets c
        → IsEncoded extension.InhibitAnyPolicy skip_certs_of IsSkipCerts c.tbsCertificate }
    ensures freshest_crl { (octets : List ℕ) (c : Certificate) → IsCertificate octets c
        → IsEncoded extension.FreshestCrl points_of ArePoints c.tbsCertificate }
{}
