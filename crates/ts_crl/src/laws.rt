//! Laws about the definitions that the clauses of this crate cite. Each is the contract of a
//! function that does nothing.

ghost use Rattle.std.specs.Prelude.{◌≡◌, ℕ, List, All};
ghost use Rattle.std.specs.List.{find};
ghost use Rattle.ts_shape.specs.Fields.{Within};
ghost use Rattle.ts_ext.specs.declared.known.Known.TheVariants.{IssuingDistributionPoint};
ghost use Rattle.ts_ext.specs.declared.known.Known.TheVariants.{CrlNumber, DeltaCrlIndicator};
ghost use Rattle.ts_ext.specs.declared.known.Known.TheVariants.{AuthorityKeyIdentifier, ReasonCode};
ghost use Rattle.ts_ext.specs.declared.known.Known.TheVariants.{InvalidityDate};
ghost use Rattle.ts_ext.specs.AuthorityKey.{IsAuthorityKey};
ghost use Rattle.ts_ext.specs.Encoding.{IsCrlNumber, IsReasonCode, IsInvalidityDate};
ghost use Rattle.ts_ext.specs.Points.{IsIssuingPoint};
ghost use Rattle.ts_crl.specs.List.{TbsCertList, CertificateList};
ghost use Rattle.ts_crl.specs.Encoding.{IsTbsCertList, IsCertificateList};
ghost use Rattle.ts_crl.specs.Entries.{entries_of};
ghost use Rattle.ts_crl.specs.Profile.{scope_of};
ghost use Rattle.ts_extensions.specs.Stated.{IsStated};
ghost use Rattle.ts_crl.specs.Values.{is_known, list_extensions, entry_extensions_of, crl_number};
ghost use Rattle.ts_crl.specs.Values.{base_number, key_of, reason_of, date_of};

/// No two lists of octets are one CRL, and none is two.
pub fn one_list()
    ensures one_encoding { (octets others : List ℕ) (c : CertificateList)
        → IsCertificateList octets c → IsCertificateList others c → octets ≡ others }
    ensures one_record { (octets : List ℕ) (c d : CertificateList) → IsCertificateList octets c
        → IsCertificateList octets d → c ≡ d }
{}

/// No two lists of octets are the fields of one CRL: what is signed can't be written in a second
/// way.
pub fn one_signed_content()
    ensures { (content other : List ℕ) (fields : TbsCertList) → IsTbsCertList content fields
        → IsTbsCertList other fields → content ≡ other }
{}

/// What a CRL and each of its entries say by an extension: nothing where it does not stand, else
/// the one value that its octets encode. No reader of a field passes over a fault.
pub fn no_missing_value()
    ensures scope { (octets : List ℕ) (c : CertificateList) → IsCertificateList octets c
        → IsStated (Within 0x30 IsIssuingPoint)
        (find (is_known IssuingDistributionPoint) (list_extensions c)) (scope_of c) }
    ensures number { (octets : List ℕ) (c : CertificateList) → IsCertificateList octets c
        → IsStated (Within 0x02 IsCrlNumber) (find (is_known CrlNumber) (list_extensions c))
        (crl_number c) }
    // BaseCRLNumber ::= CRLNumber (RFC 5280 5.2.4).
    ensures base { (octets : List ℕ) (c : CertificateList) → IsCertificateList octets c
        → IsStated (Within 0x02 IsCrlNumber) (find (is_known DeltaCrlIndicator) (list_extensions c))
        (base_number c) }
    ensures key { (octets : List ℕ) (c : CertificateList) → IsCertificateList octets c
        → IsStated (Within 0x30 IsAuthorityKey)
        (find (is_known AuthorityKeyIdentifier) (list_extensions c)) (key_of c) }
    ensures reason { (octets : List ℕ) (c : CertificateList) → IsCertificateList octets c
        → All (λ e. IsStated (Within 0x0A IsReasonCode)
        (find (is_known ReasonCode) (entry_extensions_of e)) (reason_of e)) (entries_of c) }
    ensures date { (octets : List ℕ) (c : CertificateList) → IsCertificateList octets c
        → All (λ e. IsStated (Within 0x18 IsInvalidityDate)
        (find (is_known InvalidityDate) (entry_extensions_of e)) (date_of e)) (entries_of c) }
{}
