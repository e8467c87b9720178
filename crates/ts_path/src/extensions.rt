//! What the conditions ask of a certificate's extensions.

ghost use Rattle.std.specs.Prelude.{◌≡◌, option_map, map};
ghost use Rattle.std.specs.List.{find, list_any};
ghost use Rattle.ts_der.specs.Element.{inside};
ghost use Rattle.ts_der.specs.View.{now};
ghost use Rattle.ts_shape.specs.Items.{items_at};
ghost use Rattle.ts_extensions.specs.ExtensionView.{extensions_in};
ghost use Rattle.ts_ext.specs.Reading.{policy_qualifier_in};
ghost use Rattle.ts_ext.specs.View.{information_in, qualifier_in, policies_in, purposes_in};
ghost use Rattle.ts_cert.specs.CertView.{cert_in};
ghost use Rattle.ts_path.specs.Purposes.{allow, stands_for as stands_for_of};
ghost use Rattle.ts_path.specs.Extensions.{is_ca as is_ca_of, may_sign as may_sign_of, purposes_of};
ghost use Rattle.ts_path.specs.Extensions.{is_other as is_other_of};
ghost use Rattle.ts_path.specs.Extensions.{is_qualified as is_qualified_of};
ghost use Rattle.ts_path.specs.Extensions.{has_other_qualifier as has_other_qualifier_of};
ghost use Rattle.ts_path.specs.Extensions.{is_processed as is_processed_of, is_refused};
ghost use Rattle.ts_path.specs.Extensions.{first_refused as first_refused_of};

use ts_cert::{Cert, Version};
use ts_der::OidRef;
use ts_ext::{
    CertificatePolicies, ExtendedKeyUsage, Holder, Known, PolicyInformation, PolicyQualifier,
};
use ts_extensions::Extensions;
use ts_shape::SequenceOf;

/// anyExtendedKeyUsage, 2.5.29.37.0 (RFC 5280 4.2.1.12), as the content of an OBJECT IDENTIFIER.
const ANY_PURPOSE: &[u8] = b"\x55\x1d\x25\x00";

/// CPS, 1.3.6.1.5.5.7.2.1 (RFC 5280 4.2.1.4).
const CPS: &[u8] = b"\x2b\x06\x01\x05\x05\x07\x02\x01";

/// User notice, 1.3.6.1.5.5.7.2.2 (RFC 5280 4.2.1.4).
const USER_NOTICE: &[u8] = b"\x2b\x06\x01\x05\x05\x07\x02\x02";

/// certificatePolicies, 2.5.29.32.
const CERTIFICATE_POLICIES: &[u8] = b"\x55\x1d\x20";

/// Whether a certificate is that of an authority, which issues certificates (RFC 5280 6.1.4 (k)).
pub(crate) fn is_ca(cert: &Cert<'_>) -> bool
    ensures { result ≡ is_ca_of (cert_in cert.now).tbsCertificate }
{
    if cert.version() != Version::V3 {
        return false;
    }
    match cert.basic_constraints() {
        Some(constraints) => constraints.ca,
        None => false,
    }
}

/// Whether the key of a certificate may sign certificates (RFC 5280 6.1.4 (n)).
pub(crate) fn may_sign(cert: &Cert<'_>) -> bool
    ensures { result ≡ may_sign_of (cert_in cert.now).tbsCertificate }
{
    match cert.key_usage() {
        Some(usage) => usage.key_cert_sign(),
        None => true,
    }
}

// ---- purposes

/// Whether a purpose is the one that is asked, or any.
fn stands_for(asked: &[u8], purpose: &[u8]) -> bool
    ensures { result ≡ stands_for_of asked.now purpose.now }
{
    purpose == asked || purpose == ANY_PURPOSE
}

/// Whether an anchor's purposes allow the one that is asked.
pub(crate) fn is_trusted_for(asked: Option<&[u8]>, purposes: Option<&[&[u8]]>) -> bool
    ensures { result ≡ allow (option_map (λ p. p.now) asked.entry)
        (option_map (λ ps. map (λ p. p.now) ps.now) purposes.entry) }
{
    match (asked, purposes) {
        (Some(asked), Some(purposes)) => hold(purposes, asked),
        _ => true,
    }
}

/// Whether one of these purposes is the one that is asked, or any.
fn hold(purposes: &[&[u8]], asked: &[u8]) -> bool
    ensures { result ≡ list_any (stands_for_of asked.now) (map (λ p. p.now) purposes.now) }
{
    let mut rest = purposes;
    while let [purpose, others @ ..] = rest {
        if stands_for(asked, purpose) {
            return true;
        }
        rest = others;
    }
    false
}

/// Whether the purposes that a certificate states allow the one that is asked (RFC 5280 4.2.1.12).
pub(crate) fn is_meant_for(asked: Option<&[u8]>, cert: &Cert<'_>) -> bool
    ensures { result ≡ allow (option_map (λ p. p.now) asked.entry)
        (purposes_of (cert_in cert.now).tbsCertificate) }
{
    match (asked, cert.extended_key_usage()) {
        (Some(asked), Some(purposes)) => have(purposes, asked),
        _ => true,
    }
}

/// Whether one of the purposes is the one that is asked, or any.
fn have(purposes: ExtendedKeyUsage<'_>, asked: &[u8]) -> bool
    ensures { result ≡ list_any (stands_for_of asked.now) (purposes_in purposes.entry) }
{
    for purpose in purposes.iter() {
        if stands_for(asked, purpose.content) {
            return true;
        }
    }
    false
}

// ---- critical extensions

/// Whether a qualifier is neither CPS nor a user notice.
fn is_other(qualifier: PolicyQualifier<'_>) -> bool
    ensures { result ≡ is_other_of (qualifier_in qualifier.entry) }
{
    let id = qualifier.id.content;
    id != CPS && id != USER_NOTICE
}

/// Whether a policy has such a qualifier.
fn is_qualified(policy: PolicyInformation<'_>) -> bool
    ensures { result ≡ is_qualified_of (information_in policy.entry) }
{
    match policy.policy_qualifiers {
        Some(qualifiers) => any_other(qualifiers),
        None => false,
    }
}

/// Whether one of the qualifiers is neither.
fn any_other<'a>(qualifiers: SequenceOf<'a, PolicyQualifier<'a>>) -> bool
    ensures { result ≡ list_any is_other_of
        (items_at policy_qualifier_in (inside (now qualifiers.entry.element))) }
{
    for qualifier in qualifiers.iter() {
        if is_other(qualifier) {
            return true;
        }
    }
    false
}

/// Whether one of a certificate's policies has such a qualifier.
fn has_other_qualifier(cert: &Cert<'_>) -> bool
    ensures { result ≡ has_other_qualifier_of (cert_in cert.now).tbsCertificate }
{
    match cert.certificate_policies() {
        Some(policies) => any_qualified(policies),
        None => false,
    }
}

/// Whether one of the policies has.
fn any_qualified(policies: CertificatePolicies<'_>) -> bool
    ensures { result ≡ list_any is_qualified_of (policies_in policies.entry) }
{
    for policy in policies.iter() {
        if is_qualified(policy) {
            return true;
        }
    }
    false
}

/// Whether an extension of a certificate is processed.
fn is_processed(cert: &Cert<'_>, id: OidRef<'_>) -> bool
    ensures { result ≡ is_processed_of (cert_in cert.now).tbsCertificate id.entry.content.now }
{
    if Known::at(Holder::Certificate, id).is_none() {
        return false;
    }
    if id.content != CERTIFICATE_POLICIES {
        return true;
    }
    !has_other_qualifier(cert)
}

/// The first critical extension of a certificate, by its place, that is not processed (RFC 5280
/// 6.1.4 (o), 6.1.5 (f)).
pub(crate) fn first_refused<'a>(cert: &Cert<'a>) -> Option<OidRef<'a>>
    ensures { option_map (λ id. id.content.now) result
        ≡ first_refused_of (cert_in cert.now).tbsCertificate }
{
    first_among(cert, cert.extensions()?)
}

/// The first of these extensions that is critical and not processed in the certificate.
fn first_among<'a>(cert: &Cert<'a>, extensions: Extensions<'a>) -> Option<OidRef<'a>>
    ensures { option_map (λ id. id.content.now) result
        ≡ option_map (λ x. x.extnID) (find (is_refused (cert_in cert.now).tbsCertificate)
        (extensions_in extensions.entry)) }
{
    for extension in extensions.iter() {
        if extension.critical && !is_processed(cert, extension.id) {
            return Some(extension.id);
        }
    }
    None
}
