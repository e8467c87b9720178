//! The rules of the fields beside their shape: what a version may have, and what extensions keep
//! to.

ghost use Rattle.std.specs.Prelude.{◌≡◌};
ghost use Rattle.ts_cert.specs.Rules.{must_lack, version_fault, extensions_fault};
ghost use Rattle.ts_cert.specs.View.{optional_fields_in};

use crate::optional_fields::OptionalFields;
use crate::version::Version;
use ts_shape::{CertFault, CertRule};

/// `ExtensionsInOldVersion`, where a field stands that may not.
fn must_lack<T>(field: &Option<T>, at: usize) -> Option<CertFault>
    ensures { result ≡ must_lack field.now at }
{
    match field {
        Some(_) => Some(CertFault {
            kind: CertRule::ExtensionsInOldVersion,
            at,
        }),
        None => None,
    }
}

/// The first field that the version does not have (RFC 5280 4.1.2.1).
fn version_rule(version: Version, optional_fields: &OptionalFields<'_>) -> Option<CertFault>
    ensures { result ≡ version_fault version (optional_fields_in optional_fields.now) }
{
    let extensions = must_lack(
        &optional_fields.extensions,
        optional_fields.places.extensions,
    );
    match version {
        Version::V1 => must_lack(
            &optional_fields.issuer_unique_id,
            optional_fields.places.issuer_unique_id,
        )
        .or(must_lack(
            &optional_fields.subject_unique_id,
            optional_fields.places.subject_unique_id,
        ))
        .or(extensions),
        Version::V2 => extensions,
        Version::V3 => None,
    }
}

/// The first of these rules that is broken.
#[inline(always)]
pub(crate) fn broken_rule(
    version: Version,
    optional_fields: &OptionalFields<'_>,
) -> Option<CertFault>
    ensures { result ≡ extensions_fault version (optional_fields_in optional_fields.now) }
{
    match version_rule(version, optional_fields) {
        Some(fault) => Some(fault),
        None => optional_fields.extensions_fault,
    }
}
