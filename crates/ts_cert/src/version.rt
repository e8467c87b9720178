//! The version of a certificate.

ghost use Rattle.std.specs.Prelude.{◌≡◌};
ghost use Rattle.ts_der.specs.Answer.{Answers};
ghost use Rattle.ts_der.specs.View.{now};
ghost use Rattle.ts_cert.specs.Version.{version_integer, version_of, version_at};
ghost use Rattle.ts_shape.specs.Steps.{TakesIn};

use ts_der::tag::INTEGER;
use ts_der::{DerFault, Element, Reader};
use ts_shape::{CertFault, CertRule};

/// The tag of the version, which is explicit (RFC 5280 4.1).
pub(crate) const VERSION: u8 = 0xA0;

/// The version of a certificate (RFC 5280 4.1.2.1).
#[derive(Clone, Copy, Debug, PartialEq, Eq)]
pub enum Version {
    /// Version 1, written as 0 or not at all.
    V1,
    /// Version 2, written as 1.
    V2,
    /// Version 3, written as 2.
    V3,
}

/// The version that an INTEGER is.
#[tactic(auto, unfolding(crate::specs::Version::version_integer))]
fn read_number(element: Element<'_>) -> Result<Version, CertFault>
    ensures { Answers (λ v. v) result (version_integer (now element.entry)) }
{
    match element.integer()?.octets {
        [0] => Ok(Version::V1),
        [1] => Ok(Version::V2),
        [2] => Ok(Version::V3),
        _ => Err(CertFault {
            kind: CertRule::Version,
            at: element.at,
        }),
    }
}

/// The version that a field holds, which is not the default.
#[tactic(auto, unfolding(crate::specs::Version::version_of))]
fn read_version(element: Element<'_>) -> Result<Version, CertFault>
    ensures { Answers (λ v. v) result (version_of (now element.entry)) }
{
    let mut fields = element.reader();
    let version = read_number(fields.element(INTEGER)?)?;
    fields.end()?;
    match version {
        Version::V1 => Err(CertFault {
            kind: CertRule::Der(DerFault::DefaultEncoded),
            at: element.at,
        }),
        _ => Ok(version),
    }
}

/// The version, if one is next, which the reader has then passed; else version 1.
#[tactic(auto, unfolding(crate::specs::Version::version_at))]
pub(crate) fn next_version(fields: &mut Reader<'_>) -> Result<Version, CertFault>
    ensures { TakesIn (λ v. v) fields.new result (version_at fields.old) }
{
    match fields.optional(VERSION)? {
        Some(element) => read_version(element),
        None => Ok(Version::V1),
    }
}
