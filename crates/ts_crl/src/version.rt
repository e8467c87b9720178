//! The version of a CRL.

ghost use Rattle.ts_der.specs.Answer.{Answers};
ghost use Rattle.ts_der.specs.View.{now};
ghost use Rattle.ts_shape.specs.Steps.{TakesIn};
ghost use Rattle.ts_crl.specs.Version.{crl_version_of, crl_version_at};

use ts_der::tag::INTEGER;
use ts_der::{Element, Reader};
use ts_shape::{CertFault, CertRule};

/// The version of a CRL (RFC 5280 5.1.2.1).
#[derive(Clone, Copy, Debug, PartialEq, Eq)]
pub enum ListVersion {
    /// Version 1, which is not written.
    V1,
    /// Version 2, written as 1.
    V2,
}

/// The version that an INTEGER is.
#[tactic(auto, unfolding(crate::specs::Version::crl_version_of))]
fn read_version(element: Element<'_>) -> Result<ListVersion, CertFault>
    ensures { Answers (λ v. v) result (crl_version_of (now element.entry)) }
{
    match element.integer()?.octets {
        [1] => Ok(ListVersion::V2),
        _ => Err(CertFault {
            kind: CertRule::Version,
            at: element.at,
        }),
    }
}

/// The version, if one is next, which the reader has then passed; else version 1.
#[tactic(auto, unfolding(crate::specs::Version::crl_version_at))]
pub(crate) fn next_version(fields: &mut Reader<'_>) -> Result<ListVersion, CertFault>
    ensures { TakesIn (λ v. v) fields.new result (crl_version_at fields.old) }
{
    match fields.optional(INTEGER)? {
        Some(element) => read_version(element),
        None => Ok(ListVersion::V1),
    }
}
