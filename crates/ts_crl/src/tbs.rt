//! What is signed.

ghost use Rattle.std.specs.Prelude.{◌≡◌, option_map};
ghost use Rattle.ts_der.specs.Answer.{Answers};
ghost use Rattle.ts_der.specs.View.{now};
ghost use Rattle.ts_field.specs.View.{time_in};
ghost use Rattle.ts_crl.specs.ListView.{tbs_in};
ghost use Rattle.ts_crl.specs.Reading.{crl_tbs_of};

use crate::entries::next_revoked_if_any;
use crate::placed::{PlacedFault, next_wrapped_if_any};
use crate::revoked::RevokedEntries;
use crate::update::next_update;
use crate::version::{ListVersion, next_version};
use ts_der::Element;
use ts_field::{AlgorithmIdentifier, Stamp, Time, next_algorithm, next_name, next_time};
use ts_name::Name;
use ts_shape::CertFault;

/// The fields that are signed, in the order of the standard (RFC 5280 5.1.2).
#[derive(Clone, Copy)]
pub(crate) struct TbsCertList<'a> {
    pub version: ListVersion,
    pub signature: AlgorithmIdentifier<'a>,
    pub issuer: Name<'a>,
    pub this_update: Stamp,
    pub next_update: Option<Stamp>,
    pub revoked: Option<RevokedEntries<'a>>,
    pub extensions: Option<PlacedFault<'a>>,
}

/// A time that may be absent, to be kept.
pub(crate) fn stamp_if_any(time: Option<Time>) -> Option<Stamp>
    ensures { option_map time_in result ≡ time }
{
    match time {
        Some(time) => Some(Stamp::of(time)),
        None => None,
    }
}

/// The fields that a SEQUENCE holds.
#[tactic(auto, unfolding(crate::specs::Reading::crl_tbs_of))]
pub(crate) fn read_tbs<'a>(element: Element<'a>) -> Result<TbsCertList<'a>, CertFault>
    ensures { Answers tbs_in result (crl_tbs_of (now element.entry)) }
{
    let mut fields = element.reader();
    let version = next_version(&mut fields)?;
    let signature = next_algorithm(&mut fields)?;
    let issuer = next_name(&mut fields)?;
    let this_update = next_time(&mut fields)?;
    let next_update = next_update(&mut fields)?;
    let revoked = next_revoked_if_any(&mut fields)?;
    let extensions = next_wrapped_if_any(&mut fields)?;
    fields.end()?;
    Ok(TbsCertList {
        version,
        signature,
        issuer,
        this_update: Stamp::of(this_update),
        next_update: stamp_if_any(next_update),
        revoked,
        extensions,
    })
}
