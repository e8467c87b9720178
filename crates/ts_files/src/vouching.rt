//! A CRL is checked before the command that loads it is written.

use crate::clock::now;
use crate::fault::TaskFault;
use crate::material::octets_of;
use std::alloc::Global;
use std::rt::{Clock, Files};
use ts_cert::Cert;
use ts_given::{GivenFault, certificates_in, vouch_for};
use ts_show::Kind;
use ts_time::Moment;

/// The certificates of those who may have signed a CRL.
///
/// # Errors
///
/// `Field` where one is no certificate, of which standard error says the rule; `Memory`.
pub fn issuers_in<'a>(
    rt: &impl Eprint,
    alloc: Global,
    octets: &'a [Vec<u8>],
) -> Result<Vec<Cert<'a>>, TaskFault> {
    match certificates_in(alloc, octets) {
        Ok(issuers) => Ok(issuers),
        Err(given) => {
            if let GivenFault::Certificate { fault, .. } = given {
                let (rule, at) = (fault.kind, fault.at);
                let _ = eprintln!(rt; "trustd: --issuer: no certificate: {rule} at {at}");
            }
            Err(TaskFault::from(given))
        }
    }
}

/// Vouches for the CRL that a file holds by these certificates. Standard error says what speaks
/// against it.
///
/// # Errors
///
/// `BadCrl` exactly where something does.
pub fn vouch_by(
    rt: &impl Eprint,
    path: &str,
    octets: &[u8],
    issuers: &[Cert<'_>],
    moment: Moment,
) -> Result<(), TaskFault> {
    match vouch_for(octets, issuers, moment) {
        Ok(()) => Ok(()),
        Err(doubt) => {
            let _ = eprintln!(rt; "trustd: {path}: {doubt}");
            Err(TaskFault::BadCrl)
        }
    }
}

/// Vouches for the CRL that a file holds, at the moment of the clock, by the certificates of some
/// files. Standard error says what speaks against it.
///
/// # Errors
///
/// Those of the files; `Field` where one holds no certificate; `Clock`; `BadCrl` where the octets
/// are no CRL, or something speaks against it.
pub fn vouch_for_file<R: Files + Clock + Eprint>(
    rt: &R,
    alloc: Global,
    path: &str,
    octets: &[u8],
    issuers: &[String],
) -> Result<(), TaskFault> {
    let given = octets_of(rt, alloc, issuers, Kind::Certificate)?;
    let issuers = issuers_in(rt, alloc, &given)?;
    vouch_by(rt, path, octets, &issuers, now(rt)?)
}
