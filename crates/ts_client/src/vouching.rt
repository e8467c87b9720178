//! CRLs are checked before the commands that load them are submitted.

use std::alloc::Global;
use std::rt::{Clock, Files};
use ts_cert::Cert;
use ts_cli::SyncWords;
use ts_crl::Crl;
use ts_exchange::Value;
use ts_files::{TaskFault, issuers_in, now, octets_of, vouch_by};
use ts_show::Kind;

/// Whether each of these is a CRL that a store takes; standard error says which one is none.
fn are_crls(rt: &impl Eprint, crls: &[&Value]) -> bool {
    for crl in crls {
        if Crl::read(&crl.octets).is_err() {
            let path = crl.file.as_str();
            let _ = eprintln!(rt; "trustd: {path}: no CRL that a store takes");
            return false;
        }
    }
    true
}

/// Vouches for CRLs, at the moment of the clock, by anchors and the certificates that the words
/// name, unless they ask for no check. Standard error says what speaks against the first one.
///
/// # Errors
///
/// Those of the files; `Field` where one holds no certificate; `Clock`; `BadCrl` where the octets
/// are no CRL, or something speaks against it.
pub(crate) fn vouch_for_each<R: Files + Clock + Eprint>(
    rt: &R,
    alloc: Global,
    words: &SyncWords,
    anchors: &[Value],
    crls: &[&Value],
) -> Result<(), TaskFault> {
    if crls.is_empty() {
        return Ok(());
    }
    if words.unchecked {
        return if are_crls(rt, crls) {
            Ok(())
        } else {
            Err(TaskFault::BadCrl)
        };
    }
    let given = octets_of(rt, alloc, &words.issuers, Kind::Certificate)?;
    let mut issuers = issuers_in(rt, alloc, &given)?;
    for anchor in anchors {
        if let Ok(cert) = Cert::read(&anchor.octets) {
            issuers.push(cert)?;
        }
    }
    let moment = now(rt)?;
    for crl in crls {
        vouch_by(rt, crl.file.as_str(), &crl.octets, &issuers, moment)?;
    }
    Ok(())
}
