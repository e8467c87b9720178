//! The commands of `submit` lines.

use crate::node_line::WantedLine;
use sha2::{Digest, Sha256};
use std::alloc::Global;
use ts_command::{Command, Purposes};
use ts_octets::Octets;
use ts_script::{LineFault, Symbols};

/// The id of a command: 15 octets of 0, and this one.
pub(crate) fn id_of(last: u8) -> [u8; 16] {
    [0, 0, 0, 0, 0, 0, 0, 0, 0, 0, 0, 0, 0, 0, 0, last]
}

/// The SHA-256 digest of octets.
pub(crate) fn digest_of(octets: &[u8]) -> [u8; 32] {
    let mut hasher = Sha256::new();
    hasher.update(octets);
    hasher.finalize()
}

/// The octets of the certificate of a name.
pub(crate) fn certificate<'a>(known: &'a Symbols, name: &[u8]) -> Result<&'a [u8], LineFault> {
    match known.find_cert(name) {
        Some(one) => Ok(&one.octets),
        None => Err(LineFault::Name),
    }
}

/// The octets of the list of a name.
fn list<'a>(known: &'a Symbols, name: &[u8]) -> Result<&'a [u8], LineFault> {
    match known.find_crl(name) {
        Some(octets) => Ok(octets),
        None => Err(LineFault::Name),
    }
}

/// The command that a line wants. A name that has nothing of its kind is refused as `Name`, and
/// more purposes than an anchor may have as `Limit`.
pub(crate) fn command_of(
    alloc: Global,
    known: &Symbols,
    last: u8,
    wanted: WantedLine<'_>,
) -> Result<Command, LineFault> {
    let id = id_of(last);
    match wanted {
        WantedLine::Add(name) => {
            let octets = Octets::copy_of(alloc, certificate(known, name)?)?;
            Command::add_anchor(id, octets).map_err(|_| LineFault::Limit)
        }
        WantedLine::Load(name) => {
            let octets = Octets::copy_of(alloc, list(known, name)?)?;
            Command::load_crl(id, octets).map_err(|_| LineFault::Limit)
        }
        WantedLine::Withdraw(name) => Ok(Command::WithdrawAnchor {
            id,
            anchor: digest_of(certificate(known, name)?),
        }),
        WantedLine::Drop(name) => Ok(Command::DropCrl {
            id,
            crl: digest_of(list(known, name)?),
        }),
        WantedLine::Purposes { name, oids } => {
            let anchor = digest_of(certificate(known, name)?);
            let purposes = purposes_of(oids)?;
            Ok(Command::SetPurposes {
                id,
                anchor,
                purposes,
            })
        }
        WantedLine::Noop => Ok(Command::Noop { id }),
    }
}

/// These purposes, or any where there is none.
fn purposes_of(oids: Vec<ts_der::Oid>) -> Result<Purposes, LineFault> {
    if oids.is_empty() {
        return Ok(Purposes::any());
    }
    Purposes::new(oids).ok_or(LineFault::Limit)
}
