//! Commands are read.

ghost use Rattle.std.specs.Prelude.{◌≡◌, Some, IfOk};
ghost use Rattle.ts_codec.specs.Reading.{Gives, ◌into◌, short_blob_at, of_kind, whole};
ghost use Rattle.ts_command.specs.Reading.{listed_at, purposes_at, rows, command_at};

use crate::command::Command;
use crate::kinds::{
    ADD_ANCHOR, ANY_PURPOSE, DROP_CRL, LISTED, LOAD_CRL, NOOP, SET_PURPOSES, WITHDRAW_ANCHOR,
};
use crate::purposes::Purposes;
use crate::values::{CertificateOctets, CrlOctets};
use std::alloc::{AllocError, Global};
use ts_codec::ReadFault;
use ts_codec::reading::{blob32, digest, id, octet, oids};
use ts_octets::Octets;

/// A certificate.
#[tactic(auto, unfolding(ts_codec::specs::Reading::short_blob_at))]
fn certificate(alloc: Global, octets: &[u8]) -> Result<(CertificateOctets, &[u8]), ReadFault>
    ensures { Gives (λ x. (x.0, x.1.now)) result (short_blob_at 65536 octets.now) }
{
    let (content, rest) = blob32(octets)?;
    match CertificateOctets::new(Octets::copy_of(alloc, content)?) {
        Ok(certificate) => Ok((certificate, rest)),
        Err(_) => Err(ReadFault::Form),
    }
}

/// A CRL.
#[tactic(auto, unfolding(ts_codec::specs::Reading::short_blob_at))]
fn crl(alloc: Global, octets: &[u8]) -> Result<(CrlOctets, &[u8]), ReadFault>
    ensures { Gives (λ x. (x.0, x.1.now)) result (short_blob_at 4194304 octets.now) }
{
    let (content, rest) = blob32(octets)?;
    match CrlOctets::new(Octets::copy_of(alloc, content)?) {
        Ok(crl) => Ok((crl, rest)),
        Err(_) => Err(ReadFault::Form),
    }
}

/// Purposes that are listed.
#[tactic(auto, unfolding(crate::specs::Reading::listed_at))]
fn listed_purposes(alloc: Global, octets: &[u8]) -> Result<(Purposes, &[u8]), ReadFault>
    ensures { Gives (λ x. (x.0, x.1.now)) result ((listed_at into Some) octets.now) }
{
    let (count, rest) = octet(octets)?;
    let (oids, rest) = oids(alloc, usize::from(count), rest)?;
    match Purposes::new(oids) {
        Some(purposes) => Ok((purposes, rest)),
        None => Err(ReadFault::Form),
    }
}

/// Purposes.
#[tactic(auto, unfolding(crate::specs::Reading::purposes_at, ts_codec::specs::Reading::of_kind))]
fn purposes(alloc: Global, octets: &[u8]) -> Result<(Purposes, &[u8]), ReadFault>
    ensures { Gives (λ x. (x.0, x.1.now)) result (purposes_at octets.now) }
{
    let (form, rest) = octet(octets)?;
    match form {
        ANY_PURPOSE => Ok((Purposes::any(), rest)),
        LISTED => listed_purposes(alloc, rest),
        _ => Err(ReadFault::Form),
    }
}

/// The command of this id and kind that has these fields.
#[tactic(auto, unfolding(ts_codec::specs::Reading::of_kind))]
fn fields(
    alloc: Global,
    id: [u8; 16],
    kind: u8,
    octets: &[u8],
) -> Result<(Command, &[u8]), ReadFault>
    ensures { Gives (λ x. (x.0, x.1.now)) result (of_kind (rows id) kind octets.now) }
{
    match kind {
        ADD_ANCHOR => {
            let (certificate, rest) = certificate(alloc, octets)?;
            Ok((Command::AddAnchor { id, certificate }, rest))
        }
        WITHDRAW_ANCHOR => {
            let (anchor, rest) = digest(octets)?;
            Ok((Command::WithdrawAnchor { id, anchor }, rest))
        }
        LOAD_CRL => {
            let (crl, rest) = crl(alloc, octets)?;
            Ok((Command::LoadCrl { id, crl }, rest))
        }
        DROP_CRL => {
            let (crl, rest) = digest(octets)?;
            Ok((Command::DropCrl { id, crl }, rest))
        }
        SET_PURPOSES => {
            let (anchor, rest) = digest(octets)?;
            let (purposes, rest) = purposes(alloc, rest)?;
            let command = Command::SetPurposes {
                id,
                anchor,
                purposes,
            };
            Ok((command, rest))
        }
        NOOP => Ok((Command::Noop { id }, octets)),
        _ => Err(ReadFault::Form),
    }
}

/// A command.
#[tactic(auto, unfolding(crate::specs::Reading::command_at))]
fn command(alloc: Global, octets: &[u8]) -> Result<(Command, &[u8]), ReadFault>
    ensures { Gives (λ x. (x.0, x.1.now)) result (command_at octets.now) }
{
    let (id, rest) = id(octets)?;
    let (kind, rest) = octet(rest)?;
    fields(alloc, id, kind, rest)
}

/// The command that the octets are.
pub(crate) fn read_command(alloc: Global, octets: &[u8]) -> Result<Option<Command>, AllocError>
    ensures { IfOk result (λ found. found ≡ whole (command_at octets.now)) }
{
    match command(alloc, octets) {
        Ok((command, rest)) => {
            if rest.is_empty() {
                Ok(Some(command))
            } else {
                Ok(None)
            }
        }
        Err(ReadFault::Form) => Ok(None),
        Err(ReadFault::Memory) => Err(AllocError),
    }
}
