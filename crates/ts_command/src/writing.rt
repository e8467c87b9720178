//! Commands are written.

ghost use Rattle.std.specs.Prelude.{◌≡◌, ◌++◌, length, OnOk};
ghost use Rattle.ts_command.specs.Commands.{purposes_encoding, command_fields, command_encoding};
ghost use Rattle.ts_command.specs.Commands.{CommandFieldsFit, CommandFits};

use crate::command::Command;
use crate::kinds::{
    ADD_ANCHOR, ANY_PURPOSE, DROP_CRL, LISTED, LOAD_CRL, NOOP, SET_PURPOSES, WITHDRAW_ANCHOR,
};
use crate::purposes::Purposes;
use std::alloc::AllocError;
use ts_codec::writing::{push_blob32, push_oids};

/// Writes purposes.
fn push_purposes(out: &mut Vec<u8>, purposes: &Purposes) -> Result<(), AllocError>
    ensures { OnOk result (out.new.items ≡ out.old.items ++ purposes_encoding purposes.now) }
{
    match purposes.oids() {
        None => out.push(ANY_PURPOSE)?,
        Some(oids) => {
            out.push(LISTED)?;
            out.push(oids.len() as u8)?;
            push_oids(out, oids)?;
        }
    }
    Ok(())
}

/// Writes the kind of a command and its fields.
fn push_fields(out: &mut Vec<u8>, command: &Command) -> Result<(), AllocError>
    ensures { OnOk result (out.new.items ≡ out.old.items ++ command_fields command.now) }
{
    match command {
        Command::AddAnchor { certificate, .. } => {
            out.push(ADD_ANCHOR)?;
            push_blob32(out, certificate.as_slice())?;
        }
        Command::WithdrawAnchor { anchor, .. } => {
            out.push(WITHDRAW_ANCHOR)?;
            out.extend_from_slice(anchor)?;
        }
        Command::LoadCrl { crl, .. } => {
            out.push(LOAD_CRL)?;
            push_blob32(out, crl.as_slice())?;
        }
        Command::DropCrl { crl, .. } => {
            out.push(DROP_CRL)?;
            out.extend_from_slice(crl)?;
        }
        Command::SetPurposes {
            anchor,
            purposes,
            ..
        } => {
            out.push(SET_PURPOSES)?;
            out.extend_from_slice(anchor)?;
            push_purposes(out, purposes)?;
        }
        Command::Noop { .. } => out.push(NOOP)?,
    }
    Ok(())
}

/// Writes a command.
pub(crate) fn push_encoding(out: &mut Vec<u8>, command: &Command) -> Result<(), AllocError>
    ensures { OnOk result (out.new.items ≡ out.old.items ++ command_encoding command.now) }
{
    out.extend_from_slice(&command.id())?;
    push_fields(out, command)?;
    Ok(())
}

/// An id has 16 octets.
fn is_id(id: [u8; 16])
    ensures { length id ≡ 16 }
{}

/// A digest has 32 octets.
fn is_digest(digest: [u8; 32])
    ensures { length digest ≡ 32 }
{}

/// The fields of each command have an encoding.
fn fields_have_encoding(command: &Command)
    ensures { CommandFieldsFit command.now }
{
    match command {
        Command::AddAnchor { certificate, .. } => {
            let _ = certificate.as_slice();
        }
        Command::WithdrawAnchor { anchor, .. } => is_digest(*anchor),
        Command::LoadCrl { crl, .. } => {
            let _ = crl.as_slice();
        }
        Command::DropCrl { crl, .. } => is_digest(*crl),
        Command::SetPurposes {
            anchor,
            purposes,
            ..
        } => {
            is_digest(*anchor);
            let _ = purposes.oids();
        }
        Command::Noop { .. } => {}
    }
}

/// Each command has an encoding.
pub(crate) fn has_encoding(command: &Command)
    ensures { CommandFits command.now }
{
    is_id(command.id());
    fields_have_encoding(command);
}
