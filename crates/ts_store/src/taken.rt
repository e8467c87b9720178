//! A command that was taken, and what it changed.

ghost use Rattle.std.specs.Prelude.{◌≡◌, Ok, IfOk};
ghost use Rattle.ts_store.specs.Tables.{Tables as Stated, change as change_by};
ghost use Rattle.ts_command.specs.declared.command.Command.TheVariants.{AddAnchor, LoadCrl};
ghost use Rattle.ts_store.specs.Contents.{contents_of};
ghost use Rattle.ts_store.specs.inside.Taken.{command_in, apply_change};
ghost use Rattle.ts_store.specs.declared.taken.KeptCommand.TheVariants.{Other};

use crate::placing::{crl_change, crl_removal, removal, setting};
use crate::{StoredCrl, Tables, TrustAnchor, digest};
use std::alloc::{AllocError, Global};
use ts_cert::{OwnedCert, OwnedCertFault};
use ts_command::{CertificateOctets, Command, CrlOctets, Purposes};
use ts_crl::{OwnedCrl, OwnedCrlFault};

/// A command, kept so that the anchor or CRL that it loads can be borrowed, in the form in which it
/// was read.
#[derive(Drop)]
pub(crate) enum KeptCommand {
    /// Adds this trust anchor, for any purpose.
    Anchor { id: [u8; 16], anchor: TrustAnchor },
    /// Adds a CRL.
    Crl { id: [u8; 16], crl: StoredCrl },
    /// Any other command, and those whose octets are no certificate or no CRL.
    Other(Command),
}

/// Complete CRLs, or delta CRLs.
#[derive(Clone, Copy, Debug, PartialEq, Eq)]
pub(crate) enum Kind {
    Complete,
    Delta,
}

/// What a command changed, by its place in a table.
#[derive(Clone, Copy, Debug, PartialEq, Eq)]
pub(crate) enum TableChange {
    /// None: the command was refused or repeated, or asks for nothing.
    Nothing,
    /// The command's anchor is the last one.
    AddsAnchor,
    /// The anchor at this place is removed.
    RemovesAnchor { at: usize },
    /// The anchor at this place has the command's purposes.
    SetsPurposes { at: usize },
    /// The command's list is the last one of its kind.
    AddsCrl { kind: Kind },
    /// The command's CRL is at this place, where another CRL of its slot was.
    PutsCrl { kind: Kind, at: usize },
    /// The list at this place is removed.
    RemovesCrl { kind: Kind, at: usize },
}

/// A command that was taken, and what it changed.
#[derive(Drop)]
pub(crate) struct TakenCommand {
    pub kept: KeptCommand,
    pub change: TableChange,
}

/// A command that adds an anchor, and what it changes where it is applied.
fn anchor_taken(id: [u8; 16], certificate: &CertificateOctets) -> Result<TakenCommand, AllocError>
    ensures same { IfOk result (λ taken. command_in taken.kept ≡ AddAnchor id certificate.now) }
    ensures done { IfOk result (λ taken. (old new : Stated)
        → change_by (AddAnchor id certificate.now) old ≡ Ok new
        → apply_change taken.change taken.kept (contents_of old) ≡ contents_of new) }
{
    let octets = certificate.octets();
    match OwnedCert::of(octets) {
        Ok(certificate) => Ok(TakenCommand {
            kept: KeptCommand::Anchor {
                id,
                anchor: TrustAnchor {
                    id: digest(octets.as_slice()),
                    certificate,
                    purposes: Purposes::any(),
                },
            },
            change: TableChange::AddsAnchor,
        }),
        Err(OwnedCertFault::Memory) => Err(AllocError),
        Err(OwnedCertFault::Unreadable(_)) => {
            let certificate = certificate.share()?;
            Ok(TakenCommand {
                kept: KeptCommand::Other(Command::AddAnchor { id, certificate }),
                change: TableChange::Nothing,
            })
        }
    }
}

/// A command that loads a list, and what it changes in these tables where it is applied.
fn crl_taken(
    alloc: Global,
    tables: &Tables,
    id: [u8; 16],
    crl: &CrlOctets,
) -> Result<TakenCommand, AllocError>
    ensures same { IfOk result (λ taken. command_in taken.kept ≡ LoadCrl id crl.now) }
    ensures done { IfOk result (λ taken. (new : Stated)
        → change_by (LoadCrl id crl.now) tables.now ≡ Ok new
        → apply_change taken.change taken.kept (contents_of tables.now) ≡ contents_of new) }
{
    let octets = crl.octets();
    match OwnedCrl::of(alloc, octets) {
        Ok(crl) => {
            let change = crl_change(alloc, tables, crl.view())?;
            let crl = StoredCrl {
                id: digest(octets.as_slice()),
                crl,
            };
            Ok(TakenCommand {
                kept: KeptCommand::Crl { id, crl },
                change,
            })
        }
        Err(OwnedCrlFault::Memory) => Err(AllocError),
        Err(OwnedCrlFault::Unreadable(_)) => {
            let crl = crl.share()?;
            Ok(TakenCommand {
                kept: KeptCommand::Other(Command::LoadCrl { id, crl }),
                change: TableChange::Nothing,
            })
        }
    }
}

/// A copy of another command, and what it changes.
fn other_taken(
    alloc: Global,
    command: &Command,
    change: TableChange,
) -> Result<TakenCommand, AllocError>
    ensures { IfOk result (λ taken. taken ≡ record { kept = Other command.now; change = change }) }
{
    Ok(TakenCommand {
        kept: KeptCommand::Other(command.try_copy(alloc)?),
        change,
    })
}

/// A copy of a command, and what it changes in these tables where it is applied.
pub(crate) fn taken_of(
    alloc: Global,
    tables: &Tables,
    command: &Command,
) -> Result<TakenCommand, AllocError>
    ensures same { IfOk result (λ taken. command_in taken.kept ≡ command.now) }
    ensures done { IfOk result (λ taken. (new : Stated) → change_by command.now tables.now ≡ Ok new
        → apply_change taken.change taken.kept (contents_of tables.now) ≡ contents_of new) }
{
    match command {
        Command::AddAnchor { id, certificate } => anchor_taken(*id, certificate),
        Command::LoadCrl { id, crl } => crl_taken(alloc, tables, *id, crl),
        Command::WithdrawAnchor { anchor, .. } => {
            other_taken(alloc, command, removal(tables.anchors(), anchor))
        }
        Command::SetPurposes { anchor, .. } => {
            other_taken(alloc, command, setting(tables.anchors(), anchor))
        }
        Command::DropCrl { crl, .. } => other_taken(alloc, command, crl_removal(tables, crl)),
        Command::Noop { .. } => other_taken(alloc, command, TableChange::Nothing),
    }
}
