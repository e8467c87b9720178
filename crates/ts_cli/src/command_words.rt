//! The command that `trustd command` is to write.

ghost use Rattle.std.specs.Prelude.{◌≡◌, IfOk, codes};
ghost use Rattle.clap.specs.Matches.{found_of};
ghost use Rattle.clap.specs.Walk.{rows_of, first_of};
ghost use Rattle.ts_literal.specs.Literals.{IsHex};
ghost use Rattle.ts_cli.specs.Values.{AsWritten};
ghost use Rattle.ts_cli.specs.Given.{IsDigestAt};
ghost use Rattle.ts_cli.specs.Says.{SaysChange, SaysCommand};

use crate::fault::{CommandFault, WrongValue};
use crate::matched::{is_set, string_at, strings_at, text_at, value_at};
use crate::oids::{oids_at, purposes_of};
use clap::ArgMatches;
use std::alloc::Global;
use ts_command::Purposes;
use ts_literal::{digest_of, id_of};

/// The words of a command.
#[derive(Debug, Drop)]
pub struct CommandWords {
    /// The id of the command, if it is given.
    pub id: Option<[u8; 16]>,
    /// Whether the command is written though the store will refuse its file.
    pub force: bool,
    /// What the command does.
    pub change: CommandAction,
}

/// What a command does.
#[derive(Debug, Drop)]
pub enum CommandAction {
    /// Adds a trust anchor.
    Add {
        /// The certificate.
        file: String,
    },
    /// Removes a trust anchor.
    Withdraw {
        /// Its id.
        anchor: [u8; 32],
    },
    /// Adds a CRL.
    Load {
        /// The list.
        file: String,
        /// The files of certificates of which one is to have signed it; none to check nothing.
        issuers: Vec<String>,
        /// Whether the list is not checked in spite of these.
        unchecked: bool,
    },
    /// Removes a CRL.
    Drop {
        /// Its id.
        list: [u8; 32],
    },
    /// Sets the purposes of a trust anchor.
    Purposes {
        /// Its id.
        anchor: [u8; 32],
        /// The purposes.
        purposes: Purposes,
    },
    /// Changes nothing.
    Noop,
}

/// The id of an anchor or a CRL that an argument gives.
pub(crate) fn digest_at(matches: &ArgMatches<'_>, id: &str) -> Result<[u8; 32], CommandFault>
    ensures { IfOk result (IsDigestAt id.now (rows_of (found_of matches.now))) }
{
    let text = text_at(matches, id)?;
    match digest_of(text) {
        Some(digest) => Ok(digest),
        None => Err(CommandFault::Value(WrongValue::Digest)),
    }
}

/// The id of the command, if it is given.
fn command_id(matches: &ArgMatches<'_>) -> Result<Option<[u8; 16]>, CommandFault>
    ensures { IfOk result (AsWritten (IsHex 16)
        (first_of (codes "id") (rows_of (found_of matches.now)))) }
{
    let Some(text) = value_at(matches, "id") else {
        return Ok(None);
    };
    match id_of(text) {
        Some(id) => Ok(Some(id)),
        None => Err(CommandFault::Value(WrongValue::CommandId)),
    }
}

/// The change that `trustd command purposes` asks for: an anchor's purposes are set to these.
fn purposes(alloc: Global, matches: &ArgMatches<'_>) -> Result<CommandAction, CommandFault>
    ensures { IfOk result (SaysChange (codes "purposes") (rows_of (found_of matches.now))) }
{
    let anchor = digest_at(matches, "anchor")?;
    let oids = oids_at(alloc, matches, "purposes")?;
    Ok(CommandAction::Purposes {
        anchor,
        purposes: purposes_of(oids)?,
    })
}

/// What a subcommand of `trustd command` says that the command does.
fn change_named(
    alloc: Global,
    name: &str,
    matches: &ArgMatches<'_>,
) -> Result<CommandAction, CommandFault>
    ensures { IfOk result (SaysChange name.now (rows_of (found_of matches.now))) }
{
    match name {
        "add" => Ok(CommandAction::Add {
            file: string_at(alloc, matches, "file")?,
        }),
        "withdraw" => Ok(CommandAction::Withdraw {
            anchor: digest_at(matches, "anchor")?,
        }),
        "load" => Ok(CommandAction::Load {
            file: string_at(alloc, matches, "file")?,
            issuers: strings_at(alloc, matches, "issuer")?,
            unchecked: is_set(matches, "unchecked"),
        }),
        "drop" => Ok(CommandAction::Drop {
            list: digest_at(matches, "list")?,
        }),
        "purposes" => purposes(alloc, matches),
        "noop" => Ok(CommandAction::Noop),
        _ => Err(CommandFault::Value(WrongValue::Missing)),
    }
}

/// The command that a subcommand says, after the arguments of `trustd command`.
pub(crate) fn command_named(
    alloc: Global,
    own: &ArgMatches<'_>,
    name: &str,
    matches: &ArgMatches<'_>,
) -> Result<CommandWords, CommandFault>
    ensures { IfOk result (SaysCommand (rows_of (found_of own.now)) name.now
        (rows_of (found_of matches.now))) }
{
    Ok(CommandWords {
        id: command_id(own)?,
        force: is_set(own, "force"),
        change: change_named(alloc, name, matches)?,
    })
}
