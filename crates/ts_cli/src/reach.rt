//! How a node is reached.

ghost use Rattle.std.specs.Prelude.{IfOk};
ghost use Rattle.clap.specs.Matches.{found_of};
ghost use Rattle.clap.specs.Walk.{rows_of};
ghost use Rattle.ts_cli.specs.Reaching.{IsReach, IsRole};

use crate::fault::{CommandFault, WrongValue};
use crate::matched::{address_at, number_at, optional_string_at, value_at};
use clap::ArgMatches;
use std::alloc::Global;
use ts_access::Role;

/// How a node is reached.
#[derive(Debug, Drop)]
pub struct Reach {
    /// Its address: a host, a colon and a port.
    pub address: String,
    /// The file of the key that it is shown.
    pub key: Option<String>,
}

/// How a command line says that a node is reached.
pub(crate) fn reach_at(alloc: Global, matches: &ArgMatches<'_>) -> Result<Reach, CommandFault>
    ensures { IfOk result (IsReach (rows_of (found_of matches.now))) }
{
    Ok(Reach {
        address: address_at(alloc, matches, "address")?,
        key: optional_string_at(alloc, matches, "key")?,
    })
}

/// The role that a command line names.
pub(crate) fn role_at(matches: &ArgMatches<'_>) -> Result<Role, CommandFault>
    ensures { IfOk result (IsRole (rows_of (found_of matches.now))) }
{
    let node = value_at(matches, "node");
    match value_at(matches, "role") {
        Some(role) if role == "peer" && node.is_some() => {
            let node = number_at(matches, "node", 1, 9, WrongValue::Role)?;
            Ok(Role::Peer(node as u8))
        }
        Some(role) if role == "admin" && node.is_none() => Ok(Role::Admin),
        Some(role) if role == "reader" && node.is_none() => Ok(Role::Reader),
        _ => Err(CommandFault::Value(WrongValue::Role)),
    }
}
