//! Why a command line gives no task.

ghost use Rattle.std.specs.Prelude.{◌≡◌};
ghost use Rattle.ts_cli.specs.declared.fault.CommandFault.TheVariants.{Memory};
ghost use Rattle.ts_cli.specs.CommandLine.{EndsWith, IsFaultOf};

use clap::error::ErrorKind;
use std::alloc::{AllocError, AllocFailed};
use std::fmt;

/// A value that the command line may not have.
#[derive(Clone, Copy, Debug, PartialEq, Eq)]
pub enum WrongValue {
    /// A word is not there.
    Missing,
    /// No number of nodes.
    Nodes,
    /// No node among them.
    Node,
    /// No number of connections.
    Connections,
    /// A table and the stand-in at once.
    Check,
    /// No number of seconds.
    Seconds,
    /// No number of connections at once.
    AtOnce,
    /// No peer.
    Peer,
    /// No number of seconds to wait.
    Wait,
    Group,
    /// No role.
    Role,
    /// No number of rounds.
    Rounds,
    /// No address.
    Address,
    /// More than nine addresses.
    Addresses,
    /// No id of a command.
    CommandId,
    /// No id of an anchor or a CRL.
    Digest,
    /// No moment.
    Time,
    /// No moment, and not now.
    TimeOrNow,
    /// No number of commands.
    Position,
    /// No position of a command.
    From,
    /// No two numbers of commands.
    Positions,
    /// What a revocation check is asked, where no CRL is given.
    Lists,
    /// Neither anchors nor CRLs.
    Material,
    /// No object identifier.
    Oid,
    /// More than 32 policies.
    Policies,
    /// More than 16 purposes, or one twice.
    Purposes,
    /// More certificates than a question has.
    Certificates,
}

/// What the value has to be.
impl fmt::Display for WrongValue {
    fn fmt<W: fmt::Write>(&self, f: &mut fmt::Formatter<W>) -> fmt::Result {
        let text = match self {
            WrongValue::Missing => "a word is missing",
            WrongValue::Nodes => "--nodes is a number from 1 to 9",
            WrongValue::Node => "--id is a number from 1 to that of the nodes",
            WrongValue::Connections => "--connections is a number from 1 to 1000000",
            WrongValue::Check => "--stand-in goes without --table",
            WrongValue::Seconds => "--idle and --request are numbers of seconds from 1 to 3600",
            WrongValue::AtOnce => "--connections-at-once is a number from 1 to 4096",
            WrongValue::Peer => "--peer is the number of a node, 1 to 9, = and its address",
            WrongValue::Group => "--group is a number from 1 to 4294967295",
            WrongValue::Wait => "--wait is a number of seconds from 1 to 3600",
            WrongValue::Role => "a role is admin, reader, or peer with --node from 1 to 9",
            WrongValue::Rounds => "--rounds is a number from 1 to 1000000",
            WrongValue::Address => "an address is a host, a colon and a port from 0 to 65535",
            WrongValue::Addresses => "there are at most nine addresses",
            WrongValue::CommandId => "the id of a command is 32 lower-case hexadecimal digits",
            WrongValue::Digest => "an id is 64 lower-case hexadecimal digits",
            WrongValue::Time => "--at is a moment, as 20260101000000Z",
            WrongValue::TimeOrNow => "--at is a moment, as 20260101000000Z, or now",
            WrongValue::Position => "--k is a number from 0 to 1000000",
            WrongValue::From => "--from is a number from 1 to 1000000",
            WrongValue::Positions => "K1 and K2 are numbers from 0 to 1000000",
            WrongValue::Lists => "--soft and --deltas go with --crl",
            WrongValue::Material => "sync takes --anchors, --crls or both",
            WrongValue::Oid => "an object identifier is written as 2.5.29.32.0",
            WrongValue::Policies => "there are at most 32 policies",
            WrongValue::Purposes => "there are at most 16 purposes, each once",
            WrongValue::Certificates => "a chain has 1 to 16 certificates, a pool at most 32",
        };
        f.write_str(text)
    }
}

/// Why a command line gives no task.
#[derive(Debug, Drop)]
pub enum CommandFault {
    /// Memory could not be had.
    Memory,
    /// A word is not UTF-8.
    NotText,
    /// The words ask for no task: they are wrong, or ask for help.
    Words(clap::Error),
    /// A word has a value that it may not have.
    Value(WrongValue),
}

impl From<AllocError> for CommandFault {
    ghost from_gives = { λ _ fault. fault ≡ Memory };

    fn from(_error: AllocError) -> CommandFault {
        CommandFault::Memory
    }
}

impl<T: Drop> From<AllocFailed<T>> for CommandFault {
    ghost from_gives = { λ _ fault. fault ≡ Memory };

    fn from(_error: AllocFailed<T>) -> CommandFault {
        CommandFault::Memory
    }
}

impl From<clap::Error> for CommandFault {
    ghost from_gives = { IsFaultOf };

    fn from(error: clap::Error) -> CommandFault {
        if error.kind() == ErrorKind::OutOfMemory {
            CommandFault::Memory
        } else {
            CommandFault::Words(error)
        }
    }
}

/// Prints why there is no task, and returns the status to end with: 2 for a wrong command line, 0
/// for help that was asked for and could be printed, and else 1.
pub fn report(rt: &(impl Eprint + Print), fault: &CommandFault) -> u8
    ensures { EndsWith fault.now result }
{
    let (status, printed) = match fault {
        CommandFault::Memory => (1, eprintln!(rt; "fault: Memory")),
        CommandFault::NotText => (
            2,
            eprintln!(rt; "error: a word of the command line is not UTF-8"),
        ),
        CommandFault::Value(value) => (2, eprintln!(rt; "error: {value}")),
        CommandFault::Words(error) if error.use_stderr() => (2, error.print(rt)),
        CommandFault::Words(error) => (0, error.print(rt)),
    };
    match printed {
        Err(_) if status == 0 => 1,
        _ => status,
    }
}
