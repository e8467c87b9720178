//! Which messages a node takes.

ghost use Rattle.std.specs.Prelude.{◌≡◌, ◌≤◌, ◌↔◌, length, IsTrue};
ghost use Rattle.ts_command.specs.Octets.{octets_of};
ghost use Rattle.ts_node.specs.Inputs.{BodyFits, IsShort};
ghost use Rattle.ts_record.specs.Facts.{IsBallot, IsPosition};

use ts_command::Command;
use ts_synod::{Ballot, Body, Message};

/// Whether a number is a position of the log, which are 1 to 1,000,000.
fn is_position(position: u32) -> bool
    ensures { IsTrue result ↔ IsPosition position }
{
    1 <= position && position <= 1_000_000
}

/// Whether a number is a ballot: a round of 1 to 4,294,967,295, times 16, plus a node of 1 to 9.
fn is_ballot(ballot: Ballot) -> bool
    ensures { IsTrue result ↔ IsBallot ballot }
{
    16 <= ballot && ballot < 1 << 36 && 1 <= ballot % 16 && ballot % 16 <= 9
}

/// A command's encoding has 17 to 4,194,325 octets.
fn is_short(command: &Command)
    ensures { IsShort (octets_of command.now) }
{
    command.has_encoding();
}

/// Whether a node takes a message: its position is 1 to 1,000,000, and its ballot has a round of 1
/// to 4,294,967,295 and a node of 1 to 9, where the message is one whose position or ballot a node
/// keeps.
pub fn is_deliverable(message: &Message<Command>) -> bool
    ensures { IsTrue result ↔ BodyFits octets_of message.now.body }
{
    match &message.body {
        Body::Prepare { position, ballot } => is_position(*position) && is_ballot(*ballot),
        Body::Accept {
            position,
            ballot,
            command,
        } => {
            is_short(command);
            is_position(*position) && is_ballot(*ballot)
        }
        Body::Accepted {
            position,
            command,
            ..
        }
        | Body::Give { position, command } => {
            is_short(command);
            is_position(*position)
        }
        Body::Promise { .. } | Body::Busy { .. } | Body::Ask { .. } => true,
    }
}
