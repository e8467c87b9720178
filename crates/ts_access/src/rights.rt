//! What a role may ask of a node.

ghost use Rattle.std.specs.Prelude.{◌≡◌};
ghost use Rattle.ts_access.specs.Roles.{is_change, is_message, is_question, is_turned};
ghost use Rattle.ts_access.specs.Roles.{may, may_ask};

use crate::key::Role;

/// Messages between nodes.
fn is_message(kind: u8) -> bool
    ensures { result ≡ is_message kind }
{
    1 <= kind && kind <= 7
}

/// Question, Outcome, Status, Identify and Report.
fn is_question(kind: u8) -> bool
    ensures { result ≡ is_question kind }
{
    kind == 0x11 || kind == 0x13 || kind == 0x15 || kind == 0x17 || kind == 0x18
}

/// Submit, Take, CatchUp and Compact.
fn is_change(kind: u8) -> bool
    ensures { result ≡ is_change kind }
{
    kind == 0x10 || kind == 0x12 || kind == 0x14 || kind == 0x16
}

/// Whether a message's fields begin with this sender and this receiver.
fn is_turned(from: u8, to: u8, fields: &[u8]) -> bool
    ensures { result ≡ is_turned from to fields.now }
{
    let [sender, receiver, ..] = fields else {
        return false;
    };
    *sender == from && *receiver == to
}

/// Whether this role may ask this kind of a node.
fn may_ask(role: Role, node: u8, kind: u8, fields: &[u8]) -> bool
    ensures { result ≡ may_ask role node kind fields.now }
{
    match role {
        Role::Peer(peer) => {
            is_question(kind) || (is_message(kind) && is_turned(peer, node, fields))
        }
        Role::Admin => is_question(kind) || is_change(kind),
        Role::Reader => is_question(kind),
    }
}

/// Whether a key of this role may ask of the node what a frame asks. The frame is all of its
/// octets, or the first eight.
pub fn may(role: Role, node: u8, frame: &[u8]) -> bool
    ensures { result ≡ may role node frame.now }
{
    let [_, _, _, _, _, kind, fields @ ..] = frame else {
        return false;
    };
    may_ask(role, node, *kind, fields)
}
