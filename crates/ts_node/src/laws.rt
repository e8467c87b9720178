//! What holds of every run of nodes, on a function that does nothing.

ghost use Rattle.std.specs.Prelude.{◌≤◌, ℕ, List};
ghost use Rattle.ts_node.specs.Machine.{store_of};
ghost use Rattle.ts_node.specs.Allowed.{AllCallsAre};
ghost use Rattle.ts_node.specs.Run.{AreAllowed, Group, Happening, IsStart, RunPromises};

use crate::machine::Machine;
use ts_disk::Disk;
use ts_synod::{Codec, Command};

/// Over every list of deliveries, losses, repeats, reorderings, crashes, restarts and compactions,
/// no two nodes learn different commands at one position, and what is learned is chosen there;
/// every answer given at k is one to its question after the first k chosen commands; each id is
/// settled at the first position that has it, with the outcome there; and each chosen command was
/// submitted.
///
/// A run is what the contracts of `Node::handle`, `Node::turn` and `Node::open` allow
/// (`calls_are_allowed`): each call meets that of `handle` or of `turn`, and each opening that of
/// `open` on images that a crash may leave. At each moment the nodes' facts are equivalent to those
/// of one run of the protocol's world, and the messages are those of that run. The premises: at
/// most nine nodes, each of which was first opened on what `Record::format` left for its own
/// number, and has a machine of the same basis; and no message that was not sent is delivered.
pub fn headline<D: Disk, C: Command + Codec, M: Machine<C>>()
    ensures { (basis : M.Basis) (n : ℕ) (start : Group D C M M.Outcome M.Question M.Answer)
        (run : List (Happening D C M M.Outcome M.Question M.Answer)) → n ≤ 9
        → IsStart C.octets n start
        → AreAllowed C.octets (store_of M.Question M.client_id M.outcome)
        (M.is_answer basis) n start run
        → RunPromises (store_of M.Question M.client_id M.outcome) (M.is_answer basis) n start run }
{}

/// What the contracts of a node's calls say is what a run allows: of `Node::handle`, `Node::turn`,
/// `Node::stage` with `Node::keep_staged`, and `Node::open`. Of a node of a group that is not
/// broken, an answer and a fault are things that can happen; and where it stops, between two calls
/// or at any moment within one, and is opened again, that is one too. What was staged is a list of
/// them, once it is kept: its turns and refusals in their order; and where the node stops within
/// `keep_staged`, either none of them or all, and then the opening. So `headline` speaks of every
/// list of such calls.
pub fn calls_are_allowed<D: Disk, C: Command + Codec, M: Machine<C>>()
    ensures { (basis : M.Basis) (n : ℕ) → AllCallsAre D.state C.octets
        (store_of M.Question M.client_id M.outcome) M.commands M.basis M.is_answer n basis }
{}
