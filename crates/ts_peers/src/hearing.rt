//! What a peer answers on the line to it.

ghost use Rattle.std.specs.Prelude.{◌≡◌};
ghost use Rattle.ts_peers.specs.Hearing.{after_answer, identity_of, is_answer};

use ts_carrier::Contact;
use ts_node::Identity;
use ts_wire::Frame;

/// Which node of which group an answer says that the peer is, if it says that.
pub(crate) fn identity_in(answer: &Frame) -> Option<Identity>
    ensures { result ≡ identity_of answer.now }
{
    match answer {
        Frame::Identity { node, nodes, group } => Some(Identity {
            node: *node,
            nodes: *nodes,
            group: *group,
        }),
        _ => None,
    }
}

/// Takes an answer of a peer that has to be this node. `false` where it is none that this node
/// gives to a message.
pub(crate) fn take_answer(contact: &mut Contact, meant: Identity, answer: &Frame) -> bool
    ensures answer { result ≡ is_answer contact.old meant answer.now }
    ensures after { contact.new ≡ after_answer contact.old meant answer.now }
{
    match answer {
        Frame::Identity { .. } => {
            let is_meant = identity_in(answer) == Some(meant);
            if is_meant {
                contact.meet();
            }
            is_meant
        }
        Frame::Prefix { prefix } if contact.is_met => {
            contact.learn(*prefix);
            true
        }
        Frame::Done { .. } | Frame::NodeFault { .. } => contact.is_met,
        _ => false,
    }
}
