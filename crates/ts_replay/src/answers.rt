//! What a node answers to the requests of a replay.

ghost use Rattle.std.specs.Prelude.{◌≡◌};
ghost use Rattle.ts_replay.specs.Answers.{known_in, settled_in};

use ts_wire::Frame;

/// Where a node says that a command is settled, if it says so.
pub fn settled_in(answer: &Frame) -> Option<u32>
    ensures { result ≡ settled_in answer.now }
{
    match answer {
        Frame::Settled { position, .. } => Some(*position),
        _ => None,
    }
}

/// How many commands a node says that it knows, if it says so.
pub fn known_in(answer: &Frame) -> Option<u32>
    ensures { result ≡ known_in answer.now }
{
    match answer {
        Frame::Prefix { prefix } => Some(*prefix),
        _ => None,
    }
}
