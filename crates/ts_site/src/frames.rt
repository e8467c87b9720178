//! What a frame of the node says to a request.

ghost use Rattle.std.specs.Prelude.{◌≡◌, option_map};
ghost use Rattle.ts_site.specs.Frames.{prefix_in, reply_in};

use ts_question::Answer;
use ts_wire::Frame;

/// The answer to a question. `None` for any other frame.
pub(crate) fn reply_in(frame: &Frame) -> Option<&Answer>
    ensures { option_map (λ answer. answer.now) result ≡ reply_in frame.now }
{
    match frame {
        Frame::Answer { answer } => Some(answer),
        _ => None,
    }
}

/// How many commands the node knows. `None` for any other frame.
pub(crate) fn prefix_in(frame: &Frame) -> Option<u32>
    ensures { result ≡ prefix_in frame.now }
{
    match frame {
        Frame::Prefix { prefix } => Some(*prefix),
        _ => None,
    }
}
