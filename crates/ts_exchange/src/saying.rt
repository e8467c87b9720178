//! What a client says of a command that was submitted.

ghost use Rattle.std.specs.Prelude.{◌≡◌, IfOk, IfErr, Some, string_bytes};
ghost use Rattle.ts_exchange.specs.Lines.{IsUnsaid, settled_words, started_words};
ghost use Rattle.ts_exchange.specs.Lines.{submit_ending, submit_line};

use crate::ending::{Ending, ending_of};
use crate::fault::ExchangeFault;
use std::alloc::{AllocError, Global};
use ts_command::Outcome;
use ts_synod::Ballot;
use ts_wire::{Frame, FrameFault};

/// What a node answered, as a client says it.
#[derive(Debug, Drop)]
pub struct Saying {
    /// The line that is printed, with its line feed.
    pub line: String,
    /// How the task ends.
    pub ended: Ending,
}

/// The line of a command for which a round began.
fn started_line(alloc: Global, position: u32, ballot: Ballot) -> Result<String, AllocError>
    ensures { IfOk result (λ line. string_bytes line ≡ started_words position ballot) }
{
    format!(in alloc; "submit started {position} {ballot}\n")
}

/// The line of a command that is known to be chosen.
fn settled_line(alloc: Global, position: u32, outcome: Outcome) -> Result<String, AllocError>
    ensures { IfOk result (λ line. string_bytes line ≡ settled_words position outcome) }
{
    format!(in alloc; "submit settled {position} {outcome}\n")
}

/// The line that says what was answered to a command, and how the task ends.
///
/// # Errors
///
/// `Frame(Kind)` exactly where the frame is no answer to a command; `Memory`.
pub fn submit_saying(alloc: Global, answer: &Frame) -> Result<Saying, ExchangeFault>
    ensures line { IfOk result
        (λ said. submit_line answer.now ≡ Some (string_bytes said.line)) }
    ensures ending { IfOk result (λ said. submit_ending answer.now ≡ Some said.ended) }
    ensures fault { IfErr result (IsUnsaid (submit_line answer.now)) }
{
    match answer {
        Frame::Started { position, ballot } => Ok(Saying {
            line: started_line(alloc, *position, *ballot)?,
            ended: Ending::Well,
        }),
        Frame::Settled { position, outcome } => Ok(Saying {
            line: settled_line(alloc, *position, *outcome)?,
            ended: ending_of(*outcome),
        }),
        _ => Err(ExchangeFault::Frame(FrameFault::Kind)),
    }
}
