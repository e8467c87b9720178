//! What keeps a node in order: its state is asked for, what it missed is asked of the others, its
//! record is rewritten.

ghost use Rattle.std.specs.Prelude.{◌≡◌, [], if◌then◌else◌, IfOk, IfErr, Some, string_bytes};
ghost use Rattle.std.specs.Str.{is_utf8};
ghost use Rattle.ts_exchange.specs.Lines.{IsUnsaid, catch_up_line, compact_line, identity_line};
ghost use Rattle.ts_exchange.specs.Lines.{identity_words, prefix_line, report_text};
ghost use Rattle.ts_exchange.specs.Lines.{request_of, upkeep_line};

use crate::fault::ExchangeFault;
use std::alloc::{AllocError, Global};
use ts_wire::{Frame, FrameFault};

/// What is asked of a server for its own sake.
#[derive(Clone, Copy, Debug, PartialEq, Eq)]
pub enum Upkeep {
    /// How many commands it knows.
    Status,
    /// Which node of which group it is.
    Identify,
    /// How it does.
    Report,
    /// That it asks the others for what it lacks. What they give comes with the messages that are
    /// carried then.
    CatchUp,
    /// That it makes one step of the rewriting of its record.
    Compact,
}

impl Upkeep {
    /// The request.
    pub fn request(self) -> Frame
        ensures { result ≡ request_of self }
    {
        match self {
            Upkeep::Status => Frame::Status,
            Upkeep::Identify => Frame::Identify,
            Upkeep::Report => Frame::Report,
            Upkeep::CatchUp => Frame::CatchUp,
            Upkeep::Compact => Frame::Compact,
        }
    }
}

/// The fault of a frame that is no answer to what was asked.
const NO_ANSWER: ExchangeFault = ExchangeFault::Frame(FrameFault::Kind);

/// The line that says how many commands a node knows.
fn prefix_line(alloc: Global, answer: &Frame) -> Result<String, ExchangeFault>
    ensures line { IfOk result (λ line. prefix_line answer.now ≡ Some (string_bytes line)) }
    ensures fault { IfErr result (IsUnsaid (prefix_line answer.now)) }
{
    match answer {
        Frame::Prefix { prefix } => Ok(format!(in alloc; "prefix {prefix}\n")?),
        _ => Err(NO_ANSWER),
    }
}

/// The words for which node of which group it is.
fn identity_words(alloc: Global, node: u8, nodes: u8, group: u32) -> Result<String, AllocError>
    ensures { IfOk result (λ line. string_bytes line ≡ identity_words node nodes group) }
{
    format!(in alloc; "node {node} of {nodes} group {group}\n")
}

/// The line that says which node of which group it is.
fn identity_line(alloc: Global, answer: &Frame) -> Result<String, ExchangeFault>
    ensures line { IfOk result (λ line. identity_line answer.now ≡ Some (string_bytes line)) }
    ensures fault { IfErr result (IsUnsaid (identity_line answer.now)) }
{
    match answer {
        Frame::Identity { node, nodes, group } => {
            Ok(identity_words(alloc, *node, *nodes, *group)?)
        }
        _ => Err(NO_ANSWER),
    }
}

/// The text of a report. It is the node's own: what is no text is left out.
#[tactic(auto, using(crate::proofs::Texts::utf8_text, crate::proofs::Texts::no_text))]
fn text_of(alloc: Global, text: &[u8]) -> Result<String, AllocError>
    ensures { IfOk result
        (λ found. string_bytes found ≡ (if is_utf8 text.now then text.now else [])) }
{
    match str::from_utf8(text) {
        Ok(text) => String::from_str(alloc, text),
        Err(_) => Ok(String::new(alloc)),
    }
}

/// The text of the report that a frame has.
fn report_text(alloc: Global, answer: &Frame) -> Result<String, ExchangeFault>
    ensures line { IfOk result (λ line. report_text answer.now ≡ Some (string_bytes line)) }
    ensures fault { IfErr result (IsUnsaid (report_text answer.now)) }
{
    match answer {
        Frame::Reported { text } => Ok(text_of(alloc, text.as_slice())?),
        _ => Err(NO_ANSWER),
    }
}

/// The line that says that a node asks the others.
fn catch_up_line(alloc: Global, answer: &Frame) -> Result<String, ExchangeFault>
    ensures line { IfOk result (λ line. catch_up_line answer.now ≡ Some (string_bytes line)) }
    ensures fault { IfErr result (IsUnsaid (catch_up_line answer.now)) }
{
    match answer {
        Frame::Done { .. } => Ok(String::from_str(alloc, "catchup\n")?),
        _ => Err(NO_ANSWER),
    }
}

/// The line that says how far the rewriting of a record is.
fn compact_line(alloc: Global, answer: &Frame) -> Result<String, ExchangeFault>
    ensures line { IfOk result (λ line. compact_line answer.now ≡ Some (string_bytes line)) }
    ensures fault { IfErr result (IsUnsaid (compact_line answer.now)) }
{
    match answer {
        Frame::Done { count: 0 } => Ok(String::from_str(alloc, "compact working\n")?),
        Frame::Done { .. } => Ok(String::from_str(alloc, "compact switched\n")?),
        _ => Err(NO_ANSWER),
    }
}

/// The line that says what is answered to this: `prefix K`, `node I of N group G`, the text of a
/// report, `catchup`, or `compact working`, and `compact switched` where the rewriting is done.
///
/// # Errors
///
/// `Frame(Kind)` exactly where the frame is no answer to this; `Memory`.
pub fn upkeep_line(alloc: Global, upkeep: Upkeep, answer: &Frame) -> Result<String, ExchangeFault>
    ensures line { IfOk result
        (λ line. upkeep_line upkeep answer.now ≡ Some (string_bytes line)) }
    ensures fault { IfErr result (IsUnsaid (upkeep_line upkeep answer.now)) }
{
    match upkeep {
        Upkeep::Status => prefix_line(alloc, answer),
        Upkeep::Identify => identity_line(alloc, answer),
        Upkeep::Report => report_text(alloc, answer),
        Upkeep::CatchUp => catch_up_line(alloc, answer),
        Upkeep::Compact => compact_line(alloc, answer),
    }
}
