//! What is asked of the node and what it answers, and how long that takes, for `/metrics`.

ghost use Rattle.std.specs.Prelude.{◌<◌};

use std::alloc::AllocError;
use std::rt::Clock;
use std::time::Instant;
use ts_site::{Board, Label, Metric, Turns};

/// Where the kind stands in a frame.
const KIND: usize = 5;

/// The words for the kinds of requests, and for what is none.
const ASKED: [&str; 11] = [
    "message", "submit", "question", "take", "outcome", "catch_up", "status", "compact",
    "identify", "report", "other",
];

/// The words for the kinds of answers, and for what is none.
const ANSWERED: [&str; 12] = [
    "done",
    "started",
    "settled",
    "answer",
    "unknown",
    "node_fault",
    "frame_fault",
    "prefix",
    "identity",
    "reported",
    "message",
    "none",
];

/// What clients have asked of the node on connections of frames, and what they were answered; and
/// how long turns took.
#[derive(Drop)]
pub(crate) struct Watch {
    pub turns: Turns,
    counts: [[u64; 12]; 11],
}

/// The place of the word for the kind of a request.
fn asked_place(kind: Option<u8>) -> usize
    ensures { result < 11 }
{
    match kind {
        Some(1..=7) => 0,
        Some(0x10) => 1,
        Some(0x11) => 2,
        Some(0x12) => 3,
        Some(0x13) => 4,
        Some(0x14) => 5,
        Some(0x15) => 6,
        Some(0x16) => 7,
        Some(0x17) => 8,
        Some(0x18) => 9,
        _ => 10,
    }
}

/// The place of the word for the kind of an answer.
fn answer_place(kind: Option<u8>) -> usize
    ensures { result < 12 }
{
    match kind {
        Some(0x20) => 0,
        Some(0x21) => 1,
        Some(0x22) => 2,
        Some(0x23) => 3,
        Some(0x24) => 4,
        Some(0x25) => 5,
        Some(0x26) => 6,
        Some(0x27) => 7,
        Some(0x28) => 8,
        Some(0x29) => 9,
        Some(1..=7) => 10,
        _ => 11,
    }
}

/// The kind of the frame that begins here.
pub(crate) fn kind_at(octets: &[u8], place: usize) -> Option<u8> {
    let frame = octets.get(place..)?;
    frame.get(KIND).copied()
}

/// The moment, if there is a clock.
pub(crate) fn moment<R: Clock>(rt: &R) -> Option<Instant> {
    Instant::now(rt).ok()
}

/// How many microseconds have passed since a moment.
fn micros_since<R: Clock>(rt: &R, begun: Option<Instant>) -> Option<u64> {
    let elapsed = begun?.elapsed(rt).ok()?;
    u64::try_from(elapsed.as_micros()).ok()
}

impl Watch {
    /// Nothing was asked.
    pub fn new() -> Watch {
        Watch {
            turns: Turns::new(),
            counts: [[0; 12]; 11],
        }
    }

    /// A turn that began at this moment has ended.
    pub fn took<R: Clock>(&mut self, rt: &R, begun: Option<Instant>) {
        if let Some(micros) = micros_since(rt, begun) {
            self.turns.add(micros);
        }
    }

    /// A request of this kind was answered by a frame of that kind.
    pub fn answered(&mut self, asked: Option<u8>, answer: Option<u8>) {
        let count = &mut self.counts[asked_place(asked)][answer_place(answer)];
        *count = count.saturating_add(1);
    }

    /// Shows how often a kind of request was answered by each kind of frame, where it was.
    fn show_kind(
        &self,
        board: &mut Board,
        place: usize,
        asked: &'static str,
    ) -> Result<(), AllocError> {
        let Some(counts) = self.counts.get(place) else {
            return Ok(());
        };
        for (answer, value) in ANSWERED.into_iter().zip(counts.iter()) {
            if *value > 0 {
                board.show(Metric {
                    name: "requests_total",
                    help: "Requests of frames, by kind and what they were answered",
                    grows: true,
                    label: Label::Answered(asked, answer),
                    value: *value,
                })?;
            }
        }
        Ok(())
    }

    /// Shows what was asked and answered, and how long turns took.
    pub fn show(&self, board: &mut Board) -> Result<(), AllocError> {
        board.turns = self.turns;
        for (place, asked) in ASKED.into_iter().enumerate() {
            self.show_kind(board, place, asked)?;
        }
        Ok(())
    }
}
