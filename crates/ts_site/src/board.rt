//! What a node shows: the time, and counts.

ghost use Rattle.std.specs.Prelude.{◌<◌};

use std::alloc::{AllocError, Global};
use ts_api::Route;
use ts_page::PeerLine;
use ts_question::Reply;
use ts_render::valid_in;

/// What tells one count of a name from the others.
#[derive(Clone, Copy, Debug, PartialEq, Eq)]
pub enum Label {
    /// There is one of this name.
    None,
    /// A peer, by its number.
    Peer(u8),
    /// The version of the program.
    Version(&'static str),
    /// How a connection ended, or the like.
    Kind(&'static str),
    /// What was asked, and what it was answered.
    Answered(&'static str, &'static str),
}

/// A count that `/metrics` shows.
#[derive(Clone, Copy, Debug, PartialEq, Eq)]
pub struct Metric {
    /// The name, without what it begins with.
    pub name: &'static str,
    /// What is counted.
    pub help: &'static str,
    /// Whether it only grows.
    pub grows: bool,
    /// What tells it from others of this name, which stand behind each other.
    pub label: Label,
    pub value: u64,
}

/// What the store holds after k commands.
#[derive(Clone, Copy, Debug, PartialEq, Eq)]
pub(crate) struct Summary {
    pub k: u32,
    pub anchors: u32,
    /// How many CRLs are complete.
    pub complete: u32,
    /// How many are delta CRLs.
    pub deltas: u32,
    /// The earliest nextUpdate of all lists, in seconds from 1970-01-01T00:00:00Z.
    pub earliest: Option<i64>,
}

/// The bounds of the histogram of turns, in microseconds.
pub(crate) const BOUNDS: [u64; 9] = [
    50, 100, 500, 1_000, 5_000, 10_000, 50_000, 100_000, 1_000_000,
];

/// How long turns took.
#[derive(Clone, Copy, Debug, PartialEq, Eq)]
pub struct Turns {
    /// How many took at most as long as each bound and longer than the one before; and how many
    /// longer than all.
    pub(crate) counts: [u64; 10],
    /// How many microseconds all took.
    pub(crate) sum: u64,
}

/// How often each route answered, by the first digit of the status: 2, 4 or 5.
#[derive(Clone, Copy, Debug, PartialEq, Eq)]
pub(crate) struct Tally {
    counts: [[u64; 3]; 14],
    verdicts: [u64; 3],
}

/// What a node shows.
#[derive(Drop)]
pub struct Board {
    /// The clock, in seconds from 1970-01-01T00:00:00Z.
    pub now: i64,
    /// The number of the node.
    pub node: u8,
    /// Its peers, and what they know.
    pub peers: Vec<PeerLine>,
    /// What is counted elsewhere, for `/metrics`.
    pub metrics: Vec<Metric>,
    /// How long the turns of the node took.
    pub turns: Turns,
    /// What the store held when it was looked at last.
    pub(crate) summary: Option<Summary>,
    /// What was answered over HTTP.
    pub(crate) tally: Tally,
}

impl Summary {
    /// A store that holds nothing after k commands.
    pub(crate) fn nothing(k: u32) -> Summary {
        Summary {
            k,
            anchors: 0,
            complete: 0,
            deltas: 0,
            earliest: None,
        }
    }

    /// It holds one more list.
    pub(crate) fn add_list(&mut self, is_delta: bool, next_update: i64) {
        if is_delta {
            self.deltas = self.deltas.saturating_add(1);
        } else {
            self.complete = self.complete.saturating_add(1);
        }
        self.earliest = match self.earliest {
            Some(earliest) => Some(earliest.min(next_update)),
            None => Some(next_update),
        };
    }
}

impl Turns {
    /// None was made.
    pub fn new() -> Turns {
        Turns {
            counts: [0; 10],
            sum: 0,
        }
    }

    /// One took so many microseconds.
    pub fn add(&mut self, micros: u64) {
        let mut place = 9;
        for (bound, limit) in BOUNDS.iter().enumerate() {
            if micros <= *limit && bound < place {
                place = bound;
            }
        }
        if let Some(count) = self.counts.get_mut(place) {
            *count = count.saturating_add(1);
        }
        self.sum = self.sum.saturating_add(micros);
    }
}

/// The place of the counts of a status.
fn class_of(status: u16) -> usize
    ensures { result < 3 }
{
    match status {
        200..=399 => 0,
        400..=499 => 1,
        _ => 2,
    }
}

/// The place of the count of a reply: valid, not valid, none of them.
fn verdict_place(reply: &Reply) -> usize
    ensures { result < 3 }
{
    match valid_in(reply) {
        Some(true) => 0,
        Some(false) => 1,
        None => 2,
    }
}

impl Tally {
    /// Nothing was answered.
    fn new() -> Tally {
        Tally {
            counts: [[0; 3]; 14],
            verdicts: [0; 3],
        }
    }

    /// How often a route answered with a status of a class.
    pub(crate) fn count(&self, route: Route, class: usize) -> u64 {
        match self.counts[route.place()].get(class) {
            Some(count) => *count,
            None => 0,
        }
    }

    /// How often a question was answered by valid, by not valid, by none of both.
    pub(crate) fn verdicts(&self) -> [u64; 3] {
        self.verdicts
    }
}

impl Board {
    /// The board of this node, without counts of elsewhere.
    pub fn new(alloc: Global, node: u8) -> Board {
        Board {
            now: 0,
            node,
            peers: Vec::new(alloc),
            metrics: Vec::new(alloc),
            turns: Turns::new(),
            summary: None,
            tally: Tally::new(),
        }
    }

    /// Shows a count of elsewhere, behind the others.
    pub fn show(&mut self, metric: Metric) -> Result<(), AllocError> {
        self.metrics.push(metric)?;
        Ok(())
    }

    /// A response of this status was given.
    pub(crate) fn answered(&mut self, route: Route, status: u16) {
        let count = &mut self.tally.counts[route.place()][class_of(status)];
        *count = count.saturating_add(1);
    }

    /// A question was answered so.
    pub(crate) fn judged(&mut self, reply: &Reply) {
        let count = &mut self.tally.verdicts[verdict_place(reply)];
        *count = count.saturating_add(1);
    }
}
