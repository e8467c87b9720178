//! What a request comes to: a response, or something that the node is asked first.

ghost use Rattle.std.specs.Prelude.{◌≡◌};
ghost use Rattle.ts_site.specs.declared.next.Next.TheVariants as nexts;

use crate::explaining::Explaining;
use crate::gauging::Gauging;
use ts_api::{AskedQuestion, Response, Route};
use ts_form::Pair;

/// What comes next.
#[derive(Drop)]
pub(crate) enum Next {
    /// This is answered.
    Tell(Response),
    /// The node is asked by a frame, and what is answered depends on its answer.
    Ask(Pending, Vec<u8>),
}

/// Rows that are asked for.
#[derive(Clone, Copy, Debug, PartialEq, Eq)]
pub(crate) struct RowsAsked {
    /// Whether they are those of the log.
    pub log: bool,
    /// How many rows stand before them.
    pub from: u32,
    /// Whether the answer is the same for ever.
    pub is_pinned: bool,
}

/// A page of the store that is asked for.
#[derive(Clone, Copy, Debug, PartialEq, Eq)]
pub(crate) struct HomeAsked {
    pub k: Option<u32>,
    pub from: u32,
}

/// What the node is asked for a request, and what is known so far.
#[derive(Drop)]
pub(crate) enum Waits {
    /// A question, for this route.
    Verdict(AskedQuestion, Route),
    /// A page of rows.
    Rows(RowsAsked),
    /// Whether it answers.
    Health,
    /// How many commands it knows.
    Prefix,
    /// Which node it is, which knows so many commands.
    Identity(u32),
    /// What becomes of the command of this id.
    Command([u8; 16]),
    /// How many commands it knows, for the page.
    Home(HomeAsked),
    /// The rows of the page, while it knows so many commands.
    HomeRows(HomeAsked, u32),
    /// The question of the page's form.
    Form(AskedQuestion, Vec<Pair>),
    /// Rows of the store, among which the anchor above a chain may be that a search left open.
    Anchors(Explaining),
    /// The question about that chain, for a program, or for the page of these fields.
    Chain(AskedQuestion, Option<Vec<Pair>>),
    /// How many commands it knows, for the metrics.
    Metrics,
    /// Rows of the store, for the metrics.
    Gauge(Gauging),
}

/// What the node is asked for a request, and what is known so far.
#[derive(Drop)]
pub(crate) struct Pending {
    pub waits: Waits,
}

/// Asks the node.
pub(crate) fn ask(waits: Waits, frame: Vec<u8>) -> Next
    ensures { result ≡ nexts.Ask (record { waits = waits }) frame }
{
    Next::Ask(Pending { waits }, frame)
}
