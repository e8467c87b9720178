//! What the store holds, for the metrics.

ghost use Rattle.std.specs.Prelude.{IfOk};
ghost use Rattle.ts_site.specs.Requests.{Shows};

use crate::board::{Board, Summary};
use crate::frames::{prefix_in, reply_in};
use crate::listing::rows_question;
use crate::metrics::metrics_text;
use crate::next::{Next, Waits, ask};
use crate::refusing::node_failed_line;
use std::alloc::{AllocError, Global};
use ts_api::{Content, Response, question_frame};
use ts_question::{AnchorRow, CrlRow, Reply};
use ts_wire::Frame;

/// What is known of the rows of a store so far.
#[derive(Clone, Copy, Debug, PartialEq, Eq)]
pub(crate) struct Gauging {
    /// How many rows were looked at.
    pub from: u32,
    /// What they hold.
    pub summary: Summary,
}

/// The metrics.
fn metrics(alloc: Global, board: &Board, prefix: u32) -> Result<Next, AllocError>
    ensures { IfOk result Shows }
{
    let text = metrics_text(alloc, board, prefix)?;
    let body = Vec::from_slice(alloc, text.as_bytes())?;
    Ok(Next::Tell(Response::new(200, Content::Metrics, body)))
}

/// Asks for rows of the store.
fn ask_rows(alloc: Global, gauging: Gauging) -> Result<Next, AllocError>
    ensures { IfOk result Shows }
{
    let question = rows_question(alloc, false, Some(gauging.summary.k), gauging.from)?;
    let frame = question_frame(alloc, &question)?;
    Ok(ask(Waits::Gauge(gauging), frame))
}

/// The node knows so many commands: the metrics are shown, or rows are asked for first, unless it
/// is known what the store holds.
pub(crate) fn go_on_metrics(alloc: Global, frame: &Frame, board: &Board) -> Result<Next, AllocError>
    ensures { IfOk result Shows }
{
    let Some(prefix) = prefix_in(frame) else {
        return Ok(Next::Tell(node_failed_line(alloc)?));
    };
    match &board.summary {
        Some(summary) if summary.k == prefix => metrics(alloc, board, prefix),
        _ => ask_rows(
            alloc,
            Gauging {
                from: 0,
                summary: Summary::nothing(prefix),
            },
        ),
    }
}

/// Adds what a row holds.
fn add_row(summary: &mut Summary, octets: &[u8]) -> Result<(), AllocError> {
    if AnchorRow::read(octets)?.is_some() {
        summary.anchors = summary.anchors.saturating_add(1);
        return Ok(());
    }
    if let Some(row) = CrlRow::read(octets)? {
        summary.add_list(!row.base.is_empty(), row.next_update);
    }
    Ok(())
}

/// Goes on with a page of the store.
fn take_rows(
    alloc: Global,
    gauging: Gauging,
    total: u32,
    rows: &[Vec<u8>],
    board: &mut Board,
) -> Result<Next, AllocError>
    ensures { IfOk result Shows }
{
    let mut gauging = gauging;
    for octets in rows {
        add_row(&mut gauging.summary, octets)?;
    }
    gauging.from = gauging.from.saturating_add(rows.len().min(64) as u32);
    if !rows.is_empty() && gauging.from < total {
        return ask_rows(alloc, gauging);
    }
    board.summary = Some(gauging.summary);
    metrics(alloc, board, gauging.summary.k)
}

/// Goes on once the node has answered with rows of the store.
pub(crate) fn go_on_gauge(
    alloc: Global,
    gauging: Gauging,
    frame: &Frame,
    board: &mut Board,
) -> Result<Next, AllocError>
    ensures { IfOk result Shows }
{
    let Some(answer) = reply_in(frame) else {
        return Ok(Next::Tell(node_failed_line(alloc)?));
    };
    match answer.reply() {
        Reply::Page { total, rows } => { take_rows(alloc, gauging, *total, rows.as_slice(), board) }
        _ => Ok(Next::Tell(node_failed_line(alloc)?)),
    }
}
