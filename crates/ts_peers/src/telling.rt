//! Standard error is told of commands that were chosen.

use crate::frames::{answer_in, octets_of};
use crate::senders::{Sender, Senders};
use std::alloc::{AllocError, Global};
use ts_line::Line;
use ts_question::{Answer, CommandRow, Question, Reply, Terms};
use ts_render::{row_fields, write_row};
use ts_wire::Frame;

/// How many commands are told of one by one. Where more are new, their number is told alone.
pub(crate) const MOST: u32 = 64;

/// The frame that asks the node for the commands behind a position, of the first k.
pub(crate) fn log_frame(alloc: Global, from: u32, k: u32) -> Option<Vec<u8>> {
    let question = Question::log(Terms::plain(alloc, Some(k)), from).ok()?;
    octets_of(alloc, Frame::Question { question })
}

/// Adds from where a command came, if a client of this node sent it lately.
fn add_sender(
    line: &mut Line,
    alloc: Global,
    octets: &[u8],
    senders: &Senders,
) -> Result<(), AllocError> {
    let Some(row) = CommandRow::read(octets)? else {
        return Ok(());
    };
    match senders.of(&row.id) {
        Some(Sender::At(address)) => {
            let text = format!(in alloc; " from {address}")?;
            line.text(text.as_str().as_bytes())
        }
        Some(Sender::Http) => line.text(b" from HTTP"),
        None => Ok(()),
    }
}

/// Tells of a command at a position: its kind, its outcome, its id, what it is about; and from
/// where it came.
fn tell_row(
    rt: &impl Eprint,
    alloc: Global,
    place: u32,
    octets: &[u8],
    senders: &Senders,
) -> Result<(), AllocError> {
    let Some(row) = row_fields(alloc, octets)? else {
        return Ok(());
    };
    let mut line = Line::of(alloc, b"trustd: ")?;
    write_row(&mut line, place, &row)?;
    add_sender(&mut line, alloc, octets, senders)?;
    if let Ok(text) = str::from_utf8(line.as_slice()) {
        let _ = eprintln!(rt; "{text}");
    }
    Ok(())
}

/// Tells of the commands behind a position, by the page that the node answered.
fn tell_page(rt: &impl Eprint, alloc: Global, from: u32, answer: &Answer, senders: &Senders) {
    let Reply::Page { rows, .. } = answer.reply() else {
        return;
    };
    let mut place = from;
    for row in rows.as_slice() {
        place = place.saturating_add(1);
        let _told = tell_row(rt, alloc, place, row, senders);
    }
}

/// Tells of the commands behind a position, by the node's answer.
pub(crate) fn tell_rows(
    rt: &impl Eprint,
    alloc: Global,
    from: u32,
    answer: &[u8],
    senders: &Senders,
) {
    if let Some(answer) = answer_in(alloc, answer) {
        tell_page(rt, alloc, from, &answer, senders);
        drop(answer);
    }
}
