//! How the server does, in lines of text, for whoever asks for a report.

use crate::showing::ShownMetrics;
use std::alloc::{AllocError, Global};
use ts_peers::Line;

/// How many milliseconds a report is given out for.
pub(crate) const FRESH: u64 = 1_000;

/// The line of a peer: whether it has answered on its connection, how many commands it has said
/// that it knows, how many messages wait for it and how many were dropped, and for how many seconds
/// nothing was heard of it.
fn peer_line(alloc: Global, line: &Line, now: u64) -> Result<String, AllocError> {
    let (node, contact) = (line.node, line.contact());
    let state = if contact.is_known { "reached" } else { "lost" };
    let (prefix, waiting, dropped) = (contact.prefix, line.waiting(), line.dropped);
    if contact.heard == 0 {
        return Ok(format!(in alloc;
            "peer {node} {state} prefix {prefix} waiting {waiting} dropped {dropped} heard never\n"
        )?);
    }
    let silent = now.saturating_sub(contact.heard) / 1_000;
    Ok(format!(in alloc;
        "peer {node} {state} prefix {prefix} waiting {waiting} dropped {dropped} heard {silent}\n"
    )?)
}

/// Adds a line of the peers.
fn add_peers(text: &mut String, alloc: Global, lines: &[Line], now: u64) -> Result<(), AllocError> {
    for line in lines {
        let line = peer_line(alloc, line, now)?;
        text.push_str(line.as_str())?;
    }
    Ok(())
}

/// The report: the lines about the program; the connections that are open, of frames and of HTTP;
/// each peer; how often the record's files were written and synced.
pub(crate) fn report_of(
    alloc: Global,
    about: &str,
    shown: &ShownMetrics<'_>,
    now: u64,
) -> Result<String, AllocError> {
    let mut text = String::from_str(alloc, about)?;
    let (frames, http) = (shown.frames.open, shown.http.open);
    let line = format!(in alloc; "connections {frames} http {http}\n")?;
    text.push_str(line.as_str())?;
    add_peers(&mut text, alloc, shown.carrier.lines(), now)?;
    if let Some(meter) = shown.meter {
        let (writes, syncs) = (meter.writes(), meter.syncs());
        let line = format!(in alloc; "writes {writes} syncs {syncs}\n")?;
        text.push_str(line.as_str())?;
    }
    Ok(text)
}
