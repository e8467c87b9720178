//! What the loop counts, for `/metrics`.

use crate::watch::Watch;
use std::alloc::{AllocError, Global};
use std::fs;
use std::io::Read;
use std::rt::Files;
use ts_meter::Meter;
use ts_peers::Carrier;
use ts_site::{Board, Label, Metric, PeerLine};
use ts_sockets::Counts;

/// What is shown.
#[derive(Clone, Copy)]
pub(crate) struct ShownMetrics<'a> {
    pub version: Option<&'static str>,
    pub frames: &'a Counts,
    pub http: Counts,
    pub carrier: &'a Carrier,
    pub watch: &'a Watch,
    pub meter: Option<&'a Meter>,
}

/// Where the system says how many pages of memory a process holds (Linux, proc(5)).
const MEMORY: &str = "/proc/self/statm";

/// How many octets a page of memory has.
const PAGE: u64 = 4_096;

/// A count that only grows.
fn grown(name: &'static str, help: &'static str, kind: &'static str, value: u64) -> Metric {
    Metric {
        name,
        help,
        grows: true,
        label: Label::Kind(kind),
        value,
    }
}

/// Shows the connections of a kind that are open.
fn show_open(board: &mut Board, frames: &Counts, http: &Counts) -> Result<(), AllocError> {
    for (kind, value) in [("frames", frames.open), ("http", http.open)] {
        board.show(Metric {
            name: "connections_open",
            help: "Connections that are open",
            grows: false,
            label: Label::Kind(kind),
            value,
        })?;
    }
    Ok(())
}

/// Shows how connections of a kind began and ended.
fn show_counts(
    board: &mut Board,
    name: &'static str,
    help: &'static str,
    counts: &Counts,
) -> Result<(), AllocError> {
    let rows = [
        ("accepted", counts.accepted),
        ("refused", counts.refused),
        ("made_room", counts.made_room),
        ("failed_accept", counts.failed_accepts),
        ("ended", counts.ended),
        ("late", counts.late),
        ("denied", counts.denied),
        ("failed", counts.failed),
    ];
    for (kind, value) in rows {
        board.show(grown(name, help, kind, value))?;
    }
    Ok(())
}

/// A count without a label.
fn plain(name: &'static str, help: &'static str, grows: bool, value: u64) -> Metric {
    Metric {
        name,
        help,
        grows,
        label: Label::None,
        value,
    }
}

/// Shows the version of the program.
fn show_version(board: &mut Board, version: &'static str) -> Result<(), AllocError> {
    board.show(Metric {
        name: "build_info",
        help: "The version of the program that serves the node",
        grows: false,
        label: Label::Version(version),
        value: 1,
    })
}

/// Shows how often the node's disks were written and synced.
fn show_disks(board: &mut Board, meter: &Meter) -> Result<(), AllocError> {
    let help = "Writes to the files of the node's record";
    board.show(plain("writes_total", help, true, meter.writes()))?;
    let help = "Syncs of the files of the node's record";
    board.show(plain("syncs_total", help, true, meter.syncs()))
}

/// How many octets of memory this process holds, if the system says it.
fn memory<R: Files>(rt: &R, alloc: Global) -> Option<u64> {
    let mut octets = Vec::new(alloc);
    let file = fs::open(rt, MEMORY).ok()?;
    let _count = file.take(256).read_to_end(&mut octets).ok()?;
    let text = str::from_utf8(&octets).ok()?;
    let pages: u64 = text.split_whitespace().nth(1)?.parse().ok()?;
    pages.checked_mul(PAGE)
}

/// Shows how much memory this process holds.
fn show_memory<R: Files>(rt: &R, alloc: Global, board: &mut Board) -> Result<(), AllocError> {
    match memory(rt, alloc) {
        Some(octets) => {
            let help = "Memory that the process holds, in octets";
            board.show(plain("memory_bytes", help, false, octets))
        }
        None => Ok(()),
    }
}

/// Shows what peers know, for the page.
fn show_lines(alloc: Global, board: &mut Board, carrier: &Carrier) -> Result<(), AllocError> {
    let mut peers = Vec::new(alloc);
    for line in carrier.lines() {
        peers.push(PeerLine {
            node: line.node,
            prefix: u64::from(line.contact().prefix),
            reached: line.contact().is_known,
        })?;
    }
    board.peers = peers;
    Ok(())
}

/// A count of a peer.
fn of_peer(name: &'static str, help: &'static str, grows: bool, node: u8, value: u64) -> Metric {
    Metric {
        name,
        help,
        grows,
        label: Label::Peer(node),
        value,
    }
}

/// Shows whether peers are reached, what they know, and what waits for them.
fn show_peers(board: &mut Board, carrier: &Carrier) -> Result<(), AllocError> {
    let lines = carrier.lines();
    let help = "Whether a peer has answered on the connection that is there";
    for line in lines {
        let value = u64::from(line.contact().is_known);
        board.show(of_peer("peer_reached", help, false, line.node, value))?;
    }
    let help = "Commands that a peer has said that it knows";
    for line in lines {
        let value = u64::from(line.contact().prefix);
        board.show(of_peer("peer_prefix", help, false, line.node, value))?;
    }
    let help = "Messages that wait for a peer";
    for line in lines {
        let value = line.waiting() as u64;
        board.show(of_peer("peer_waiting", help, false, line.node, value))?;
    }
    let help = "Messages to a peer that were dropped";
    for line in lines {
        board.show(of_peer("peer_dropped_total", help, true, line.node, line.dropped))?;
    }
    Ok(())
}

/// Shows all that the loop counts, in place of what was shown before.
pub(crate) fn show_all<R: Files>(
    rt: &R,
    alloc: Global,
    board: &mut Board,
    shown: &ShownMetrics<'_>,
) -> Result<(), AllocError> {
    board.metrics = Vec::new(alloc);
    if let Some(version) = shown.version {
        show_version(board, version)?;
    }
    show_open(board, shown.frames, &shown.http)?;
    let help = "Connections of frames, by what became of them";
    show_counts(board, "connections_total", help, shown.frames)?;
    let help = "Connections of HTTP, by what became of them";
    show_counts(board, "http_connections_total", help, &shown.http)?;
    shown.watch.show(board)?;
    show_peers(board, shown.carrier)?;
    show_lines(alloc, board, shown.carrier)?;
    if let Some(meter) = shown.meter {
        show_disks(board, meter)?;
    }
    show_memory(rt, alloc, board)
}
