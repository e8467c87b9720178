//! What a `show` line is answered.

use crate::network::Network;
use crate::trouble::Trouble;
use std::alloc::{AllocError, Global};
use ts_show::fault_name;
use ts_synod::NodeFault;

/// For each node how many commands it knows without a gap, and the ids of them, where they were
/// submitted. A node's fault is in place of its line.
pub(crate) fn show(alloc: Global, network: &mut Network) -> Result<String, Trouble> {
    let mut text = String::new(alloc);
    for place in 0..network.len() {
        let line = match line_of(alloc, network, place) {
            Ok(line) => line,
            Err(Trouble::Node(fault)) => fault_line(alloc, fault)?,
            Err(wrong) => return Err(wrong),
        };
        text.push_str(line.as_str())?;
    }
    Ok(text)
}

/// The line that names a node's fault.
fn fault_line(alloc: Global, fault: NodeFault) -> Result<String, AllocError> {
    let name = fault_name(fault);
    format!(in alloc; "fault {name}\n")
}

/// The line of the node at a place.
fn line_of(alloc: Global, network: &mut Network, place: usize) -> Result<String, Trouble> {
    let prefix = network.prefix(place)?;
    let node = place.saturating_add(1);
    let mut text = format!(in alloc; "node {node} prefix {prefix}")?;
    for (position, id) in settled_positions(alloc, network, place)? {
        if position <= prefix {
            let word = format!(in alloc; " {id:02x}")?;
            text.push_str(word.as_str())?;
        }
    }
    text.push_str("\n")?;
    Ok(text)
}

/// The positions of the submitted ids at the node of a place, ascending, each with its id.
fn settled_positions(
    alloc: Global,
    network: &mut Network,
    place: usize,
) -> Result<Vec<(u32, u8)>, Trouble> {
    let mut settled = Vec::new(alloc);
    for index in 0..network.submitted_ids().len() {
        let Some(&id) = network.submitted_ids().get(index) else {
            break;
        };
        if let Some((position, _outcome)) = network.settled(place, id)? {
            settled.push((position, id))?;
        }
    }
    settled.sort()?;
    Ok(settled)
}
