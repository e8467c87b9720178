//! What the lines about nodes are answered.

ghost use Rattle.std.specs.Prelude.{IfErr};
ghost use Rattle.ts_lab.specs.Says.{RefusesNodes};

use crate::asking::{answer_text, input_of, question_of};
use crate::commands::command_of;
use crate::member::NodeReply;
use crate::network::Network;
use crate::node_line::{AskedLine, NodeLine, WantedLine};
use crate::show::show;
use crate::trouble::Trouble;
use std::alloc::Global;
use ts_literal::number_of_octets;
use ts_node::{Input, Reply};
use ts_record::Progress;
use ts_script::words::{SPACE, first_piece};
use ts_script::{LineFault, Options, Symbols};
use ts_show::fault_name;
use ts_time::Moment;

/// Answers a line about nodes, which there may not be yet.
///
/// # Errors
///
/// Why the line is refused.
pub(crate) fn answer_nodes(
    alloc: Global,
    known: &Symbols,
    nodes: &mut Option<Network>,
    line: &[u8],
) -> Result<String, LineFault>
    ensures { IfErr result RefusesNodes }
{
    let answered = match NodeLine::read(alloc, line) {
        Ok(NodeLine::Nodes(count)) => begin(alloc, nodes, count),
        Ok(asked) => match nodes {
            Some(network) => answer(alloc, known, network, asked),
            None => Err(Trouble::Wrong(LineFault::Form)),
        },
        Err(fault) => Err(Trouble::Wrong(fault)),
    };
    match answered {
        Ok(text) => Ok(text),
        Err(Trouble::Node(fault)) => {
            let name = fault_name(fault);
            Ok(format!(in alloc; "fault {name}\n")?)
        }
        // None of these is a line of an unknown first word.
        Err(Trouble::Wrong(LineFault::Unknown)) => Err(LineFault::Form),
        Err(Trouble::Wrong(fault)) => Err(fault),
    }
}

/// Answers a `nodes` line, which may occur once.
fn begin(alloc: Global, nodes: &mut Option<Network>, count: u32) -> Result<String, Trouble> {
    if nodes.is_some() {
        return Err(Trouble::Wrong(LineFault::Form));
    }
    *nodes = Some(Network::new(alloc, count)?);
    Ok(String::new(alloc))
}

/// Answers a line where there are nodes.
fn answer(
    alloc: Global,
    known: &Symbols,
    network: &mut Network,
    line: NodeLine<'_>,
) -> Result<String, Trouble> {
    match line {
        NodeLine::Submit { node, id, wanted } => submit(alloc, known, network, node, id, wanted),
        NodeLine::Deliver(numbers) => deliver(alloc, network, numbers),
        NodeLine::Settle => {
            let count = network.settle()?;
            Ok(format!(in alloc; "settle {count}\n")?)
        }
        NodeLine::Restart(node) => {
            let place = network.check(node)?;
            network.restart(place)?;
            Ok(String::new(alloc))
        }
        NodeLine::CatchUp(node) => {
            let place = network.check(node)?;
            let _done = network.handle(place, &Input::CatchUp)?;
            Ok(String::new(alloc))
        }
        NodeLine::Outcome { node, id } => outcome(alloc, network, node, id),
        NodeLine::Ask {
            node,
            moment,
            options,
            asked,
        } => { ask(alloc, known, network, node, moment, options, asked) }
        NodeLine::Show => Ok(show(alloc, network)?),
        NodeLine::Compact(node) => compact(alloc, network, node),
        NodeLine::Nodes(_) => Err(Trouble::Wrong(LineFault::Form)),
    }
}

/// Answers a `submit` line.
fn submit(
    alloc: Global,
    known: &Symbols,
    network: &mut Network,
    node: u32,
    id: u8,
    wanted: WantedLine<'_>,
) -> Result<String, Trouble> {
    let command = command_of(alloc, known, id, wanted)?;
    let place = network.check(node)?;
    match network.submit(place, id, command)? {
        Reply::Started { position, ballot } => {
            Ok(format!(in alloc; "submit {node} started {position} {ballot}\n")?)
        }
        Reply::Settled { position, outcome } => {
            Ok(format!(in alloc; "submit {node} settled {position} {outcome}\n")?)
        }
        _ => Ok(String::new(alloc)),
    }
}

/// Answers a `deliver` line, of these numbers.
fn deliver(alloc: Global, network: &mut Network, numbers: &[u8]) -> Result<String, Trouble> {
    let mut rest = Some(numbers);
    while let Some(left) = rest {
        let (word, behind) = first_piece(left, SPACE);
        let Some(number) = number_of_octets(word) else {
            return Err(Trouble::Wrong(LineFault::Form));
        };
        network.deliver(number)?;
        rest = behind;
    }
    Ok(String::new(alloc))
}

/// Answers an `outcome` line.
fn outcome(alloc: Global, network: &mut Network, node: u32, id: u8) -> Result<String, Trouble> {
    let place = network.check(node)?;
    let Some((position, outcome)) = network.settled(place, id)? else {
        return Ok(String::from_str(alloc, "outcome none\n")?);
    };
    Ok(format!(in alloc; "outcome {position} {outcome}\n")?)
}

/// Answers an `ask` or a `search` line.
fn ask(
    alloc: Global,
    known: &Symbols,
    network: &mut Network,
    node: u32,
    moment: Moment,
    options: Options,
    asked: AskedLine<'_>,
) -> Result<String, Trouble> {
    let question = question_of(alloc, known, moment, options, &asked)?;
    let place = network.check(node)?;
    let reply: NodeReply = network.handle(place, &input_of(question))?;
    Ok(answer_text(alloc, known, &asked, &reply)?)
}

/// Answers a `compact` line.
fn compact(alloc: Global, network: &mut Network, node: u32) -> Result<String, Trouble> {
    let place = network.check(node)?;
    let text = match network.handle(place, &Input::Compact)? {
        Reply::Compacted(Progress::Switched) => "compact switched\n",
        _ => "compact working\n",
    };
    Ok(String::from_str(alloc, text)?)
}
