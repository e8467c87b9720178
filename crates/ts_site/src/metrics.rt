//! Counts in the text format of Prometheus.

use crate::board::{BOUNDS, Board, Label, Metric, Summary, Turns};
use std::alloc::{AllocError, Global};
use ts_api::Route;

/// Writes the two lines above the counts of a name.
fn push_head(
    alloc: Global,
    text: &mut String,
    name: &str,
    help: &str,
    grows: bool,
) -> Result<(), AllocError> {
    let kind = if grows { "counter" } else { "gauge" };
    let lines = format!(in alloc;
        "# HELP lehoratu_{name} {help}\n# TYPE lehoratu_{name} {kind}\n"
    )?;
    text.push_str(lines.as_str())
}

/// Writes a count.
fn push_metric(alloc: Global, text: &mut String, metric: &Metric) -> Result<(), AllocError> {
    let (name, value) = (metric.name, metric.value);
    let line = match metric.label {
        Label::None => format!(in alloc; "lehoratu_{name} {value}\n")?,
        Label::Peer(node) => format!(in alloc; "lehoratu_{name}{{peer=\"{node}\"}} {value}\n")?,
        Label::Version(version) => {
            format!(in alloc; "lehoratu_{name}{{version=\"{version}\"}} {value}\n")?
        }
        Label::Kind(kind) => format!(in alloc; "lehoratu_{name}{{kind=\"{kind}\"}} {value}\n")?,
        Label::Answered(kind, answer) => format!(in alloc;
            "lehoratu_{name}{{kind=\"{kind}\",answer=\"{answer}\"}} {value}\n"
        )?,
    };
    text.push_str(line.as_str())
}

/// Writes the counts of elsewhere.
fn push_metrics(alloc: Global, text: &mut String, metrics: &[Metric]) -> Result<(), AllocError> {
    let mut last = "";
    for metric in metrics {
        if metric.name != last {
            push_head(alloc, text, metric.name, metric.help, metric.grows)?;
            last = metric.name;
        }
        push_metric(alloc, text, metric)?;
    }
    Ok(())
}

/// Writes how often each route answered.
fn push_routes(alloc: Global, text: &mut String, board: &Board) -> Result<(), AllocError> {
    let help = "Responses over HTTP, by path and the class of the status";
    push_head(alloc, text, "http_responses_total", help, true)?;
    for route in Route::all() {
        let path = route.path();
        for (class, name) in ["2xx", "4xx", "5xx"].into_iter().enumerate() {
            let value = board.tally.count(route, class);
            let line = format!(in alloc;
                "lehoratu_http_responses_total{{path=\"{path}\",status=\"{name}\"}} {value}\n"
            )?;
            text.push_str(line.as_str())?;
        }
    }
    Ok(())
}

/// Writes how questions were answered.
fn push_verdicts(alloc: Global, text: &mut String, board: &Board) -> Result<(), AllocError> {
    let help = "Questions answered over HTTP, by what the answer says of the chain";
    push_head(alloc, text, "http_verdicts_total", help, true)?;
    let [valid, invalid, none] = board.tally.verdicts();
    let lines = format!(in alloc;
        "lehoratu_http_verdicts_total{{verdict=\"valid\"}} {valid}\n\
         lehoratu_http_verdicts_total{{verdict=\"invalid\"}} {invalid}\n\
         lehoratu_http_verdicts_total{{verdict=\"none\"}} {none}\n"
    )?;
    text.push_str(lines.as_str())
}

/// Writes a number of microseconds in seconds.
fn push_seconds(alloc: Global, text: &mut String, micros: u64) -> Result<(), AllocError> {
    let (seconds, rest) = (micros / 1_000_000, micros % 1_000_000);
    let number = format!(in alloc; "{seconds}.{rest:06}")?;
    text.push_str(number.as_str())
}

/// Writes the line of a bucket: how many turns took at most so long.
fn push_bucket(
    alloc: Global,
    text: &mut String,
    bound: Option<u64>,
    count: u64,
) -> Result<(), AllocError> {
    text.push_str("lehoratu_turn_seconds_bucket{le=\"")?;
    match bound {
        Some(bound) => push_seconds(alloc, text, bound)?,
        None => text.push_str("+Inf")?,
    }
    let rest = format!(in alloc; "\"}} {count}\n")?;
    text.push_str(rest.as_str())
}

/// Writes how long turns took.
fn push_turns(alloc: Global, text: &mut String, turns: &Turns) -> Result<(), AllocError> {
    text.push_str("# HELP lehoratu_turn_seconds How long a request of a client took the node\n")?;
    text.push_str("# TYPE lehoratu_turn_seconds histogram\n")?;
    let mut sum: u64 = 0;
    for (place, count) in turns.counts.iter().enumerate() {
        sum = sum.saturating_add(*count);
        push_bucket(alloc, text, BOUNDS.get(place).copied(), sum)?;
    }
    text.push_str("lehoratu_turn_seconds_sum ")?;
    push_seconds(alloc, text, turns.sum)?;
    let rest = format!(in alloc; "\nlehoratu_turn_seconds_count {sum}\n")?;
    text.push_str(rest.as_str())
}

/// Writes a gauge without a label.
fn push_gauge(
    alloc: Global,
    text: &mut String,
    name: &str,
    help: &str,
    value: u64,
) -> Result<(), AllocError> {
    push_head(alloc, text, name, help, false)?;
    let line = format!(in alloc; "lehoratu_{name} {value}\n")?;
    text.push_str(line.as_str())
}

/// Writes what the store holds.
fn push_summary(alloc: Global, text: &mut String, summary: &Summary) -> Result<(), AllocError> {
    let help = "Trust anchors of the store";
    push_gauge(alloc, text, "anchors", help, u64::from(summary.anchors))?;
    push_head(alloc, text, "crls", "CRLs of the store", false)?;
    let (complete, deltas) = (summary.complete, summary.deltas);
    let lines = format!(in alloc;
        "lehoratu_crls{{kind=\"complete\"}} {complete}\nlehoratu_crls{{kind=\"delta\"}} {deltas}\n"
    )?;
    text.push_str(lines.as_str())?;
    let Some(earliest) = summary.earliest else {
        return Ok(());
    };
    let name = "earliest_next_update_seconds";
    let help = "The earliest nextUpdate of all CRLs, in seconds from 1970";
    push_head(alloc, text, name, help, false)?;
    let line = format!(in alloc; "lehoratu_{name} {earliest}\n")?;
    text.push_str(line.as_str())
}

/// The text of all counts, and of how many commands the node knows.
pub(crate) fn metrics_text(
    alloc: Global,
    board: &Board,
    prefix: u32,
) -> Result<String, AllocError> {
    let mut text = String::new(alloc);
    let help = "Commands that the node knows";
    push_gauge(alloc, &mut text, "prefix", help, u64::from(prefix))?;
    if let Some(summary) = &board.summary {
        push_summary(alloc, &mut text, summary)?;
    }
    push_metrics(alloc, &mut text, &board.metrics)?;
    push_turns(alloc, &mut text, &board.turns)?;
    push_routes(alloc, &mut text, board)?;
    push_verdicts(alloc, &mut text, board)?;
    Ok(text)
}
