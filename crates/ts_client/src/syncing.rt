//! A store is made to hold what files hold.

use crate::keyed::ReachedNode;
use crate::listing::{all_rows, say_too_few};
use crate::requests::{server_at, tell};
use crate::vouching::vouch_for_each;
use crate::waiting::submit_and_wait;
use std::alloc::{AllocError, Global};
use std::io::Print;
use std::net::Net;
use std::random::RandomSource;
use std::rt::{Clock, Files};
use std::time::Duration;
use ts_cli::SyncWords;
use ts_command::Outcome;
use ts_exchange::{
    Ending, Value, WantedFiles, command_of, ending_of, held_in, step_line, steps_from, value_of,
};
use ts_files::{TaskFault, draw_id, files_of, is_certificate, put, values_in};
use ts_line::Line;
use ts_show::Kind;
use ts_sync::PlanStep;
use ts_wire::Frame;

/// The CRLs of the files that paths name.
fn crls_of<R: AllocGlobal + Files + Eprint + Clone + Drop>(
    rt: &R,
    paths: &[String],
) -> Result<Vec<Value>, TaskFault> {
    let alloc = rt.alloc();
    let mut values = Vec::new(alloc);
    for file in files_of(rt, paths)? {
        for octets in values_in(rt, alloc, file.as_str(), Kind::List)? {
            let file = String::from_str(alloc, file.as_str())?;
            values.push(Value::new(file, octets))?;
        }
    }
    Ok(values)
}

/// Adds the certificates of a file, each of which is one by each rule. Standard error says which
/// one is none, and why; it is passed over where that is wanted.
fn add_certificates<R: Files + Eprint>(
    rt: &R,
    alloc: Global,
    file: &str,
    pass_over: bool,
    values: &mut Vec<Value>,
) -> Result<(), TaskFault> {
    let mut place: usize = 0;
    for octets in values_in(rt, alloc, file, Kind::Certificate)? {
        place = place.saturating_add(1);
        if is_certificate(rt, file, &octets) {
            values.push(Value::new(String::from_str(alloc, file)?, octets))?;
            continue;
        }
        let _ = eprintln!(rt; "trustd: {file}: of its certificates it is number {place}");
        if !pass_over {
            return Err(TaskFault::Field);
        }
    }
    Ok(())
}

/// The trust anchors of the files that the words name. There is one where they name any.
fn anchors_of<R: AllocGlobal + Files + Eprint + Clone + Drop>(
    rt: &R,
    words: &SyncWords,
) -> Result<Vec<Value>, TaskFault> {
    let alloc = rt.alloc();
    let mut anchors = Vec::new(alloc);
    for file in files_of(rt, &words.anchors)? {
        add_certificates(rt, alloc, file.as_str(), words.pass_over, &mut anchors)?;
    }
    if anchors.is_empty() && !words.anchors.is_empty() {
        return Err(TaskFault::Field);
    }
    Ok(anchors)
}

/// What the files hold that the words name.
fn wanted_by<R: AllocGlobal + Files + Eprint + Clone + Drop>(
    rt: &R,
    words: &SyncWords,
) -> Result<WantedFiles, TaskFault> {
    let anchors = anchors_of(rt, words)?;
    let crls = crls_of(rt, &words.crls)?;
    Ok(WantedFiles { anchors, crls })
}

/// The CRLs that steps load.
fn loaded_by<'a>(
    alloc: Global,
    wanted: &'a WantedFiles,
    steps: &[PlanStep],
) -> Result<Vec<&'a Value>, AllocError> {
    let mut loaded = Vec::new(alloc);
    for step in steps {
        if step.kind == ts_sync::StepKind::Load {
            if let Some(value) = value_of(wanted, step) {
                loaded.push(value)?;
            }
        }
    }
    Ok(loaded)
}

/// Looks at the store, and plans the steps after which it holds what is wanted; each CRL that they
/// load is vouched for. None where the node answered no rows, which standard error says.
fn steps_to<R: Files + Net + Clock + RandomSource + Eprint>(
    rt: &R,
    alloc: Global,
    words: &SyncWords,
    server: &mut ReachedNode<'_, R>,
    wanted: &WantedFiles,
) -> Result<Option<Vec<PlanStep>>, TaskFault> {
    let rows = all_rows(alloc, server, None);
    let rows = match tell(rt, &words.reach, rows)? {
        Ok(rows) => rows,
        Err(few) => {
            let _ended = say_too_few(rt, few);
            return Ok(None);
        }
    };
    let Some(held) = held_in(alloc, &rows)? else {
        return Err(TaskFault::Field);
    };
    let steps = steps_from(alloc, &held, wanted)?;
    let loaded = loaded_by(alloc, wanted, &steps)?;
    vouch_for_each(rt, alloc, words, &wanted.anchors, &loaded)?;
    Ok(Some(steps))
}

/// Prints a line.
fn print_line(rt: &impl Print, alloc: Global, line: &Line) -> Result<(), TaskFault> {
    let mut text = Vec::new(alloc);
    text.extend_from_slice(line.as_slice())?;
    text.push(b'\n')?;
    put(rt, &text)
}

/// The line of a step by what is wanted.
fn line_of(alloc: Global, wanted: &WantedFiles, step: &PlanStep) -> Result<Line, AllocError> {
    let file = match value_of(wanted, step) {
        Some(value) => Some(value.file.as_str()),
        None => None,
    };
    step_line(alloc, step, file)
}

/// Prints the line of a step, where its command was chosen, and what it came to.
fn print_settled(
    rt: &impl Print,
    alloc: Global,
    mut line: Line,
    position: u32,
    outcome: Outcome,
) -> Result<(), TaskFault> {
    line.text(b" settled ")?;
    line.number(u64::from(position))?;
    line.word(format!(in alloc; "{outcome}")?.as_bytes())?;
    print_line(rt, alloc, &line)
}

/// Submits the command of a step, waits until it is chosen, and prints what it came to.
fn submit_step<R: Files + Net + Clock + RandomSource + Print + Eprint>(
    rt: &R,
    alloc: Global,
    words: &SyncWords,
    server: &mut ReachedNode<'_, R>,
    wanted: &WantedFiles,
    step: &PlanStep,
) -> Result<Ending, TaskFault> {
    let line = line_of(alloc, wanted, step)?;
    let command = command_of(alloc, draw_id(rt)?, step, value_of(wanted, step))?;
    let longest = Duration::from_secs(words.wait as u64);
    let answer = submit_and_wait(rt, alloc, server, command, longest);
    let answer = tell(rt, &words.reach, answer)?;
    let settled = match &answer {
        Frame::Settled { position, outcome } => Some((*position, *outcome)),
        _ => None,
    };
    drop(answer);
    let Some((position, outcome)) = settled else {
        let seconds = words.wait;
        let _ = eprintln!(rt; "trustd: not chosen within {seconds} seconds; it may be later");
        return Err(TaskFault::Unknown);
    };
    print_settled(rt, alloc, line, position, outcome)?;
    Ok(ending_of(outcome))
}

/// Submits the commands of steps, one after another, up to the first that is refused: of all steps,
/// or of those alone that bring something.
fn follow<R: Files + Net + Clock + RandomSource + Print + Eprint>(
    rt: &R,
    alloc: Global,
    words: &SyncWords,
    server: &mut ReachedNode<'_, R>,
    wanted: &WantedFiles,
    steps: &[PlanStep],
    all: bool,
) -> Result<Ending, TaskFault> {
    for step in steps {
        if all || step.kind.brings() {
            match submit_step(rt, alloc, words, server, wanted, step)? {
                Ending::Well => {}
                Ending::Refused => return Ok(Ending::Refused),
            }
        }
    }
    Ok(Ending::Well)
}

/// Prints the lines of steps.
fn print_steps(
    rt: &impl Print,
    alloc: Global,
    wanted: &WantedFiles,
    steps: &[PlanStep],
) -> Result<(), TaskFault> {
    for step in steps {
        print_line(rt, alloc, &line_of(alloc, wanted, step)?)?;
    }
    Ok(())
}

/// Submits to a server what makes its store hold exactly what files hold, and prints a line of each
/// command. What is brought comes first; where something is, the store is looked at again before
/// anything goes, since a CRL takes the place of an older one.
///
/// # Errors
///
/// Those of the files; `Field` where one holds nothing of its kind; `BadCrl` where something speaks
/// against a CRL that is to be loaded: nothing is submitted then. Those of the exchange and of the
/// node; `Unknown` where a command is not known to be chosen in time.
pub(crate) fn sync_store<
    R: AllocGlobal + Files + Net + Clock + RandomSource + Print + Eprint + Clone + Drop,
>(rt: &R, words: &SyncWords) -> Result<Ending, TaskFault> {
    let alloc = rt.alloc();
    let wanted = wanted_by(rt, words)?;
    let mut server = server_at(rt, alloc, &words.reach)?;
    let Some(steps) = steps_to(rt, alloc, words, &mut server, &wanted)? else {
        return Ok(Ending::Refused);
    };
    if words.dry_run {
        print_steps(rt, alloc, &wanted, &steps)?;
        return Ok(Ending::Well);
    }
    if !steps.iter().any(|step| step.kind.brings()) {
        return follow(rt, alloc, words, &mut server, &wanted, &steps, true);
    }
    match follow(rt, alloc, words, &mut server, &wanted, &steps, false)? {
        Ending::Well => {}
        Ending::Refused => return Ok(Ending::Refused),
    }
    let Some(steps) = steps_to(rt, alloc, words, &mut server, &wanted)? else {
        return Ok(Ending::Refused);
    };
    follow(rt, alloc, words, &mut server, &wanted, &steps, true)
}
