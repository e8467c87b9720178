//! The lines of a node's record.

use crate::command::kind_word;
use crate::lines::Lines;
use std::alloc::AllocError;
use ts_command::Command;
use ts_disk::MemDisk;
use ts_journal::{Look, look_at};
use ts_line::Line;
use ts_record::{Record, RecordFault};
use ts_synod::Fact;

/// The line of a disk: the generation of one that is live; else that it is too short for a record,
/// that its live byte is clear, or that its header is wrong.
fn disk_line(lines: &mut Lines, key: &str, octets: &[u8]) -> Result<(), AllocError> {
    let mut line = lines.begin(0, key)?;
    match look_at(octets) {
        Look::Right(owner) => {
            line.word(b"live generation ")?;
            line.number(owner.generation)?;
        }
        Look::Short => line.word(b"short")?,
        Look::Shut => line.word(b"shut")?,
        Look::Wrong => line.word(b"wrong")?,
    }
    lines.push(line)
}

/// The line that says why the record can't be opened.
///
/// # Errors
///
/// Out of memory; on disks in memory a device fails for nothing else.
fn fault_line(lines: &mut Lines, fault: RecordFault) -> Result<(), AllocError> {
    let mut line = lines.begin(0, "fault")?;
    line.word(match fault {
        RecordFault::Memory | RecordFault::DiskFailed | RecordFault::Broken => return Err(
            AllocError,
        ),
        RecordFault::GenerationsExhausted => b"GenerationsExhausted",
        RecordFault::NotFormatted => b"NotFormatted",
        RecordFault::OldVersion => b"OldVersion",
        RecordFault::Damaged(_) => b"Damaged",
    })?;
    if let RecordFault::Damaged(at) = fault {
        line.word(b"at ")?;
        line.number(at as u64)?;
    }
    lines.push(line)
}

/// Writes a space and a number.
fn write_number(line: &mut Line, number: u64) -> Result<(), AllocError> {
    line.word(b"")?;
    line.number(number)
}

/// Writes the id and the kind of a command.
fn write_command(line: &mut Line, command: &Command) -> Result<(), AllocError> {
    line.word(b"command ")?;
    line.hex(&command.id())?;
    line.word(kind_word(command).as_bytes())
}

/// The line of a fact.
fn fact_line(lines: &mut Lines, fact: &Fact<Command>) -> Result<(), AllocError> {
    match fact {
        Fact::Used { round } => lines.number(0, "used", u64::from(*round)),
        Fact::Promised { position, ballot } => {
            let mut line = lines.begin(0, "promised")?;
            write_number(&mut line, u64::from(*position))?;
            write_number(&mut line, *ballot)?;
            lines.push(line)
        }
        Fact::Took {
            position,
            ballot,
            command,
        } => {
            let mut line = lines.begin(0, "took")?;
            write_number(&mut line, u64::from(*position))?;
            write_number(&mut line, *ballot)?;
            write_command(&mut line, command)?;
            lines.push(line)
        }
        Fact::Chosen { position, command } => {
            let mut line = lines.begin(0, "chosen")?;
            write_number(&mut line, u64::from(*position))?;
            write_command(&mut line, command)?;
            lines.push(line)
        }
    }
}

/// The lines of facts.
fn fact_lines(lines: &mut Lines, facts: &[Fact<Command>]) -> Result<(), AllocError> {
    for fact in facts {
        fact_line(lines, fact)?;
    }
    Ok(())
}

/// The lines of what a record holds, or of why it can't be opened.
fn opened_lines(lines: &mut Lines, a: MemDisk, b: MemDisk) -> Result<(), AllocError> {
    match Record::<MemDisk, Command>::open(lines.alloc(), a, b) {
        Ok(record) => {
            lines.number(0, "node", u64::from(record.node()))?;
            lines.number(0, "nodes", u64::from(record.nodes()))?;
            if record.group() > 0 {
                lines.number(0, "group", u64::from(record.group()))?;
            }
            fact_lines(lines, record.facts())
        }
        Err(refused) => fault_line(lines, refused.fault),
    }
}

/// The lines of a record on two disks with these octets: what each disk is, and what the record
/// holds.
pub(crate) fn record_lines(
    lines: &mut Lines,
    first: &[u8],
    second: &[u8],
) -> Result<(), AllocError> {
    disk_line(lines, "first disk", first)?;
    disk_line(lines, "second disk", second)?;
    let alloc = lines.alloc();
    let a = MemDisk::new(alloc, first.to_vec(alloc)?)?;
    let b = MemDisk::new(alloc, second.to_vec(alloc)?)?;
    opened_lines(lines, a, b)
}
