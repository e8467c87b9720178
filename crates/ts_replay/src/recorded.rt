//! The commands that a record knows.

ghost use Rattle.std.specs.Prelude.{◌≡◌, List, IfErr, IfOk, MatchResult};
ghost use Rattle.ts_command.specs.declared.command.Command.{Command};
ghost use Rattle.ts_command.specs.Octets.{octets_of};
ghost use Rattle.ts_journal.specs.Images.{Member};
ghost use Rattle.ts_record.specs.declared.fault.RecordFault.TheVariants.{Memory};
ghost use Rattle.ts_record.specs.Facts.{OpensTo};
ghost use Rattle.ts_synod.specs.declared.message.Fact.{Fact};
ghost use Rattle.ts_synod.specs.Force.{log_of};
ghost use Rattle.ts_synod.specs.Log.{prefix};
ghost use Rattle.ts_replay.specs.Recorded.{AreKnown, IsNoRecord, or_memory};

use std::alloc::{AllocError, Global};
use ts_command::Command;
use ts_disk::MemDisk;
use ts_log::Log;
use ts_record::{Record, RecordFault};
use ts_synod::Fact;

/// The commands that facts say to be chosen from position 1 on without a gap.
fn prefix_in(alloc: Global, facts: &[Fact<Command>]) -> Result<Vec<Command>, AllocError>
    ensures { IfOk result (λ commands. commands.items ≡ prefix (log_of facts.now)) }
{
    let log = Log::open(alloc, 1, 1, facts)?;
    let mut commands = Vec::new(alloc);
    for known in 0..log.prefix() {
        match log.command(known + 1) {
            Some(command) => commands.push(command.try_copy(alloc)?)?,
            None => return Ok(commands),
        }
    }
    Ok(commands)
}

/// The fault of a record in memory, where a device fails only for want of memory.
fn in_memory(fault: RecordFault) -> RecordFault
    ensures { result ≡ or_memory fault }
{
    match fault {
        RecordFault::DiskFailed => RecordFault::Memory,
        other => other,
    }
}

/// The commands that the node of a record knows from position 1 on without a gap, of the octets of
/// the record's two files.
///
/// # Errors
///
/// As `Record::open`, where no device fails: `NotFormatted`, `OldVersion`, `Damaged`; `Memory`.
pub fn commands_in(
    alloc: Global,
    first: Vec<u8>,
    second: Vec<u8>,
) -> Result<Vec<Command>, RecordFault>
    ensures found { IfOk result (λ commands. AreKnown first.items second.items commands.items) }
    // Where the two open to facts as the record of a node, the commands are those of these facts;
    // or memory was refused.
    ensures only { (owner : Member) (facts : List (Fact Command))
        → OpensTo octets_of owner facts first.items second.items
        → MatchResult result (λ commands. commands.items ≡ prefix (log_of facts))
        (λ fault. fault ≡ Memory) }
    ensures fault { IfErr result (IsNoRecord first.items second.items) }
{
    let a = MemDisk::new(alloc, first)?;
    let b = MemDisk::new(alloc, second)?;
    match Record::<MemDisk, Command>::open(alloc, a, b) {
        Ok(record) => Ok(prefix_in(alloc, record.facts())?),
        Err(refused) => Err(in_memory(refused.fault)),
    }
}
