//! A record is opened from what two disks hold.

ghost use Rattle.std.specs.Prelude.{◌≡◌, ◌≢◌, ◌≤◌, ◌⊎◌, ◌++◌, ◌∷◌, [], ℕ, List, true, false};
ghost use Rattle.std.specs.Prelude.{length, take, cond, IfOk, OnOk, IfErr};
ghost use Rattle.ts_disk.specs.Disk.{IsDurable, DeviceFailed};
ghost use Rattle.ts_journal.specs.Choice.{IsChosen, Unchosen};
ghost use Rattle.ts_record.specs.declared.fault.RecordFault.TheVariants.{Memory, DiskFailed};
ghost use Rattle.ts_record.specs.declared.fault.RecordFault.TheVariants.{NotFormatted, OldVersion};
ghost use Rattle.ts_record.specs.declared.fault.RecordFault.TheVariants.{Damaged};
ghost use Rattle.ts_record.specs.Blocks.{version_2, IsRead};
ghost use Rattle.ts_record.specs.Opening.{BeginsOld, IsRefused, IsFault, NothingNew};
ghost use Rattle.ts_record.specs.Record.{EitherFailed};

use crate::RecordFault;
use crate::blocks::{Contents, read_blocks};
use crate::layout::VERSION_2;
use std::alloc::Global;
use ts_disk::Disk;
use ts_journal::{Choice, Look, choose, look_at};
use ts_synod::Codec;

/// The disk in use, and what is on it.
#[derive(Drop)]
pub(crate) struct FoundRecord<C> {
    pub choice: Choice,
    pub contents: Contents<C>,
}

/// Whether two strings of octets are equal.
pub(crate) fn is_same(a: &[u8], b: &[u8]) -> bool
    ensures equal { result ≡ true → a.now ≡ b.now }
    ensures different { result ≡ false → a.now ≢ b.now }
{
    a == b
}

/// Whether octets begin with those of a record of version 1.
fn begins_old(octets: &[u8]) -> bool
    ensures old { result ≡ true → BeginsOld octets.now }
    ensures other { result ≡ false → BeginsOld octets.now → ⊥ }
{
    if octets.len() < 8 {
        return false;
    }
    is_same(&octets[..8], &[0x54, 0x53, 0x52, 0x45, 0x43, 0, 0, 1])
}

/// Why no disk is in use.
fn refusal(a: &[u8], b: &[u8]) -> RecordFault
    requires { Unchosen a.now b.now }
    ensures { IsRefused a.now b.now result }
{
    let second = look_at(b);
    if begins_old(a) && !matches!(second, Look::Right(_)) {
        RecordFault::OldVersion
    } else {
        RecordFault::NotFormatted
    }
}

/// Syncs both disks and reads them: each octet once.
pub(crate) fn open_disks<D: Disk, C: Codec>(
    alloc: Global,
    a: &mut D,
    b: &mut D,
) -> Result<FoundRecord<C>, RecordFault>
    ensures durable_a { OnOk result (IsDurable (D.state a.new)) }
    ensures durable_b { OnOk result (IsDurable (D.state b.new)) }
    ensures moments { NothingNew (D.state a.old) (D.state b.old) (D.state a.new) (D.state b.new) }
    ensures same_a { (D.state a.new).read ≡ (D.state a.old).read }
    ensures same_b { (D.state b.new).read ≡ (D.state b.old).read }
    ensures chosen { IfOk result (λ found. IsChosen found.choice (D.state a.old).read
        (D.state b.old).read) }
    ensures read { IfOk result (λ found. IsRead C.octets version_2
        (cond found.choice.swapped (D.state b.old).read (D.state a.old).read)
        found.contents.facts.items found.contents.end) }
    ensures fault { IfErr result (λ fault. IsFault C.octets (D.state a.old) (D.state b.old)
        (D.state a.new) (D.state b.new) fault) }
{
    a.sync()?;
    b.sync()?;
    let first = a.read(alloc)?;
    let second = b.read(alloc)?;
    let Some(choice) = choose(&first, &second) else {
        return Err(refusal(&first, &second));
    };
    let image = if choice.swapped { &second } else { &first };
    let contents = read_blocks(alloc, VERSION_2, image)?;
    Ok(FoundRecord { choice, contents })
}
