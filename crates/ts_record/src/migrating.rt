//! A record of version 1 becomes one of version 2.

ghost use Rattle.std.specs.Prelude.{◌≡◌, ◌≢◌, ◌≤◌, ◌+◌, ◌⊎◌, ◌++◌, ◌∷◌, [], ℕ, List, true, false};
ghost use Rattle.std.specs.Prelude.{length, take, drop, MatchOption, MatchResult, IfOk, IfErr};
ghost use Rattle.ts_disk.specs.Disk.{DeviceFailed, EveryImage};
ghost use Rattle.ts_journal.specs.Images.{Member, IsFresh, AnyPair, EveryPair};
ghost use Rattle.ts_synod.specs.declared.message.Fact.{Fact};
ghost use Rattle.ts_record.specs.declared.fault.RecordFault.TheVariants.{Memory, DiskFailed};
ghost use Rattle.ts_record.specs.Blocks.{version_1, IsRead};
ghost use Rattle.ts_record.specs.Old.{old_head, IsOldOf, OpensOld, AllFactsOrNone};
ghost use Rattle.ts_record.specs.Old.{IsMigrationFault};
ghost use Rattle.ts_record.specs.Record.{OpensToFrom};

use crate::blocks::{Contents, read_blocks};
use crate::layout::VERSION_1;
use crate::opening::is_same;
use crate::{Record, RecordFault};
use std::alloc::Global;
use ts_disk::Disk;
use ts_journal::format_with;
use ts_synod::{Codec, Fact};

/// The node whose record of version 1 begins here, and the number of nodes.
fn old_owner(octets: &[u8]) -> Option<(u8, u8)>
    ensures { MatchOption result ((m : Member) → IsOldOf m octets.now → ⊥)
        (λ owner. IsOldOf (record { node = owner.0; nodes = owner.1 }) octets.now) }
{
    if octets.len() < VERSION_1.first_gate {
        return None;
    }
    let (node, nodes) = (octets[8], octets[9]);
    let head = [
        0x54, 0x53, 0x52, 0x45, 0x43, 0, 0, 1, node, nodes, 0, 0, 0, 0, 0, 0,
    ];
    if !is_same(&octets[..VERSION_1.first_gate], &head) {
        return None;
    }
    if node < 1 || nodes < node || 9 < nodes {
        return None;
    }
    Some((node, nodes))
}

/// A record of version 1: whose it is, and what is in it.
#[derive(Drop)]
struct OldRecord<C> {
    node: u8,
    nodes: u8,
    contents: Contents<C>,
}

/// Reads the octets of a disk as a record of version 1. They are refused where they begin with no
/// header of version 1, or what follows it can't be read.
fn read_old<C: Codec>(alloc: Global, octets: &[u8]) -> Result<OldRecord<C>, RecordFault>
    ensures owner { IfOk result (λ old. IsOldOf
        (record { node = old.node; nodes = old.nodes }) octets.now) }
    ensures read { IfOk result (λ old. IsRead C.octets version_1 octets.now
        old.contents.facts.items old.contents.end) }
    ensures fault { IfErr result (λ fault. (fault ≢ DiskFailed)
        × IsMigrationFault C.octets octets.now ⊥ fault) }
{
    let Some((node, nodes)) = old_owner(octets) else {
        return Err(RecordFault::NotFormatted);
    };
    let contents = read_blocks(alloc, VERSION_1, octets)?;
    Ok(OldRecord {
        node,
        nodes,
        contents,
    })
}

/// The number of facts. More than 2^32 - 1 are refused as out of memory.
fn count<C>(facts: &[Fact<C>]) -> Result<u32, RecordFault>
    ensures value { IfOk result (λ count. count ≡ length facts.now) }
    ensures fault { IfErr result (λ fault. fault ≡ Memory) }
{
    if facts.len() > u32::MAX as usize {
        return Err(RecordFault::Memory);
    }
    Ok(facts.len() as u32)
}

impl<D: Disk, C: Codec> Record<D, C> {
    /// Writes the entries of a record of version 1, one for one, as a record on two other disks, of
    /// no group, and answers the number of their facts. The old disk is read and not written.
    ///
    /// # Errors
    ///
    /// `NotFormatted` where the old disk has no header of version 1, `Damaged` where what follows
    /// it can't be read, and out of memory: the two disks are as they were. `DiskFailed`: two fresh
    /// disks hold no record, or the whole one.
    pub fn migrate(alloc: Global, old: &mut D, a: &mut D, b: &mut D) -> Result<u32, RecordFault>
        // Where the old disk opens to facts, each pair of images opens to them afterwards, as the
        // record of the same member, from the first disk; or memory or a device failed.
        ensures opens { (owner : Member) (facts : List (Fact C))
            → OpensOld C.octets owner facts (D.state old.old).read
            → MatchResult result
            (λ count. (count ≡ length facts)
            × AnyPair (OpensToFrom C.octets owner false facts) (D.state a.new) (D.state b.new))
            (λ fault. (fault ≡ Memory) ⊎ (fault ≡ DiskFailed)) }
        ensures old { IfOk result (λ count. (owner : Member) × (facts : List (Fact C))
            × OpensOld C.octets owner facts (D.state old.old).read) }
        // On fresh disks each pair of images opens to all of the facts or is no record, at every
        // moment.
        ensures moments { (owner : Member) (facts : List (Fact C))
            → OpensOld C.octets owner facts (D.state old.old).read
            → IsFresh (D.state a.old) → IsFresh (D.state b.old)
            → EveryPair (AllFactsOrNone C.octets facts) (D.state a.old) (D.state b.old)
            (D.state a.new) (D.state b.new) }
        // The old disk stays, and a crash leaves nothing of it that it could not leave before.
        ensures same { (D.state old.new).read ≡ (D.state old.old).read }
        ensures unwritten { EveryImage (D.state old.old).may_leave (D.state old.old)
            (D.state old.new) }
        ensures fault { IfErr result (IsMigrationFault C.octets (D.state old.old).read
            (DeviceFailed (D.state old.old) (D.state old.new)
            ⊎ DeviceFailed (D.state a.old) (D.state a.new)
            ⊎ DeviceFailed (D.state b.old) (D.state b.new))) }
        ensures untouched { IfErr result
            (λ fault. fault ≢ DiskFailed → (a.new ≡ a.old) × (b.new ≡ b.old)) }
    {
        C::one_encoding();
        let octets = old.read(alloc)?;
        let record = read_old::<C>(alloc, &octets)?;
        let facts = count(&record.contents.facts)?;
        let text = &octets[VERSION_1.first_gate..=record.contents.end];
        format_with(a, b, record.node, record.nodes, 0, text)?;
        Ok(facts)
    }
}
