//! A record while facts are appended to it, and while it is rewritten.

ghost use Rattle.std.specs.Prelude.{◌≡◌, ◌≢◌, ◌≤◌, ◌<◌, ◌⊎◌, ◌++◌, ◌+◌, ◌^◌, ◌∷◌, [], ℕ, List};
ghost use Rattle.std.specs.Prelude.{true, false, length, cond, IfOk, OnOk, OnErr, IfErr, IsErrOf};
ghost use Rattle.ts_journal.specs.Settled.{EveryMoment, member_in, OneFailed, calls_on_disks};
ghost use Rattle.ts_journal.specs.declared.journal.Stage.TheVariants.{Live, Closed, Begun, Copying};
ghost use Rattle.ts_record.specs.declared.fault.RecordFault.TheVariants.{Memory, DiskFailed};
ghost use Rattle.ts_record.specs.declared.progress.Progress.TheVariants.{Working, Switched};
ghost use Rattle.ts_record.specs.Compacted.{compact};
ghost use Rattle.ts_record.specs.Facts.{AllFit, encodings};
ghost use Rattle.ts_record.specs.Kept.{Keeps, rewrite_of, course_of};
ghost use Rattle.ts_record.specs.Record.{OpensToFrom, OpensToForce, ToBeforeOrAfter};
ghost use Rattle.ts_record.specs.Rewrite.{idle, begun, copying, with_more, on, switch, IsLast};
ghost use Rattle.ts_record.specs.Rewrite.{Steps};

use crate::compacted::compact;
use crate::writing::{copies, copies_if, entry_of, entry_of_one, move_behind};
use crate::{Progress, RecordFault};
use std::alloc::Global;
use ts_disk::Disk;
use ts_journal::{Journal, Stage};
use ts_synod::{Codec, Fact};

/// A journal, the facts in it, the facts that a rewrite copies, and how many of them are copied.
#[derive(Drop)]
pub(crate) struct Ledger<D: Disk, C: Codec> {
    pub journal: Journal<D>,
    pub facts: Vec<Fact<C>>,
    pub copy: Vec<Fact<C>>,
    pub done: usize,
}

/// The first step: decides what is copied, and shuts the other disk.
fn shut<D: Disk, C: Codec>(alloc: Global, c: &mut Ledger<D, C>) -> Result<(), RecordFault>
    requires keeps { Keeps D.state C.octets c.old }
    requires idle { (c.old.journal.stage ≡ Live) ⊎ (c.old.journal.stage ≡ Closed) }
    requires not_last { c.old.journal.generation + 1 < 2 ^ 64 }
    ensures keeps { OnOk result (Keeps D.state C.octets c.new) }
    ensures course { OnOk result (course_of c.new
        ≡ on (course_of c.old) (begun (compact c.old.facts.items))) }
    ensures refused { OnErr result (course_of c.new ≡ course_of c.old) }
    ensures owner { member_in c.new.journal ≡ member_in c.old.journal }
    ensures group { c.new.journal.group ≡ c.old.journal.group }
    ensures moments { EveryMoment D.state
        (OpensToFrom C.octets (member_in c.old.journal) c.old.journal.swapped c.old.facts.items)
        c.old.journal c.new.journal }
    ensures facts { c.new.facts ≡ c.old.facts }
    ensures memory { IsErrOf result RecordFault.Memory → c.new ≡ c.old }
    ensures fault { IfErr result (λ fault. (fault ≡ Memory)
        ⊎ ((fault ≡ DiskFailed) × OneFailed D.state c.old.journal c.new.journal)) }
{
    let copy = compact(alloc, &c.facts)?;
    c.journal.shut()?;
    c.copy = copy;
    Ok(())
}

/// The second step: writes the other disk's header.
fn begin<D: Disk, C: Codec>(c: &mut Ledger<D, C>) -> Result<(), RecordFault>
    requires keeps { Keeps D.state C.octets c.old }
    requires begun { c.old.journal.stage ≡ Begun }
    ensures keeps { OnOk result (Keeps D.state C.octets c.new) }
    ensures course { OnOk result (course_of c.new
        ≡ on (course_of c.old) (copying c.old.copy.items 0)) }
    ensures refused { OnErr result (course_of c.new ≡ course_of c.old) }
    ensures owner { member_in c.new.journal ≡ member_in c.old.journal }
    ensures group { c.new.journal.group ≡ c.old.journal.group }
    ensures moments { EveryMoment D.state
        (OpensToFrom C.octets (member_in c.old.journal) c.old.journal.swapped c.old.facts.items)
        c.old.journal c.new.journal }
    ensures facts { c.new.facts ≡ c.old.facts }
    ensures fault { IfErr result (λ fault. (fault ≡ DiskFailed)
        × OneFailed D.state c.old.journal c.new.journal) }
{
    c.journal.begin()?;
    c.done = 0;
    Ok(())
}

/// The third step: copies one fact, as an entry of its own.
fn copy<D: Disk, C: Codec>(alloc: Global, c: &mut Ledger<D, C>) -> Result<(), RecordFault>
    requires keeps { Keeps D.state C.octets c.old }
    requires copying { c.old.journal.stage ≡ Copying }
    requires left { c.old.done < length c.old.copy.items }
    ensures keeps { OnOk result (Keeps D.state C.octets c.new) }
    ensures course { OnOk result (course_of c.new
        ≡ on (course_of c.old) (copying c.old.copy.items (c.old.done + 1))) }
    ensures refused { OnErr result (course_of c.new ≡ course_of c.old) }
    ensures owner { member_in c.new.journal ≡ member_in c.old.journal }
    ensures group { c.new.journal.group ≡ c.old.journal.group }
    ensures moments { EveryMoment D.state
        (OpensToFrom C.octets (member_in c.old.journal) c.old.journal.swapped c.old.facts.items)
        c.old.journal c.new.journal }
    ensures facts { c.new.facts ≡ c.old.facts }
    ensures memory { IsErrOf result RecordFault.Memory → c.new ≡ c.old }
    ensures fault { IfErr result (λ fault. (fault ≡ Memory)
        ⊎ ((fault ≡ DiskFailed) × OneFailed D.state c.old.journal c.new.journal)) }
{
    let octets = entry_of_one(alloc, &c.copy[c.done])?;
    c.journal.copy(&octets)?;
    c.done += 1;
    Ok(())
}

/// The last step: uses the other disk.
fn switch<D: Disk, C: Codec>(alloc: Global, c: &mut Ledger<D, C>) -> Result<(), RecordFault>
    requires keeps { Keeps D.state C.octets c.old }
    requires copying { c.old.journal.stage ≡ Copying }
    requires none_left { c.old.done ≡ length c.old.copy.items }
    ensures keeps { OnOk result (Keeps D.state C.octets c.new) }
    ensures course { OnOk result (course_of c.new ≡ switch (course_of c.old) c.old.copy.items) }
    ensures refused { OnErr result (course_of c.new ≡ course_of c.old) }
    ensures owner { member_in c.new.journal ≡ member_in c.old.journal }
    ensures group { c.new.journal.group ≡ c.old.journal.group }
    ensures moments { EveryMoment D.state
        (OpensToForce C.octets (member_in c.old.journal) c.old.facts.items) c.old.journal
        c.new.journal }
    ensures facts { IfErr result (λ fault. c.new.facts ≡ c.old.facts) }
    ensures fault { IfErr result (λ fault. (fault ≡ DiskFailed)
        × OneFailed D.state c.old.journal c.new.journal) }
{
    c.journal.switch()?;
    c.facts = std::mem::replace(&mut c.copy, Vec::new(alloc));
    Ok(())
}

/// One step of a rewrite.
pub(crate) fn step<D: Disk, C: Codec>(
    alloc: Global,
    c: &mut Ledger<D, C>,
) -> Result<Progress, RecordFault>
    requires keeps { Keeps D.state C.octets c.old }
    requires not_last { c.old.journal.generation + 1 < 2 ^ 64 }
    ensures keeps { OnOk result (Keeps D.state C.octets c.new) }
    ensures steps { IfOk result (λ answer. Steps (course_of c.old) answer (course_of c.new)) }
    ensures refused { OnErr result (course_of c.new ≡ course_of c.old) }
    ensures owner { member_in c.new.journal ≡ member_in c.old.journal }
    ensures group { c.new.journal.group ≡ c.old.journal.group }
    ensures moments { EveryMoment D.state
        (OpensToForce C.octets (member_in c.old.journal) c.old.facts.items) c.old.journal
        c.new.journal }
    ensures from { (IsLast (rewrite_of c.old) → ⊥)
        → EveryMoment D.state (OpensToFrom C.octets
        (member_in c.old.journal) c.old.journal.swapped c.old.facts.items) c.old.journal
        c.new.journal }
    ensures facts { IfErr result (λ fault. c.new.facts ≡ c.old.facts) }
    ensures memory { IsErrOf result RecordFault.Memory → c.new ≡ c.old }
    ensures fault { IfErr result (λ fault. (fault ≡ Memory)
        ⊎ ((fault ≡ DiskFailed) × OneFailed D.state c.old.journal c.new.journal)) }
{
    match c.journal.stage {
        Stage::Live | Stage::Closed => shut(alloc, c)?,
        Stage::Begun => begin(c)?,
        Stage::Copying => {
            if c.done == c.copy.len() {
                switch(alloc, c)?;
                return Ok(Progress::Switched);
            }
            copy(alloc, c)?;
        }
    }
    Ok(Progress::Working)
}

/// Appends facts to the disk in use; a rewrite copies them too.
pub(crate) fn append<D: Disk, C: Codec>(
    alloc: Global,
    c: &mut Ledger<D, C>,
    facts: &[Fact<C>],
) -> Result<(), RecordFault>
    requires keeps { Keeps D.state C.octets c.old }
    requires some { 0 < length facts.now }
    requires fit { AllFit C.octets facts.now }
    requires short { length (encodings C.octets facts.now) ≤ 4194500 }
    ensures keeps { OnOk result (Keeps D.state C.octets c.new) }
    ensures kept { OnOk result (c.new.facts.items ≡ c.old.facts.items ++ facts.now) }
    ensures rewrite { OnOk result (rewrite_of c.new ≡ with_more (rewrite_of c.old) facts.now) }
    ensures swapped { c.new.journal.swapped ≡ c.old.journal.swapped }
    ensures generation { c.new.journal.generation ≡ c.old.journal.generation }
    ensures refused { OnErr result (course_of c.new ≡ course_of c.old) }
    ensures owner { member_in c.new.journal ≡ member_in c.old.journal }
    ensures group { c.new.journal.group ≡ c.old.journal.group }
    ensures counted { OnOk result (calls_on_disks D.state c.new.journal
        ≡ calls_on_disks D.state c.old.journal + 4) }
    ensures moments { EveryMoment D.state
        (ToBeforeOrAfter C.octets (member_in c.old.journal) c.old.journal.swapped
        c.old.facts.items facts.now) c.old.journal c.new.journal }
    ensures facts { IfErr result (λ fault. c.new.facts.items ≡ c.old.facts.items) }
    ensures memory { IsErrOf result RecordFault.Memory
        → (c.new.journal ≡ c.old.journal) × (c.new.copy.items ≡ c.old.copy.items)
        × (c.new.done ≡ c.old.done) }
    ensures fault { IfErr result (λ fault. (fault ≡ Memory)
        ⊎ ((fault ≡ DiskFailed) × OneFailed D.state c.old.journal c.new.journal)) }
{
    let is_rewritten = matches!(c.journal.stage, Stage::Begun | Stage::Copying);
    let octets = entry_of(alloc, facts)?;
    let mut more = copies(alloc, facts)?;
    let mut again = copies_if(alloc, is_rewritten, facts)?;
    c.facts.reserve(more.len())?;
    c.copy.reserve(again.len())?;
    c.journal.append(&octets)?;
    move_behind(&mut c.facts, &mut more);
    move_behind(&mut c.copy, &mut again);
    Ok(())
}
