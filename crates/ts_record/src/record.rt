//! A record of facts on two disks.

ghost use Rattle.std.specs.Prelude.{◌≡◌, ◌≤◌, ◌⊎◌, ◌++◌, ◌∷◌, [], ◌^◌, ◌+◌, ℕ, List, false, true};
ghost use Rattle.std.specs.Prelude.{length, IfOk, OnOk, OnErr, IfErr, MatchResult, IsErrOf, drop};
ghost use Rattle.std.specs.Prelude.{cond, ◌<◌, Ok};
ghost use Rattle.ts_disk.specs.Disk.{IsDurable, DeviceFailed};
ghost use Rattle.ts_journal.specs.Images.{head, Member, AnyPair, EveryPair};
ghost use Rattle.ts_record.specs.declared.fault.RecordFault.TheVariants.{Memory, DiskFailed};
ghost use Rattle.ts_record.specs.declared.fault.RecordFault.TheVariants.{Broken};
ghost use Rattle.ts_record.specs.declared.fault.RecordFault.TheVariants.{GenerationsExhausted};
ghost use Rattle.ts_record.specs.Facts.{AllFit, encodings, OpensTo};
ghost use Rattle.ts_journal.specs.Choice.{header_of_owner, IsLive, IsOther, IsChosen};
ghost use Rattle.ts_journal.specs.declared.choice.Choice.{Choice};
ghost use Rattle.ts_synod.specs.declared.message.Fact.{Fact};
ghost use Rattle.ts_record.specs.Blocks.{version_2, IsRead};
ghost use Rattle.ts_record.specs.Opening.{IsFault, NothingNew};
ghost use Rattle.ts_record.specs.Record.{ToBeforeOrAfter, OpensToFrom, OpensToForce, EitherFailed};
ghost use Rattle.ts_record.specs.Rewrite.{idle, with_more, IsLast, Steps};
ghost use Rattle.ts_record.specs.Kept.{calls_made, course, member};
ghost use Rattle.ts_synod.specs.Force.{SameForce};

use crate::blocks::Contents;
use crate::ledger::{Ledger, append, step};
use crate::opening::{FoundRecord, open_disks};
use crate::{Progress, RecordFault};
use std::alloc::Global;
use std::marker::Model;
use ts_disk::Disk;
use ts_journal::{Journal, format};
use ts_synod::{Codec, Fact};

/// A record of facts on two disks, of which one is in use.
#[derive(Drop)]
pub struct Record<D: Disk, C: Codec> {
    ledger: Ledger<D, C>,
    broken: bool,
}

impl<D: Disk, C: Codec> Model for Record<D, C> {
    ghost use Rattle.std.specs.Prelude.{◌≡◌, false};
    ghost use Rattle.ts_record.specs.Kept.{KeptRecord, Keeps, kept_of};

    ghost Value = { KeptRecord D C };

    ghost view = { λ r. kept_of r.ledger r.broken };

    ghost invariant = { λ r. r.broken ≡ false → Keeps D.state C.octets r.ledger };
}

/// Why a record was not opened, and its two disks.
#[derive(Drop)]
pub struct RefusedRecord<D: Disk> {
    pub fault: RecordFault,
    pub a: D,
    pub b: D,
}

/// The record that was read.
fn record_of<D: Disk, C: Codec>(
    alloc: Global,
    current: D,
    spare: D,
    found: FoundRecord<C>,
) -> Record<D, C>
    requires live { IsLive (header_of_owner found.choice.owner) (D.state current).read }
    requires other { IsOther found.choice.stage (header_of_owner found.choice.owner)
        (D.state spare).read }
    requires durable { IsDurable (D.state current) }
    requires still { IsDurable (D.state spare) }
    requires read { IsRead C.octets version_2
        (D.state current).read found.contents.facts.items found.contents.end }
    ensures a { result.a ≡ cond found.choice.swapped spare current }
    ensures b { result.b ≡ cond found.choice.swapped current spare }
    ensures facts { result.facts ≡ found.contents.facts.items }
    ensures broken { result.broken ≡ false }
    ensures swapped { result.swapped ≡ found.choice.swapped }
    ensures node { result.node ≡ found.choice.owner.node }
    ensures nodes { result.nodes ≡ found.choice.owner.nodes }
    ensures group { result.group ≡ found.choice.owner.group }
    ensures generation { result.generation ≡ found.choice.owner.generation }
    ensures rewrite { result.rewrite ≡ idle }
    ensures opens { AnyPair (OpensToFrom C.octets (member result) result.swapped result.facts)
        (D.state result.a) (D.state result.b) }
{
    let FoundRecord { choice, contents } = found;
    let Contents { facts, end } = contents;
    let journal = Journal {
        current,
        spare,
        swapped: choice.swapped,
        node: choice.owner.node,
        nodes: choice.owner.nodes,
        group: choice.owner.group,
        generation: choice.owner.generation,
        end,
        stage: choice.stage,
        copy_end: 0,
    };
    Record {
        ledger: Ledger {
            journal,
            facts,
            copy: Vec::new(alloc),
            done: 0,
        },
        broken: false,
    }
}

impl<D: Disk, C: Codec> Record<D, C> {
    /// Writes an empty record of a node of a group on two disks, and syncs both. The first is live,
    /// of generation 1; the second is shut, of generation 0. Group 0 is none: its record tells
    /// nobody whose it is.
    pub fn format(a: &mut D, b: &mut D, node: u8, nodes: u8, group: u32) -> Result<(), RecordFault>
        requires node_from { 1 ≤ node }
        requires node_to { node ≤ nodes }
        requires nodes_to { nodes ≤ 9 }
        ensures first { OnOk result ((D.state a.new).read ≡
            head (record { node = node; nodes = nodes; group = group; generation = 1 })
            ++ (1 ∷ 0 ∷ drop 26 (D.state a.old).read)) }
        ensures second { OnOk result ((D.state b.new).read ≡
            head (record { node = node; nodes = nodes; group = group; generation = 0 })
            ++ (0 ∷ 0 ∷ drop 26 (D.state b.old).read)) }
        // Each pair of images that a crash may leave opens to no facts.
        ensures opens { OnOk result (AnyPair
            (OpensTo C.octets (record { node = node; nodes = nodes }) []) (D.state a.new)
            (D.state b.new)) }
        ensures fault { IfErr result (λ fault. (fault ≡ DiskFailed)
            × EitherFailed (D.state a.old) (D.state b.old) (D.state a.new) (D.state b.new)) }
    {
        format(a, b, node, nodes, group)?;
        Ok(())
    }

    /// Opens the record on two disks, which are synced and read first. Refused, it gives the disks
    /// back.
    pub fn open(alloc: Global, a: D, b: D) -> Result<Record<D, C>, RefusedRecord<D>>
        // Each pair of images that a crash may leave opens to the facts, from the disk in use.
        ensures opens { IfOk result (λ opened. AnyPair
            (OpensToFrom C.octets (member opened) opened.swapped opened.facts) (D.state opened.a)
            (D.state opened.b)) }
        // The disk in use is the one of the greatest generation among those that are live.
        ensures chosen { IfOk result (λ opened. (choice : Choice)
            × IsChosen choice (D.state a).read (D.state b).read
            × (opened.swapped ≡ choice.swapped) × (opened.generation ≡ choice.owner.generation)) }
        // The record is that of the node and group in its header, one of 1 to 9 nodes.
        ensures owner { IfOk result (λ opened. (choice : Choice)
            × IsChosen choice (D.state a).read (D.state b).read
            × (opened.node ≡ choice.owner.node) × (opened.nodes ≡ choice.owner.nodes)
            × (opened.group ≡ choice.owner.group)) }
        ensures member { IfOk result (λ opened. (1 ≤ opened.node) × (opened.node ≤ opened.nodes)
            × (opened.nodes ≤ 9)) }
        // No rewrite is begun: one that was not switched is forgotten.
        ensures idle { IfOk result (λ opened. opened.rewrite ≡ idle) }
        ensures whole { IfOk result (λ opened. opened.broken ≡ false) }
        // A read of each disk gives the same octets as before.
        ensures same { MatchResult result
            (λ opened. ((D.state opened.a).read ≡ (D.state a).read)
            × ((D.state opened.b).read ≡ (D.state b).read))
            (λ refused. ((D.state refused.a).read ≡ (D.state a).read)
            × ((D.state refused.b).read ≡ (D.state b).read)) }
        // Where the two images open to facts as the record of a member, these are the record's, and
        // it is that member's; or memory or a device failed.
        ensures only { (owner : Member) (facts : List (Fact C))
            → OpensTo C.octets owner facts (D.state a).read (D.state b).read
            → MatchResult result (λ opened. (opened.facts ≡ facts) × (member opened ≡ owner))
            (λ refused. (refused.fault ≡ Memory) ⊎ (refused.fault ≡ DiskFailed)) }
        // At every moment of the call a crash leaves nothing that it could not leave before.
        ensures moments { MatchResult result
            (λ opened. NothingNew (D.state a) (D.state b) (D.state opened.a) (D.state opened.b))
            (λ refused. NothingNew (D.state a) (D.state b)
            (D.state refused.a) (D.state refused.b)) }
        ensures fault { IfErr result (λ refused. IsFault C.octets (D.state a) (D.state b)
            (D.state refused.a) (D.state refused.b) refused.fault) }
    {
        let mut a = a;
        let mut b = b;
        C::one_encoding();
        match open_disks(alloc, &mut a, &mut b) {
            Ok(found) => {
                if found.choice.swapped {
                    Ok(record_of(alloc, b, a, found))
                } else {
                    Ok(record_of(alloc, a, b, found))
                }
            }
            Err(fault) => Err(RefusedRecord { fault, a, b }),
        }
    }

    /// The facts, in the order in which they were kept.
    pub fn facts(&self) -> &[Fact<C>]
        ensures { result.now ≡ self.now.facts }
    {
        &self.ledger.facts
    }

    /// Whether a device failed in an earlier call.
    pub fn is_broken(&self) -> bool
        ensures { result ≡ self.now.broken }
    {
        self.broken
    }

    /// The number of the node whose record it is.
    pub fn node(&self) -> u8
        ensures { result ≡ self.now.node }
    {
        self.ledger.journal.node
    }

    /// The number of nodes.
    pub fn nodes(&self) -> u8
        ensures { result ≡ self.now.nodes }
    {
        self.ledger.journal.nodes
    }

    /// The number of the group, which was given when the record was formatted; 0 is none.
    pub fn group(&self) -> u32
        ensures { result ≡ self.now.group }
    {
        self.ledger.journal.group
    }

    /// Gives the two disks back, in the order in which they were given.
    pub fn close(self) -> (D, D)
        ensures a { result.0 ≡ self.a }
        ensures b { result.1 ≡ self.b }
    {
        let Record { ledger, broken: _ } = self;
        let Ledger { journal, .. } = ledger;
        let Journal {
            current,
            spare,
            swapped,
            ..
        } = journal;
        if swapped {
            (spare, current)
        } else {
            (current, spare)
        }
    }

    /// Keeps facts, all of them or none, by four calls of the disk in use. Memory is reserved
    /// before the first of them. Of no facts it makes no call.
    pub fn append(&mut self, alloc: Global, facts: &[Fact<C>]) -> Result<(), RecordFault>
        requires fit { AllFit C.octets facts.now }
        requires short { length (encodings C.octets facts.now) ≤ 4194500 }

        ensures kept { OnOk result (self.new.facts ≡ self.old.facts ++ facts.now) }

        // A rewrite copies the new facts too.
        ensures rewrite { OnOk result (self.new.rewrite ≡ with_more self.old.rewrite facts.now) }
        ensures swapped { self.new.swapped ≡ self.old.swapped }
        ensures generation { self.new.generation ≡ self.old.generation }

        ensures owner { member self.new ≡ member self.old }
        ensures group { self.new.group ≡ self.old.group }

        // At a fault the facts stay, and so do the disk in use, its generation and the rewrite.
        ensures refused { OnErr result (course self.new ≡ course self.old) }

        // Of no facts it makes no call of a disk; of some it makes four that write or sync.
        ensures nothing { self.old.broken ≡ false → facts.now ≡ []
            → (result ≡ Ok tt) × (self.new ≡ self.old) }
        ensures calls { 0 < length facts.now → OnOk result (calls_made D.state self.new
            ≡ calls_made D.state self.old + 4) }

        // At every moment each pair of images opens to the facts before, or to those and all of the
        // new ones, and from the disk in use.
        ensures moments { self.old.broken ≡ false
            → EveryPair (ToBeforeOrAfter C.octets
            (member self.old) self.old.swapped self.old.facts facts.now) (D.state self.old.a)
            (D.state self.old.b) (D.state self.new.a) (D.state self.new.b) }

        // Afterwards each pair of images opens to the facts, from the disk in use.
        ensures opens { OnOk result (AnyPair
            (OpensToFrom C.octets (member self.new) self.new.swapped self.new.facts)
            (D.state self.new.a) (D.state self.new.b)) }

        ensures fault { IfErr result (λ fault. (fault ≡ Memory) ⊎ (fault ≡ DiskFailed)
            ⊎ (fault ≡ Broken)) }
        ensures memory { IsErrOf result RecordFault.Memory → self.new ≡ self.old }
        ensures failed { IsErrOf result RecordFault.DiskFailed
            → (self.new.broken ≡ true) × (self.new.facts ≡ self.old.facts)
            × EitherFailed (D.state self.old.a) (D.state self.old.b) (D.state self.new.a)
            (D.state self.new.b) }
        ensures broken { IsErrOf result RecordFault.Broken
            → (self.old.broken ≡ true) × (self.new ≡ self.old) }
        ensures stays { self.old.broken ≡ true → IsErrOf result RecordFault.Broken }
        ensures whole { OnOk result (self.new.broken ≡ false) }
    {
        if self.broken {
            return Err(RecordFault::Broken);
        }
        if facts.is_empty() {
            return Ok(());
        }
        let answer = append(alloc, &mut self.ledger, facts);
        self.broken = is_failure(&answer);
        answer
    }

    /// Makes one step of a rewrite of the record on its other disk. The first decides what is
    /// copied, clears that disk's live byte where it is set, and syncs; the second writes its
    /// header, of the next generation; then each copies a fact, as an entry of its own; and the
    /// last one sets the live byte, so that the record is on that disk. Facts may be appended
    /// between two steps, and are copied too. Memory is reserved before the first device call.
    pub fn compact(&mut self, alloc: Global) -> Result<Progress, RecordFault>
        ensures steps { IfOk result (λ answer. Steps (course self.old) answer (course self.new)) }

        ensures owner { member self.new ≡ member self.old }
        ensures group { self.new.group ≡ self.old.group }

        // At a fault the facts stay, and so do the disk in use, its generation and the rewrite.
        ensures refused { OnErr result (course self.new ≡ course self.old) }

        // At every moment each pair of images opens to equivalent facts (`SameForce`).
        ensures moments { self.old.broken ≡ false
            → EveryPair (OpensToForce C.octets (member self.old) self.old.facts)
            (D.state self.old.a) (D.state self.old.b) (D.state self.new.a)
            (D.state self.new.b) }

        // Before the last step each pair opens to the facts, from the disk in use.
        ensures from { self.old.broken ≡ false → (IsLast self.old.rewrite → ⊥)
            → EveryPair (OpensToFrom C.octets (member self.old) self.old.swapped self.old.facts)
            (D.state self.old.a) (D.state self.old.b) (D.state self.new.a)
            (D.state self.new.b) }

        // Afterwards each pair of images opens to the facts, from the disk in use.
        ensures opens { OnOk result (AnyPair
            (OpensToFrom C.octets (member self.new) self.new.swapped self.new.facts)
            (D.state self.new.a) (D.state self.new.b)) }

        // The facts afterwards are equivalent to those before.
        ensures force { OnOk result (SameForce self.new.facts self.old.facts) }

        ensures fault { IfErr result (λ fault. (fault ≡ Memory) ⊎ (fault ≡ DiskFailed)
            ⊎ (fault ≡ Broken) ⊎ (fault ≡ GenerationsExhausted)) }
        ensures memory { IsErrOf result RecordFault.Memory → self.new ≡ self.old }
        ensures failed { IsErrOf result RecordFault.DiskFailed
            → (self.new.broken ≡ true) × (self.new.facts ≡ self.old.facts)
            × EitherFailed (D.state self.old.a) (D.state self.old.b) (D.state self.new.a)
            (D.state self.new.b) }
        ensures broken { IsErrOf result RecordFault.Broken
            → (self.old.broken ≡ true) × (self.new ≡ self.old) }
        ensures stays { self.old.broken ≡ true → IsErrOf result RecordFault.Broken }
        ensures exhausted { IsErrOf result RecordFault.GenerationsExhausted
            → (self.old.generation + 1 ≡ 2 ^ 64) × (self.new ≡ self.old) }
        ensures last { self.old.broken ≡ false → self.old.generation + 1 ≡ 2 ^ 64
            → IsErrOf result RecordFault.GenerationsExhausted }
        ensures whole { OnOk result (self.new.broken ≡ false) }
    {
        if self.broken {
            return Err(RecordFault::Broken);
        }
        if self.ledger.journal.generation == u64::MAX {
            return Err(RecordFault::GenerationsExhausted);
        }
        let answer = step(alloc, &mut self.ledger);
        self.broken = is_failure(&answer);
        answer
    }
}

/// Whether a device failed in the call.
fn is_failure<T>(answer: &Result<T, RecordFault>) -> bool
    ensures failed { result ≡ true → IsErrOf answer.now RecordFault.DiskFailed }
    ensures others { result ≡ false → IsErrOf answer.now RecordFault.DiskFailed → ⊥ }
{
    matches!(answer, Err(RecordFault::DiskFailed))
}
