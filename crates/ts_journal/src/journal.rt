//! A journal of entries on two disks, of which one is in use.

ghost use Rattle.std.specs.Prelude.{◌≡◌, ◌⊎◌, ◌++◌, ◌<◌, ◌+◌, ◌^◌, [], ◌∷◌, ℕ, List, true, false};
ghost use Rattle.std.specs.Prelude.{cond, OnOk, OnErr, IfErr};
ghost use Rattle.ts_disk.specs.declared.fault.DiskFault.TheVariants.{Failed};
ghost use Rattle.ts_journal.specs.Choice.{header_of_owner};
ghost use Rattle.ts_journal.specs.Images.{IsBody, at_generation, entry, OpensFrom, BeforeOrAfter};
ghost use Rattle.ts_journal.specs.Images.{OneOrOther};
ghost use Rattle.ts_journal.specs.Settled.{Holds, IsSettled, header_of, member_in, EveryMoment};
ghost use Rattle.ts_journal.specs.Settled.{OneFailed, calls_on_disks};
ghost use Rattle.ts_journal.specs.declared.journal.Stage.TheVariants.{Live, Closed, Begun, Copying};

use crate::choice::Owner;
use crate::durable::extend;
use crate::header::head_octets;
use crate::rewrite::{begin, shut};
use ts_disk::{Disk, DiskFault, put};

/// What the disk that is not in use holds: it is live, of an earlier generation; its live byte is
/// clear; a rewrite has begun; or entries are copied to it.
#[derive(Clone, Copy, Debug, PartialEq, Eq)]
pub enum Stage {
    Live,
    Closed,
    Begun,
    Copying,
}

/// A journal on two disks. `end` and `copy_end` are the offsets of the clear commit bytes after the
/// last entries.
#[derive(Drop)]
pub struct Journal<D: Disk> {
    pub current: D,
    pub spare: D,
    pub swapped: bool,
    pub node: u8,
    pub nodes: u8,
    pub group: u32,
    pub generation: u64,
    pub end: usize,
    pub stage: Stage,
    pub copy_end: usize,
}

impl<D: Disk> Journal<D> {
    /// Whose journal it is, with a generation.
    fn owner(&self, generation: u64) -> Owner
        ensures { header_of_owner result ≡ at_generation (header_of self.now) generation }
    {
        Owner {
            node: self.node,
            nodes: self.nodes,
            group: self.group,
            generation,
        }
    }

    /// Appends an entry, given as what follows its commit byte (its length, its octets and the next
    /// commit byte, which is clear), by four calls of the disk in use. At every moment each pair of
    /// images opens to the entries before, or to those and the new one, and from the disk in use.
    pub fn append(&mut self, octets: &[u8]) -> Result<(), DiskFault>
        requires settled { IsSettled D.state self.old }
        ensures holds { OnOk result ((bodies copied : List (List ℕ)) (body : List ℕ) → IsBody body
            → octets.now ≡ entry body
            → Holds D.state bodies copied self.old
            → Holds D.state (bodies ++ body ∷ []) copied self.new) }
        ensures moments { (bodies copied : List (List ℕ)) (body : List ℕ) → IsBody body
            → octets.now ≡ entry body
            → Holds D.state bodies copied self.old
            → EveryMoment D.state (BeforeOrAfter
            (member_in self.old) self.old.swapped bodies body) self.old self.new }
        ensures owner { member_in self.new ≡ member_in self.old }
        ensures group { self.new.group ≡ self.old.group }
        ensures swapped { self.new.swapped ≡ self.old.swapped }
        ensures generation { self.new.generation ≡ self.old.generation }
        ensures stage { self.new.stage ≡ self.old.stage }
        ensures counted { OnOk result (calls_on_disks D.state self.new
            ≡ calls_on_disks D.state self.old + 4) }
        ensures failed { IfErr result (λ fault. (fault ≡ Failed)
            × OneFailed D.state self.old self.new) }
    {
        extend(&mut self.current, self.end, octets)?;
        self.end += octets.len();
        Ok(())
    }

    /// The first step of a rewrite: clears the other disk's live byte where it is set, and syncs.
    /// At every moment each pair of images opens to the entries, from the disk in use.
    pub fn shut(&mut self) -> Result<(), DiskFault>
        requires settled { IsSettled D.state self.old }
        requires stage { (self.old.stage ≡ Live) ⊎ (self.old.stage ≡ Closed) }
        requires not_last { self.old.generation + 1 < 2 ^ 64 }
        ensures holds { OnOk result ((bodies copied : List (List ℕ))
            → Holds D.state bodies copied self.old → Holds D.state bodies copied self.new) }
        ensures moments { (bodies copied : List (List ℕ)) → Holds D.state bodies copied self.old
            → EveryMoment D.state (OpensFrom (member_in self.old) self.old.swapped bodies) self.old
            self.new }
        ensures owner { member_in self.new ≡ member_in self.old }
        ensures group { self.new.group ≡ self.old.group }
        ensures swapped { self.new.swapped ≡ self.old.swapped }
        ensures generation { self.new.generation ≡ self.old.generation }
        ensures stage { OnOk result (self.new.stage ≡ Begun) }
        ensures stays { OnErr result (self.new.stage ≡ self.old.stage) }
        ensures failed { IfErr result (λ fault. (fault ≡ Failed)
            × OneFailed D.state self.old self.new) }
    {
        let owner = self.owner(self.generation);
        shut(&mut self.spare, self.stage == Stage::Live, &owner)?;
        self.stage = Stage::Begun;
        Ok(())
    }

    /// The second step: writes the other disk's header, of the next generation.
    pub fn begin(&mut self) -> Result<(), DiskFault>
        requires settled { IsSettled D.state self.old }
        requires stage { self.old.stage ≡ Begun }
        ensures holds { OnOk result ((bodies copied : List (List ℕ))
            → Holds D.state bodies copied self.old → Holds D.state bodies [] self.new) }
        ensures moments { (bodies copied : List (List ℕ)) → Holds D.state bodies copied self.old
            → EveryMoment D.state (OpensFrom (member_in self.old) self.old.swapped bodies) self.old
            self.new }
        ensures owner { member_in self.new ≡ member_in self.old }
        ensures group { self.new.group ≡ self.old.group }
        ensures swapped { self.new.swapped ≡ self.old.swapped }
        ensures generation { self.new.generation ≡ self.old.generation }
        ensures stage { OnOk result (self.new.stage ≡ Copying) }
        ensures stays { OnErr result (self.new.stage ≡ self.old.stage) }
        ensures failed { IfErr result (λ fault. (fault ≡ Failed)
            × OneFailed D.state self.old self.new) }
    {
        let octets = head_octets(&self.owner(self.generation + 1));
        begin(&mut self.spare, &octets, &[0])?;
        self.copy_end = 25;
        self.stage = Stage::Copying;
        Ok(())
    }

    /// The third step: appends an entry to the other disk, given as what follows its commit byte.
    pub fn copy(&mut self, octets: &[u8]) -> Result<(), DiskFault>
        requires settled { IsSettled D.state self.old }
        requires stage { self.old.stage ≡ Copying }
        requires body { (body : List ℕ) × IsBody body × (octets.now ≡ entry body) }
        ensures holds { OnOk result ((bodies copied : List (List ℕ)) (body : List ℕ) → IsBody body
            → octets.now ≡ entry body
            → Holds D.state bodies copied self.old
            → Holds D.state bodies (copied ++ body ∷ []) self.new) }
        ensures moments { (bodies copied : List (List ℕ)) → Holds D.state bodies copied self.old
            → EveryMoment D.state (OpensFrom (member_in self.old) self.old.swapped bodies) self.old
            self.new }
        ensures owner { member_in self.new ≡ member_in self.old }
        ensures group { self.new.group ≡ self.old.group }
        ensures swapped { self.new.swapped ≡ self.old.swapped }
        ensures generation { self.new.generation ≡ self.old.generation }
        ensures stage { self.new.stage ≡ self.old.stage }
        ensures failed { IfErr result (λ fault. (fault ≡ Failed)
            × OneFailed D.state self.old self.new) }
    {
        extend(&mut self.spare, self.copy_end, octets)?;
        self.copy_end += octets.len();
        Ok(())
    }

    /// The last step: sets the other disk's live byte, and uses that disk. At every moment each
    /// pair of images opens to the entries before, or to the copied ones.
    pub fn switch(&mut self) -> Result<(), DiskFault>
        requires settled { IsSettled D.state self.old }
        requires stage { self.old.stage ≡ Copying }
        ensures holds { OnOk result ((bodies copied : List (List ℕ))
            → Holds D.state bodies copied self.old → Holds D.state copied [] self.new) }
        ensures moments { (bodies copied : List (List ℕ)) → Holds D.state bodies copied self.old
            → EveryMoment D.state (OneOrOther (member_in self.old) bodies copied)
            self.old self.new }
        ensures stage { OnOk result (self.new.stage ≡ Live) }
        ensures owner { member_in self.new ≡ member_in self.old }
        ensures group { self.new.group ≡ self.old.group }
        ensures swapped { OnOk result (self.new.swapped ≡ cond self.old.swapped false true) }
        ensures generation { OnOk result (self.new.generation ≡ self.old.generation + 1) }
        ensures stays { OnErr result ((self.new.stage ≡ self.old.stage)
            × (self.new.swapped ≡ self.old.swapped) × (self.new.generation ≡ self.old.generation)) }
        ensures failed { IfErr result (λ fault. (fault ≡ Failed)
            × OneFailed D.state self.old self.new) }
    {
        put(&mut self.spare, 24, &[1])?;
        std::mem::swap(&mut self.current, &mut self.spare);
        self.swapped = !self.swapped;
        self.generation += 1;
        self.end = self.copy_end;
        self.stage = Stage::Live;
        Ok(())
    }
}
