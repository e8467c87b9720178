//! A node takes inputs in memory, one after another, and keeps the facts of all of them together.

ghost use Rattle.std.specs.Prelude.{◌≡◌, ◌≤◌, [], true, false};
ghost use Rattle.ts_node.specs.Ahead.{IsAhead, IsKept, IsNext, IsPlanned, IsStage};
ghost use Rattle.ts_node.specs.Inputs.{InputFits};
ghost use Rattle.ts_node.specs.Machine.{store_of};
ghost use Rattle.ts_node.specs.Node.{IsSound, config};
ghost use Rattle.ts_node.specs.inside.Roles.{IsLatest};
ghost use Rattle.ts_node.specs.Staged.{AreReady, IsStaged};

use crate::input::{Input, Output, Reply};
use crate::machine::Machine;
use crate::node::Node;
use crate::plan::Plan;
use crate::room::room_for;
use crate::turn::StagedFacts;
use std::mem::replace;
use ts_disk::Disk;
use ts_synod::{Codec, Command, NodeFault};

impl<D: Disk, C: Command + Codec, M: Machine<C>> Node<D, C, M> {
    /// Takes an input as `turn` does, but that its facts wait, behind those of the inputs before
    /// it, until `keep_staged` keeps all of them by one append. **What it answers must not leave
    /// before that.** Where a record can't keep its facts together with those that wait, and at a
    /// compaction, those are kept first, and the input is a turn of its own.
    pub fn stage(
        &mut self,
        input: &Input<C, M::Question>,
        staged: &mut StagedFacts<C>,
    ) -> Result<Output<C, M::Outcome, M::Answer>, NodeFault>
        requires ahead { IsAhead D.state C.octets M.commands self.old staged.old }
        requires fits { InputFits C.octets input.now }
        ensures stage { IsStage C.octets (store_of M.Question M.client_id M.outcome) M.basis
            M.is_answer D.state staged.old.facts.items self.old input.now result
            staged.new.facts.items self.new }
        ensures ahead { IsAhead D.state C.octets M.commands self.new staged.new }
    {
        if self.is_broken() {
            return Err(NodeFault::Broken);
        }
        match self.stage_input(input, staged) {
            Ok(Some(output)) => Ok(output),
            Ok(None) => match self.keep_staged(staged) {
                Ok(()) => self.turn(input),
                Err(fault) => Err(fault),
            },
            Err(fault) => Err(fault),
        }
    }

    /// Keeps the facts that wait, by one append: what was answered since the last one may leave
    /// then. None waits then.
    ///
    /// # Errors
    ///
    /// `DiskFailed`, and `Broken` where memory was refused: the node is broken then, and what was
    /// answered is void.
    pub fn keep_staged(&mut self, staged: &mut StagedFacts<C>) -> Result<(), NodeFault>
        requires ahead { IsAhead D.state C.octets M.commands self.old staged.old }
        ensures kept { IsKept D.state C.octets self.old staged.old.facts.items result
            staged.new.facts.items self.new }
        ensures ahead { IsAhead D.state C.octets M.commands self.new staged.new }
        ensures sound { IsSound D.state C.octets M.commands self.new }
    {
        if self.is_broken() {
            return Err(NodeFault::Broken);
        }
        let waiting = replace(staged, StagedFacts::empty(self.alloc));
        self.append_staged(waiting)
    }

    /// Takes an input in memory, behind facts that are to be kept together with its own. `None`
    /// where it is a compaction, or where a record can't keep its facts together with those.
    fn stage_input(
        &mut self,
        input: &Input<C, M::Question>,
        staged: &mut StagedFacts<C>,
    ) -> Result<Option<Output<C, M::Outcome, M::Answer>>, NodeFault>
        requires still { self.old.ahead ≡ false }
        requires staged { IsStaged D.state C.octets M.commands self.old staged.old.facts.items }
        requires ready { AreReady C.octets staged.old }
        requires fits { InputFits C.octets input.now }
        ensures next { IsNext C.octets (store_of M.Question M.client_id M.outcome) M.basis
            M.is_answer staged.old.facts.items self.old input.now result staged.new.facts.items
            self.new }
        ensures staged { self.new.ahead ≡ false
            → IsStaged D.state C.octets M.commands self.new staged.new.facts.items }
        ensures ready { self.new.ahead ≡ false → AreReady C.octets staged.new }
        ensures kept { self.new.kept ≡ self.old.kept }
        ensures config { config self.new ≡ config self.old }
        ensures basis { M.basis self.new.machine ≡ M.basis self.old.machine }
    {
        match input {
            Input::Compact => Ok(None),
            _ => self.stage_event(input, staged),
        }
    }

    /// Takes an input that is no compaction in memory, behind facts that are to be kept together
    /// with its own. `None` where a record can't keep its facts together with those.
    fn stage_event(
        &mut self,
        input: &Input<C, M::Question>,
        staged: &mut StagedFacts<C>,
    ) -> Result<Option<Output<C, M::Outcome, M::Answer>>, NodeFault>
        requires still { self.old.ahead ≡ false }
        requires staged { IsStaged D.state C.octets M.commands self.old staged.old.facts.items }
        requires ready { AreReady C.octets staged.old }
        requires event { input.now ≡ Input.Compact → ⊥ }
        ensures next { IsNext C.octets (store_of M.Question M.client_id M.outcome) M.basis
            M.is_answer staged.old.facts.items self.old input.now result staged.new.facts.items
            self.new }
        ensures staged { self.new.ahead ≡ false
            → IsStaged D.state C.octets M.commands self.new staged.new.facts.items }
        ensures ready { self.new.ahead ≡ false → AreReady C.octets staged.new }
        ensures kept { self.new.kept ≡ self.old.kept }
        ensures config { config self.new ≡ config self.old }
        ensures basis { M.basis self.new.machine ≡ M.basis self.old.machine }
    {
        match self.roles.plan_input(&mut self.machine, input) {
            Ok((plan, reply)) => self.stage_plan(plan, reply, staged),
            Err(fault) => Err(fault),
        }
    }

    /// Takes what a plan says in memory, behind facts that are to be kept together with its own.
    /// `None` where a record can't keep its facts together with those.
    fn stage_plan(
        &mut self,
        plan: Plan<C>,
        reply: Reply<M::Outcome, M::Answer>,
        staged: &mut StagedFacts<C>,
    ) -> Result<Option<Output<C, M::Outcome, M::Answer>>, NodeFault>
        requires still { self.old.ahead ≡ false }
        requires staged { IsStaged D.state C.octets M.commands self.old staged.old.facts.items }
        requires ready { AreReady C.octets staged.old }
        requires latest { IsLatest self.old.roles plan.change }
        ensures planned { IsPlanned C.octets (store_of M.Question M.client_id M.outcome) self.old
            plan reply staged.old.facts.items result staged.new.facts.items self.new }
        ensures staged { self.new.ahead ≡ false
            → IsStaged D.state C.octets M.commands self.new staged.new.facts.items }
        ensures ready { self.new.ahead ≡ false → AreReady C.octets staged.new }
        ensures kept { self.new.kept ≡ self.old.kept }
        ensures config { config self.new ≡ config self.old }
        ensures basis { M.basis self.new.machine ≡ M.basis self.old.machine }
    {
        match room_for(self.alloc, plan.change.facts(), staged.size) {
            Ok(Some(size)) => match self.begin(plan, size, reply, staged) {
                Ok(output) => Ok(Some(output)),
                Err(fault) => Err(fault),
            },
            Ok(None) => Ok(None),
            Err(_) => Err(NodeFault::Memory),
        }
    }
}
