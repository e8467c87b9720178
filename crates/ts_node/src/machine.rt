//! The replicated state machine that a node feeds.

ghost use Rattle.std.specs.Prelude.{◌≡◌, ◌<◌, ◌≤◌, ◌++◌, ◌∷◌, [], ℕ, List, IfOk, OnOk, OnErr};
ghost use Rattle.std.specs.Prelude.{length, take};
ghost use Rattle.ts_synod.specs.Store.{settling};
ghost use Rattle.ts_node.specs.Machine.{settling_as, store_of};

use std::alloc::AllocError;

/// A deterministic state machine over commands ('Paxos Made Simple' 3). What it computes is a
/// function of the commands that it took, in their order, so two machines that took the same
/// commands give the same outcomes and answers.
pub trait Machine<C>: Drop {
    /// The outcome of a command.
    type Outcome: Drop;

    /// A question of a client.
    type Question;

    /// The answer to a question.
    type Answer: Drop;

    /// What the answers rest on beside the commands, as a check of signatures. No call changes it.
    type Basis;

    /// The id that a client chose for a command.
    ghost client_id: { C → List ℕ };

    /// The outcome of a command after others.
    ghost outcome: { List C → C → Self.Outcome };

    /// What the answers rest on beside the commands.
    ghost basis: { Self → Self.Basis };

    /// An answer to a question after these commands.
    ghost is_answer: { Self.Basis → List C → Self.Question → Self.Answer → Type 0 };

    /// The commands taken so far.
    ghost commands: { Self → List C };

    /// The id that a client chose for a command.
    fn id_of(command: &C) -> [u8; 16]
        ensures { result ≡ client_id command.now };

    /// Takes the command of the next position. At an error nothing is changed.
    fn push(&mut self, command: &C) -> Result<(), AllocError>
        requires { length (commands self.old) < 1000000 }
        ensures pushed { OnOk result (commands self.new ≡ commands self.old ++ command.now ∷ []) }
        ensures refused { OnErr result (commands self.new ≡ commands self.old) }
        ensures basis { basis self.new ≡ basis self.old };

    /// How many commands were taken.
    fn prefix(&self) -> u32
        ensures { result ≡ length (commands self.now) };

    /// The first position of the commands with this id, and the outcome there.
    fn settled(&self, id: &[u8; 16]) -> Option<(u32, Self::Outcome)>
        ensures { settling_as result ≡ settling (store_of Self.Question client_id outcome)
            (commands self.now) id.now };

    /// The answer to a question after the first k commands.
    fn answer(&mut self, k: u32, question: &Self::Question) -> Result<Self::Answer, AllocError>
        requires { k ≤ length (commands self.old) }
        ensures answer { IfOk result (λ answer. is_answer (basis self.old)
            (take k (commands self.old)) question.now answer) }
        ensures commands { commands self.new ≡ commands self.old }
        ensures basis { basis self.new ≡ basis self.old };
}
