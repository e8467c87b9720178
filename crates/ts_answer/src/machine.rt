//! The trust store as the state machine of a node.

ghost use Rattle.std.specs.Prelude.{◌≡◌, ◌<◌, ◌≤◌, ◌++◌, ◌∷◌, [], IfOk, OnOk, OnErr, length, take};
ghost use Rattle.ts_command.specs.Commands.{id_of};
ghost use Rattle.ts_store.specs.Outcome.{outcome_after};
ghost use Rattle.ts_answer.specs.Machine.{IsAnswer};

use crate::answers::Answers;
use std::alloc::AllocError;
use ts_command::{Command, Outcome};
use ts_node::Machine;
use ts_question::{Answer, Question};
use ts_sig::SignatureCheck;

impl<S: SignatureCheck + Drop> Machine<Command> for Answers<S> {
    type Outcome = Outcome;

    type Question = Question;

    type Answer = Answer;

    type Basis = S;

    ghost client_id = { id_of };

    ghost outcome = { outcome_after };

    ghost basis = { λ a. a.check };

    ghost is_answer = { λ check commands question answer. IsAnswer
        (S.accepts check) commands question answer };

    ghost commands = { λ a. a.commands };

    fn id_of(command: &Command) -> [u8; 16] {
        command.id()
    }

    fn push(&mut self, command: &Command) -> Result<(), AllocError> {
        let _outcome = self.push(command)?;
        Ok(())
    }

    fn prefix(&self) -> u32 {
        self.prefix()
    }

    fn settled(&self, id: &[u8; 16]) -> Option<(u32, Outcome)> {
        match self.settled(id) {
            Some(first) => Some((first.position, first.outcome)),
            None => None,
        }
    }

    fn answer(&mut self, k: u32, question: &Question) -> Result<Answer, AllocError> {
        // There are no more commands than positions.
        let _taken = self.taken();
        Answers::answer(self, k, question)
    }
}
