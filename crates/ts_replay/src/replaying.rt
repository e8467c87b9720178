//! The steps of a replay.

ghost use Rattle.std.specs.Prelude.{◌≡◌};
ghost use Rattle.ts_replay.specs.Replaying.{after, begun, next, step_copied};

use ts_command::Command;

/// What is done next.
#[derive(Drop)]
pub enum Step<C> {
    /// The node is asked where it has this command.
    Look(C),
    /// This command is submitted, and waited for.
    Submit(C),
    /// Each command is at its position.
    Done,
}

/// How far a replay is.
#[derive(Clone, Copy, Debug, PartialEq, Eq)]
pub struct Replay {
    /// How many commands the node knew when it began.
    pub known: u32,
    /// How many commands of the record, from the first on, it has said to have at their positions.
    pub done: u32,
}

impl Replay {
    /// The begin of a replay to a node that knows so many commands.
    pub fn begin(known: u32) -> Replay
        ensures { result ≡ begun known }
    {
        Replay { known, done: 0 }
    }

    /// What is done next, to bring these commands.
    pub fn next<'a>(&self, commands: &'a [Command]) -> Step<&'a Command>
        ensures { step_copied result ≡ next commands.now self.now }
    {
        match commands.get(self.done as usize) {
            Some(command) if self.done < self.known => Step::Look(command),
            Some(command) => Step::Submit(command),
            None => Step::Done,
        }
    }

    /// How far the replay is once the node has said where the command of the step is settled, if it
    /// is. `None` where that is not its position in the record: the replay ends.
    pub fn after(self, settled: Option<u32>) -> Option<Replay>
        ensures { result ≡ after self settled }
    {
        match settled {
            Some(position) if position > 0 && position - 1 == self.done => Some(Replay {
                known: self.known,
                done: position,
            }),
            _ => None,
        }
    }
}
