//! Laws about replays. Each is the contract of a function that does nothing.

ghost use Rattle.std.specs.Prelude.{◌≡◌, ◌≤◌, ℕ, List, length, take};
ghost use Rattle.ts_command.specs.declared.command.Command.{Command};
ghost use Rattle.ts_replay.specs.declared.replaying.Replay.{Replay};
ghost use Rattle.ts_replay.specs.declared.replaying.Step.TheVariants.{Done, Submit};
ghost use Rattle.ts_replay.specs.Replaying.{Leads, Made, begun, next, settled_from};

/// Where a replay ends well, the node has said of each command of the record, in their order, that
/// it is settled at its position, and nothing else was asked or submitted.
pub fn replays_end()
    ensures { (commands : List Command) (known : ℕ) (steps : List Made) (end : Replay)
        → Leads commands (begun known) steps end → next commands end ≡ Done
        → steps ≡ settled_from 1 commands }
{}

/// Where a command is submitted, the node has said of each command before it that it is settled at
/// its position, and these are as many as it knew when the replay began, or more.
pub fn replays_submit()
    ensures { (commands : List Command) (known : ℕ) (steps : List Made) (now : Replay)
        (command : Command) → Leads commands (begun known) steps now
        → next commands now ≡ Submit command
        → (steps ≡ settled_from 1 (take now.done commands)) × (known ≤ now.done) }
{}
