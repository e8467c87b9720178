//! Laws about the fold of commands that the store is. Each is the contract of a function that does
//! nothing.

ghost use Rattle.std.specs.Prelude.{◌≡◌, ◌⊎◌, List, ℕ, suc, ◌++◌, Some, None};
ghost use Rattle.ts_store.specs.Store.{StoreState, step, after};
ghost use Rattle.ts_command.specs.declared.outcome.Outcome.TheVariants.{Applied};
ghost use Rattle.ts_command.specs.Commands.{id_of};
ghost use Rattle.ts_store.specs.Ids.{first_of};
ghost use Rattle.ts_command.specs.declared.command.Command.{Command};
ghost use Rattle.ts_store.specs.declared.ids.FirstCommand.{FirstCommand};

/// A command that is not applied leaves the tables as they are; each command takes one position; a
/// command with a new id holds it with its position and outcome, and keeps it whatever commands
/// follow; commands one after another are those of both lists.
pub fn one_step()
    ensures unchanged { (position : ℕ) (command : Command) (state : StoreState)
        → ((step position command state).outcome ≡ Applied)
        ⊎ ((step position command state).state.tables ≡ state.tables) }
    ensures taken { (position : ℕ) (command : Command) (state : StoreState)
        → (step position command state).state.taken ≡ suc state.taken }
    ensures held { (position : ℕ) (command : Command) (state : StoreState)
        → first_of (id_of command) state.ids ≡ None
        → first_of (id_of command) (step position command state).state.ids
        ≡ Some (record { position = position; outcome = (step position command state).outcome }) }
    ensures kept { (position : ℕ) (command : Command) (state : StoreState) (id : List ℕ)
        (first : FirstCommand)
        → first_of id state.ids ≡ Some first
        → first_of id (step position command state).state.ids ≡ Some first }
    ensures joined { (state : StoreState) (commands more : List Command)
        → after state (commands ++ more) ≡ after (after state commands) more }
{}
