//! Laws about the encoding of commands. Each is the contract of a function that does nothing.

ghost use Rattle.std.specs.Prelude.{◌≡◌, ◌↔◌, IsTrue, List, ℕ};
ghost use Rattle.ts_command.specs.Commands.{command_encoding, CommandFits};
ghost use Rattle.ts_command.specs.Octets.{is_command};
ghost use Rattle.ts_command.specs.declared.command.Command.{Command};

/// No two commands have one encoding, and no two lists of octets are one command's.
pub fn one_encoding()
    ensures command { (command other : Command) → CommandFits command → CommandFits other
        → command_encoding command ≡ command_encoding other → command ≡ other }
    ensures octets { (octets others : List ℕ) (command : Command)
        → octets ≡ command_encoding command
        → others ≡ command_encoding command → octets ≡ others }
{}

/// The test by which a command has octets in a record is true of exactly those commands whose id
/// has 16 octets and whose fields are within their limits.
pub fn which_fit()
    ensures { (command : Command) → IsTrue (is_command command) ↔ CommandFits command }
{}
