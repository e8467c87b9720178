//! The machine takes what the log has learned.

ghost use Rattle.std.specs.Prelude.{◌≡◌, OnOk, length};
ghost use Rattle.ts_synod.specs.Log.{prefix};
ghost use Rattle.ts_log.specs.Log.{learned_of};
ghost use Rattle.ts_node.specs.Growing.{IsPart};

use crate::machine::Machine;
use std::alloc::AllocError;
use ts_log::Log;
use ts_synod::Command;

/// Feeds a machine the learned commands that it has not taken. Where memory is refused it stays
/// behind, and a later call goes on.
pub(crate) fn feed<C: Command, M: Machine<C>>(
    log: &Log<C>,
    machine: &mut M,
) -> Result<(), AllocError>
    requires { IsPart (M.commands machine.old) (learned_of log.now) }
    ensures whole { OnOk result (M.commands machine.new ≡ prefix (learned_of log.now)) }
    ensures part { IsPart (M.commands machine.new) (learned_of log.now) }
    ensures basis { M.basis machine.new ≡ M.basis machine.old }
{
    for taken in machine.prefix()..log.prefix() {
        if let Some(command) = log.command(taken + 1) {
            machine.push(command)?;
        }
    }
    Ok(())
}
