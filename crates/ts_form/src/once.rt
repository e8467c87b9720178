//! Fields that are given once.

ghost use Rattle.std.specs.Prelude.{OnOk, IfErr};
ghost use Rattle.ts_form.specs.inside.Once.{IsNotGiven, IsNowGiven};

use crate::fault::FormFault;
use crate::field::Field;

/// Gives a field that has no value the one that its text writes, if it writes one.
pub(crate) fn give_once<T: Copy>(
    field: Field,
    given: &mut Option<T>,
    written: Option<T>,
) -> Result<(), FormFault>
    ensures gives { OnOk result (IsNowGiven given.old written given.new) }
    ensures refused { IfErr result (IsNotGiven field given.old written) }
{
    if given.is_some() {
        return Err(FormFault::Twice(field));
    }
    if written.is_none() {
        return Err(FormFault::Value(field));
    }
    *given = written;
    Ok(())
}
