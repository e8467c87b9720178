//! Why pairs say no question.

ghost use Rattle.std.specs.Prelude.{◌≡◌};
ghost use Rattle.ts_form.specs.declared.fault.FormFault.TheVariants.{Memory};

use crate::field::Field;
use std::alloc::{AllocError, AllocFailed};

/// Why pairs say no question.
#[derive(Clone, Copy, Debug, PartialEq, Eq)]
pub enum FormFault {
    /// Memory was refused.
    Memory,
    /// The text is no JSON object, or a member of it is neither a text, a number, a flag, `null`
    /// nor a list of texts.
    Json,
    /// There are more than 256 pairs.
    Many,
    /// No field has this name.
    Name,
    /// The text is no value of this field.
    Value(Field),
    /// This field is given twice.
    Twice(Field),
}

impl From<AllocError> for FormFault {
    ghost from_gives = { λ _ fault. fault ≡ Memory };

    fn from(_error: AllocError) -> FormFault {
        FormFault::Memory
    }
}

impl<T: Drop> From<AllocFailed<T>> for FormFault {
    ghost from_gives = { λ _ fault. fault ≡ Memory };

    fn from(_error: AllocFailed<T>) -> FormFault {
        FormFault::Memory
    }
}
