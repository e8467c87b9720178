//! The flags of a question, one by one.

ghost use Rattle.std.specs.Prelude.{◌≡◌};
ghost use Rattle.ts_form.specs.Fields.{is_flag, no_flags, with_flag};

use crate::field::Field;
use ts_question::Flags;

/// Whether a field is a flag.
pub(crate) fn is_flag(field: Field) -> bool
    ensures { result ≡ is_flag field }
{
    matches!(
        field,
        Field::Hard | Field::Deltas | Field::Explicit | Field::NoMap | Field::NoAny
    )
}

/// These flags, with one more set. A field that is no flag sets none.
pub(crate) fn with_flag(field: Field, flags: Flags) -> Flags
    ensures { result ≡ with_flag field flags }
{
    let mut flags = flags;
    match field {
        Field::Hard => flags.hard = true,
        Field::Deltas => flags.use_deltas = true,
        Field::Explicit => flags.explicit_policy = true,
        Field::NoMap => flags.inhibit_policy_mapping = true,
        Field::NoAny => flags.inhibit_any_policy = true,
        _ => {}
    }
    flags
}

/// No flags.
pub(crate) fn no_flags() -> Flags
    ensures { result ≡ no_flags }
{
    Flags {
        explicit_policy: false,
        inhibit_policy_mapping: false,
        inhibit_any_policy: false,
        hard: false,
        use_deltas: false,
    }
}
