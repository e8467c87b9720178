//! What a row says of a command.

ghost use Rattle.std.specs.Prelude.{◌≡◌, option_map};
ghost use Rattle.ts_render.specs.Outcomes.{kind_word, outcome_of};

use ts_command::{Outcome, Refusal};

/// What a row says that became of a command.
pub(crate) fn outcome_of(outcome: u8, detail: u32) -> Option<Outcome>
    ensures { result ≡ outcome_of outcome detail }
{
    match outcome {
        0 => Some(Outcome::Applied),
        1 => Some(Outcome::Repeated(detail)),
        2 => match Refusal::of_code(detail) {
            Some(refusal) => Some(Outcome::Refused(refusal)),
            None => None,
        },
        _ => None,
    }
}

/// The word for the kind of a command, as `trustd command` has it.
pub(crate) fn kind_word(kind: u8) -> Option<&'static str>
    ensures { option_map (λ word. word.now) result ≡ kind_word kind }
{
    match kind {
        1 => Some("add"),
        2 => Some("withdraw"),
        3 => Some("load"),
        4 => Some("drop"),
        5 => Some("purposes"),
        6 => Some("noop"),
        _ => None,
    }
}
