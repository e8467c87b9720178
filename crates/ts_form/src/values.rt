//! What texts write.

ghost use Rattle.std.specs.Prelude.{◌≡◌, ℤ, MatchOption};
ghost use Rattle.ts_time.specs.Text.{IsGeneral};
ghost use Rattle.ts_form.specs.Fields.{says};

use ts_time::read_general;

/// The moment that a text names as a GeneralizedTime, in seconds from 1970-01-01T00:00:00Z.
pub(crate) fn moment_of(text: &str) -> Option<i64>
    ensures { MatchOption result ((m : ℤ) → ¬ (IsGeneral text.now m)) (IsGeneral text.now) }
{
    match read_general(text.as_bytes()) {
        Ok(moment) => Some(moment.0),
        Err(_) => None,
    }
}

/// Whether a text sets a flag. `None` where it is none of those that do, or say that it isn't.
pub(crate) fn flag_of(text: &str) -> Option<bool>
    ensures { result ≡ says text.now }
{
    match text {
        "" | "1" | "on" | "true" => Some(true),
        "0" | "false" => Some(false),
        _ => None,
    }
}
