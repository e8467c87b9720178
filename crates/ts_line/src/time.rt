//! Moments.

ghost use Rattle.std.specs.Prelude.{◌≡◌, ◌++◌, ℕ, List, OnOk};
ghost use Rattle.ts_line.specs.Moments.{IsMomentText};

use crate::line::Line;
use std::alloc::{AllocError, Global};
use ts_time::{Moment, print_general};

/// Writes a moment as a GeneralizedTime, and one of no year from 0 to 9999 as its seconds from
/// 1970-01-01T00:00:00Z.
pub fn write_moment(alloc: Global, line: &mut Line, seconds: i64) -> Result<(), AllocError>
    ensures { OnOk result ((text : List ℕ) × IsMomentText seconds text
        × (line.new ≡ line.old ++ text)) }
{
    match print_general(Moment(seconds)) {
        Some(text) => line.text(text.as_slice()),
        None => {
            let digits = format!(in alloc; "{seconds} seconds")?;
            line.text(digits.as_bytes())
        }
    }
}
