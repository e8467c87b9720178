//! A point in time.

use std::marker::Model;

/// A point in time: the seconds since 1970-01-01T00:00:00Z, negative before it, with leap seconds
/// not counted. A contract sees a moment as this number.
#[derive(Clone, Copy, Debug, PartialEq, Eq, PartialOrd, Ord)]
pub struct Moment(pub i64);

impl Model for Moment {
    ghost use Rattle.std.specs.Prelude.{ℤ};

    ghost Value = { ℤ };

    ghost view = { λ m. m.0 };

    ghost inverse = { λ seconds. record { 0 = seconds } };
}
