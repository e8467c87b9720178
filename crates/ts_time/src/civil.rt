//! Times as a calendar and a clock show them.

ghost use Rattle.std.specs.Prelude.{◌≡◌, ◌↔◌, ◌≤◌, IsSome, IfSome, SomeIff};

use crate::Moment;
use crate::calendar::{date_of_number, number_of_date};

/// The seconds of a day.
const DAY: i64 = 86_400;

/// What a calendar and a clock show in UTC. Any numbers may be here: `moment` tells whether there
/// is such a time.
#[derive(Clone, Copy)]
pub(crate) struct CivilTime {
    pub year: u16,
    pub month: u8,
    pub day: u8,
    pub hour: u8,
    pub minute: u8,
    pub second: u8,
}

impl CivilTime {
    ghost use Rattle.ts_time.specs.Civil.{Exists, moment_of, IsInYears};

    /// The moment that this time names, if there is such a time in the years 0 to 9999.
    #[inline(always)]
    pub(crate) fn moment(self) -> Option<Moment>
        ensures { SomeIff result (Exists self) (moment_of self) }
    {
        if self.hour > 23 || self.minute > 59 || self.second > 59 {
            return None;
        }
        let number = number_of_date(self.year, self.month, self.day)?;
        let seconds = self.hour as i64 * 3600 + self.minute as i64 * 60 + self.second as i64;
        Some(Moment(number * DAY + seconds))
    }

    /// The time that names this moment, if it lies in the years from `first` to `last`, both
    /// included.
    pub(crate) fn in_years(moment: Moment, first: u16, last: u16) -> Option<CivilTime>
        requires { last ≤ 9999 }
        ensures found { IfSome result (λ t. Exists t × (moment_of t ≡ moment)) }
        ensures years { IfSome result (λ t. (first ≤ t.year) × (t.year ≤ last)) }
        ensures none { IsSome result ↔ IsInYears first last moment }
    {
        let time = CivilTime::at(moment)?;
        if time.year < first || time.year > last {
            return None;
        }
        Some(time)
    }

    /// The time that names this moment, if it lies in the years 0 to 9999.
    fn at(moment: Moment) -> Option<CivilTime>
        ensures found { IfSome result (λ t. Exists t × (moment_of t ≡ moment)) }
        ensures none { IsSome result ↔ IsInYears 0 9999 moment }
    {
        let (year, month, day) = date_of_number(moment.0.div_euclid(DAY))?;
        let seconds = moment.0.rem_euclid(DAY) as u32;
        Some(CivilTime {
            year,
            month,
            day,
            hour: (seconds / 3600) as u8,
            minute: (seconds / 60 % 60) as u8,
            second: (seconds % 60) as u8,
        })
    }
}
