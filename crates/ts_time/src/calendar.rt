//! Dates of the Gregorian calendar and their day numbers, by `jiff`.

ghost use Rattle.std.specs.Prelude.{◌≡◌, ◌↔◌, ◌≤ℤ◌, ◌<ℤ◌, IsSome, IfSome, SomeIff};
ghost use Rattle.jiff.specs.Words.{IsWithin};
ghost use Rattle.ts_time.specs.Calendar.{IsDate, day_number};

use jiff::civil;

/// The days from 1970-01-01 to a date of the years 0 to 9999; none where the calendar has no such
/// date.
pub(crate) fn number_of_date(year: u16, month: u8, day: u8) -> Option<i64>
    ensures value { SomeIff result (IsDate year month day) (day_number year month day) }
    ensures bound { IfSome result (IsWithin 5_000_000) }
{
    let year = i16::try_from(year).ok()?;
    let month = i8::try_from(month).ok()?;
    let day = i8::try_from(day).ok()?;
    let date = civil::Date::new(year, month, day).ok()?;
    Some(date.to_plain().to_unix_epoch_day() as i64)
}

/// The year, month and day with that number; none outside the years 0 to 9999.
pub(crate) fn date_of_number(number: i64) -> Option<(u16, u8, u8)>
    ensures found { IfSome result (λ d. IsDate d.0 d.1 d.2 × (day_number d.0 d.1 d.2 ≡ number)) }
    ensures none { IsSome result
        ↔ ((day_number 0 1 1 ≤ℤ number) × (number <ℤ day_number 10000 1 1)) }
{
    let epoch = civil::date(1970, 1, 1).to_plain();
    let date = epoch.checked_add(number).ok()?;
    if date.year < 0 {
        return None;
    }
    Some((date.year as u16, date.month, date.day))
}
