//! UTCTime: YYMMDDHHMMSSZ (RFC 5280 4.1.2.5.1).

ghost use Rattle.std.specs.Prelude.{◌≡◌, ◌↔◌, List, ℕ, ℤ, Some, Ok, IsSome, IfSome, IfOk, IfErr};
ghost use Rattle.ts_der.specs.declared.fault.DerFault.TheVariants.{TimeForm};
ghost use Rattle.ts_time.specs.Civil.{IsInYears};
ghost use Rattle.ts_time.specs.Reading.{utc_value};
ghost use Rattle.ts_time.specs.Text.{year_of_two, IsUtc};

use crate::Moment;
use crate::civil::CivilTime;
use crate::digits::{print_two, read_two};
use crate::in_year::{print_in_year, read_in_year};
use ts_der::DerFault;

/// The moment that the content octets of a UTCTime name: `YYMMDDHHMMSSZ`, where YY from 50 on is
/// 19YY, and below it 20YY.
///
/// # Errors
///
/// `TimeForm` where the octets have another form, one without seconds or with an offset among them,
/// or where there is no such day, hour, minute or second; second 60 is none.
pub fn read_utc(content: &[u8]) -> Result<Moment, DerFault>
    ensures found { IfOk result (IsUtc content.now) }
    ensures only { (m : ℤ) → IsUtc content.now m → result ≡ Ok m }
    ensures fault { IfErr result (λ e.
        (e ≡ TimeForm) × ((m : ℤ) → ¬ (IsUtc content.now m))) }
    ensures exact { result ≡ utc_value content.now }
{
    find_utc(content).ok_or(DerFault::TimeForm)
}

/// The moment that the content octets of a UTCTime name; `None` where they name none.
#[inline(always)]
fn find_utc(content: &[u8]) -> Option<Moment>
    ensures found { IfSome result (IsUtc content.now) }
    ensures only { (m : ℤ) → IsUtc content.now m → result ≡ Some m }
{
    let [y1, y2, rest @ ..] = content else {
        return None;
    };
    let yy = read_two(*y1, *y2)?;
    read_in_year(full_year(yy), rest)?.moment()
}

/// The year that the two digits YY mean.
fn full_year(yy: u8) -> u16
    ensures { result ≡ year_of_two yy }
{
    if yy < 50 {
        2000 + yy as u16
    } else {
        1900 + yy as u16
    }
}

/// The content octets of the UTCTime that names this moment; none where it lies outside the years
/// 1950 to 2049.
pub fn print_utc(moment: Moment) -> Option<[u8; 13]>
    ensures found { IfSome result (λ text. IsUtc text moment) }
    ensures only { (text : List ℕ) → IsUtc text moment → result ≡ Some text }
    ensures none { IsSome result ↔ IsInYears 1950 2049 moment }
{
    let time = CivilTime::in_years(moment, 1950, 2049)?;
    let [y1, y2] = print_two((time.year % 100) as u8);
    let [m1, m2, d1, d2, h1, h2, n1, n2, s1, s2, z] = print_in_year(time);
    Some([y1, y2, m1, m2, d1, d2, h1, h2, n1, n2, s1, s2, z])
}
