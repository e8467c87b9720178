//! GeneralizedTime: YYYYMMDDHHMMSSZ (RFC 5280 4.1.2.5.2).

ghost use Rattle.std.specs.Prelude.{◌≡◌, ◌↔◌, List, ℕ, ℤ, Some, Ok, IsSome, IfSome, IfOk, IfErr};
ghost use Rattle.ts_der.specs.declared.fault.DerFault.TheVariants.{TimeForm};
ghost use Rattle.ts_time.specs.Civil.{IsInYears};
ghost use Rattle.ts_time.specs.Reading.{general_value};
ghost use Rattle.ts_time.specs.Text.{IsGeneral};

use crate::Moment;
use crate::civil::CivilTime;
use crate::digits::{print_two, read_two};
use crate::in_year::{print_in_year, read_in_year};
use ts_der::DerFault;

/// The moment that the content octets of a GeneralizedTime name: `YYYYMMDDHHMMSSZ`, of the years
/// 0000 to 9999.
///
/// # Errors
///
/// `TimeForm` where the octets have another form, a fraction or an offset among them, or where
/// there is no such day, hour, minute or second; second 60 is none.
pub fn read_general(content: &[u8]) -> Result<Moment, DerFault>
    ensures found { IfOk result (IsGeneral content.now) }
    ensures only { (m : ℤ) → IsGeneral content.now m → result ≡ Ok m }
    ensures fault { IfErr result (λ e.
        (e ≡ TimeForm) × ((m : ℤ) → ¬ (IsGeneral content.now m))) }
    ensures exact { result ≡ general_value content.now }
{
    find_general(content).ok_or(DerFault::TimeForm)
}

/// The moment that the content octets of a GeneralizedTime name; `None` where they name none.
fn find_general(content: &[u8]) -> Option<Moment>
    ensures found { IfSome result (IsGeneral content.now) }
    ensures only { (m : ℤ) → IsGeneral content.now m → result ≡ Some m }
{
    let [c1, c2, y1, y2, rest @ ..] = content else {
        return None;
    };
    let century = read_two(*c1, *c2)?;
    let year = read_two(*y1, *y2)?;
    read_in_year(century as u16 * 100 + year as u16, rest)?.moment()
}

/// The content octets of the GeneralizedTime that names this moment; none where it lies outside the
/// years 0 to 9999.
pub fn print_general(moment: Moment) -> Option<[u8; 15]>
    ensures found { IfSome result (λ text. IsGeneral text moment) }
    ensures only { (text : List ℕ) → IsGeneral text moment → result ≡ Some text }
    ensures none { IsSome result ↔ IsInYears 0 9999 moment }
{
    let time = CivilTime::in_years(moment, 0, 9999)?;
    let [c1, c2] = print_two((time.year / 100) as u8);
    let [y1, y2] = print_two((time.year % 100) as u8);
    let [m1, m2, d1, d2, h1, h2, n1, n2, s1, s2, z] = print_in_year(time);
    Some([c1, c2, y1, y2, m1, m2, d1, d2, h1, h2, n1, n2, s1, s2, z])
}
