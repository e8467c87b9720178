//! MMDDHHMMSSZ: what UTCTime and GeneralizedTime write after the year.

ghost use Rattle.std.specs.Prelude.{◌≡◌, Some, IfSome};
ghost use Rattle.ts_time.specs.declared.civil.CivilTime.{CivilTime};
ghost use Rattle.ts_time.specs.Text.{text_in_year, HasTwoDigits, IsInYear};

use crate::civil::CivilTime;
use crate::digits::{print_two, read_two};

/// The time in that year that the octets write; none where they have another form. Whether there is
/// such a time is not looked at.
#[inline(always)]
pub(crate) fn read_in_year(year: u16, content: &[u8]) -> Option<CivilTime>
    ensures found { IfSome result (IsInYear year content.now) }
    ensures only { (t : CivilTime) → IsInYear year content.now t → result ≡ Some t }
{
    let [m1, m2, d1, d2, h1, h2, n1, n2, s1, s2, b'Z'] = content else {
        return None;
    };
    Some(CivilTime {
        year,
        month: read_two(*m1, *m2)?,
        day: read_two(*d1, *d2)?,
        hour: read_two(*h1, *h2)?,
        minute: read_two(*n1, *n2)?,
        second: read_two(*s1, *s2)?,
    })
}

/// What the octets of a time are after its year.
pub(crate) fn print_in_year(time: CivilTime) -> [u8; 11]
    requires { HasTwoDigits time }
    ensures { result ≡ text_in_year time }
{
    let [m1, m2] = print_two(time.month);
    let [d1, d2] = print_two(time.day);
    let [h1, h2] = print_two(time.hour);
    let [n1, n2] = print_two(time.minute);
    let [s1, s2] = print_two(time.second);
    [m1, m2, d1, d2, h1, h2, n1, n2, s1, s2, b'Z']
}
