//! Fast path. `false` or `None` means undecided; the caller then uses the full reader. Removing it
//! changes speed alone.
//!
//! UTCTimes recognised without their moments.

ghost use Rattle.std.specs.Prelude.{◌≡◌, ◌+◌, ◌-◌, ◌*◌, ◌<◌, ◌≤◌, ℤ, IsTrue, ◌↔◌, take, length};
ghost use Rattle.ts_time.specs.Calendar.{days_in_month};
ghost use Rattle.ts_time.specs.Text.{year_of_two, IsUtc};

use ts_der::lie_between;

/// The least octets that can stand at each place of a UTCTime. Any may follow it.
const LOW: [u8; 16] = [
    b'0', b'0', b'0', b'0', b'0', b'0', b'0', b'0', b'0', b'0', b'0', b'0', b'Z', 0, 0, 0,
];

/// The greatest ones: twelve months have no tens but 0 and 1, and so on.
const HIGH: [u8; 16] = [
    b'9', b'9', b'1', b'9', b'3', b'9', b'2', b'9', b'5', b'9', b'5', b'9', b'Z', 0xFF, 0xFF, 0xFF,
];

/// The number that two digits write.
#[inline(always)]
fn number_of(tens: u8, ones: u8) -> u32
    requires tens { 48 ≤ tens }
    requires ones { 48 ≤ ones }
    ensures { result ≡ 10 * (tens - 48) + (ones - 48) }
{
    tens as u32 * 10 + ones as u32 - 528
}

/// The days of a month of the year that two digits mean.
#[inline(always)]
fn days_of(yy: u32, month: u32) -> u32
    requires { yy < 100 }
    ensures { result ≡ days_in_month (year_of_two yy) month }
{
    match month {
        2 if yy % 4 == 0 => 29,
        2 => 28,
        4 | 6 | 9 | 11 => 30,
        _ => 31,
    }
}

/// Whether there are sixteen octets or more, of which the first thirteen are the content of a
/// UTCTime, as `read_utc` reads it (RFC 5280 4.1.2.5.1).
#[inline(always)]
pub fn begins_with_utc(octets: &[u8]) -> bool
    ensures { IsTrue result ↔ (16 ≤ length octets.now)
        × ((moment : ℤ) × IsUtc (take 13 octets.now) moment) }
{
    if octets.len() < 16 {
        return false;
    }
    if !lie_between(octets, &LOW, &HIGH) {
        return false;
    }
    let [y1, y2, m1, m2, d1, d2, h1, h2, ..] = octets else {
        return false;
    };
    let (month, day, hour) = (
        number_of(*m1, *m2),
        number_of(*d1, *d2),
        number_of(*h1, *h2),
    );
    if month < 1 || month > 12 || day < 1 || hour > 23 {
        return false;
    }
    day <= 28 || day <= days_of(number_of(*y1, *y2), month)
}
