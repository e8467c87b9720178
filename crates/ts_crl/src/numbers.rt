//! The numbers of CRLs.

ghost use Rattle.std.specs.Prelude.{◌≡◌, int_lt, true, false};
ghost use Rattle.ts_der.specs.Integer.{is_shortest, is_negative, twos_complement};

use ts_ext::CrlNumber;

/// Whether an INTEGER is less than another, where neither is negative. In its shortest form the
/// greater has more octets, or as many that come later in the order of slices (X.690 8.3).
fn is_less(number: &[u8], other: &[u8]) -> bool
    requires shortest { is_shortest number.now ≡ true }
    requires natural { is_negative number.now ≡ false }
    requires full_shortest { is_shortest other.now ≡ true }
    requires full_natural { is_negative other.now ≡ false }
    ensures { result ≡ int_lt (twos_complement number.now) (twos_complement other.now) }
{
    if number.len() == other.len() {
        number < other
    } else {
        number.len() < other.len()
    }
}

/// Whether the number of a CRL is less than that of another.
pub fn is_lower_number(number: CrlNumber<'_>, other: CrlNumber<'_>) -> bool
    ensures { result ≡ int_lt (twos_complement number.entry.octets.now)
        (twos_complement other.entry.octets.now) }
{
    is_less(number.octets, other.octets)
}
