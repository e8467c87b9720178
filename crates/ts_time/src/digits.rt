//! Numbers in two decimal digits.

ghost use Rattle.std.specs.Prelude.{◌≡◌, ◌<◌, ℕ, [], ◌∷◌, Some, IfSome};
ghost use Rattle.ts_time.specs.Text.{two_digits};

/// The number that two digits write; none where an octet is no digit.
pub(crate) fn read_two(tens: u8, ones: u8) -> Option<u8>
    ensures found { IfSome result (λ n. (n < 100) × (two_digits n ≡ tens ∷ ones ∷ [])) }
    ensures only { (n : ℕ) → n < 100 → two_digits n ≡ tens ∷ ones ∷ [] → result ≡ Some n }
{
    if tens.is_ascii_digit() && ones.is_ascii_digit() {
        Some((tens - b'0') * 10 + (ones - b'0'))
    } else {
        None
    }
}

/// The two digits of a number.
pub(crate) fn print_two(number: u8) -> [u8; 2]
    requires { number < 100 }
    ensures { result ≡ two_digits number }
{
    [b'0' + number / 10, b'0' + number % 10]
}
