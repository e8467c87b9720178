//! Numbers in decimal.

ghost use Rattle.std.specs.Prelude.{ℕ, MatchOption};
ghost use Rattle.ts_literal.specs.Literals.{IsNumber, IsNumberIn};

/// The number below 2^32 that a text writes in decimal digits, without leading zeros.
pub fn number_of(text: &str) -> Option<u32>
    ensures { MatchOption result ((n : ℕ) → ¬ (IsNumber text.now n)) (IsNumber text.now) }
{
    let number: u32 = text.parse().ok()?;
    let mut encoding = itoa::Buffer::new();
    (encoding.format(number) == text).then_some(number)
}

/// The number below 2^32 that octets write so.
pub fn number_of_octets(word: &[u8]) -> Option<u32>
    ensures { MatchOption result ((n : ℕ) → ¬ (IsNumber word.now n)) (IsNumber word.now) }
{
    let text = str::from_utf8(word).ok()?;
    number_of(text)
}

/// The number that a text writes so, where it is from `least` to `most`.
pub fn number_in(text: &str, least: u32, most: u32) -> Option<u32>
    ensures { MatchOption result ((n : ℕ) → ¬ (IsNumberIn least most text.now n))
        (IsNumberIn least most text.now) }
{
    let number = number_of(text)?;
    if number < least || most < number {
        return None;
    }
    Some(number)
}
