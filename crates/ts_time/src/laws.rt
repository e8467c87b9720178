//! What holds of the two forms themselves.

ghost use Rattle.std.specs.Prelude.{◌≡◌, List, ℕ, ℤ};
ghost use Rattle.ts_time.specs.Text.{IsGeneral, IsUtc};

/// A law: no GeneralizedTime has two moments, and no moment two GeneralizedTimes. So reading what
/// was printed gives the moment back, and printing what was read gives the text back.
pub fn general_is_one_to_one()
    ensures one_moment { (text : List ℕ) (m n : ℤ) →
        IsGeneral text m → IsGeneral text n → m ≡ n }
    ensures one_text { (a b : List ℕ) (m : ℤ) → IsGeneral a m → IsGeneral b m → a ≡ b }
{}

/// The same law of UTCTime.
pub fn utc_is_one_to_one()
    ensures one_moment { (text : List ℕ) (m n : ℤ) → IsUtc text m → IsUtc text n → m ≡ n }
    ensures one_text { (a b : List ℕ) (m : ℤ) → IsUtc a m → IsUtc b m → a ≡ b }
{}
