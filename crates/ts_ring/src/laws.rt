//! Laws of arithmetic modulo p. Each is the contract of a function that does nothing.

ghost use Rattle.std.specs.Prelude.{◌≡◌, ◌≢◌, ℕ, ◌%◌, ◌<◌, true, List};
ghost use Rattle.ts_ring.specs.Expression.{Expression, value};
ghost use Rattle.ts_ring.specs.Modular.{inverse, mul, sub, IsField};
ghost use Rattle.ts_ring.specs.Polynomial.{are_same};

/// Expressions that are one polynomial have one value modulo each p, whatever their variables are.
pub fn same_polynomials()
    ensures { (p : ℕ) → 0 < p → (values : List ℕ) (a b : Expression)
        → are_same a b ≡ true → value p values a % p ≡ value p values b % p }
{}

/// In a field the quotient times its divisor is the dividend.
pub fn quotient()
    ensures { (p n d : ℕ) → IsField p → n < p → d % p ≢ 0 → mul p (mul p n (inverse p d)) d ≡ n }
{}

/// In a field no product of two numbers that are not 0 is 0.
pub fn no_zero_divisors()
    ensures { (p a b : ℕ) → IsField p → a % p ≢ 0 → b % p ≢ 0 → mul p a b % p ≢ 0 }
{}

/// In a field a factor that is not 0 can be taken away on both sides.
pub fn cancellation()
    ensures { (p a b c : ℕ) → IsField p → a < p → b < p → c % p ≢ 0 → mul p a c ≡ mul p b c
        → a ≡ b }
{}
