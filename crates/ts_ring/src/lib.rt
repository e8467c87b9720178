//! Identities modulo p, proved by computing: two expressions that are one polynomial, with whole
//! coefficients, are equal modulo each p.
//!
//! A proof names its variables by their places, states both sides as expressions, and lets the
//! kernel compute the normal forms of both (`refl`); the values of both are then equal. `value`
//! computes to the very terms that contracts have:
//!
//! ```text
//! (a b : ℕ) → mul p (add p a b) (sub p a b) ≡ sub p (mul p a a) (mul p b b)
//! a b = ring_eq p pos (a ∷ b ∷ [])
//!     (times (plus (var 0) (var 1)) (minus (var 0) (var 1)))
//!     (minus (square (var 0)) (square (var 1))) refl refl refl
//! ```
//!
//! | Law | What it says |
//! |---|---|
//! | `same_polynomials` | expressions that are one polynomial have one value modulo each p |
//! | `quotient`, `no_zero_divisors`, `cancellation` | division modulo p, where `IsField p` |
//!
//! The crate has no code. A hypothesis is no part of the normal form: it is used by rewriting
//! between two identities. `ts_prime` says which p are fields.
#![tactic(auto)]

pub mod laws;
