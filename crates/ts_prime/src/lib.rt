//! The primes of the curves P-256, P-384, P-521 and Curve25519: that they are primes, and that the
//! numbers below each are a field.
//!
//! A proof that needs a field takes one from here, as `Rattle.ts_prime.proofs.P256.{p256-field}`,
//! and contracts cite the number, as `Rattle.ts_prime.specs.Primes.{p256}`.
//!
//! | Law | What it says |
//! |---|---|
//! | `p256_is_prime`, `n256_is_prime` | the field of P-256, and the order of its base point |
//! | `p384_is_prime`, `n384_is_prime` | those of P-384 |
//! | `p521_is_prime`, `n521_is_prime` | those of P-521 |
//! | `p25519_is_prime`, `l25519_is_prime` | those of Curve25519 |
//!
//! Each has two clauses: `prime`, that the number is no product of two others, and `field`, that
//! each number that it does not divide has its power of p - 2 as inverse.
//!
//! The proofs compute Lucas certificates: an element of order p - 1 shows Fermat's theorem at p,
//! given the primes of p - 1, which have rows of their own. A prime p whose p - 1 is hard to factor
//! has a number u + v √e of order p + 1, given the primes of p + 1: it shows that p is no product.
//! `tools/primes` writes the certificates; it is not trusted. That these are the numbers of SP
//! 800-186 and RFC 7748 is for a reader to compare.
#![tactic(auto)]

pub mod laws;
