//! The elliptic curves P-256, P-384 and P-521 (SP 800-186 3.2.1): their points, and arithmetic
//! modulo their primes and that of edwards25519.
//!
//! All but the limbs and the reductions is written once, over three traits: [`Limbs`], the numbers
//! of four, six or nine limbs of 64 bits; [`Modulus`], a prime with what Montgomery's product needs
//! of it; and [`DomainParameters`], a curve. A product is made of limbs, and then reduced as
//! Montgomery does, which each prime of a field does by its own shape. Nine limbs are three digits
//! of three limbs. No call allocates.
//!
//! ```text
//! // u times the base point of P-256, and v times another point
//! let u: Residue<OrderP256> = residue_of_octets(octets);
//! let point = combination::<P256>(&u, &v, &other);
//! point.x()                      // None: the point is infinity
//! has_scalar::<P256>(&point, &r) // without a division: is it r, modulo the order?
//! ```
//!
//! Contracts see a `Residue` as its number, and a `CurvePoint` as its coordinates, or as `None`
//! where it is infinity. The sum of two points is that of chord and tangent, the sum of two
//! multiples is by doubling and adding, both at once (`specs/Points.antt`); the curves are in
//! `specs/Curves.antt`.
//!
//! What is proved of each call:
//!
//! - [`Limbs`], for [`Limbs4`], [`Limbs6`] and [`Limbs9`]: each call is exact, with what is carried
//!   out.
//!   `montgomery_reduction` is below the modulus and, times 2^BITS, congruent to the number with
//!   these low and high limbs; `montgomery_product` so to the product.
//! - [`Modulus`], for the primes and orders of the curves and for [`Prime25519`]: the constants
//!   are what they are called, and the prime is one; `reduction` and `modular_sum` are what `Limbs`
//!   says of its own.
//! - [`Residue`]: `product`, `square`, `sum`, `difference`, `power` and `inverse` are those modulo
//!   the prime, `zero`, `one`, `copy` and `is_equal` are exact; `from_limbs` is the remainder,
//!   `to_limbs` the number.
//! - [`CurvePoint`]: `new`, `infinity`, `double`, `sum` and `joint_multiple` are those of
//!   `specs/Points.antt`, where a is -3; `x` is the first coordinate, and `has_x` tells exactly
//!   whether a number is.
//! - [`DomainParameters`], for [`P256`], [`P384`] and [`P521`]: the coefficient b, the base point,
//!   and how many octets a coordinate has. [`base_point`] is the base point, [`combination`] the sum
//!   of two multiples, one of them the base point's, over as many bits as the order has;
//!   [`is_on_curve`] tells exactly whether coordinates are on the curve (SEC 1 3.2.2.1),
//!   [`scalar_of`] is the remainder modulo the order, and [`has_scalar`] tells exactly whether a
//!   point's first coordinate has a remainder.
//! - [`limbs_from_octets`], [`residue_from_octets`], [`residue_of_octets`]: the number of octets
//!   (SEC 1 2.3.8), where it fits; where it is below the prime; modulo the prime.
//! - [`laws`]: the base points are on their curves; `inverse` is the inverse modulo the orders; in
//!   Jacobian coordinates double and sum are those of points.
//!
//! # Not promised
//!
//! Constant time: nothing here is for secrets. That the sum of points is associative, so that any
//! other way to add up gives the same sum of multiples; that the base point has the order that is
//! named. That the numbers of `specs/Curves.antt` are those of SP 800-186 is for a reader to
//! compare.
#![tactic(auto)]

mod curve;
mod four;
mod jacobian;
pub mod laws;
mod limb;
mod limbs;
mod modulus;
mod nine;
mod octets;
mod p25519;
mod p25519_reduction;
mod p256;
mod p256_reduction;
mod p384;
mod p384_reduction;
mod p521;
mod p521_reduction;
mod point;
mod residue;
mod six;
mod three;

pub use curve::{DomainParameters, base_point, combination, has_scalar, is_on_curve, scalar_of};
pub use four::Limbs4;
pub use limbs::Limbs;
pub use modulus::Modulus;
pub use nine::Limbs9;
pub use octets::{limbs_from_octets, residue_from_octets, residue_of_octets};
pub use p256::{OrderP256, P256, PrimeP256};
pub use p384::{OrderP384, P384, PrimeP384};
pub use p521::{OrderP521, P521, PrimeP521};
pub use p25519::Prime25519;
pub use point::CurvePoint;
pub use residue::Residue;
pub use six::Limbs6;
pub use three::Limbs3;
