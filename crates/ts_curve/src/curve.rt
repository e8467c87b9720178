//! Curves by their domain parameters (SEC 1 3.1.1).

ghost use Rattle.std.specs.Prelude.{◌≡◌, ◌+◌, ◌-◌, ◌*◌, ◌^◌, ◌≤◌, ◌<◌, ◌%◌, ◌↔◌, ℕ, IsTrue};
ghost use Rattle.std.specs.Prelude.{Some, true};
ghost use Rattle.ts_curve.specs.Curves.{Curve as Parameters, IsOnCurve, base, size, combination};
ghost use Rattle.ts_curve.specs.Curves.{is_on_curve as is_on_curve_test};

use crate::limbs::Limbs;
use crate::modulus::Modulus;
use crate::point::CurvePoint;
use crate::residue::Residue;

/// A curve whose a is -3.
pub trait DomainParameters {
    /// The limbs of both primes.
    type Limbs: Limbs;

    /// The prime of the field.
    type Prime: Modulus<Limbs = Self::Limbs>;

    /// The order of the base point.
    type Order: Modulus<Limbs = Self::Limbs>;

    /// Its domain parameters.
    ghost curve: { Parameters };

    /// How many octets a coordinate has (SEC 1 2.3.5).
    fn size() -> u32
        ensures { result ≡ size curve };

    /// The coefficient b.
    fn b() -> Self::Limbs
        ensures { Self.Limbs.number result ≡ curve.b };

    /// The first coordinate of the base point.
    fn base_x() -> Self::Limbs
        ensures { Self.Limbs.number result ≡ curve.base_x };

    /// The second coordinate of the base point.
    fn base_y() -> Self::Limbs
        ensures { Self.Limbs.number result ≡ curve.base_y };

    ghost prime_is: { Self.Prime.prime ≡ curve.prime };

    ghost order_is: { Self.Order.prime ≡ curve.order };

    ghost a_is: { curve.a ≡ curve.prime - 3 };

    ghost order_bits: { curve.order < 2 ^ curve.bits };

    ghost bits_fit: { 8 * size curve ≤ Self.Limbs.BITS };

    ghost base_is_on: { is_on_curve_test curve curve.base_x curve.base_y ≡ true };

    ghost b_is_below: { curve.b < curve.prime };

    ghost order_is_below: { curve.order < curve.prime };

    ghost prime_is_below: { curve.prime < 2 * curve.order };
}

/// The base point.
pub fn base_point<C: DomainParameters>() -> CurvePoint<C::Prime>
    ensures { result ≡ base C.curve }
{
    CurvePoint::new(
        &Residue::from_limbs(&C::base_x()),
        &Residue::from_limbs(&C::base_y()),
    )
}

/// The sum of `u` times the base point and `v` times another point. All bits of the limbs are gone
/// through: those above the order's are 0, and double infinity.
pub fn combination<C: DomainParameters>(
    u: &Residue<C::Order>,
    v: &Residue<C::Order>,
    point: &CurvePoint<C::Prime>,
) -> CurvePoint<C::Prime>
    ensures { result ≡ combination C.curve u.now v.now point.now }
{
    let first = u.copy();
    let second = v.copy();
    base_point::<C>().joint_multiple(&first.to_limbs(), point, &second.to_limbs())
}

/// Whether these are the coordinates of a point of the curve (SEC 1 3.2.2.1).
pub fn is_on_curve<C: DomainParameters>(x: &Residue<C::Prime>, y: &Residue<C::Prime>) -> bool
    ensures { IsTrue result ↔ IsOnCurve C.curve x.now y.now }
{
    let first = x.copy();
    let second = y.copy();
    let three = Residue::from_limbs(&C::Limbs::small(3));
    let a = Residue::zero().difference(&three);
    let b = Residue::from_limbs(&C::b());
    let left = second.square();
    let square = first.square();
    let cube = first.product(&square);
    let line = a.product(&first);
    let sum = cube.sum(&line);
    let right = sum.sum(&b);
    left.is_equal(&right)
}

/// The first coordinate of a point, modulo the order of the base point.
pub fn scalar_of<C: DomainParameters>(x: &Residue<C::Prime>) -> Residue<C::Order>
    ensures { result ≡ x.now % C.curve.order }
{
    Residue::from_limbs(&x.to_limbs())
}

/// Whether the first coordinate of a point is the sum of `r` and the order of the base point, which
/// is seldom below the prime.
fn has_scalar_and_order<C: DomainParameters>(
    point: &CurvePoint<C::Prime>,
    r: &Residue<C::Order>,
) -> bool
    ensures { IsTrue result ↔ ((r.now + C.curve.order < C.curve.prime)
        × ((y : ℕ) × (point.now ≡ Some (r.now + C.curve.order, y)))) }
{
    let first = r.copy();
    let limbs = first.to_limbs();
    let order = Residue::from_limbs(&C::Order::prime());
    let rest = Residue::zero().difference(&order);
    if !C::Limbs::is_less(&limbs, &rest.to_limbs()) {
        return false;
    }
    let x = Residue::from_limbs(&limbs);
    point.has_x(&x.sum(&order))
}

/// Whether a point is not infinity, and its first coordinate is `r` modulo the order of the base
/// point: it is then `r` itself, or the sum of `r` and the order.
pub fn has_scalar<C: DomainParameters>(point: &CurvePoint<C::Prime>, r: &Residue<C::Order>) -> bool
    ensures { IsTrue result ↔ ((x y : ℕ) × (point.now ≡ Some (x, y))
        × (x % C.curve.order ≡ r.now)) }
{
    let first = r.copy();
    let x = Residue::from_limbs(&first.to_limbs());
    if point.has_x(&x) {
        return true;
    }
    has_scalar_and_order::<C>(point, r)
}
