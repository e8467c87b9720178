//! Signatures of a number.

ghost use Rattle.std.specs.Prelude.{◌≡◌, ◌≤◌, ◌<◌, ◌↔◌, IsTrue, IfSome, IfNone, true, false};
ghost use Rattle.ts_der.specs.Integer.{is_negative};
ghost use Rattle.ts_curve.specs.Octets.{number_of};
ghost use Rattle.ts_ecdsa.specs.Number.{FirstIs, IsNumberSignature};

use ts_curve::{
    CurvePoint, DomainParameters, Modulus, Residue, combination, has_scalar, residue_from_octets,
};
use ts_der::Integer;

/// Whether a point is not infinity, and its first coordinate is `r` modulo the order.
fn is_first<C: DomainParameters>(point: &CurvePoint<C::Prime>, r: &Residue<C::Order>) -> bool
    ensures { IsTrue result ↔ FirstIs C.curve.order point.now r.now }
{
    has_scalar::<C>(point, r)
}

/// Whether `(r, s)` is a signature of `e` under the key `q` (FIPS 186-5 6.4.2).
pub fn is_number_signature<C: DomainParameters>(
    q: &CurvePoint<C::Prime>,
    e: &Residue<C::Order>,
    r: &Residue<C::Order>,
    s: &Residue<C::Order>,
) -> bool
    ensures { IsTrue result ↔ IsNumberSignature C.curve q.now e.now r.now s.now }
{
    let r = r.copy();
    let s = s.copy();
    let zero = Residue::zero();
    if r.is_equal(&zero) || s.is_equal(&zero) {
        return false;
    }
    let inverse = s.inverse();
    let point = combination::<C>(&e.product(&inverse), &r.product(&inverse), q);
    is_first::<C>(&point, &r)
}

/// The number of an INTEGER; `None` where it is negative, or not below the prime.
pub fn residue_from_integer<M: Modulus>(integer: Integer<'_>) -> Option<Residue<M>>
    ensures found { IfSome result (λ x. (is_negative integer.entry.octets.now ≡ false)
        × (number_of integer.entry.octets.now < M.prime)
        × (x ≡ number_of integer.entry.octets.now)) }
    ensures none { IfNone result (is_negative integer.entry.octets.now ≡ false
        → M.prime ≤ number_of integer.entry.octets.now) }
{
    if integer.is_negative() {
        None
    } else {
        residue_from_octets(integer.octets)
    }
}
