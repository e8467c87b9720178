//! Public keys.

ghost use Rattle.std.specs.Prelude.{◌≡◌, IfSome, IfNone};
ghost use Rattle.ts_ecdsa.specs.Key.{key_point, IsPublicKey};

use ts_curve::{CurvePoint, DomainParameters, is_on_curve, residue_from_octets};

/// The point of an uncompressed public key (SEC 1 2.3.4).
pub fn point_from_octets<C: DomainParameters>(octets: &[u8]) -> Option<CurvePoint<C::Prime>>
    ensures found { IfSome result (λ q. IsPublicKey C.curve octets.now
        × (q ≡ key_point C.curve octets.now)) }
    ensures none { IfNone result (IsPublicKey C.curve octets.now → ⊥) }
{
    let size = C::size() as usize;
    if octets.len() != 2 * size + 1 {
        return None;
    }
    if octets[0] != 4 {
        return None;
    }
    let x = residue_from_octets(&octets[1..size + 1])?;
    let y = residue_from_octets(&octets[size + 1..2 * size + 1])?;
    if is_on_curve::<C>(&x, &y) {
        Some(CurvePoint::new(&x, &y))
    } else {
        None
    }
}
