//! The number of a message's hash.

ghost use Rattle.std.specs.Prelude.{◌≡◌, ◌%◌, take};
ghost use Rattle.ts_curve.specs.Curves.{size};
ghost use Rattle.ts_curve.specs.Octets.{number_of};
ghost use Rattle.ts_ecdsa.specs.Signature.{hash_number};

use ts_curve::{DomainParameters, Residue, residue_of_octets};
use ts_digest::{Hash, Message};

/// The leftmost octets of a hash as a number modulo the order (FIPS 186-5 6.4.1).
fn leftmost<C: DomainParameters>(hash: &[u8]) -> Residue<C::Order>
    ensures { result ≡ number_of (take (size C.curve) hash.now) % C.curve.order }
{
    let size = C::size() as usize;
    if hash.len() > size {
        residue_of_octets(&hash[..size])
    } else {
        residue_of_octets(hash)
    }
}

/// The number of a message's hash, modulo the order.
pub fn hash_number<C: DomainParameters>(hash: Hash, message: &Message<'_>) -> Residue<C::Order>
    ensures { result ≡ hash_number C.curve hash message.now.octets.now % C.curve.order }
{
    leftmost::<C>(message.hash_by(hash).as_slice())
}
