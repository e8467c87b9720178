//! What a signature opens to (RFC 8017 5.2.2, RSAVP1).

ghost use Rattle.std.specs.Prelude.{◌≡◌, ◌%◌, ◌^◌, ◌<◌, ◌≤◌, ◌↔◌, IsTrue, length};
ghost use Rattle.ts_rsa.specs.Octets.{os2ip, i2osp};

use crate::octets::{write_limbs, write_octets};
use ts_bignum::{LIMBS, is_less, power_mod};

/// Writes the octets of the message representative of a signature, if the signature is below the
/// modulus, and returns whether it is.
pub fn write_opened(octets: &mut [u8], modulus: &[u8], exponent: u64, signature: &[u8]) -> bool
    requires some { 0 < length modulus.now }
    requires limit { length modulus.now ≤ 1024 }
    requires odd { os2ip modulus.now % 2 ≡ 1 }
    requires odd_exponent { exponent % 2 ≡ 1 }
    requires whole { length signature.now ≡ length modulus.now }
    requires octets_whole { length octets.old ≡ length modulus.now }
    ensures below { IsTrue result ↔ (os2ip signature.now < os2ip modulus.now) }
    ensures opened { IsTrue result → octets.new
        ≡ i2osp (os2ip signature.now ^ exponent % os2ip modulus.now) (length modulus.now) }
{
    let len = modulus.len().div_ceil(8);
    let mut number = [0; LIMBS];
    write_limbs(&mut number, modulus, len);
    let mut base = [0; LIMBS];
    write_limbs(&mut base, signature, len);
    if !is_less(&base, &number, len) {
        return false;
    }
    let mut power = [0; LIMBS];
    power_mod(&mut power, &base, exponent, &number, len);
    write_octets(octets, &power, len);
    true
}
