//! Bits that have names.

ghost use Rattle.std.specs.Prelude.{◌≡◌, ◌<◌, false, slice_index_or};
ghost use Rattle.ts_der.specs.BitString.{octet_bits};
ghost use Rattle.ts_der.specs.BitsView.{bits_in};
ghost use Rattle.ts_ext.specs.NamedBits.{bit};

use ts_der::Bits;

/// Whether a bit of an octet is 1, bit 0 being the most significant.
fn is_one(octet: u8, index: u8) -> bool
    requires { index < 8 }
    ensures { result ≡ slice_index_or (octet_bits octet) index false }
{
    match index {
        0 => octet / 128 % 2 == 1,
        1 => octet / 64 % 2 == 1,
        2 => octet / 32 % 2 == 1,
        3 => octet / 16 % 2 == 1,
        4 => octet / 8 % 2 == 1,
        5 => octet / 4 % 2 == 1,
        6 => octet / 2 % 2 == 1,
        _ => octet % 2 == 1,
    }
}

/// Whether a bit is 1, the first being bit 0. One that is left out is 0.
#[tactic(auto, using(crate::proofs::BitPlaces::bit_place, crate::proofs::BitPlaces::bit_past))]
pub(crate) fn has_bit(bits: Bits<'_>, index: u8) -> bool
    ensures { result ≡ bit index (bits_in bits.entry) }
{
    let place = usize::from(index / 8);
    let within = index % 8;
    let Some(octet) = bits.octets.get(place) else {
        return false;
    };
    let is_unused = place + 1 == bits.octets.len() && within + bits.unused >= 8;
    !is_unused && is_one(*octet, within)
}
