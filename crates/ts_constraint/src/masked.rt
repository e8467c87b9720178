//! Ranges of addresses as numbers.

ghost use Rattle.std.specs.Prelude.{◌≡◌, ◌↔◌, ◌<◌, ◌≤◌, ◌*◌, ◌^◌, ℕ, List, IsTrue, IfSome, length};
ghost use Rattle.std.specs.Prelude.{map};
ghost use Rattle.ts_der.specs.Octets.{AreOctets};
ghost use Rattle.ts_name.specs.General.{iPAddress};
ghost use Rattle.ts_name.specs.GeneralView.{general_in};
ghost use Rattle.ts_name.specs.Holds.{Holds, IsWithinRange};
ghost use Rattle.ts_constraint.specs.inside.Ranges.{is_in, is_in_one, number, AreBelow};
ghost use Rattle.ts_constraint.specs.inside.Quads.{as_masked};

use ts_name::General;

/// A range of addresses of up to sixteen octets: those that have the bits of the base wherever the
/// mask has a bit.
#[derive(Clone, Copy)]
pub(crate) struct MaskedRange {
    /// The address of the range, with each bit 0 that the mask doesn't have.
    pub(crate) base: u128,
    pub(crate) mask: u128,
}

/// Octets as a number, the first of them the highest.
pub(crate) fn number(octets: &[u8]) -> u128
    requires { length octets.now ≤ 16 }
    ensures value { result ≡ number octets.now }
    ensures bound { result < 2 ^ (8 * length octets.now) }
{
    let mut number = 0u128;
    for octet in octets {
        number = number * 256 + *octet as u128;
    }
    number
}

/// The range of addresses of this length that octets are, which are an address and a mask.
fn range(octets: &[u8], size: usize) -> Option<MaskedRange>
    requires { size ≤ 16 }
    ensures found { (address : List ℕ) → AreOctets address → length address ≡ size
        → IsTrue (is_in result (number address)) ↔ IsWithinRange address octets.now }
    ensures bound { IfSome result (λ r. AreBelow size r) }
{
    if octets.len() != 2 * size {
        return None;
    }
    let (base, mask) = octets.split_at(size);
    let mask = number(mask);
    Some(MaskedRange {
        base: number(base) & mask,
        mask,
    })
}

/// The range of addresses of this length that a base is, if it is one.
pub(crate) fn range_of(base: General<'_>, size: usize) -> Option<MaskedRange>
    requires { size ≤ 16 }
    ensures found { (address : List ℕ) → AreOctets address → length address ≡ size
        → IsTrue (is_in result (number address))
        ↔ Holds (general_in base.entry) (iPAddress address) }
    ensures bound { IfSome result (λ r. AreBelow size r) }
{
    match base {
        General::IpAddress(octets) => range(octets, size),
        _ => None,
    }
}

/// Whether an address has the bits of one of the ranges.
pub(crate) fn is_in_one(ranges: &[MaskedRange], address: u128) -> bool
    ensures { result ≡ is_in_one ranges.now address }
{
    let mut rest = ranges;
    while let [range, others @ ..] = rest {
        if address & range.mask == range.base {
            return true;
        }
        rest = others;
    }
    false
}

/// A range of addresses of four octets.
#[derive(Clone, Copy)]
pub(crate) struct Quad {
    base: u32,
    mask: u32,
}

impl MaskedRange {
    /// The range as one of addresses of four octets.
    pub(crate) fn narrowed(self) -> Quad
        requires { AreBelow 4 self }
        ensures { as_masked result ≡ self }
    {
        Quad {
            base: self.base as u32,
            mask: self.mask as u32,
        }
    }
}

/// Whether an address of four octets has the bits of one of the ranges.
pub(crate) fn is_in_quad(ranges: &[Quad], address: u32) -> bool
    ensures { result ≡ is_in_one (map as_masked ranges.now) address }
{
    let mut rest = ranges;
    while let [range, others @ ..] = rest {
        if address & range.mask == range.base {
            return true;
        }
        rest = others;
    }
    false
}
