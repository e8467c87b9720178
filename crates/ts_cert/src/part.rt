//! Parts of a certificate that was read, each at the offset at which it begins.

ghost use Rattle.std.specs.Prelude.{◌≡◌, ℕ, List, Option, map, option_map};
ghost use Rattle.ts_der.specs.BitsView.{parts_of};
ghost use Rattle.ts_name.specs.Canon.{Attr};
ghost use Rattle.ts_shape.specs.Fields.{Within, IsInteger, IsBits};
ghost use Rattle.ts_name.specs.NameEncoding.{IsName};
ghost use Rattle.ts_name.specs.NameView.{rdns_in};
ghost use Rattle.ts_extensions.specs.Extension.{Extension, AreExplicit, unlocated};
ghost use Rattle.ts_field.specs.Algorithm.{Algorithm, IsAlgorithm};
ghost use Rattle.ts_field.specs.View.{algorithm_in};
ghost use Rattle.ts_cert.specs.declared.validity.Validity.{Validity as Period};
ghost use Rattle.ts_cert.specs.Certificate.{KeyInfo};
ghost use Rattle.ts_cert.specs.inside.Layout.{HoldsEncoding, HoldsEncodingIfAny};
ghost use Rattle.ts_cert.specs.Encoding.{IsValidity, IsKeyInfo, IsUniqueIdentifier};
ghost use Rattle.ts_cert.specs.inside.AllLocated.{all_located_within};
ghost use Rattle.ts_cert.specs.View.{key_in};

use crate::key::{SubjectPublicKeyInfo, next_key};
use crate::optional_reading::{EXTENSIONS, next_unique_id};
use crate::validity::{Validity, next_validity};
use ts_der::tag::SEQUENCE;
use ts_der::{Bits, Element, Integer, Reader};
use ts_field::{AlgorithmIdentifier, next_algorithm, next_bits, next_integer};
use ts_name::Name;

/// The INTEGER that begins at an offset.
pub(crate) fn integer_from(octets: &[u8], at: usize) -> Integer<'_>
    requires { ∥ ((x : List ℕ) × HoldsEncoding (Within 0x02 IsInteger) octets.now at x) ∥₁ }
    ensures { (x : List ℕ) → HoldsEncoding (Within 0x02 IsInteger) octets.now at x
        → result.octets.now ≡ x }
{
    match next_integer(&mut Reader::at(octets, at)) {
        Ok(integer) => integer,
        Err(_) => unreachable!(),
    }
}

/// The octets of the BIT STRING that begins at an offset.
pub(crate) fn bits_from(octets: &[u8], at: usize) -> &[u8]
    requires { ∥ ((x : List ℕ) × HoldsEncoding (Within 0x03 IsBits) octets.now at x) ∥₁ }
    ensures { (x : List ℕ) → HoldsEncoding (Within 0x03 IsBits) octets.now at x → result.now ≡ x }
{
    match next_bits(&mut Reader::at(octets, at)) {
        Ok(bits) => bits,
        Err(_) => unreachable!(),
    }
}

/// The algorithm identifier that begins at an offset.
pub(crate) fn algorithm_from(octets: &[u8], at: usize) -> AlgorithmIdentifier<'_>
    requires { ∥ ((x : Algorithm) × HoldsEncoding (Within 0x30 IsAlgorithm) octets.now at x) ∥₁ }
    ensures { (x : Algorithm) → HoldsEncoding (Within 0x30 IsAlgorithm) octets.now at x
        → algorithm_in result ≡ x }
{
    match next_algorithm(&mut Reader::at(octets, at)) {
        Ok(algorithm) => algorithm,
        Err(_) => unreachable!(),
    }
}

/// The validity that begins at an offset.
pub(crate) fn validity_from(octets: &[u8], at: usize) -> Validity
    requires { ∥ ((x : Period) × HoldsEncoding (Within 0x30 IsValidity) octets.now at x) ∥₁ }
    ensures { (x : Period) → HoldsEncoding (Within 0x30 IsValidity) octets.now at x → result ≡ x }
{
    match next_validity(&mut Reader::at(octets, at)) {
        Ok(validity) => validity,
        Err(_) => unreachable!(),
    }
}

/// The key that begins at an offset.
pub(crate) fn key_from(octets: &[u8], at: usize) -> SubjectPublicKeyInfo<'_>
    requires { ∥ ((x : KeyInfo) × HoldsEncoding (Within 0x30 IsKeyInfo) octets.now at x) ∥₁ }
    ensures { (x : KeyInfo) → HoldsEncoding (Within 0x30 IsKeyInfo) octets.now at x → key_in result
        ≡ x }
{
    match next_key(&mut Reader::at(octets, at)) {
        Ok(key) => key,
        Err(_) => unreachable!(),
    }
}

/// The name that begins at an offset. It is not read again.
pub(crate) fn name_from(octets: &[u8], at: usize) -> Name<'_>
    requires { ∥ ((x : List (List Attr)) × HoldsEncoding (Within 0x30 IsName) octets.now at x) ∥₁ }
    ensures { (x : List (List Attr)) → HoldsEncoding (Within 0x30 IsName) octets.now at x
        → rdns_in result ≡ x }
{
    match Reader::at(octets, at).element(SEQUENCE) {
        Ok(element) => Name { element },
        Err(_) => unreachable!(),
    }
}

/// The unique identifier of this tag that begins at an offset, if one does.
pub(crate) fn unique_id_from(octets: &[u8], at: usize, tag: u8) -> Option<Bits<'_>>
    requires { ∥ ((x : Option (ℕ × List ℕ))
        × HoldsEncodingIfAny tag IsUniqueIdentifier octets.now at x) ∥₁ }
    ensures { (x : Option (ℕ × List ℕ)) → HoldsEncodingIfAny tag IsUniqueIdentifier octets.now at x
        → option_map parts_of result ≡ x }
{
    match next_unique_id(&mut Reader::at(octets, at), tag) {
        Ok(bits) => bits,
        Err(_) => unreachable!(),
    }
}

/// The SEQUENCE of the extensions that begin at an offset, if any do.
pub(crate) fn extensions_from(octets: &[u8], at: usize) -> Option<Element<'_>>
    requires { ∥ ((x : Option (List Extension)) × HoldsEncodingIfAny 0xA3 AreExplicit octets.now at
        x) ∥₁ }
    ensures { (x : Option (List Extension)) → HoldsEncodingIfAny 0xA3 AreExplicit octets.now at x
        → option_map (map unlocated) (option_map all_located_within result) ≡ x }
{
    match Reader::at(octets, at).optional(EXTENSIONS) {
        Ok(Some(explicit)) => explicit.reader().element(SEQUENCE).ok(),
        Ok(None) => None,
        Err(_) => unreachable!(),
    }
}
