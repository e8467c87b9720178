//! Lists that contracts see as what they hold.

ghost use Rattle.std.specs.Prelude.{◌≡◌, ◌++◌, ◌∷◌, [], true, ℕ, List, map, length, OnOk, OnErr};
ghost use Rattle.std.specs.List.{list_all};
ghost use Rattle.ts_der.specs.ObjectIdentifier.{is_oid};

use std::alloc::{AllocError, Global};
use std::marker::Model;
use ts_der::Oid;

/// Strings of octets, such as certificates. Contracts see the octets of each.
#[derive(Debug, Drop)]
pub struct OctetStrings {
    strings: Vec<Vec<u8>>,
}

impl Model for OctetStrings {
    ghost Value = { List (List ℕ) };

    ghost view = { λ s. map (λ octets. octets.items) s.strings.items };
}

impl OctetStrings {
    /// These strings, in this order.
    pub fn new(strings: Vec<Vec<u8>>) -> OctetStrings
        ensures { result ≡ map (λ octets. octets.items) strings.items }
    {
        OctetStrings { strings }
    }

    /// No strings.
    pub fn empty(alloc: Global) -> OctetStrings
        ensures { result ≡ [] }
    {
        OctetStrings {
            strings: Vec::new(alloc),
        }
    }

    /// Puts a copy of octets after the others.
    pub fn push_copy(&mut self, alloc: Global, octets: &[u8]) -> Result<(), AllocError>
        ensures pushed { OnOk result (self.new ≡ self.old ++ octets.now ∷ []) }
        ensures unchanged { OnErr result (self.new ≡ self.old) }
    {
        let copy = Vec::from_slice(alloc, octets)?;
        self.strings.push(copy)?;
        Ok(())
    }

    /// How many there are.
    pub fn len(&self) -> usize
        ensures { result ≡ length self.now }
    {
        self.strings.len()
    }

    /// The strings.
    pub fn as_slice(&self) -> &[Vec<u8>]
        ensures { map (λ octets. octets.items) result.now ≡ self.now }
    {
        self.strings.as_slice()
    }

    /// The strings, given back.
    pub fn into_vec(self) -> Vec<Vec<u8>>
        ensures { map (λ octets. octets.items) result.items ≡ self }
    {
        self.strings
    }
}

/// Object identifiers, such as policies. Contracts see the contents octets of each.
#[derive(Debug, Drop)]
pub struct Oids {
    oids: Vec<Oid>,
}

impl Model for Oids {
    ghost Value = { List (List ℕ) };

    ghost view = { λ o. o.oids.items };

    ghost invariant = { λ o. list_all is_oid o.oids.items ≡ true };
}

impl Oids {
    /// These object identifiers, in this order.
    pub fn new(oids: Vec<Oid>) -> Oids
        ensures oids { result ≡ oids.items }
    {
        all_are_identifiers(&oids);
        Oids { oids }
    }

    /// The object identifiers.
    pub fn as_slice(&self) -> &[Oid]
        ensures oids { result.now ≡ self.now }
        ensures identifiers { list_all is_oid self.now ≡ true }
    {
        self.oids.as_slice()
    }

    /// The object identifiers, given back.
    pub fn into_vec(self) -> Vec<Oid>
        ensures { result.items ≡ self }
    {
        self.oids
    }
}

/// The contents octets of each object identifier are those of one.
fn all_are_identifiers(oids: &[Oid])
    ensures { list_all is_oid oids.now ≡ true }
{
    for oid in oids {
        let _ = oid.as_ref();
    }
}

/// The places of certificates in a question. Contracts see them as a list.
#[derive(Debug, Drop)]
pub struct Places {
    places: Vec<u8>,
}

impl Model for Places {
    ghost Value = { List ℕ };

    ghost view = { λ p. p.places.items };
}

impl Places {
    /// These places, in this order.
    pub fn new(places: Vec<u8>) -> Places
        ensures { result ≡ places.items }
    {
        Places { places }
    }

    /// The places.
    pub fn as_slice(&self) -> &[u8]
        ensures { result.now ≡ self.now }
    {
        self.places.as_slice()
    }
}
