//! What a script has named so far.

ghost use Rattle.std.specs.Prelude.{◌≡◌, ◌++◌, [], ◌∷◌, None, OnOk, OnErr, option_map};
ghost use Rattle.ts_script.specs.Known.{known_in, entry_in, thing_in, thing_named};
ghost use Rattle.ts_script.specs.Known.{certificate_named};

use crate::cert_octets::CertOctets;
use indexmap::IndexMap;
use sha2::{Digest, Sha256};
use std::alloc::{AllocFailed, Global};

/// What a name stands for, as its octets.
#[derive(Drop)]
pub enum Item {
    /// A certificate.
    Certificate(CertOctets),
    /// A CRL.
    List(Vec<u8>),
}

/// What is known by names, in the order in which it was kept.
#[derive(Drop)]
pub struct Symbols {
    things: IndexMap<Vec<u8>, Item>,
}

impl Symbols {
    /// Nothing yet.
    pub fn new(alloc: Global) -> Symbols
        ensures { known_in result ≡ [] }
    {
        Symbols {
            things: IndexMap::new(alloc),
        }
    }

    /// What is known by this name.
    pub fn find(&self, name: &[u8]) -> Option<&Item>
        ensures { option_map (λ kept. thing_in kept.now) result
            ≡ thing_named (known_in self.now) name.now }
    {
        self.things.get(name)
    }

    /// The certificate of this name.
    pub fn find_cert(&self, name: &[u8]) -> Option<&CertOctets>
        ensures { option_map (λ one. one.now.octets.items) result
            ≡ certificate_named (known_in self.now) name.now }
    {
        match self.find(name)? {
            Item::Certificate(cert) => Some(cert),
            Item::List(_) => None,
        }
    }

    /// The octets of the list of this name.
    pub fn find_crl(&self, name: &[u8]) -> Option<&[u8]> {
        match self.find(name)? {
            Item::Certificate(_) => None,
            Item::List(octets) => Some(octets),
        }
    }

    /// The first name of the certificate with this SHA-256 digest.
    pub fn name_of(&self, digest: &[u8; 32]) -> Option<&[u8]> {
        for (name, kept) in self.things.iter() {
            if let Item::Certificate(cert) = kept {
                let mut hasher = Sha256::new();
                hasher.update(&cert.octets);
                if hasher.finalize() == *digest {
                    return Some(name);
                }
            }
        }
        None
    }

    /// Keeps something by a name.
    ///
    /// # Errors
    ///
    /// Memory ran out.
    pub fn keep(&mut self, name: Vec<u8>, kept: Item) -> Result<(), AllocFailed<(Vec<u8>, Item)>>
        // A name by which nothing was known is last.
        ensures kept { thing_named (known_in self.old) name.items ≡ None
            → OnOk result (known_in self.new ≡ known_in self.old ++ entry_in (name, kept) ∷ []) }
        ensures unchanged { OnErr result (known_in self.new ≡ known_in self.old) }
    {
        self.things.insert(name, kept)?;
        Ok(())
    }
}
