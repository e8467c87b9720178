//! Octets with several owners.

ghost use Rattle.std.specs.Prelude.{◌≡◌, ℕ, List, length, IfOk};

use std::alloc::{AllocError, Global};
use std::marker::Model;
use std::rc::Rc;

/// Octets that several owners share. None of them can change them. A contract sees the list of the
/// octets.
#[derive(Debug, Drop)]
pub struct Octets {
    shared: Rc<Vec<u8>>,
}

impl Model for Octets {
    ghost use Rattle.std.specs.Prelude.{ℕ, List};

    ghost Value = { List ℕ };

    ghost view = { λ octets. octets.shared.value.items };
}

impl Octets {
    /// These octets.
    ///
    /// # Errors
    ///
    /// Out of memory: the counter of owners, beside the octets, takes some.
    pub fn of(alloc: Global, octets: Vec<u8>) -> Result<Octets, AllocError>
        ensures { IfOk result (λ made. made ≡ octets.items) }
    {
        let shared = Rc::new(alloc, octets)?;
        Ok(Octets { shared })
    }

    /// A copy of these octets.
    ///
    /// # Errors
    ///
    /// Out of memory.
    pub fn copy_of(alloc: Global, octets: &[u8]) -> Result<Octets, AllocError>
        ensures { IfOk result (λ made. made ≡ octets.now) }
    {
        Octets::of(alloc, Vec::from_slice(alloc, octets)?)
    }

    /// One owner more of the same octets, without an allocation.
    ///
    /// # Errors
    ///
    /// Out of memory, where the counter of owners is full.
    pub fn share(&self) -> Result<Octets, AllocError>
        ensures { IfOk result (λ again. again ≡ self.now) }
    {
        let shared = self.shared.clone()?;
        Ok(Octets { shared })
    }

    /// The octets.
    pub fn as_slice(&self) -> &[u8]
        ensures { result.now ≡ self.now }
    {
        self.shared.as_slice()
    }

    /// How many octets there are.
    pub fn len(&self) -> usize
        ensures { result ≡ length self.now }
    {
        self.shared.len()
    }
}
