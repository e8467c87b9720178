//! The tables of a trust store.

ghost use Rattle.std.specs.Prelude.{◌≡◌, IfOk, OnErr};
ghost use Rattle.ts_crl.specs.Fault.{fault_in};
ghost use Rattle.ts_store.specs.Changes.{Becomes};
ghost use Rattle.ts_store.specs.Tables.{no_tables, change, load_crl, drop_crl, refusal_of};

use crate::anchor::TrustAnchor;
use crate::anchors::{Anchors, digest};
use crate::lists::Crls;
use crate::stored::StoredCrl;
use std::alloc::{AllocError, Global};
use std::marker::Model;
use ts_command::{Command, Refusal};
use ts_crl::{CrlFault, OwnedCrl, OwnedCrlFault};
use ts_octets::Octets;

/// The trust anchors of a store, its complete CRLs and its deltas, each in
/// the order of the store.
#[derive(Drop)]
pub struct Tables {
    anchors: Anchors,
    complete: Crls,
    deltas: Crls,
}

impl Model for Tables {
    ghost use Rattle.ts_store.specs.Tables.{Tables as Stated};

    ghost Value = { Stated };

    ghost view = { λ t. record { anchors = t.anchors; complete = t.complete; deltas = t.deltas } };
}

impl Tables {
    /// Tables without anchors and CRLs.
    pub fn new(alloc: Global) -> Tables
        ensures { result ≡ no_tables }
    {
        Tables {
            anchors: Anchors::new(alloc),
            complete: Crls::new(alloc),
            deltas: Crls::new(alloc),
        }
    }

    /// The trust anchors, in their order.
    pub fn anchors(&self) -> &[TrustAnchor]
        ensures { result.now ≡ self.now.anchors }
    {
        self.anchors.as_slice()
    }

    /// The complete CRLs, in their order.
    pub fn crls(&self) -> &[StoredCrl]
        ensures { result.now ≡ self.now.complete }
    {
        self.complete.as_slice()
    }

    /// The delta CRLs, in their order.
    pub fn deltas(&self) -> &[StoredCrl]
        ensures { result.now ≡ self.now.deltas }
    {
        self.deltas.as_slice()
    }

    /// Does what a command asks for, or answers why not. Its id is not looked at.
    ///
    /// # Errors
    ///
    /// Out of memory. Nothing is changed then.
    pub fn change(
        &mut self,
        alloc: Global,
        command: &Command,
    ) -> Result<Option<Refusal>, AllocError>
        ensures done { IfOk result (λ refusal. Becomes refusal self.old self.new
            (change command.now self.old)) }
        ensures memory { OnErr result (self.new ≡ self.old) }
    {
        match command {
            Command::AddAnchor { certificate, .. } => {
                let refusal = self.anchors.add(certificate.octets())?;
                Ok(refusal)
            }
            Command::WithdrawAnchor { anchor, .. } => Ok(self.anchors.withdraw(anchor)),
            Command::LoadCrl { crl, .. } => {
                let refusal = self.load(alloc, crl.octets())?;
                Ok(refusal)
            }
            Command::DropCrl { crl, .. } => Ok(self.remove(crl)),
            Command::SetPurposes {
                anchor,
                purposes,
                ..
            } => {
                let refusal = self.anchors.set_purposes(alloc, anchor, purposes)?;
                Ok(refusal)
            }
            Command::Noop { .. } => Ok(None),
        }
    }

    /// Loads a CRL from its octets, among the delta CRLs or the complete ones. It can be refused,
    /// and then nothing changes.
    fn load(&mut self, alloc: Global, octets: &Octets) -> Result<Option<Refusal>, AllocError>
        ensures done { IfOk result (λ refusal. Becomes refusal self.old self.new
            (load_crl octets.now self.old)) }
        ensures memory { OnErr result (self.new ≡ self.old) }
    {
        let crl = match OwnedCrl::of(alloc, octets) {
            Ok(crl) => crl,
            Err(OwnedCrlFault::Memory) => return Err(AllocError),
            Err(OwnedCrlFault::Unreadable(fault)) => return Ok(Some(refusal(fault))),
        };
        let is_delta = crl.view().is_delta();
        let stored = StoredCrl {
            id: digest(octets.as_slice()),
            crl,
        };
        if is_delta {
            let refusal = self.deltas.put(alloc, stored)?;
            Ok(refusal)
        } else {
            let refusal = self.complete.put(alloc, stored)?;
            Ok(refusal)
        }
    }

    /// Removes the CRL of this id, which is a complete one or a delta CRL. It is refused where
    /// there is none.
    fn remove(&mut self, id: &[u8]) -> Option<Refusal>
        ensures { Becomes result self.old self.new (drop_crl id.now self.old) }
    {
        match self.complete.remove(id) {
            None => None,
            Some(_) => self.deltas.remove(id),
        }
    }
}

/// Why octets are no CRL that is kept.
fn refusal(fault: CrlFault<'_>) -> Refusal
    ensures { result ≡ refusal_of (fault_in fault.entry) }
{
    match fault {
        CrlFault::Broken(_) | CrlFault::NoNextUpdate => Refusal::Malformed,
        CrlFault::CriticalCrlExtension(_) => Refusal::CriticalCrlExtension,
        CrlFault::Indirect => Refusal::Indirect,
        CrlFault::RelativeName => Refusal::RelativeName,
        CrlFault::DeltaCrl => Refusal::DeltaCrl,
    }
}
