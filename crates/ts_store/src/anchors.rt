//! The table of trust anchors.

ghost use Rattle.std.specs.Prelude.{◌≡◌, ◌<◌, ◌≤◌, ◌++◌, ◌∷◌, [], List, Option, Some, length};
ghost use Rattle.std.specs.Prelude.{option_map, is_some, IfOk, IfSome, OnErr};
ghost use Rattle.sha2.specs.Sha256.{sha256};
ghost use Rattle.ts_cert.specs.Table.{certificate_fault};
ghost use Rattle.ts_store.specs.Anchors.{place_of as place_in, new_refusal, add_anchor};
ghost use Rattle.ts_store.specs.Anchors.{withdraw_anchor, set_purposes, with_purposes};
ghost use Rattle.ts_store.specs.Changes.{Becomes};
ghost use Rattle.ts_store.specs.declared.anchor.TrustAnchor.{TrustAnchor as Anchor};

use crate::anchor::TrustAnchor;
use sha2::{Digest, Sha256};
use std::alloc::{AllocError, Global};
use std::marker::Model;
use ts_cert::{OwnedCert, OwnedCertFault};
use ts_command::{Purposes, Refusal};
use ts_octets::Octets;

/// How many trust anchors there may be.
pub const MAX_ANCHORS: usize = 256;

/// The trust anchors of a store, in its order. Contracts see them as a list.
#[derive(Drop)]
pub struct Anchors {
    anchors: Vec<TrustAnchor>,
}

impl Model for Anchors {
    ghost use Rattle.std.specs.Prelude.{List};
    ghost use Rattle.ts_store.specs.declared.anchor.TrustAnchor.{TrustAnchor as Anchor};

    ghost Value = { List Anchor };

    ghost view = { λ a. a.anchors.items };
}

impl Anchors {
    /// No anchors.
    pub fn new(alloc: Global) -> Anchors
        ensures { result ≡ [] }
    {
        Anchors {
            anchors: Vec::new(alloc),
        }
    }

    /// The anchors, in their order.
    pub fn as_slice(&self) -> &[TrustAnchor]
        ensures { result.now ≡ self.now }
    {
        self.anchors.as_slice()
    }

    /// Adds an anchor of this certificate as the last one, for any purpose, or answers why not.
    ///
    /// # Errors
    ///
    /// Out of memory. Nothing is changed then.
    pub fn add(&mut self, certificate: &Octets) -> Result<Option<Refusal>, AllocError>
        ensures done { IfOk result (λ refusal. Becomes refusal self.old self.new
            (add_anchor certificate.now self.old)) }
        ensures memory { OnErr result (self.new ≡ self.old) }
    {
        add_to(&mut self.anchors, certificate)
    }

    /// Removes the anchor of this id, or answers why not. The rest keeps its order.
    pub fn withdraw(&mut self, id: &[u8]) -> Option<Refusal>
        ensures { Becomes result self.old self.new (withdraw_anchor id.now self.old) }
    {
        withdraw_from(&mut self.anchors, id)
    }

    /// Sets the purposes of the anchor of this id, or answers why not.
    ///
    /// # Errors
    ///
    /// Out of memory. Nothing is changed then.
    pub fn set_purposes(
        &mut self,
        alloc: Global,
        id: &[u8],
        purposes: &Purposes,
    ) -> Result<Option<Refusal>, AllocError>
        ensures done { IfOk result (λ refusal. Becomes refusal self.old self.new
            (set_purposes id.now purposes.now self.old)) }
        ensures memory { OnErr result (self.new ≡ self.old) }
    {
        set_in(&mut self.anchors, alloc, id, purposes)
    }
}

/// The SHA-256 of octets: the id of an anchor's certificate, and of a CRL.
pub fn digest(octets: &[u8]) -> [u8; 32]
    ensures { result ≡ sha256 octets.now }
{
    let mut hasher = Sha256::new();
    hasher.update(octets);
    hasher.finalize()
}

/// The place of the anchor of this id, if it is in the table.
pub fn place_of_anchor(anchors: &[TrustAnchor], id: &[u8]) -> Option<usize>
    ensures place { result ≡ place_in id.now anchors.now }
    ensures within { IfSome result (λ i. i < length anchors.now) }
{
    for i in 0..anchors.len() {
        if anchors[i].id.as_slice() == id {
            return Some(i);
        }
    }
    None
}

/// Why an anchor of this id is not added.
fn refusal_at(anchors: &[TrustAnchor], id: &[u8; 32]) -> Option<Refusal>
    ensures { result ≡ new_refusal id.now anchors.now }
{
    if place_of_anchor(anchors, id.as_slice()).is_some() {
        return Some(Refusal::AnchorThere);
    }
    if anchors.len() >= MAX_ANCHORS {
        return Some(Refusal::StoreFull);
    }
    None
}

/// Adds a certificate as a trust anchor for any purpose. It is refused where it can't be read, is
/// there already, or the store is full.
fn add_to(
    anchors: &mut Vec<TrustAnchor>,
    certificate: &Octets,
) -> Result<Option<Refusal>, AllocError>
    ensures done { IfOk result (λ refusal. Becomes refusal anchors.old.items anchors.new.items
        (add_anchor certificate.now anchors.old.items)) }
    ensures memory { OnErr result (anchors.new.items ≡ anchors.old.items) }
{
    let kept = match OwnedCert::of(certificate) {
        Ok(kept) => kept,
        Err(OwnedCertFault::Memory) => return Err(AllocError),
        Err(OwnedCertFault::Unreadable(_)) => return Ok(Some(Refusal::Malformed)),
    };
    let id = digest(certificate.as_slice());
    if let Some(refusal) = refusal_at(anchors, &id) {
        return Ok(Some(refusal));
    }
    anchors.push(TrustAnchor {
        id,
        certificate: kept,
        purposes: Purposes::any(),
    })?;
    Ok(None)
}

/// Withdraws the anchor of this id. It is refused where there is none.
fn withdraw_from(anchors: &mut Vec<TrustAnchor>, id: &[u8]) -> Option<Refusal>
    ensures { Becomes result anchors.old.items anchors.new.items
        (withdraw_anchor id.now anchors.old.items) }
{
    match place_of_anchor(anchors, id) {
        Some(i) => {
            let _ = anchors.remove(i);
            None
        }
        None => Some(Refusal::NoAnchor),
    }
}

/// Sets the purposes of the anchor of this id. It is refused where there is none.
fn set_in(
    anchors: &mut Vec<TrustAnchor>,
    alloc: Global,
    id: &[u8],
    purposes: &Purposes,
) -> Result<Option<Refusal>, AllocError>
    ensures done { IfOk result (λ refusal. Becomes refusal anchors.old.items anchors.new.items
        (set_purposes id.now purposes.now anchors.old.items)) }
    ensures memory { OnErr result (anchors.new.items ≡ anchors.old.items) }
{
    match place_of_anchor(anchors, id) {
        Some(i) => {
            anchors[i].purposes = purposes.try_copy(alloc)?;
            Ok(None)
        }
        None => Ok(Some(Refusal::NoAnchor)),
    }
}
