//! The tables of a store, borrowed.

ghost use Rattle.std.specs.Prelude.{◌≡◌, ◌++◌, ◌∷◌, [], List, ℕ, map, IfOk, OnOk};
ghost use Rattle.std.specs.List.{remove};
ghost use Rattle.ts_store.specs.Contents.{anchor_in, contents_of, no_contents};
ghost use Rattle.ts_store.specs.inside.Taken.{apply_change, with_anchor, with_crl_at, with_last};
ghost use Rattle.ts_store.specs.inside.Taken.{with_purposes_in, with_purposes_of};

use crate::taken::{KeptCommand, Kind, TableChange, TakenCommand};
use crate::{StoredCrl, Tables, TrustAnchor};
use std::alloc::{AllocError, Global};
use std::marker::Model;
use ts_cert::OwnedCert;
use ts_command::{Command, Purposes};

/// A borrowed trust anchor: the SHA-256 of its certificate, the certificate, and its purposes.
#[derive(Clone, Copy)]
pub struct BorrowedAnchor<'a> {
    pub id: [u8; 32],
    pub certificate: &'a OwnedCert,
    pub purposes: &'a Purposes,
}

/// The tables of a store, borrowed: nothing of them is copied or read again.
#[derive(Drop)]
pub struct Snapshot<'a> {
    anchors: Vec<BorrowedAnchor<'a>>,
    complete: Vec<&'a StoredCrl>,
    deltas: Vec<&'a StoredCrl>,
}

impl<'a> Model for Snapshot<'a> {
    ghost use Rattle.std.specs.Prelude.{map};
    ghost use Rattle.ts_store.specs.Contents.{Contents, anchor_in};

    ghost Value = { Contents };

    ghost view = { λ s. record {
      anchors = map anchor_in s.anchors.items;
      complete = map (λ c. c.now) s.complete.items;
      deltas = map (λ c. c.now) s.deltas.items;
    } };
}

/// A trust anchor, borrowed.
fn borrow_anchor(anchor: &TrustAnchor) -> BorrowedAnchor<'_>
    ensures { anchor_in result ≡ anchor.now }
{
    BorrowedAnchor {
        id: anchor.id,
        certificate: &anchor.certificate,
        purposes: &anchor.purposes,
    }
}

/// The anchors of a table, borrowed.
fn anchors_of(alloc: Global, anchors: &[TrustAnchor]) -> Result<Vec<BorrowedAnchor<'_>>, AllocError>
    ensures { IfOk result (λ all. map anchor_in all.items ≡ anchors.now) }
{
    let mut all = Vec::new(alloc);
    for anchor in anchors {
        all.push(borrow_anchor(anchor))?;
    }
    Ok(all)
}

/// The CRLs of a table, borrowed.
fn crls_of(alloc: Global, lists: &[StoredCrl]) -> Result<Vec<&StoredCrl>, AllocError>
    ensures { IfOk result (λ all. map (λ c. c.now) all.items ≡ lists.now) }
{
    let mut all = Vec::new(alloc);
    for list in lists {
        all.push(list)?;
    }
    Ok(all)
}

/// Adds the anchor of a command as the last one.
fn add_anchor<'a>(
    anchors: &mut Vec<BorrowedAnchor<'a>>,
    kept: &'a KeptCommand,
) -> Result<(), AllocError>
    ensures { OnOk result (map anchor_in anchors.new.items
        ≡ with_anchor kept.now (map anchor_in anchors.old.items)) }
{
    if let KeptCommand::Anchor { anchor, .. } = kept {
        anchors.push(borrow_anchor(anchor))?;
    }
    Ok(())
}

/// Removes the anchor at a place.
fn remove_anchor(anchors: &mut Vec<BorrowedAnchor<'_>>, at: usize)
    ensures { map anchor_in anchors.new.items ≡ remove (map anchor_in anchors.old.items) at }
{
    if at < anchors.len() {
        let _anchor = anchors.remove(at);
    }
}

/// Gives the anchor at a place the purposes that a command sets.
fn set_purposes<'a>(anchors: &mut Vec<BorrowedAnchor<'a>>, at: usize, command: &'a Command)
    ensures { map anchor_in anchors.new.items
        ≡ with_purposes_of command.now at (map anchor_in anchors.old.items) }
{
    if let Command::SetPurposes { purposes, .. } = command {
        if at < anchors.len() {
            anchors[at].purposes = purposes;
        }
    }
}

/// Gives the anchor at a place the purposes of a command.
fn set_purposes_in<'a>(anchors: &mut Vec<BorrowedAnchor<'a>>, at: usize, kept: &'a KeptCommand)
    ensures { map anchor_in anchors.new.items
        ≡ with_purposes_in kept.now at (map anchor_in anchors.old.items) }
{
    if let KeptCommand::Other(command) = kept {
        set_purposes(anchors, at, command);
    }
}

/// Adds the list of a command as the last one.
fn add_crl<'a>(lists: &mut Vec<&'a StoredCrl>, kept: &'a KeptCommand) -> Result<(), AllocError>
    ensures { OnOk result (map (λ c. c.now) lists.new.items
        ≡ with_last kept.now (map (λ c. c.now) lists.old.items)) }
{
    if let KeptCommand::Crl { crl, .. } = kept {
        lists.push(crl)?;
    }
    Ok(())
}

/// Puts the list of a command at a place.
fn put_crl<'a>(lists: &mut Vec<&'a StoredCrl>, at: usize, kept: &'a KeptCommand)
    ensures { map (λ c. c.now) lists.new.items
        ≡ with_crl_at kept.now at (map (λ c. c.now) lists.old.items) }
{
    if let KeptCommand::Crl { crl, .. } = kept {
        if at < lists.len() {
            lists[at] = crl;
        }
    }
}

/// Removes the list at a place.
fn remove_crl(lists: &mut Vec<&StoredCrl>, at: usize)
    ensures { map (λ c. c.now) lists.new.items ≡ remove (map (λ c. c.now) lists.old.items) at }
{
    if at < lists.len() {
        let _list = lists.remove(at);
    }
}

impl<'a> Snapshot<'a> {
    /// Tables that hold nothing.
    pub(crate) fn empty(alloc: Global) -> Snapshot<'a>
        ensures { result ≡ no_contents }
    {
        Snapshot {
            anchors: Vec::new(alloc),
            complete: Vec::new(alloc),
            deltas: Vec::new(alloc),
        }
    }

    /// These tables, borrowed.
    pub fn of(alloc: Global, tables: &'a Tables) -> Result<Snapshot<'a>, AllocError>
        ensures { IfOk result (λ snapshot. snapshot ≡ contents_of tables.now) }
    {
        let anchors = anchors_of(alloc, tables.anchors())?;
        let complete = crls_of(alloc, tables.crls())?;
        let deltas = crls_of(alloc, tables.deltas())?;
        Ok(Snapshot {
            anchors,
            complete,
            deltas,
        })
    }

    /// Makes what a command changed.
    pub(crate) fn change(&mut self, taken: &'a TakenCommand) -> Result<(), AllocError>
        ensures { OnOk result (self.new ≡ apply_change taken.now.change taken.now.kept self.old) }
    {
        let kept = &taken.kept;
        match taken.change {
            TableChange::Nothing => {}
            TableChange::AddsAnchor => add_anchor(&mut self.anchors, kept)?,
            TableChange::RemovesAnchor { at } => remove_anchor(&mut self.anchors, at),
            TableChange::SetsPurposes { at } => set_purposes_in(&mut self.anchors, at, kept),
            TableChange::AddsCrl {
                kind: Kind::Complete,
            } => add_crl(&mut self.complete, kept)?,
            TableChange::AddsCrl { kind: Kind::Delta } => add_crl(&mut self.deltas, kept)?,
            TableChange::PutsCrl {
                kind: Kind::Complete,
                at,
            } => put_crl(&mut self.complete, at, kept),
            TableChange::PutsCrl {
                kind: Kind::Delta,
                at,
            } => put_crl(&mut self.deltas, at, kept),
            TableChange::RemovesCrl {
                kind: Kind::Complete,
                at,
            } => remove_crl(&mut self.complete, at),
            TableChange::RemovesCrl {
                kind: Kind::Delta,
                at,
            } => remove_crl(&mut self.deltas, at),
        }
        Ok(())
    }

    /// The trust anchors, in their order.
    pub fn anchors(&self) -> &[BorrowedAnchor<'a>]
        ensures { map anchor_in result.now ≡ self.now.anchors }
    {
        self.anchors.as_slice()
    }

    /// The complete CRLs, in their order.
    pub fn complete(&self) -> &[&'a StoredCrl]
        ensures { map (λ c. c.now) result.now ≡ self.now.complete }
    {
        self.complete.as_slice()
    }

    /// The deltas, in their order.
    pub fn deltas(&self) -> &[&'a StoredCrl]
        ensures { map (λ c. c.now) result.now ≡ self.now.deltas }
    {
        self.deltas.as_slice()
    }
}
