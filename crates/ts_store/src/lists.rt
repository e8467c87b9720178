//! A table of CRLs, complete ones or deltas.

ghost use Rattle.std.specs.List.{find};
ghost use Rattle.std.specs.Prelude.{◌≡◌, ◌<◌, ◌++◌, ◌∷◌, [], List, Option, Some, None, length};
ghost use Rattle.std.specs.Prelude.{slice_index, option_map, IfOk, IfSome, OnErr};
ghost use Rattle.ts_crl.specs.ListView.{crl_in};
ghost use Rattle.ts_crl.specs.OwnedView.{list_of};
ghost use Rattle.ts_store.specs.Changes.{Becomes};
ghost use Rattle.ts_store.specs.Lists.{list_in, is_newer as is_newer_list, has_slot as has_slot_of};
ghost use Rattle.ts_store.specs.Lists.{has_id, put_list, place_by, drop_list};

use crate::stored::StoredCrl;
use std::alloc::{AllocError, Global};
use std::marker::Model;
use ts_command::Refusal;
use ts_crl::{Crl, is_lower_number};

/// How many complete CRLs there may be, and how many delta CRLs.
pub const MAX_CRLS: usize = 1_024;

/// The CRLs of one kind of a store, in its order. Contracts see them as a list.
#[derive(Drop)]
pub struct Crls {
    lists: Vec<StoredCrl>,
}

impl Model for Crls {
    ghost use Rattle.std.specs.Prelude.{List};
    ghost use Rattle.ts_store.specs.declared.stored.StoredCrl.{StoredCrl as Stored};

    ghost Value = { List Stored };

    ghost view = { λ c. c.lists.items };
}

impl Crls {
    /// A table without CRLs.
    pub fn new(alloc: Global) -> Crls
        ensures { result ≡ [] }
    {
        Crls {
            lists: Vec::new(alloc),
        }
    }

    /// The CRLs, in their order.
    pub fn as_slice(&self) -> &[StoredCrl]
        ensures { result.now ≡ self.now }
    {
        self.lists.as_slice()
    }

    /// Adds a CRL as the last one, or replaces the one of its slot, if that is older; or answers
    /// why not.
    ///
    /// # Errors
    ///
    /// Out of memory. Nothing is changed then.
    pub fn put(&mut self, alloc: Global, new: StoredCrl) -> Result<Option<Refusal>, AllocError>
        ensures done { IfOk result (λ refusal. Becomes refusal self.old self.new
            (put_list new self.old)) }
        ensures memory { OnErr result (self.new ≡ self.old) }
    {
        put_in(&mut self.lists, alloc, new)
    }

    /// Removes the CRL of this id, or answers why not. The rest keeps its order.
    pub fn remove(&mut self, id: &[u8]) -> Option<Refusal>
        ensures { Becomes result self.old self.new (drop_list id.now self.old) }
    {
        remove_from(&mut self.lists, id)
    }
}

/// Whether a CRL is newer than another.
fn is_newer(new: Crl<'_>, held: Crl<'_>) -> bool
    ensures { result ≡ is_newer_list (crl_in new.entry) (crl_in held.entry) }
{
    match (new.crl_number(), held.crl_number()) {
        (Some(number), Some(other)) => is_lower_number(other, number),
        _ => held.this_update().moment < new.this_update().moment,
    }
}

/// Whether a CRL that is kept has the slot of another one.
fn has_slot(alloc: Global, held: &StoredCrl, new: Crl<'_>) -> Result<bool, AllocError>
    ensures { IfOk result (λ has. has ≡ has_slot_of (crl_in new.entry) held.now) }
{
    held.crl.view().is_same_slot_in(alloc, new)
}

/// The place of the first CRL that has the slot of another one, if one has it.
///
/// # Errors
///
/// Out of memory.
pub fn place_of_slot(
    alloc: Global,
    lists: &[StoredCrl],
    new: Crl<'_>,
) -> Result<Option<usize>, AllocError>
    ensures place { IfOk result (λ place. place
        ≡ place_by (has_slot_of (crl_in new.entry)) lists.now) }
    ensures within { IfOk result (λ place. IfSome place (λ i. i < length lists.now)) }
{
    for i in 0..lists.len() {
        if has_slot(alloc, &lists[i], new)? {
            return Ok(Some(i));
        }
    }
    Ok(None)
}

/// The place of the first CRL of this id, if it is in the table.
pub fn place_of_crl(lists: &[StoredCrl], id: &[u8]) -> Option<usize>
    ensures place { result ≡ place_by (has_id id.now) lists.now }
    ensures within { IfSome result (λ i. i < length lists.now) }
{
    for i in 0..lists.len() {
        if lists[i].id.as_slice() == id {
            return Some(i);
        }
    }
    None
}

/// Replaces the CRL at a place by one of the same slot, if that is newer.
fn replace_at(lists: &mut Vec<StoredCrl>, i: usize, new: StoredCrl) -> Option<Refusal>
    requires place { Some i ≡ place_by (has_slot_of (list_in new)) lists.now.items }
    requires within { i < length lists.now.items }
    ensures { Becomes result lists.old.items lists.new.items (put_list new lists.old.items) }
{
    if !is_newer(new.crl.view(), lists[i].crl.view()) {
        return Some(Refusal::OlderCrl);
    }
    lists[i] = new;
    None
}

/// Adds a CRL of a new slot.
fn add_last(lists: &mut Vec<StoredCrl>, new: StoredCrl) -> Result<Option<Refusal>, AllocError>
    requires { None ≡ place_by (has_slot_of (list_in new)) lists.now.items }
    ensures done { IfOk result (λ refusal. Becomes refusal lists.old.items lists.new.items
        (put_list new lists.old.items)) }
    ensures memory { OnErr result (lists.new.items ≡ lists.old.items) }
{
    if lists.len() >= MAX_CRLS {
        return Ok(Some(Refusal::StoreFull));
    }
    lists.push(new)?;
    Ok(None)
}

/// Puts a CRL into its slot, or adds it where no CRL has the slot. It can be refused, and then
/// nothing changes.
fn put_in(
    lists: &mut Vec<StoredCrl>,
    alloc: Global,
    new: StoredCrl,
) -> Result<Option<Refusal>, AllocError>
    ensures done { IfOk result (λ refusal. Becomes refusal lists.old.items lists.new.items
        (put_list new lists.old.items)) }
    ensures memory { OnErr result (lists.new.items ≡ lists.old.items) }
{
    match place_of_slot(alloc, lists, new.crl.view())? {
        Some(i) => Ok(replace_at(lists, i, new)),
        None => add_last(lists, new),
    }
}

/// Removes the CRL of this id. It is refused where there is none.
fn remove_from(lists: &mut Vec<StoredCrl>, id: &[u8]) -> Option<Refusal>
    ensures { Becomes result lists.old.items lists.new.items (drop_list id.now lists.old.items) }
{
    match place_of_crl(lists, id) {
        Some(i) => {
            let _ = lists.remove(i);
            None
        }
        None => Some(Refusal::NoCrl),
    }
}
