//! Which place of the tables a command changes.

ghost use Rattle.std.specs.Prelude.{◌≡◌, IfOk};
ghost use Rattle.ts_crl.specs.ListView.{crl_in};
ghost use Rattle.ts_crl.specs.Profile.{is_delta};
ghost use Rattle.ts_store.specs.Anchors.{place_of as place_in};
ghost use Rattle.ts_store.specs.Lists.{has_slot as has_slot_of, place_by};
ghost use Rattle.ts_store.specs.inside.Places.{removal_at, setting_at, crl_change_at};
ghost use Rattle.ts_store.specs.inside.Places.{crl_removal_at};
ghost use Rattle.ts_store.specs.inside.Places.{crl_change_in, crl_removal_in};

use crate::taken::{Kind, TableChange};
use crate::{StoredCrl, Tables, TrustAnchor, place_of_anchor, place_of_crl, place_of_slot};
use std::alloc::{AllocError, Global};
use ts_crl::Crl;

/// The change that removes the anchor of this id.
pub(crate) fn removal(anchors: &[TrustAnchor], id: &[u8; 32]) -> TableChange
    ensures { result ≡ removal_at (place_in id.now anchors.now) }
{
    match place_of_anchor(anchors, id) {
        Some(at) => TableChange::RemovesAnchor { at },
        None => TableChange::Nothing,
    }
}

/// The change that sets the purposes of the anchor of this id.
pub(crate) fn setting(anchors: &[TrustAnchor], id: &[u8; 32]) -> TableChange
    ensures { result ≡ setting_at (place_in id.now anchors.now) }
{
    match place_of_anchor(anchors, id) {
        Some(at) => TableChange::SetsPurposes { at },
        None => TableChange::Nothing,
    }
}

/// The change that removes the CRL of this id: a complete one, else a delta CRL.
pub(crate) fn crl_removal(tables: &Tables, id: &[u8; 32]) -> TableChange
    ensures { result ≡ crl_removal_in id.now tables.now }
{
    if let Some(at) = place_of_crl(tables.crls(), id) {
        return TableChange::RemovesCrl {
            kind: Kind::Complete,
            at,
        };
    }
    match place_of_crl(tables.deltas(), id) {
        Some(at) => TableChange::RemovesCrl {
            kind: Kind::Delta,
            at,
        },
        None => TableChange::Nothing,
    }
}

/// The change by a CRL, which replaces the one of its slot, else is the last of its kind.
fn change_among(
    alloc: Global,
    kind: Kind,
    lists: &[StoredCrl],
    new: Crl<'_>,
) -> Result<TableChange, AllocError>
    ensures { IfOk result (λ change. change
        ≡ crl_change_at kind (place_by (has_slot_of (crl_in new.entry)) lists.now)) }
{
    match place_of_slot(alloc, lists, new)? {
        Some(at) => Ok(TableChange::PutsCrl { kind, at }),
        None => Ok(TableChange::AddsCrl { kind }),
    }
}

/// The change by a CRL, which is among the complete CRLs or the delta CRLs.
pub(crate) fn crl_change(
    alloc: Global,
    tables: &Tables,
    new: Crl<'_>,
) -> Result<TableChange, AllocError>
    ensures { IfOk result (λ change. change ≡ crl_change_in (crl_in new.entry) tables.now) }
{
    if new.is_delta() {
        change_among(alloc, Kind::Delta, tables.deltas(), new)
    } else {
        change_among(alloc, Kind::Complete, tables.crls(), new)
    }
}
