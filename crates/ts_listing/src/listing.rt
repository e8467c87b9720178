//! What a store holds.

ghost use Rattle.std.specs.Prelude.{◌≡◌, ◌++◌, map, IfOk, OnOk};
ghost use Rattle.ts_store.specs.Contents.{anchor_in};
ghost use Rattle.ts_question.specs.Rows.{anchor_encoding};
ghost use Rattle.ts_listing.specs.Listing.{anchor_row, anchor_rows, crl_rows, store_rows};
ghost use Rattle.ts_listing.specs.Page.{page};

use crate::crl_rows::{crl_octets, name_octets};
use crate::digests::is_digest;
use crate::page::{MAX_ROWS, cut, total_of, window};
use crate::purposes::purposes_octets;
use std::alloc::{AllocError, Global};
use ts_question::{AnchorRow, OctetStrings, Reply};
use ts_store::{BorrowedAnchor, Snapshot, StoredCrl};

/// The octets of the row of an anchor.
fn anchor_octets(alloc: Global, anchor: &BorrowedAnchor<'_>) -> Result<Vec<u8>, AllocError>
    ensures { IfOk result (λ octets. octets.items
        ≡ anchor_encoding (anchor_row (anchor_in anchor.now))) }
{
    is_digest(anchor.id);
    let purposes = purposes_octets(alloc, anchor.purposes)?;
    let row = AnchorRow {
        id: anchor.id,
        subject: name_octets(anchor.certificate.view().subject()),
        purposes: cut(&purposes),
    };
    let mut octets = Vec::new(alloc);
    row.write(&mut octets)?;
    Ok(octets)
}

/// Puts the rows of anchors behind others.
fn push_anchors(
    alloc: Global,
    rows: &mut OctetStrings,
    anchors: &[BorrowedAnchor<'_>],
) -> Result<(), AllocError>
    ensures { OnOk result (rows.new ≡ rows.old ++ anchor_rows (map anchor_in anchors.now)) }
{
    for anchor in anchors {
        let octets = anchor_octets(alloc, anchor)?;
        rows.push_copy(alloc, &octets)?;
    }
    Ok(())
}

/// Puts the rows of CRLs behind others.
fn push_crls(alloc: Global, rows: &mut OctetStrings, lists: &[&StoredCrl]) -> Result<(), AllocError>
    ensures { OnOk result (rows.new ≡ rows.old ++ crl_rows (map (λ c. c.now) lists.now)) }
{
    for stored in lists {
        let octets = crl_octets(alloc, *stored)?;
        rows.push_copy(alloc, &octets)?;
    }
    Ok(())
}

/// A page of what the tables of a store hold, after so many rows.
///
/// # Errors
///
/// Out of memory.
pub fn store_page(alloc: Global, snapshot: &Snapshot<'_>, from: u32) -> Result<Reply, AllocError>
    ensures { IfOk result (λ reply. reply ≡ page from (store_rows snapshot.now)) }
{
    let anchors = snapshot.anchors();
    let complete = snapshot.complete();
    let deltas = snapshot.deltas();
    let from = from as usize;
    let mut rows = OctetStrings::empty(alloc);
    push_anchors(alloc, &mut rows, window(anchors, from, MAX_ROWS))?;
    let from = from.saturating_sub(anchors.len());
    let room = MAX_ROWS.saturating_sub(rows.len());
    push_crls(alloc, &mut rows, window(complete, from, room))?;
    let from = from.saturating_sub(complete.len());
    let room = MAX_ROWS.saturating_sub(rows.len());
    push_crls(alloc, &mut rows, window(deltas, from, room))?;
    let total = total_of(anchors.len(), complete.len(), deltas.len());
    Ok(Reply::Page { total, rows })
}
