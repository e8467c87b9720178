//! The anchors and CRLs that path validation borrows from the tables of a store.

ghost use Rattle.std.specs.Prelude.{◌≡◌, map, option_map, IfOk};
ghost use Rattle.ts_crl.specs.ListView.{crl_in};
ghost use Rattle.ts_store.specs.Contents.{anchor_in as borrowed_in};
ghost use Rattle.ts_path.specs.View.{anchor_in};
ghost use Rattle.ts_answer.specs.Asked.{lists_in, trust_anchor};
ghost use Rattle.ts_answer.specs.Reply.{with_id};
ghost use Rattle.ts_answer.specs.inside.Trusted.{trusted_in};

use crate::trusted::TrustedAnchor;
use std::alloc::{AllocError, Global};
use ts_crl::Crl;
use ts_path::Anchor;
use ts_store::{BorrowedAnchor, StoredCrl};

/// The CRLs, borrowed. None is read again.
pub(crate) fn lists_of<'a>(
    alloc: Global,
    stored: &[&'a StoredCrl],
) -> Result<Vec<Crl<'a>>, AllocError>
    ensures { IfOk result (λ lists. map crl_in lists.items
        ≡ lists_in (map (λ c. c.now) stored.now)) }
{
    let mut lists = Vec::new(alloc);
    for kept in stored {
        lists.push(kept.crl.view())?;
    }
    Ok(lists)
}

/// The anchor of this id, if it is in the store.
pub(crate) fn anchor_of<'a>(
    anchors: &[BorrowedAnchor<'a>],
    id: &[u8; 32],
) -> Option<BorrowedAnchor<'a>>
    ensures { option_map borrowed_in result ≡ with_id id.now (map borrowed_in anchors.now) }
{
    for anchor in anchors {
        if anchor.id == *id {
            return Some(*anchor);
        }
    }
    None
}

/// The anchors of the store, borrowed. No certificate is read again.
pub(crate) fn trusted_of<'a>(
    alloc: Global,
    stored: &[BorrowedAnchor<'a>],
) -> Result<Vec<TrustedAnchor<'a>>, AllocError>
    ensures { IfOk result (λ trusted. map trusted_in trusted.items
        ≡ map trust_anchor (map borrowed_in stored.now)) }
{
    let mut trusted = Vec::new(alloc);
    for anchor in stored {
        trusted.push(TrustedAnchor::of(*anchor))?;
    }
    Ok(trusted)
}

/// The anchors, as path validation takes them.
pub(crate) fn anchors_of<'a>(
    alloc: Global,
    trusted: &'a [TrustedAnchor<'a>],
) -> Result<Vec<Anchor<'a>>, AllocError>
    ensures { IfOk result (λ anchors. map anchor_in anchors.items ≡ map trusted_in trusted.now) }
{
    let mut anchors = Vec::new(alloc);
    for anchor in trusted {
        anchors.push(anchor.anchor())?;
    }
    Ok(anchors)
}
