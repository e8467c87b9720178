//! Replies.

use crate::lists::{OctetStrings, Oids, Places};
use std::marker::Model;
use ts_der::Oid;
use ts_reason::Reason;

/// What a node replies to a question.
#[derive(Debug, Drop)]
pub enum Reply {
    /// The chain is valid under this anchor, with these accepted policies.
    Valid {
        anchor: [u8; 32],
        policies: Oids,
    },
    /// The chain is not valid.
    Invalid {
        /// The certificate's position in the chain, counted from 1, the anchor's side.
        position: u8,
        reason: Reason<Oid>,
    },
    /// This chain is valid.
    Found {
        anchor: [u8; 32],
        /// The places in the question of the chain's certificates, from the anchor's side. The leaf
        /// has place 1.
        places: Places,
        policies: Oids,
    },
    /// There is no valid chain to the leaf.
    NoPath,
    /// There are more candidates than a search tries, and none of those tried is valid.
    SearchLimit,
    /// The node knows of fewer commands than are asked for: so many.
    NotYet {
        prefix: u32,
    },
    /// A part of the question can't be read.
    Malformed {
        /// 0 for the initial subtrees, and else the certificate, counted from 1.
        index: u8,
        /// The code of the fault.
        fault: u8,
        /// The offset of the fault.
        place: u32,
    },
    /// The anchor is not in the store.
    NoAnchor,
    /// The policies have more paths than a limit that nodes no longer have; never given.
    Limit,
    /// A page of rows, of which there are so many in all. Each row is one of [`AnchorRow`],
    /// [`CrlRow`] and [`CommandRow`], which are not looked into.
    ///
    /// [`AnchorRow`]: crate::AnchorRow
    /// [`CrlRow`]: crate::CrlRow
    /// [`CommandRow`]: crate::CommandRow
    Page {
        total: u32,
        rows: OctetStrings,
    },
}

/// A reply, and the number of commands after which the store was looked at, each field in its
/// range.
#[derive(Debug, Drop)]
pub struct Answer {
    pub(crate) k: u32,
    pub(crate) reply: Reply,
}

impl Model for Answer {
    ghost use Rattle.ts_question.specs.Reply.{NumberedReply, AnswerFits};

    ghost Value = { NumberedReply };

    ghost view = { λ a. record { k = a.k; reply = a.reply } };

    ghost invariant = { λ a. AnswerFits (record { k = a.k; reply = a.reply }) };
}
