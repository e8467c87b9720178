//! Questions.

use crate::lists::OctetStrings;
use crate::terms::Terms;
use std::marker::Model;

/// A question is outside its limits: k above 1,000,000, more than 32 user policies, more than 64
/// subtrees of a kind or one of more than 65,535 octets, no certificate, more than 16 of a chain or
/// 33 of a search, or one of more than 65,536 octets.
#[derive(Clone, Copy, Debug, PartialEq, Eq)]
pub struct OutOfLimits;

/// What is asked for. Certificates are DER, which is not looked into.
#[derive(Debug, Drop)]
pub enum Target {
    /// Whether this chain is valid.
    Chain {
        /// The SHA-256 digest of the trust anchor's certificate.
        anchor: [u8; 32],
        /// The chain from the certificate that the anchor issued to the last.
        certificates: OctetStrings,
    },
    /// A valid chain to the first certificate, the leaf, through others, the pool.
    Search {
        certificates: OctetStrings,
    },
    /// A page of what the store holds, after so many rows.
    Store {
        from: u32,
    },
    /// A page of the commands that the store took, after so many rows.
    Log {
        from: u32,
    },
}

/// What is asked of a node, within its limits.
#[derive(Debug, Drop)]
pub struct Question {
    pub(crate) terms: Terms,
    pub(crate) target: Target,
}

impl Model for Question {
    ghost use Rattle.ts_question.specs.Question.{StoreQuestion, QuestionFits};

    ghost Value = { StoreQuestion };

    ghost view = { λ q. record { terms = q.terms; target = q.target } };

    ghost invariant = { λ q. QuestionFits (record { terms = q.terms; target = q.target }) };
}
