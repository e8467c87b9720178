//! What is asked beside the certificates.

ghost use Rattle.std.specs.Prelude.{◌≡◌};
ghost use Rattle.ts_question.specs.Question.{plain_terms};

use crate::lists::{OctetStrings, Oids};
use std::alloc::Global;
use ts_der::Oid;

/// What a question sets, as the inputs of path validation (RFC 5280 6.1.1).
#[derive(Clone, Copy, Debug, PartialEq, Eq)]
pub struct Flags {
    /// Whether a policy has to be valid for the chain (6.1.1 (f)).
    pub explicit_policy: bool,
    /// Whether policies may not be mapped (6.1.1 (e)).
    pub inhibit_policy_mapping: bool,
    /// Whether anyPolicy does not stand for other policies (6.1.1 (g)).
    pub inhibit_any_policy: bool,
    /// Whether a certificate is refused whose status can't be determined.
    pub hard: bool,
    /// Whether delta CRLs are used (6.3.1 (b)).
    pub use_deltas: bool,
}

/// The flags of a question, and which of its parts that may be absent are there.
#[derive(Clone, Copy)]
pub(crate) struct Presence {
    pub flags: Flags,
    pub k: bool,
    pub purpose: bool,
}

/// What is asked beside the certificates.
#[derive(Debug, Drop)]
pub struct Terms {
    /// The moment of the validation, in seconds from 1970-01-01T00:00:00Z.
    pub moment: i64,
    pub flags: Flags,
    /// The number of commands after which the store is looked at. None: all that the node knows.
    pub k: Option<u32>,
    /// The purpose that the last certificate is to have, if one is asked for.
    pub purpose: Option<Oid>,
    /// The policies that the user accepts (6.1.1 (c)), a set in any order; none stands for any.
    pub user_policies: Oids,
    /// The subtrees in which names have to lie (6.1.1 (h)), each a GeneralSubtree in DER, which is
    /// not looked into.
    pub permitted_subtrees: OctetStrings,
    /// The subtrees in which no name may lie (6.1.1 (i)).
    pub excluded_subtrees: OctetStrings,
}

impl Terms {
    /// The terms of a question that asks for nothing beside its target, after the first k commands.
    pub fn plain(alloc: Global, k: Option<u32>) -> Terms
        ensures { result ≡ plain_terms k }
    {
        Terms {
            moment: 0,
            flags: Flags {
                explicit_policy: false,
                inhibit_policy_mapping: false,
                inhibit_any_policy: false,
                hard: false,
                use_deltas: false,
            },
            k,
            purpose: None,
            user_policies: Oids::new(Vec::new(alloc)),
            permitted_subtrees: OctetStrings::empty(alloc),
            excluded_subtrees: OctetStrings::empty(alloc),
        }
    }
}
