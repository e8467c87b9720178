//! The check of a server, as its user chooses it.

ghost use Rattle.ts_memo.specs.Served.{served_accepts};

use crate::check::MemoCheck;
use ts_digest::Message;
use ts_sig::{DigestCheck, SignatureCheck, TableCheck, WorkingKey};

/// The check of a server, as its user chooses it.
#[derive(Drop)]
pub enum ServedCheck {
    /// Signatures are computed here.
    Native(MemoCheck),
    /// What the native check takes, and what a table lists: for algorithms that are not here.
    NativeOrTable(MemoCheck, TableCheck),
    /// The stand-in, for examples and tests: anybody can forge a signature.
    StandIn,
}

impl SignatureCheck for ServedCheck {
    ghost accepts = { served_accepts };

    fn good(
        &self,
        algorithm: &[u8],
        key: &WorkingKey<'_>,
        signed: &Message<'_>,
        signature: &[u8],
    ) -> bool {
        match self {
            ServedCheck::Native(native) => native.good(algorithm, key, signed, signature),
            ServedCheck::NativeOrTable(native, table) => {
                native.good(algorithm, key, signed, signature)
                    || table.good(algorithm, key, signed, signature)
            }
            ServedCheck::StandIn => DigestCheck.good(algorithm, key, signed, signature),
        }
    }
}
