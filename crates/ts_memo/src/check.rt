//! The native check of signatures, which keeps its answers.

ghost use Rattle.ts_check.specs.Native.{native_accepts};

use crate::memo::Memo;
use std::alloc::Global;
use std::cell::RefCell;
use ts_check::NativeCheck;
use ts_digest::Message;
use ts_sig::{SignatureCheck, WorkingKey};

/// Checks signatures as `NativeCheck` does, and keeps the answers, which contracts do not see.
#[derive(Drop)]
pub struct MemoCheck {
    memo: RefCell<Memo>,
}

impl MemoCheck {
    /// A check that has no answers yet.
    pub fn new(alloc: Global) -> MemoCheck {
        MemoCheck {
            memo: RefCell::new(Memo::new(alloc)),
        }
    }
}

impl SignatureCheck for MemoCheck {
    ghost accepts = { λ _ identifier key signed signature.
        native_accepts identifier key signed signature };

    fn good(
        &self,
        algorithm: &[u8],
        key: &WorkingKey<'_>,
        signed: &Message<'_>,
        signature: &[u8],
    ) -> bool {
        match self.memo.try_borrow_mut() {
            Ok(mut memo) => memo.good(algorithm, key, signed, signature),
            // Nobody else borrows it while this call runs.
            Err(_) => NativeCheck.good(algorithm, key, signed, signature),
        }
    }
}
