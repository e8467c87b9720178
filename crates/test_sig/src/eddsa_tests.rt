//! Signatures from outside.

use crate::eddsa_rows::{ROWS, Sample};
use std::alloc::Global;
use std::test::Fail;
use ts_eddsa::is_ed25519_signature;

/// What the check answers.
fn answer(alloc: Global, sample: &Sample) -> Result<bool, Fail> {
    let key = hex::decode(alloc, sample.key)?;
    let message = hex::decode(alloc, sample.message)?;
    let signature = hex::decode(alloc, sample.signature)?;
    Ok(is_ed25519_signature(&key, &message, &signature))
}

#[test]
fn answers_as_the_standard(rt: HostRuntime) -> Result<(), Fail> {
    for sample in ROWS {
        assert_eq!(rt;
            answer(rt.alloc(), sample)?,
            sample.is_good,
            "{}",
            sample.name
        );
    }
    Ok(())
}
