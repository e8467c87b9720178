//! Signatures from outside.

use crate::cavp::CAVP;
use crate::openssl::OPENSSL;
use crate::sample::Sample;
use std::alloc::Global;
use std::test::Fail;
use ts_digest::Message;
use ts_ecdsa::is_ecdsa_signature;

/// What the check answers.
fn answer(alloc: Global, sample: &Sample) -> Result<bool, Fail> {
    let key = hex::decode(alloc, sample.key)?;
    let message = hex::decode(alloc, sample.message)?;
    let signature = hex::decode(alloc, sample.signature)?;
    let signed = Message::of(&message);
    Ok(is_ecdsa_signature(sample.curve, sample.hash, &key, &signed, &signature))
}

#[test]
fn answers_as_others(rt: HostRuntime) -> Result<(), Fail> {
    for samples in [OPENSSL, CAVP] {
        for sample in samples {
            assert_eq!(rt; answer(rt.alloc(), sample)?, sample.is_good);
        }
    }
    Ok(())
}
