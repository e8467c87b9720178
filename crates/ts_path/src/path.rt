//! Path validation.

ghost use Rattle.std.specs.Prelude.{◌≤◌, IfOk, length};
ghost use Rattle.ts_path.specs.View.{question_in};
ghost use Rattle.ts_path.specs.Verdict.{IsVerdict};

use crate::anchor::Anchor;
use crate::context::Context;
use crate::inputs::Inputs;
use crate::verdict::Verdict;
use crate::walk::{End, Step, Walk};
use std::alloc::{AllocError, Global};
use ts_cert::Cert;
use ts_revoke::Crls;
use ts_sig::SignatureCheck;

/// The greatest number of certificates in a chain.
pub const MAX_CHAIN: usize = 16;

/// The verdict on a chain of 1 to [`MAX_CHAIN`] certificates under a trust anchor (RFC 5280 6.1).
/// The first of them is the one that the anchor issued, the last is the target. A signature is
/// checked at most once.
///
/// # Errors
///
/// Out of memory.
pub fn validate<'a, S: SignatureCheck>(
    alloc: Global,
    anchor: &Anchor<'a>,
    chain: &[Cert<'a>],
    inputs: &Inputs<'a>,
    crls: &Crls<'_>,
    check: &S,
) -> Result<Verdict<'a>, AllocError>
    requires some { 1 ≤ length chain.now }
    requires few { length chain.now ≤ 16 }
    ensures { IfOk result (IsVerdict
        (question_in anchor.now chain.now inputs.now crls.now (S.accepts check.now))) }
{
    let context = Context {
        anchor,
        inputs,
        crls,
        check,
    };
    let mut walk = Walk::start(alloc, &context, chain.len() as u8)?;
    let mut rest = chain;
    while let [cert, below @ ..] = rest {
        let position = walk.position();
        if below.is_empty() {
            return match walk.end(alloc, &context, cert)? {
                End::Accepted(policies) => Ok(Verdict::Valid(policies)),
                End::Refused(reason) => Ok(Verdict::Invalid { position, reason }),
            };
        }
        match walk.pass(alloc, &context, cert)? {
            Step::Next(next) => walk = next,
            Step::Stop(reason) => return Ok(Verdict::Invalid { position, reason }),
        }
        rest = below;
    }
    unreachable!()
}
