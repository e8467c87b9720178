//! The text of a verdict.

ghost use Rattle.std.specs.Prelude.{IfOk, string_bytes};
ghost use Rattle.ts_script.specs.CheckLine.{IsVerdictText};

use std::alloc::{AllocError, Global};
use ts_der::OidRef;
use ts_path::Verdict;

/// The policies that are accepted, in dotted form, or `-` where there is none.
fn print_policies(alloc: Global, policies: &[OidRef<'_>]) -> Result<String, AllocError> {
    let mut text = String::new(alloc);
    if policies.is_empty() {
        text.push_str(" -")?;
    }
    for policy in policies {
        text.push_str(" ")?;
        text.push_str(dotted_form(alloc, *policy)?.as_str())?;
    }
    Ok(text)
}

/// The dotted form of an object identifier.
fn dotted_form(alloc: Global, oid: OidRef<'_>) -> Result<String, AllocError> {
    format!(in alloc; "{oid}")
}

/// The words of a verdict.
fn words_of(alloc: Global, verdict: &Verdict<'_>) -> Result<String, AllocError> {
    match verdict {
        Verdict::Valid(policies) => {
            let policies = print_policies(alloc, policies)?;
            format!(in alloc; "valid{policies}")
        }
        Verdict::Invalid { position, reason } => {
            format!(in alloc; "invalid {position} {reason}")
        }
    }
}

/// The line of output for a verdict.
pub fn print_verdict(alloc: Global, verdict: &Verdict<'_>) -> Result<String, AllocError>
    ensures { IfOk result (λ text. IsVerdictText (string_bytes text)) }
{
    let words = words_of(alloc, verdict)?;
    format!(in alloc; "check {words}\n")
}
