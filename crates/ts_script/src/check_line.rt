//! The `check` line: the verdict on the chain that it names.

ghost use Rattle.std.specs.Prelude.{◌≤◌, IfOk, IfErr, length, string_bytes};
ghost use Rattle.ts_script.specs.Known.{known_in};
ghost use Rattle.ts_script.specs.CheckLine.{IsVerdictText, RefusesCheck};

use crate::options::{MAX_POLICIES, Options};
use crate::script::LineFault;
use crate::symbols::Symbols;
use crate::verdict_text::print_verdict;
use crate::words::{SPACE, are_names, first_piece, is_name, moment_of, word_behind};
use std::alloc::{AllocError, Global};
use ts_cert::Cert;
use ts_der::OidRef;
use ts_path::{Anchor, Inputs, MAX_CHAIN, validate};
use ts_revoke::Crls;
use ts_sig::DigestCheck;
use ts_time::Moment;

/// What a `check` line asks.
#[derive(Drop)]
struct CheckWords<'a> {
    anchor: &'a [u8],
    moment: Moment,
    options: Options,
    /// The names of the chain, one or more.
    names: &'a [u8],
}

impl<'a> CheckWords<'a> {
    /// The words of a line.
    ///
    /// # Errors
    ///
    /// `Form` where they are not those of such a line.
    fn read(alloc: Global, line: &'a [u8]) -> Result<CheckWords<'a>, LineFault> {
        let Some((anchor, rest)) = word_behind(Some(line), b"check") else {
            return Err(LineFault::Form);
        };
        let Some((time, rest)) = word_behind(rest, b"at") else {
            return Err(LineFault::Form);
        };
        let (Some(moment), (options, Some(names))) = (
            moment_of(time),
            Options::read(alloc, rest, b"chain")?,
        ) else {
            return Err(LineFault::Form);
        };
        // Without a store there is no other k than none.
        if options.k.is_some() || !is_name(anchor) || !are_names(Some(names)) {
            return Err(LineFault::Form);
        }
        Ok(CheckWords {
            anchor,
            moment,
            options,
            names,
        })
    }
}

/// The certificates of these names. A name that has none is refused as `Name`.
fn chain_of<'a>(
    alloc: Global,
    known: &'a Symbols,
    names: &[u8],
) -> Result<Vec<Cert<'a>>, LineFault> {
    let mut chain = Vec::new(alloc);
    let mut rest = Some(names);
    while let Some(left) = rest {
        let (name, behind) = first_piece(left, SPACE);
        let Some(one) = known.find_cert(name) else {
            return Err(LineFault::Name);
        };
        chain.push(one.cert())?;
        rest = behind;
    }
    Ok(chain)
}

/// The inputs of a line with these options, of which purpose and policies are borrowed.
fn inputs_of<'x>(
    options: &Options,
    moment: Moment,
    purpose: Option<&'x [u8]>,
    policies: &'x [OidRef<'x>],
) -> Inputs<'x> {
    Inputs {
        moment,
        purpose,
        user_policies: policies,
        explicit_policy: options.explicit,
        inhibit_policy_mapping: options.nomap,
        inhibit_any_policy: options.noany,
        permitted_subtrees: &[],
        excluded_subtrees: &[],
        hard: options.hard,
        use_deltas: options.deltas,
    }
}

/// Judges a chain of 1 to [`MAX_CHAIN`] certificates under another as the anchor, without CRLs.
fn judge<'a>(
    alloc: Global,
    anchor: &Anchor<'a>,
    chain: &[Cert<'a>],
    options: &'a Options,
    moment: Moment,
) -> Result<String, AllocError>
    requires some { 1 ≤ length chain.now }
    requires few { length chain.now ≤ 16 }
    ensures { IfOk result (λ text. IsVerdictText (string_bytes text)) }
{
    let policies = options.policies(alloc)?;
    let purpose = options.purpose_octets();
    judge_by(alloc, anchor, chain, options, purpose, &policies, moment)
}

/// The same with the purpose and the policies of the options, borrowed.
fn judge_by<'a>(
    alloc: Global,
    anchor: &Anchor<'a>,
    chain: &[Cert<'a>],
    options: &Options,
    purpose: Option<&'a [u8]>,
    policies: &'a [OidRef<'a>],
    moment: Moment,
) -> Result<String, AllocError>
    requires some { 1 ≤ length chain.now }
    requires few { length chain.now ≤ 16 }
    ensures { IfOk result (λ text. IsVerdictText (string_bytes text)) }
{
    let inputs = inputs_of(options, moment, purpose, policies);
    let verdict = validate(alloc, anchor, chain, &inputs, &Crls::none(), &DigestCheck)?;
    print_verdict(alloc, &verdict)
}

/// Answers a `check` line.
pub fn answer_check(alloc: Global, known: &Symbols, line: &[u8]) -> Result<String, LineFault>
    ensures said { IfOk result (λ text. IsVerdictText (string_bytes text)) }
    ensures fault { IfErr result RefusesCheck }
{
    let words = match CheckWords::read(alloc, line) {
        Ok(words) => words,
        Err(LineFault::Memory) => return Err(LineFault::Memory),
        Err(_) => return Err(LineFault::Form),
    };
    let Some(anchor) = known.find_cert(words.anchor) else {
        return Err(LineFault::Name);
    };
    let chain = match chain_of(alloc, known, words.names) {
        Ok(chain) => chain,
        Err(LineFault::Memory) => return Err(LineFault::Memory),
        Err(_) => return Err(LineFault::Name),
    };
    if chain.is_empty() || chain.len() > MAX_CHAIN {
        return Err(LineFault::Limit);
    }
    if words.options.policies.len() > MAX_POLICIES {
        return Err(LineFault::Limit);
    }
    let anchor = Anchor::of(&anchor.cert());
    Ok(judge(alloc, &anchor, &chain, &words.options, words.moment)?)
}
