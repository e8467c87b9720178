//! Questions are written.

ghost use Rattle.std.specs.Prelude.{◌≡◌, ◌≤◌, ◌<◌, ◌^◌, ◌++◌, ◌∷◌, ◌+◌, ◌*◌, cond, length, map};
ghost use Rattle.std.specs.Prelude.{nat_le, is_some, true, OnOk};
ghost use Rattle.std.specs.List.{flat_map, list_all};
ghost use Rattle.ts_codec.specs.Parts.{blob8, blob16, blob32, optional};
ghost use Rattle.std.specs.Int.{to_be_bytes, cast_unsigned, w32, w64};
ghost use Rattle.ts_question.specs.Question.{flags_octet, is_position_if_any, are_subtrees};
ghost use Rattle.ts_question.specs.Question.{are_terms};
ghost use Rattle.ts_question.specs.Question.{are_certificates, is_target, policies_encoding};
ghost use Rattle.ts_question.specs.Question.{subtrees_encoding, certificates_encoding};
ghost use Rattle.ts_question.specs.Question.{terms_encoding, question_kind, target_encoding};

use crate::lists::{OctetStrings, Oids};
use crate::question::Target;
use crate::terms::{Flags, Terms};
use std::alloc::AllocError;
use ts_codec::writing::{push_blob16, push_blob32, push_number32, push_oid, push_oids};
use ts_der::Oid;

/// Writes an octet of the number of policies, and the contents octets of each.
fn push_policies(out: &mut Vec<u8>, policies: &Oids) -> Result<(), AllocError>
    requires { length policies.now ≤ 32 }
    ensures { OnOk result (out.new.items ≡ out.old.items ++ policies_encoding policies.now) }
{
    let policies = policies.as_slice();
    out.push(policies.len() as u8)?;
    push_oids(out, policies)
}

/// Writes each subtree behind its length in two octets.
fn push_subtrees_of(out: &mut Vec<u8>, subtrees: &[Vec<u8>]) -> Result<(), AllocError>
    requires { list_all (λ s. nat_le (length s) 65535) (map (λ s. s.items) subtrees.now) ≡ true }
    ensures { OnOk result (out.new.items
        ≡ out.old.items ++ flat_map blob16 (map (λ s. s.items) subtrees.now)) }
{
    for subtree in subtrees {
        push_blob16(out, subtree.as_slice())?;
    }
    Ok(())
}

/// Writes two octets of the number of subtrees, and each behind its length.
pub(crate) fn push_subtrees(out: &mut Vec<u8>, subtrees: &OctetStrings) -> Result<(), AllocError>
    requires { are_subtrees subtrees.now ≡ true }
    ensures { OnOk result (out.new.items ≡ out.old.items ++ subtrees_encoding subtrees.now) }
{
    out.extend_from_slice(&(subtrees.len() as u16).to_be_bytes())?;
    push_subtrees_of(out, subtrees.as_slice())
}

/// Writes each certificate behind its length in four octets.
fn push_certificates_of(out: &mut Vec<u8>, certificates: &[Vec<u8>]) -> Result<(), AllocError>
    requires { list_all (λ c. nat_le (length c) 65536) (map (λ c. c.items) certificates.now)
        ≡ true }
    ensures { OnOk result (out.new.items
        ≡ out.old.items ++ flat_map blob32 (map (λ c. c.items) certificates.now)) }
{
    for certificate in certificates {
        push_blob32(out, certificate.as_slice())?;
    }
    Ok(())
}

/// Writes an octet of the number of certificates, and each behind its length.
fn push_certificates(out: &mut Vec<u8>, certificates: &OctetStrings) -> Result<(), AllocError>
    requires { are_certificates 33 certificates.now ≡ true }
    ensures { OnOk result (out.new.items
        ≡ out.old.items ++ certificates_encoding certificates.now) }
{
    out.push(certificates.len() as u8)?;
    push_certificates_of(out, certificates.as_slice())
}

/// A bit, and the number of the bits above it.
fn above(bit: bool, others: u8) -> u8
    requires { others < 128 }
    ensures { result ≡ cond bit 1 0 + 2 * others }
{
    u8::from(bit) + 2 * others
}

/// The flags octet, which also says whether k and a purpose are there.
fn octet_of(flags: Flags, k: bool, purpose: bool) -> u8
    ensures { result ≡ flags_octet flags k purpose }
{
    let deltas = above(flags.use_deltas, 0);
    let hard = above(flags.hard, above(k, above(purpose, deltas)));
    above(
        flags.explicit_policy,
        above(
            flags.inhibit_policy_mapping,
            above(flags.inhibit_any_policy, hard),
        ),
    )
}

/// Writes k in four octets, where it is there.
fn push_position(out: &mut Vec<u8>, k: Option<u32>) -> Result<(), AllocError>
    ensures { OnOk result (out.new.items ≡ out.old.items ++ optional (to_be_bytes w32) k) }
{
    if let Some(k) = k {
        push_number32(out, k)?;
    }
    Ok(())
}

/// Writes the purpose behind its length, where it is there.
fn push_purpose(out: &mut Vec<u8>, purpose: &Option<Oid>) -> Result<(), AllocError>
    ensures { OnOk result (out.new.items ≡ out.old.items ++ optional blob8 purpose.now) }
{
    if let Some(oid) = purpose {
        push_oid(out, oid)?;
    }
    Ok(())
}

/// Writes the moment, the flags, k and the purpose.
fn push_inputs(out: &mut Vec<u8>, terms: &Terms) -> Result<(), AllocError>
    ensures { OnOk result (out.new.items
        ≡ out.old.items ++ (to_be_bytes w64 (cast_unsigned w64 terms.now.moment)
        ++ (flags_octet terms.now.flags (is_some terms.now.k) (is_some terms.now.purpose)
        ∷ (optional (to_be_bytes w32) terms.now.k ++ optional blob8 terms.now.purpose)))) }
{
    out.extend_from_slice(&terms.moment.to_be_bytes())?;
    let flags = octet_of(terms.flags, terms.k.is_some(), terms.purpose.is_some());
    out.push(flags)?;
    push_position(out, terms.k)?;
    push_purpose(out, &terms.purpose)?;
    Ok(())
}

/// Writes the policies and the subtrees.
fn push_lists(out: &mut Vec<u8>, terms: &Terms) -> Result<(), AllocError>
    requires { are_terms terms.now ≡ true }
    ensures { OnOk result (out.new.items
        ≡ out.old.items ++ (policies_encoding terms.now.user_policies
        ++ (subtrees_encoding terms.now.permitted_subtrees
        ++ subtrees_encoding terms.now.excluded_subtrees))) }
{
    push_policies(out, &terms.user_policies)?;
    push_subtrees(out, &terms.permitted_subtrees)?;
    push_subtrees(out, &terms.excluded_subtrees)?;
    Ok(())
}

/// Writes the terms of a question.
pub(crate) fn push_terms(out: &mut Vec<u8>, terms: &Terms) -> Result<(), AllocError>
    requires { are_terms terms.now ≡ true }
    ensures { OnOk result (out.new.items ≡ out.old.items ++ terms_encoding terms.now) }
{
    push_inputs(out, terms)?;
    push_lists(out, terms)?;
    Ok(())
}

/// The kind of a question.
pub(crate) fn kind_of(target: &Target) -> u8
    ensures { result ≡ question_kind target.now }
{
    match target {
        Target::Chain { .. } => 1,
        Target::Search { .. } => 2,
        Target::Store { .. } => 3,
        Target::Log { .. } => 4,
    }
}

/// Writes the target of a question.
pub(crate) fn push_target(out: &mut Vec<u8>, target: &Target) -> Result<(), AllocError>
    requires { is_target target.now ≡ true }
    ensures { OnOk result (out.new.items ≡ out.old.items ++ target_encoding target.now) }
{
    match target {
        Target::Chain {
            anchor,
            certificates,
        } => {
            out.extend_from_slice(anchor)?;
            push_certificates(out, certificates)?;
        }
        Target::Search { certificates } => push_certificates(out, certificates)?,
        Target::Store { from } | Target::Log { from } => push_number32(out, *from)?,
    }
    Ok(())
}
