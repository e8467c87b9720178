//! The lines of a question.

use crate::command::subject_line;
use crate::entry::{moment_line, oid_line};
use crate::lines::Lines;
use std::alloc::AllocError;
use ts_question::{Flags, OctetStrings, Oids, Question, Target, Terms};

/// The line of the flags that are set, if any is.
fn flags_line(lines: &mut Lines, flags: Flags) -> Result<(), AllocError> {
    let mut line = lines.begin(0, "flags")?;
    let words = [
        (flags.explicit_policy, "explicit"),
        (flags.inhibit_policy_mapping, "nomap"),
        (flags.inhibit_any_policy, "noany"),
        (flags.hard, "hard"),
        (flags.use_deltas, "deltas"),
    ];
    for (is_set, word) in words {
        if is_set {
            line.word(word.as_bytes())?;
        }
    }
    lines.push(line)
}

/// The lines of the policies that the user accepts.
fn policy_lines(lines: &mut Lines, policies: &Oids) -> Result<(), AllocError> {
    for policy in policies.as_slice() {
        oid_line(lines, 0, "policy", policy.as_ref().content)?;
    }
    Ok(())
}

/// The lines of what is asked beside the certificates.
fn terms_lines(lines: &mut Lines, terms: &Terms) -> Result<(), AllocError> {
    moment_line(lines, 0, "moment", terms.moment)?;
    flags_line(lines, terms.flags)?;
    if let Some(k) = terms.k {
        lines.number(0, "k", u64::from(k))?;
    }
    if let Some(purpose) = &terms.purpose {
        oid_line(lines, 0, "purpose", purpose.as_ref().content)?;
    }
    policy_lines(lines, &terms.user_policies)?;
    lines.number(
        0,
        "permitted subtrees",
        terms.permitted_subtrees.len() as u64,
    )?;
    lines.number(0, "excluded subtrees", terms.excluded_subtrees.len() as u64)
}

/// The lines of certificates.
fn certificate_lines(lines: &mut Lines, certificates: &OctetStrings) -> Result<(), AllocError> {
    for certificate in certificates.as_slice() {
        subject_line(lines, 0, certificate.as_slice())?;
    }
    Ok(())
}

/// The lines of a question for a page, after so many rows.
fn page_lines(lines: &mut Lines, kind: &[u8], terms: &Terms, from: u32) -> Result<(), AllocError> {
    lines.entry(0, "kind", kind)?;
    if let Some(k) = terms.k {
        lines.number(0, "k", u64::from(k))?;
    }
    lines.number(0, "after rows", u64::from(from))
}

/// The lines of a question: what is asked, and the certificates.
pub(crate) fn question_lines(lines: &mut Lines, question: &Question) -> Result<(), AllocError> {
    match question.target() {
        Target::Chain {
            anchor,
            certificates,
        } => {
            lines.entry(0, "kind", b"chain")?;
            terms_lines(lines, question.terms())?;
            lines.hex(0, "anchor", anchor)?;
            certificate_lines(lines, certificates)
        }
        Target::Search { certificates } => {
            lines.entry(0, "kind", b"search")?;
            terms_lines(lines, question.terms())?;
            certificate_lines(lines, certificates)
        }
        Target::Store { from } => page_lines(lines, b"store", question.terms(), *from),
        Target::Log { from } => page_lines(lines, b"log", question.terms(), *from),
    }
}
