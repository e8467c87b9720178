//! The chain that `trustd verify` is to judge.

ghost use Rattle.std.specs.Prelude.{IfOk, codes};
ghost use Rattle.clap.specs.Matches.{found_of};
ghost use Rattle.clap.specs.Walk.{first_of, rows_of};
ghost use Rattle.ts_cli.specs.Given.{IsMomentOrNow};
ghost use Rattle.ts_cli.specs.Verifying.{IsVerify};

use crate::fault::{CommandFault, WrongValue};
use crate::matched::{is_set, optional_string_at, strings_at, value_at};
use crate::oids::oid_at;
use crate::question_words::policies_at;
use crate::values::moment_of;
use clap::ArgMatches;
use std::alloc::Global;
use ts_der::Oid;
use ts_question::Oids;

/// The words of `trustd verify`.
#[derive(Debug, Drop)]
pub struct VerifyWords {
    /// The files of trust anchors.
    pub anchors: Vec<String>,
    /// The files of CRLs.
    pub crls: Vec<String>,
    /// The files of the leaf and of the certificates between.
    pub certificates: Vec<String>,
    /// The moment, in seconds from 1970-01-01T00:00:00Z, if it is not now.
    pub moment: Option<i64>,
    /// The host name or IP address that the leaf is for.
    pub host: Option<String>,
    /// Whether a certificate is accepted whose status no CRL gives.
    pub soft: bool,
    /// Whether delta CRLs are used.
    pub deltas: bool,
    /// Whether a valid policy is wanted.
    pub explicit: bool,
    /// Whether policies are not mapped.
    pub nomap: bool,
    /// Whether anyPolicy stands for no other.
    pub noany: bool,
    /// The policies that the user accepts.
    pub policies: Oids,
    /// The purpose, if one is given.
    pub purpose: Option<Oid>,
    /// Whether the verdict is printed as JSON.
    pub json: bool,
}

/// The moment that is given, if it is not now.
fn moment_or_now(matches: &ArgMatches<'_>) -> Result<Option<i64>, CommandFault>
    ensures { IfOk result
        (IsMomentOrNow (first_of (codes "at") (rows_of (found_of matches.now)))) }
{
    let Some(text) = value_at(matches, "at") else {
        return Ok(None);
    };
    if text == "now" {
        return Ok(None);
    }
    match moment_of(text) {
        Some(moment) => Ok(Some(moment.0)),
        None => Err(CommandFault::Value(WrongValue::TimeOrNow)),
    }
}

/// The words of `trustd verify`.
pub(crate) fn verify_words(
    alloc: Global,
    matches: &ArgMatches<'_>,
) -> Result<VerifyWords, CommandFault>
    ensures { IfOk result (IsVerify (rows_of (found_of matches.now))) }
{
    let crls = strings_at(alloc, matches, "crl")?;
    let (soft, deltas) = (is_set(matches, "soft"), is_set(matches, "deltas"));
    if crls.is_empty() && (soft || deltas) {
        return Err(CommandFault::Value(WrongValue::Lists));
    }
    Ok(VerifyWords {
        anchors: strings_at(alloc, matches, "anchor")?,
        crls,
        certificates: strings_at(alloc, matches, "certificates")?,
        moment: moment_or_now(matches)?,
        host: optional_string_at(alloc, matches, "host")?,
        soft,
        deltas,
        explicit: is_set(matches, "explicit"),
        nomap: is_set(matches, "nomap"),
        noany: is_set(matches, "noany"),
        policies: policies_at(alloc, matches)?,
        purpose: oid_at(alloc, matches, "purpose")?,
        json: is_set(matches, "json"),
    })
}
