//! The question that `trustd question` is to write.

ghost use Rattle.std.specs.Prelude.{◌≡◌, ◌≤◌, ℤ, IfOk, codes, map, length, string_bytes};
ghost use Rattle.clap.specs.Matches.{found_of};
ghost use Rattle.clap.specs.Walk.{rows_of, first_of};
ghost use Rattle.ts_literal.specs.Literals.{IsNumberIn};
ghost use Rattle.ts_cli.specs.Values.{AsWritten, written};
ghost use Rattle.ts_cli.specs.Given.{IsMomentAt, all_at};
ghost use Rattle.ts_cli.specs.Says.{SaysQuestion, flags_in, AreTerms, AreFiles, IsSearched};

use crate::command_words::digest_at;
use crate::fault::{CommandFault, WrongValue};
use crate::matched::{is_set, string_at, strings_at, text_at, value_at};
use crate::oids::{oid_at, oids_at};
use crate::values::moment_of;
use clap::ArgMatches;
use std::alloc::Global;
use ts_der::Oid;
use ts_literal::number_in;
use ts_question::{Flags, MAX_CHAIN, MAX_POLICIES, MAX_POSITION, MAX_SEARCH, Oids};

/// The words of a question.
#[derive(Debug, Drop)]
pub struct QuestionWords {
    /// What is asked.
    pub subject: Subject,
    /// The certificates: of a chain from the anchor's side, of a search the leaf first.
    pub files: Vec<String>,
    /// What is asked beside the certificates.
    pub terms: TermWords,
}

/// What is asked.
#[derive(Clone, Copy, Debug, PartialEq, Eq)]
pub enum Subject {
    /// Whether a chain is valid.
    Chain {
        /// The id of the trust anchor.
        anchor: [u8; 32],
    },
    /// Whether there is a valid chain to a leaf.
    Search,
}

/// What is asked beside the certificates.
#[derive(Debug, Drop)]
pub struct TermWords {
    /// The moment, in seconds from 1970-01-01T00:00:00Z.
    pub moment: i64,
    /// What is set.
    pub flags: Flags,
    /// After how many commands the store is looked at, if it is given.
    pub k: Option<u32>,
    /// The policies that the user accepts.
    pub policies: Oids,
    /// The purpose, if one is given.
    pub purpose: Option<Oid>,
}

/// The moment that the argument `at` gives. It is refused where it is no time.
fn moment_at(matches: &ArgMatches<'_>) -> Result<i64, CommandFault>
    ensures { IfOk result (IsMomentAt (codes "at") (rows_of (found_of matches.now))) }
{
    let text = text_at(matches, "at")?;
    match moment_of(text) {
        Some(moment) => Ok(moment.0),
        None => Err(CommandFault::Value(WrongValue::Time)),
    }
}

/// After how many commands the store is looked at, if it is given.
pub(crate) fn position_at(matches: &ArgMatches<'_>) -> Result<Option<u32>, CommandFault>
    ensures { IfOk result (AsWritten (IsNumberIn 0 1000000)
        (first_of (codes "k") (rows_of (found_of matches.now)))) }
{
    let Some(text) = value_at(matches, "k") else {
        return Ok(None);
    };
    match number_in(text, 0, MAX_POSITION) {
        Some(number) => Ok(Some(number)),
        None => Err(CommandFault::Value(WrongValue::Position)),
    }
}

/// The flags that are set among the arguments.
fn flags_in(matches: &ArgMatches<'_>) -> Flags
    ensures { result ≡ flags_in (rows_of (found_of matches.now)) }
{
    Flags {
        explicit_policy: is_set(matches, "explicit"),
        inhibit_policy_mapping: is_set(matches, "nomap"),
        inhibit_any_policy: is_set(matches, "noany"),
        hard: is_set(matches, "hard"),
        use_deltas: is_set(matches, "deltas"),
    }
}

/// The policies that are given, at most 32.
pub(crate) fn policies_at(alloc: Global, matches: &ArgMatches<'_>) -> Result<Oids, CommandFault>
    ensures { IfOk result (λ oids.
        (map written oids ≡ all_at (codes "policy") (rows_of (found_of matches.now)))
        × (length oids ≤ 32)) }
{
    let oids = oids_at(alloc, matches, "policy")?;
    if oids.len() > MAX_POLICIES {
        return Err(CommandFault::Value(WrongValue::Policies));
    }
    Ok(Oids::new(oids))
}

/// The terms of a question that the arguments give.
fn terms_at(alloc: Global, matches: &ArgMatches<'_>) -> Result<TermWords, CommandFault>
    ensures { IfOk result (AreTerms (rows_of (found_of matches.now))) }
{
    Ok(TermWords {
        moment: moment_at(matches)?,
        flags: flags_in(matches),
        k: position_at(matches)?,
        policies: policies_at(alloc, matches)?,
        purpose: oid_at(alloc, matches, "purpose")?,
    })
}

/// The files of a chain.
fn chain_files(alloc: Global, matches: &ArgMatches<'_>) -> Result<Vec<String>, CommandFault>
    ensures { IfOk result (λ files. AreFiles 16
        (all_at (codes "certificates") (rows_of (found_of matches.now)))
        (map string_bytes files.items)) }
{
    let files = strings_at(alloc, matches, "certificates")?;
    if files.is_empty() || files.len() > MAX_CHAIN {
        return Err(CommandFault::Value(WrongValue::Certificates));
    }
    Ok(files)
}

/// The files of a search.
fn search_files(alloc: Global, matches: &ArgMatches<'_>) -> Result<Vec<String>, CommandFault>
    ensures { IfOk result (λ files. IsSearched (rows_of (found_of matches.now))
        (map string_bytes files.items)) }
{
    let leaf = string_at(alloc, matches, "leaf")?;
    let mut files = strings_at(alloc, matches, "pool")?;
    if files.len() >= MAX_SEARCH {
        return Err(CommandFault::Value(WrongValue::Certificates));
    }
    files.insert(0, leaf)?;
    Ok(files)
}

/// The question that `trustd question chain` asks for.
fn chain(alloc: Global, matches: &ArgMatches<'_>) -> Result<QuestionWords, CommandFault>
    ensures { IfOk result (SaysQuestion (codes "chain") (rows_of (found_of matches.now))) }
{
    let anchor = digest_at(matches, "anchor")?;
    Ok(QuestionWords {
        subject: Subject::Chain { anchor },
        files: chain_files(alloc, matches)?,
        terms: terms_at(alloc, matches)?,
    })
}

/// The question that `trustd question search` asks for.
fn search(alloc: Global, matches: &ArgMatches<'_>) -> Result<QuestionWords, CommandFault>
    ensures { IfOk result (SaysQuestion (codes "search") (rows_of (found_of matches.now))) }
{
    Ok(QuestionWords {
        subject: Subject::Search,
        files: search_files(alloc, matches)?,
        terms: terms_at(alloc, matches)?,
    })
}

/// The question that a subcommand of `trustd question` says.
pub(crate) fn question_named(
    alloc: Global,
    name: &str,
    matches: &ArgMatches<'_>,
) -> Result<QuestionWords, CommandFault>
    ensures { IfOk result (SaysQuestion name.now (rows_of (found_of matches.now))) }
{
    match name {
        "chain" => chain(alloc, matches),
        "search" => search(alloc, matches),
        _ => Err(CommandFault::Value(WrongValue::Missing)),
    }
}
