//! What `trustd sync` is to make a store hold.

ghost use Rattle.std.specs.Prelude.{IfOk};
ghost use Rattle.clap.specs.Matches.{found_of};
ghost use Rattle.clap.specs.Walk.{rows_of};
ghost use Rattle.ts_cli.specs.Syncing.{IsSync};

use crate::fault::{CommandFault, WrongValue};
use crate::matched::{is_set, number_or, strings_at};
use crate::reach::{Reach, reach_at};
use clap::ArgMatches;
use std::alloc::Global;

/// The words of `trustd sync`.
#[derive(Debug, Drop)]
pub struct SyncWords {
    /// The node, and the key that it is shown.
    pub reach: Reach,
    /// The files and folders of trust anchors; none to leave the anchors as they are.
    pub anchors: Vec<String>,
    /// Whether a certificate of these that breaks a rule is passed over.
    pub pass_over: bool,
    /// The files and folders of CRLs; none to leave the CRLs as they are.
    pub crls: Vec<String>,
    /// The files of certificates, beside the anchors, of which one may have signed a CRL.
    pub issuers: Vec<String>,
    /// Whether CRLs are loaded without a check.
    pub unchecked: bool,
    /// Whether the steps are printed alone.
    pub dry_run: bool,
    /// For how many seconds to wait until a command is chosen.
    pub wait: u32,
}

/// The words of `trustd sync`.
pub(crate) fn sync_words(alloc: Global, matches: &ArgMatches<'_>) -> Result<SyncWords, CommandFault>
    ensures { IfOk result (IsSync (rows_of (found_of matches.now))) }
{
    let anchors = strings_at(alloc, matches, "anchors")?;
    let crls = strings_at(alloc, matches, "crls")?;
    if anchors.is_empty() && crls.is_empty() {
        return Err(CommandFault::Value(WrongValue::Material));
    }
    Ok(SyncWords {
        reach: reach_at(alloc, matches)?,
        anchors,
        pass_over: is_set(matches, "pass-over"),
        crls,
        issuers: strings_at(alloc, matches, "issuer")?,
        unchecked: is_set(matches, "unchecked"),
        dry_run: is_set(matches, "dry-run"),
        wait: number_or(matches, "wait", 1, 3600, 10, WrongValue::Wait)?,
    })
}
