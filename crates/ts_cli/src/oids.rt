//! Object identifiers of words.

ghost use Rattle.std.specs.Prelude.{◌≡◌, List, IfOk, map, option_map, IsPermutation};
ghost use Rattle.clap.specs.Matches.{found_of};
ghost use Rattle.clap.specs.Walk.{rows_of, first_of};
ghost use Rattle.ts_cli.specs.Values.{IsDotted, AsWritten, written};
ghost use Rattle.ts_cli.specs.Given.{all_at};
ghost use Rattle.ts_cli.specs.Says.{ArePurposesOf};

use crate::fault::{CommandFault, WrongValue};
use crate::matched::{value_at, values_at};
use clap::ArgMatches;
use std::alloc::Global;
use ts_command::Purposes;
use ts_der::{Oid, OidTextError};

/// The object identifier of a dotted form.
fn oid_of(alloc: Global, text: &str) -> Result<Oid, CommandFault>
    ensures { IfOk result (IsDotted text.now) }
{
    match Oid::from_text(alloc, text) {
        Ok(oid) => Ok(oid),
        Err(OidTextError::Memory) => Err(CommandFault::Memory),
        Err(OidTextError::Form) => Err(CommandFault::Value(WrongValue::Oid)),
    }
}

/// The object identifiers of dotted forms.
fn oids_of(alloc: Global, texts: &[&str]) -> Result<Vec<Oid>, CommandFault>
    ensures { IfOk result (λ oids. map written oids.items ≡ map (λ text. text.now) texts.now) }
{
    let mut oids = Vec::new(alloc);
    for text in texts {
        oids.push(oid_of(alloc, text)?)?;
    }
    Ok(oids)
}

/// The object identifiers that an argument gives.
pub(crate) fn oids_at(
    alloc: Global,
    matches: &ArgMatches<'_>,
    id: &str,
) -> Result<Vec<Oid>, CommandFault>
    ensures { IfOk result (λ oids. map written oids.items
        ≡ all_at id.now (rows_of (found_of matches.now))) }
{
    match values_at(matches, id) {
        Some(texts) => oids_of(alloc, texts),
        None => Ok(Vec::new(alloc)),
    }
}

/// The object identifier that an argument gives, if it has one.
pub(crate) fn oid_at(
    alloc: Global,
    matches: &ArgMatches<'_>,
    id: &str,
) -> Result<Option<Oid>, CommandFault>
    ensures { IfOk result (AsWritten IsDotted (first_of id.now (rows_of (found_of matches.now)))) }
{
    match value_at(matches, id) {
        Some(text) => Ok(Some(oid_of(alloc, text)?)),
        None => Ok(None),
    }
}

/// These purposes, in their order; any where there are none.
pub(crate) fn purposes_of(oids: Vec<Oid>) -> Result<Purposes, CommandFault>
    ensures { IfOk result (ArePurposesOf oids.items) }
{
    if oids.is_empty() {
        return Ok(Purposes::any());
    }
    let mut sorted = oids;
    sorted.sort_by(|a, b| a.as_ref().content.cmp(b.as_ref().content))?;
    match Purposes::new(sorted) {
        Some(purposes) => Ok(purposes),
        None => Err(CommandFault::Value(WrongValue::Purposes)),
    }
}
