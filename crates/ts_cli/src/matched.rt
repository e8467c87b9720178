//! What a command line gave.

ghost use Rattle.std.specs.Prelude.{◌≡◌, ℕ, List, IfOk, Some, map, option_map, string_bytes, true};
ghost use Rattle.std.specs.List.{AllByRecursion};
ghost use Rattle.clap.specs.Matches.{found_of};
ghost use Rattle.clap.specs.Walk.{rows_of, first_of, all_of};
ghost use Rattle.ts_cli.specs.Values.{IsAddressed, NamesPeer};
ghost use Rattle.ts_cli.specs.Given.{IsNumberAt, IsNumberOr, all_at, is_set};

use crate::fault::{CommandFault, WrongValue};
use crate::values::{is_address, peer_of};
use clap::ArgMatches;
use std::alloc::{AllocError, Global};
use ts_literal::number_in;

/// The value of an argument, if it has one.
pub(crate) fn value_at<'a>(matches: &ArgMatches<'a>, id: &str) -> Option<&'a str>
    ensures { option_map (λ text. text.now) result
        ≡ first_of id.now (rows_of (found_of matches.now)) }
{
    matches.get_str(id)
}

/// The value of an argument.
pub(crate) fn text_at<'a>(matches: &ArgMatches<'a>, id: &str) -> Result<&'a str, CommandFault>
    ensures { IfOk result (λ text. first_of id.now (rows_of (found_of matches.now))
        ≡ Some text.now) }
{
    match value_at(matches, id) {
        Some(text) => Ok(text),
        None => Err(CommandFault::Value(WrongValue::Missing)),
    }
}

/// The same, kept.
pub(crate) fn string_at(
    alloc: Global,
    matches: &ArgMatches<'_>,
    id: &str,
) -> Result<String, CommandFault>
    ensures { IfOk result (λ text. first_of id.now (rows_of (found_of matches.now))
        ≡ Some (string_bytes text)) }
{
    let text = text_at(matches, id)?;
    Ok(String::from_str(alloc, text)?)
}

/// The value of an argument that may not be given, kept.
pub(crate) fn optional_string_at(
    alloc: Global,
    matches: &ArgMatches<'_>,
    id: &str,
) -> Result<Option<String>, AllocError>
    ensures { IfOk result (λ text. first_of id.now (rows_of (found_of matches.now))
        ≡ option_map string_bytes text) }
{
    match value_at(matches, id) {
        Some(text) => Ok(Some(String::from_str(alloc, text)?)),
        None => Ok(None),
    }
}

/// The address that an argument gives, kept.
pub(crate) fn address_at(
    alloc: Global,
    matches: &ArgMatches<'_>,
    id: &str,
) -> Result<String, CommandFault>
    ensures given { IfOk result (λ text. first_of id.now (rows_of (found_of matches.now))
        ≡ Some (string_bytes text)) }
    ensures address { IfOk result (λ text. IsAddressed (string_bytes text)) }
{
    let text = text_at(matches, id)?;
    if !is_address(text) {
        return Err(CommandFault::Value(WrongValue::Address));
    }
    Ok(String::from_str(alloc, text)?)
}

/// The number that an argument gives, from `least` to `most`.
pub(crate) fn number_at(
    matches: &ArgMatches<'_>,
    id: &str,
    least: u32,
    most: u32,
    wrong: WrongValue,
) -> Result<u32, CommandFault>
    ensures { IfOk result (IsNumberAt id.now (rows_of (found_of matches.now)) least most) }
{
    let text = text_at(matches, id)?;
    match number_in(text, least, most) {
        Some(number) => Ok(number),
        None => Err(CommandFault::Value(wrong)),
    }
}

/// The number that an argument gives, from `least` to `most`; where it gives none, the default.
pub(crate) fn number_or(
    matches: &ArgMatches<'_>,
    id: &str,
    least: u32,
    most: u32,
    absent: u32,
    wrong: WrongValue,
) -> Result<u32, CommandFault>
    ensures { IfOk result (IsNumberOr id.now (rows_of (found_of matches.now)) least most absent) }
{
    let Some(text) = value_at(matches, id) else {
        return Ok(absent);
    };
    match number_in(text, least, most) {
        Some(number) => Ok(number),
        None => Err(CommandFault::Value(wrong)),
    }
}

/// Whether a flag is set.
pub(crate) fn is_set(matches: &ArgMatches<'_>, id: &str) -> bool
    ensures { result ≡ is_set id.now (rows_of (found_of matches.now)) }
{
    match value_at(matches, id) {
        Some(text) => text == "true",
        None => false,
    }
}

/// All values of an argument.
pub(crate) fn values_at<'m, 'a>(matches: &'m ArgMatches<'a>, id: &str) -> Option<&'m [&'a str]>
    ensures { option_map (λ texts. map (λ text. text.now) texts.now) result
        ≡ all_of id.now (rows_of (found_of matches.now)) }
{
    matches.get_strs(id)
}

/// Texts, kept.
fn strings(alloc: Global, texts: &[&str]) -> Result<Vec<String>, AllocError>
    ensures { IfOk result (λ strings. map string_bytes strings.items
        ≡ map (λ text. text.now) texts.now) }
{
    let mut strings = Vec::new(alloc);
    for text in texts {
        strings.push(String::from_str(alloc, text)?)?;
    }
    Ok(strings)
}

/// All values of an argument, kept.
pub(crate) fn strings_at(
    alloc: Global,
    matches: &ArgMatches<'_>,
    id: &str,
) -> Result<Vec<String>, AllocError>
    ensures { IfOk result (λ strings. map string_bytes strings.items
        ≡ all_at id.now (rows_of (found_of matches.now))) }
{
    match values_at(matches, id) {
        Some(texts) => strings(alloc, texts),
        None => Ok(Vec::new(alloc)),
    }
}

/// Whether each of these names a peer.
pub(crate) fn are_peers(texts: &[String]) -> bool
    ensures { result ≡ true → AllByRecursion NamesPeer (map string_bytes texts.now) }
{
    for text in texts {
        if peer_of(text.as_str()).is_none() {
            return false;
        }
    }
    true
}

/// Whether each of these is an address.
pub(crate) fn are_addresses(texts: &[String]) -> bool
    ensures { result ≡ true → AllByRecursion IsAddressed (map string_bytes texts.now) }
{
    for text in texts {
        if !is_address(text.as_str()) {
            return false;
        }
    }
    true
}
