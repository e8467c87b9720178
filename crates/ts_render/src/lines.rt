//! The rows of a page, as lines that a person reads.

ghost use Rattle.std.specs.Prelude.{◌≡◌, ◌++◌, IfOk, OnOk, codes, map, option_map, string_bytes};
ghost use Rattle.std.specs.Prelude.{unwrap_or};
ghost use Rattle.std.specs.Fmt.{decimal};
ghost use Rattle.serde_json.specs.Written.{compact_text};
ghost use Rattle.ts_json.specs.Members.{object_of};
ghost use Rattle.ts_line.specs.Lines.{kept};
ghost use Rattle.ts_render.specs.RowLines.{anchor_words, command_words, crl_word, crl_words};
ghost use Rattle.ts_render.specs.RowLines.{extent_words, listed, part, purposes_words, row_words};
ghost use Rattle.ts_render.specs.RowLines.{set_words, size_words};
ghost use Rattle.ts_render.specs.RowMembers.{members_of_row};

use crate::members::row_members;
use crate::rows::{AnchorFields, CommandFields, CrlFields, PurposeFields, RowFields};
use std::alloc::{AllocError, Global};
use ts_json::members_text;
use ts_line::Line;

/// Writes a text, or a question mark where there is none.
fn write_known(line: &mut Line, text: Option<&str>) -> Result<(), AllocError>
    ensures { OnOk result (line.new ≡ line.old
        ++ kept (unwrap_or (option_map (λ word. word.now) text.entry) (codes "?"))) }
{
    line.shown(text.unwrap_or("?").as_bytes())
}

/// Writes a number in decimal.
#[tactic(auto, using(ts_line::proofs::Plain::kept_decimal))]
fn write_number(line: &mut Line, number: u64) -> Result<(), AllocError>
    ensures { OnOk result (line.new ≡ line.old ++ kept (decimal number)) }
{
    line.number(number)
}

/// Writes texts, a comma between each two; `none` where there are none.
fn write_texts(line: &mut Line, texts: &[String]) -> Result<(), AllocError>
    ensures { OnOk result (line.new ≡ line.old
        ++ kept (listed (map string_bytes texts.now))) }
{
    let Some((first, others)) = texts.split_first() else {
        return line.shown(b"none");
    };
    line.shown(first.as_bytes())?;
    for text in others {
        line.shown(b",")?;
        line.shown(text.as_bytes())?;
    }
    Ok(())
}

/// Writes purposes: `any`, `none`, or each in dotted form.
fn write_purposes(line: &mut Line, purposes: &PurposeFields) -> Result<(), AllocError>
    ensures { OnOk result (line.new ≡ line.old ++ kept (purposes_words purposes.now)) }
{
    match purposes {
        PurposeFields::Any => line.shown(b"any"),
        PurposeFields::These(texts) => write_texts(line, texts),
        PurposeFields::Unknown => line.shown(b"?"),
    }
}

/// Writes the line of an anchor: its id, its purposes, its name.
fn write_anchor(line: &mut Line, row: &AnchorFields) -> Result<(), AllocError>
    ensures { OnOk result (line.new ≡ line.old ++ kept (anchor_words row.now)) }
{
    line.shown(b"anchor ")?;
    line.shown(row.id.as_bytes())?;
    line.shown(b" ")?;
    write_purposes(line, &row.purposes)?;
    line.shown(b" ")?;
    line.shown(row.subject.as_bytes())
}

/// Writes a word and a text between spaces, where there is one.
fn write_part(line: &mut Line, word: &[u8], text: &Option<String>) -> Result<(), AllocError>
    ensures { OnOk result (line.new ≡ line.old
        ++ kept (part word.now (option_map string_bytes text.now))) }
{
    let Some(text) = text else {
        return Ok(());
    };
    line.shown(b" ")?;
    line.shown(word)?;
    line.shown(b" ")?;
    line.shown(text.as_bytes())
}

/// The word that the line of a CRL begins with.
fn crl_word(row: &CrlFields) -> &'static str
    ensures { result.now ≡ crl_word row.now }
{
    match row.base {
        Some(_) => "delta ",
        None => "crl ",
    }
}

/// Writes how many entries and octets a CRL has, what it covers where it says so, its issuer.
fn write_extent(line: &mut Line, row: &CrlFields) -> Result<(), AllocError>
    ensures { OnOk result (line.new ≡ line.old ++ kept (extent_words row.now)) }
{
    line.shown(b" entries ")?;
    write_number(line, row.entries)?;
    line.shown(b" octets ")?;
    write_number(line, row.octets)?;
    write_part(line, b"scope", &row.scope)?;
    line.shown(b" ")?;
    line.shown(row.issuer.as_bytes())
}

/// Writes the line of a CRL: its id, its numbers, its times, how many entries and octets it has,
/// what it covers where it says so, its issuer.
fn write_crl(line: &mut Line, row: &CrlFields) -> Result<(), AllocError>
    ensures { OnOk result (line.new ≡ line.old ++ kept (crl_words row.now)) }
{
    line.shown(crl_word(row).as_bytes())?;
    line.shown(row.id.as_bytes())?;
    write_part(line, b"number", &row.number)?;
    write_part(line, b"base", &row.base)?;
    write_part(line, b"from", &row.this_update)?;
    write_part(line, b"to", &row.next_update)?;
    write_extent(line, row)
}

/// Writes the purposes that a command sets, if it does.
fn write_set(line: &mut Line, purposes: &Option<PurposeFields>) -> Result<(), AllocError>
    ensures { OnOk result (line.new ≡ line.old ++ kept (set_words purposes.now)) }
{
    let Some(purposes) = purposes else {
        return Ok(());
    };
    line.shown(b" for ")?;
    write_purposes(line, purposes)
}

/// Writes how many octets a command loads, if it does.
fn write_size(line: &mut Line, octets: u64) -> Result<(), AllocError>
    ensures { OnOk result (line.new ≡ line.old ++ kept (size_words octets)) }
{
    if octets == 0 {
        return Ok(());
    }
    line.shown(b" octets ")?;
    write_number(line, octets)
}

/// Writes the line of a command: its kind, what it came to, its id, what it is about, the purposes
/// that it sets, how many octets it loads.
fn write_command(line: &mut Line, row: &CommandFields) -> Result<(), AllocError>
    ensures { OnOk result (line.new ≡ line.old ++ kept (command_words row.now)) }
{
    write_known(line, row.kind)?;
    line.shown(b" ")?;
    match &row.outcome {
        Some(outcome) => line.shown(outcome.as_bytes())?,
        None => line.shown(b"?")?,
    }
    line.shown(b" id ")?;
    line.shown(row.id.as_bytes())?;
    write_part(line, b"about", &row.about)?;
    write_set(line, &row.purposes)?;
    write_size(line, row.octets)
}

/// Writes what a row says; of a command its position first.
///
/// # Errors
///
/// Out of memory.
pub fn write_row(line: &mut Line, place: u32, row: &RowFields) -> Result<(), AllocError>
    ensures { OnOk result (line.new ≡ line.old ++ kept (row_words place row.now)) }
{
    match row {
        RowFields::Anchor(row) => write_anchor(line, row),
        RowFields::Crl(row) => write_crl(line, row),
        RowFields::Command(row) => {
            write_number(line, u64::from(place))?;
            line.shown(b" ")?;
            write_command(line, row)
        }
    }
}

/// A row as the text of a JSON object, without spaces, of a command with its position.
///
/// # Errors
///
/// Out of memory.
pub fn row_text(alloc: Global, place: u32, row: RowFields) -> Result<String, AllocError>
    ensures { IfOk result (λ text. string_bytes text
        ≡ compact_text (object_of (members_of_row place row))) }
{
    let members = row_members(alloc, u64::from(place), row)?;
    members_text(alloc, &members)
}
