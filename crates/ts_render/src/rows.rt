//! The fields of the rows of a page.

ghost use Rattle.std.specs.Prelude.{◌≡◌, ℕ, List, IfOk, MatchOption, map, option_map, string_bytes};
ghost use Rattle.ts_question.specs.RowView.{anchor_line, command_line, crl_line};
ghost use Rattle.ts_render.specs.Purposes.{ArePurposes, AreSet, AreTold, AreToldBy, setting};
ghost use Rattle.ts_render.specs.Rows.{IsAnchorRow, IsCommandRow, IsCrlRow, IsNoRow, IsRow};
ghost use Rattle.ts_render.specs.Rows.{words_of};
ghost use Rattle.ts_line.specs.Names.{dotted_form};

use crate::outcome::{kind_word, outcome_of};
use crate::text::{content_text, hex_or_none, moment_text, scope_text};
use std::alloc::{AllocError, Global};
use ts_command::{Command, Purposes};
use ts_der::Oid;
use ts_question::{AnchorRow, CommandRow, CrlRow};

/// What a trust anchor is for.
#[derive(Debug, Drop)]
pub enum PurposeFields {
    /// For any purpose.
    Any,
    /// For these, in dotted form.
    These(Vec<String>),
    /// The row has octets that no command may set, as where it was cut.
    Unknown,
}

/// A trust anchor.
#[derive(Debug, Drop)]
pub struct AnchorFields {
    /// The SHA-256 of its certificate, in hexadecimal digits.
    pub id: String,
    /// Its subject, in printable characters.
    pub subject: String,
    pub purposes: PurposeFields,
}

/// A CRL: a delta CRL where it has a base.
#[derive(Debug, Drop)]
pub struct CrlFields {
    /// Its SHA-256, in hexadecimal digits.
    pub id: String,
    /// Its issuer, in printable characters.
    pub issuer: String,
    /// Its CRL number, in hexadecimal digits.
    pub number: Option<String>,
    /// Its base CRL number, in hexadecimal digits.
    pub base: Option<String>,
    /// What it covers, in printable characters, where it says so.
    pub scope: Option<String>,
    /// When it was issued, as 20260131120000Z.
    pub this_update: Option<String>,
    /// By when the next one is issued.
    pub next_update: Option<String>,
    /// The same, in seconds from 1970-01-01T00:00:00Z.
    pub next_seconds: i64,
    /// How many entries it has.
    pub entries: u64,
    /// How many octets it has.
    pub octets: u64,
}

/// A command.
#[derive(Debug, Drop)]
pub struct CommandFields {
    /// The id that its client chose, in hexadecimal digits.
    pub id: String,
    /// Its kind, as `trustd command` has it.
    pub kind: Option<&'static str>,
    /// What it came to.
    pub outcome: Option<String>,
    /// The id of the anchor or the CRL that it is about, in hexadecimal digits.
    pub about: Option<String>,
    /// The purposes that it sets.
    pub purposes: Option<PurposeFields>,
    /// How many octets the certificate or the CRL has that it loads.
    pub octets: u64,
}

/// A row of a page.
#[derive(Debug, Drop)]
pub enum RowFields {
    Anchor(AnchorFields),
    Crl(CrlFields),
    Command(CommandFields),
}

/// Object identifiers in dotted form.
pub(crate) fn all_dotted(alloc: Global, oids: &[Oid]) -> Result<Vec<String>, AllocError>
    ensures { IfOk result (λ texts. map string_bytes texts.items ≡ map dotted_form oids.now) }
{
    let mut texts = Vec::new(alloc);
    for oid in oids {
        texts.push(format!(in alloc; "{oid}")?)?;
    }
    Ok(texts)
}

/// The octets of a command that sets these purposes.
fn setting(alloc: Global, octets: &[u8]) -> Result<Vec<u8>, AllocError>
    ensures { IfOk result (λ command. command.items ≡ setting octets.now) }
{
    let mut command = Vec::new(alloc);
    command.extend_from_slice(&[0; 16])?;
    command.push(5)?;
    command.extend_from_slice(&[0; 32])?;
    command.extend_from_slice(octets)?;
    Ok(command)
}

/// The fields of purposes.
fn purpose_fields(alloc: Global, purposes: &Purposes) -> Result<PurposeFields, AllocError>
    ensures { IfOk result (AreTold purposes.now) }
{
    match purposes.oids() {
        None => Ok(PurposeFields::Any),
        Some(oids) => Ok(PurposeFields::These(all_dotted(alloc, oids)?)),
    }
}

/// The purposes that a command sets.
fn purposes_by(alloc: Global, command: &Command) -> Result<PurposeFields, AllocError>
    ensures { IfOk result (AreToldBy command.now) }
{
    match command {
        Command::SetPurposes { purposes, .. } => purpose_fields(alloc, purposes),
        _ => Ok(PurposeFields::Unknown),
    }
}

/// The purposes that octets are, as a command has them.
fn purposes_of(alloc: Global, octets: &[u8]) -> Result<PurposeFields, AllocError>
    ensures { IfOk result (ArePurposes octets.now) }
{
    let command = setting(alloc, octets)?;
    match Command::read(alloc, &command)? {
        Some(command) => purposes_by(alloc, &command),
        None => Ok(PurposeFields::Unknown),
    }
}

/// The purposes that a command sets, if it does.
fn purposes_set(alloc: Global, octets: &[u8]) -> Result<Option<PurposeFields>, AllocError>
    ensures { IfOk result (AreSet octets.now) }
{
    if octets.is_empty() {
        return Ok(None);
    }
    Ok(Some(purposes_of(alloc, octets)?))
}

/// The fields of an anchor.
fn anchor_fields(alloc: Global, row: &AnchorRow<'_>) -> Result<AnchorFields, AllocError>
    ensures { IfOk result (IsAnchorRow (anchor_line row.now)) }
{
    Ok(AnchorFields {
        id: hex::encode(alloc, row.id)?,
        subject: content_text(alloc, row.subject)?,
        purposes: purposes_of(alloc, row.purposes)?,
    })
}

/// The fields of a CRL.
fn crl_fields(alloc: Global, row: &CrlRow<'_>) -> Result<CrlFields, AllocError>
    ensures { IfOk result (IsCrlRow (crl_line row.now)) }
{
    Ok(CrlFields {
        id: hex::encode(alloc, row.id)?,
        issuer: content_text(alloc, row.issuer)?,
        number: hex_or_none(alloc, row.number)?,
        base: hex_or_none(alloc, row.base)?,
        scope: scope_text(alloc, row.scope)?,
        this_update: moment_text(alloc, row.this_update)?,
        next_update: moment_text(alloc, row.next_update)?,
        next_seconds: row.next_update,
        entries: u64::from(row.entries),
        octets: u64::from(row.size),
    })
}

/// What a row says that became of its command.
fn outcome_words(alloc: Global, row: &CommandRow<'_>) -> Result<Option<String>, AllocError>
    ensures { IfOk result (λ words. option_map string_bytes words
        ≡ words_of row.now.outcome row.now.detail) }
{
    match outcome_of(row.outcome, row.detail) {
        Some(outcome) => Ok(Some(format!(in alloc; "{outcome}")?)),
        None => Ok(None),
    }
}

/// The fields of a command.
fn command_fields(alloc: Global, row: &CommandRow<'_>) -> Result<CommandFields, AllocError>
    ensures { IfOk result (IsCommandRow (command_line row.now)) }
{
    Ok(CommandFields {
        id: hex::encode(alloc, row.id)?,
        kind: kind_word(row.kind),
        outcome: outcome_words(alloc, row)?,
        about: hex_or_none(alloc, row.about)?,
        purposes: purposes_set(alloc, row.purposes)?,
        octets: u64::from(row.size),
    })
}

/// The fields of the row that octets are. `None` exactly where they are none.
///
/// # Errors
///
/// Out of memory.
pub fn row_fields(alloc: Global, octets: &[u8]) -> Result<Option<RowFields>, AllocError>
    ensures { IfOk result (λ row. MatchOption row (IsNoRow octets.now) (IsRow octets.now)) }
{
    if let Some(row) = AnchorRow::read(octets)? {
        return Ok(Some(RowFields::Anchor(anchor_fields(alloc, &row)?)));
    }
    if let Some(row) = CrlRow::read(octets)? {
        return Ok(Some(RowFields::Crl(crl_fields(alloc, &row)?)));
    }
    match CommandRow::read(octets)? {
        Some(row) => Ok(Some(RowFields::Command(command_fields(alloc, &row)?))),
        None => Ok(None),
    }
}
