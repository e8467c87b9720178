//! The commands that a store took.

ghost use Rattle.std.specs.Prelude.{◌≡◌, ◌≤◌, length, map, IfOk};
ghost use Rattle.ts_question.specs.Rows.{command_encoding};
ghost use Rattle.ts_question.specs.RowView.{command_line};
ghost use Rattle.ts_listing.specs.Listing.{narrow};
ghost use Rattle.ts_listing.specs.Log.{about_of, command_row, detail_of, kind_of, outcome_code};
ghost use Rattle.ts_listing.specs.Log.{purposes_set, size_of};
ghost use Rattle.ts_listing.specs.Page.{page};
ghost use Rattle.ts_listing.specs.View.{about_in, line_in};

use crate::digests::{is_command_id, is_digest};
use crate::page::{MAX_ROWS, cut, narrow, window};
use crate::purposes::purposes_octets;
use std::alloc::{AllocError, Global};
use ts_command::{Command, Outcome};
use ts_question::{CommandRow, OctetStrings, Reply};
use ts_store::digest;

/// A command that a store took, and what it came to, without what it loads.
#[derive(Debug, Drop)]
pub struct Entry {
    pub(crate) id: [u8; 16],
    pub(crate) kind: u8,
    pub(crate) size: u32,
    pub(crate) about: Option<[u8; 32]>,
    pub(crate) purposes: Vec<u8>,
    pub(crate) outcome: u8,
    pub(crate) detail: u32,
}

/// The octet of a command's kind.
fn kind_of(command: &Command) -> u8
    ensures { result ≡ kind_of command.now }
{
    match command {
        Command::AddAnchor { .. } => 1,
        Command::WithdrawAnchor { .. } => 2,
        Command::LoadCrl { .. } => 3,
        Command::DropCrl { .. } => 4,
        Command::SetPurposes { .. } => 5,
        Command::Noop { .. } => 6,
    }
}

/// How many octets the certificate or the CRL of a command has.
fn size_of(command: &Command) -> u32
    ensures { result ≡ size_of command.now }
{
    match command {
        Command::AddAnchor { certificate, .. } => narrow(certificate.as_slice().len()),
        Command::LoadCrl { crl, .. } => narrow(crl.as_slice().len()),
        _ => 0,
    }
}

/// The id of the anchor or of the CRL that a command is about.
fn about_of(command: &Command) -> Option<[u8; 32]>
    ensures { about_in result ≡ about_of command.now }
{
    match command {
        Command::AddAnchor { certificate, .. } => Some(digest(certificate.as_slice())),
        Command::LoadCrl { crl, .. } => Some(digest(crl.as_slice())),
        Command::WithdrawAnchor { anchor, .. } | Command::SetPurposes { anchor, .. } => {
            Some(*anchor)
        }
        Command::DropCrl { crl, .. } => Some(*crl),
        Command::Noop { .. } => None,
    }
}

/// The purposes that a command sets, as it writes them; none where it sets none.
///
/// # Errors
///
/// Out of memory.
pub fn purposes_of(alloc: Global, command: &Command) -> Result<Vec<u8>, AllocError>
    ensures { IfOk result (λ octets. octets.items ≡ purposes_set command.now) }
{
    match command {
        Command::SetPurposes { purposes, .. } => purposes_octets(alloc, purposes),
        _ => Ok(Vec::new(alloc)),
    }
}

/// The code of an outcome: 0 applied, 1 repeated, 2 refused.
fn outcome_code(outcome: Outcome) -> u8
    ensures { result ≡ outcome_code outcome }
{
    match outcome {
        Outcome::Applied => 0,
        Outcome::Repeated(_) => 1,
        Outcome::Refused(_) => 2,
    }
}

/// The number beside an outcome's code: the position of the first of repeated commands, or the code
/// of a refusal; 0 where the command was applied.
fn detail_of(outcome: Outcome) -> u32
    ensures { result ≡ detail_of outcome }
{
    match outcome {
        Outcome::Applied => 0,
        Outcome::Repeated(position) => position,
        Outcome::Refused(refusal) => u32::from(refusal.code()),
    }
}

impl Entry {
    /// A command, and what it came to. It takes no memory but what its purposes have.
    pub fn of(command: &Command, purposes: Vec<u8>, outcome: Outcome) -> Entry
        requires { purposes.items ≡ purposes_set command.now }
        ensures { line_in result ≡ command_row command.now outcome }
    {
        Entry {
            id: command.id(),
            kind: kind_of(command),
            size: size_of(command),
            about: about_of(command),
            purposes,
            outcome: outcome_code(outcome),
            detail: detail_of(outcome),
        }
    }

    /// What the command is about.
    fn about(&self) -> &[u8]
        ensures about { result.now ≡ about_in self.now.about }
        ensures short { length result.now ≤ 32 }
    {
        match &self.about {
            Some(id) => {
                is_digest(*id);
                id
            }
            None => &[],
        }
    }

    /// The octets of its row.
    fn octets(&self, alloc: Global) -> Result<Vec<u8>, AllocError>
        ensures { IfOk result (λ octets. octets.items ≡ command_encoding (line_in self.now)) }
    {
        is_command_id(self.id);
        let (kind, size) = (self.kind, self.size);
        let (outcome, detail) = (self.outcome, self.detail);
        let row = CommandRow {
            id: self.id,
            kind,
            size,
            about: self.about(),
            purposes: cut(&self.purposes),
            outcome,
            detail,
        };
        let mut octets = Vec::new(alloc);
        row.write(&mut octets)?;
        Ok(octets)
    }
}

/// The rows of entries.
fn rows_of(alloc: Global, entries: &[Entry]) -> Result<OctetStrings, AllocError>
    ensures { IfOk result (λ rows. rows ≡ map command_encoding (map line_in entries.now)) }
{
    let mut rows = OctetStrings::empty(alloc);
    for entry in entries {
        let octets = entry.octets(alloc)?;
        rows.push_copy(alloc, &octets)?;
    }
    Ok(rows)
}

/// A page of entries, after so many rows.
///
/// # Errors
///
/// Out of memory.
pub fn log_page(alloc: Global, entries: &[Entry], from: u32) -> Result<Reply, AllocError>
    ensures { IfOk result (λ reply. reply
        ≡ page from (map command_encoding (map line_in entries.now))) }
{
    let rows = rows_of(alloc, window(entries, from as usize, MAX_ROWS))?;
    let total = narrow(entries.len());
    Ok(Reply::Page { total, rows })
}
