//! What octets hold, in lines that a person reads.

ghost use Rattle.std.specs.Prelude.{◌≡◌, ◌++◌, [], ◌∷◌, OnOk, IfOk};
ghost use Rattle.ts_cert.specs.Table.{certificate_fault};
ghost use Rattle.ts_crl.specs.Table.{crl_fault};
ghost use Rattle.ts_show.specs.Kind.{word_of};
ghost use Rattle.ts_show.specs.Begins.{HeadedBy, HeadedById, id_line, certificate_fault_line};
ghost use Rattle.ts_show.specs.Begins.{list_fault_line, Begin, IsShown};

use crate::certificate::certificate_lines;
use crate::command::command_lines;
use crate::fault::{certificate_fault_line, list_fault_line};
use crate::kind::{Kind, kind_of};
use crate::lines::Lines;
use crate::list::list_lines;
use crate::question::question_lines;
use crate::record::record_lines;
use sha2::{Digest, Sha256};
use std::alloc::{AllocError, Global};
use ts_cert::Cert;
use ts_command::Command;
use ts_crl::Crl;
use ts_line::Line;
use ts_question::Question;

/// The line of the SHA-256 digest by which a trust anchor and a CRL are named.
fn id_line(alloc: Global, octets: &[u8]) -> Result<Line, AllocError>
    ensures { IfOk result (λ line. line ≡ id_line octets.now) }
{
    let digest = Sha256::digest(octets);
    let mut line = Line::of(alloc, b"id ")?;
    line.hex(digest.as_slice())?;
    Ok(line)
}

/// The lines that follow the first ones, of a certificate, a list, a command and a question.
fn body_of(alloc: Global, kind: Kind, octets: &[u8], other: &[u8]) -> Result<Lines, AllocError> {
    let mut lines = Lines::new(alloc);
    match kind {
        Kind::Record => record_lines(&mut lines, octets, other)?,
        Kind::Certificate => {
            if let Ok(cert) = Cert::read(octets) {
                certificate_lines(&mut lines, cert)?;
            }
        }
        Kind::List => {
            if let Ok(crl) = Crl::read(octets) {
                list_lines(&mut lines, crl)?;
            }
        }
        Kind::Command => {
            if let Some(command) = Command::read(alloc, octets)? {
                command_lines(&mut lines, &command)?;
            }
        }
        Kind::Question => {
            if let Some(question) = Question::read(alloc, octets)? {
                question_lines(&mut lines, &question)?;
            }
        }
        Kind::Broken | Kind::Unknown => (),
    }
    Ok(lines)
}

/// The first line, and these.
fn with_head(alloc: Global, kind: Kind, body: Lines) -> Result<Lines, AllocError>
    ensures { IfOk result (λ lines. lines ≡ word_of kind ∷ body) }
{
    let mut lines = Lines::new(alloc);
    let word = Line::of(alloc, kind.word().as_bytes())?;
    lines.push(word)?;
    lines.append(body)?;
    Ok(lines)
}

/// The first two lines, of which the second has the digest of the octets, and these.
fn headed_by_id(alloc: Global, kind: Kind, octets: &[u8], body: Lines) -> Result<Lines, AllocError>
    ensures { IfOk result (λ lines. lines ≡ word_of kind ∷ id_line octets.now ∷ body) }
{
    let mut lines = Lines::new(alloc);
    let word = Line::of(alloc, kind.word().as_bytes())?;
    lines.push(word)?;
    let id = id_line(alloc, octets)?;
    lines.push(id)?;
    lines.append(body)?;
    Ok(lines)
}

/// The lines that say why octets are neither a certificate nor a list.
fn fault_lines(alloc: Global, octets: &[u8]) -> Result<Lines, AllocError>
    ensures { IfOk result (λ lines. lines
        ≡ certificate_fault_line (certificate_fault octets.now)
        ∷ list_fault_line (crl_fault octets.now) ∷ []) }
{
    let mut lines = Lines::new(alloc);
    let certificate = certificate_fault_line(alloc, octets)?;
    lines.push(certificate)?;
    let list = list_fault_line(alloc, octets)?;
    lines.push(list)?;
    Ok(lines)
}

/// The lines of octets that hold something of a kind.
fn lines_of(alloc: Global, kind: Kind, octets: &[u8], other: &[u8]) -> Result<Lines, AllocError>
    ensures { IfOk result (Begin octets.now kind) }
{
    let body = body_of(alloc, kind, octets, other)?;
    match kind {
        Kind::Record | Kind::Command | Kind::Question => with_head(alloc, kind, body),
        Kind::Certificate | Kind::List => headed_by_id(alloc, kind, octets, body),
        Kind::Broken => fault_lines(alloc, octets),
        Kind::Unknown => with_head(alloc, kind, Lines::new(alloc)),
    }
}

/// What the octets hold, a line each, every line ended by a line feed and otherwise of printable
/// characters of ASCII. Of a record they are the octets of its first disk, and the other ones those
/// of its second; else the other ones are not looked at.
///
/// # Errors
///
/// Out of memory.
pub fn show(alloc: Global, octets: &[u8], other: &[u8]) -> Result<Vec<u8>, AllocError>
    ensures { IfOk result (λ text. IsShown octets.now text.items) }
{
    let kind = kind_of(alloc, octets)?;
    let lines = lines_of(alloc, kind, octets, other)?;
    lines.text()
}
