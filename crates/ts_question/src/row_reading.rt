//! The rows of a page are read.

ghost use Rattle.std.specs.Prelude.{◌≡◌};
ghost use Rattle.ts_codec.specs.Reading.{Gives, whole};
ghost use Rattle.ts_question.specs.inside.RowReading.{anchor_at, crl_at, command_at};
ghost use Rattle.ts_question.specs.RowView.{anchor_line, crl_line, command_line};

use crate::rows::{AnchorRow, CommandRow, CrlRow};
use ts_codec::ReadFault;
use ts_codec::reading::{blob16, digest, id, number32, octet, signed_number, tag};

/// The row of an anchor that begins here, and what follows it. Its strings are borrowed.
#[tactic(auto, unfolding(crate::specs::inside::RowReading::anchor_at))]
fn anchor(octets: &[u8]) -> Result<(AnchorRow<'_>, &[u8]), ReadFault>
    ensures { Gives (λ x. (anchor_line x.0, x.1.now)) result (anchor_at octets.now) }
{
    let (_, rest) = tag(1, octets)?;
    let (id, rest) = digest(rest)?;
    let (subject, rest) = blob16(rest)?;
    let (purposes, rest) = blob16(rest)?;
    let row = AnchorRow {
        id,
        subject,
        purposes,
    };
    Ok((row, rest))
}

/// The row of a CRL that begins here, and what follows it. Its strings are borrowed.
#[tactic(auto, unfolding(crate::specs::inside::RowReading::crl_at))]
fn crl(octets: &[u8]) -> Result<(CrlRow<'_>, &[u8]), ReadFault>
    ensures { Gives (λ x. (crl_line x.0, x.1.now)) result (crl_at octets.now) }
{
    let (_, rest) = tag(2, octets)?;
    let (id, rest) = digest(rest)?;
    let (issuer, rest) = blob16(rest)?;
    let (number, rest) = blob16(rest)?;
    let (base, rest) = blob16(rest)?;
    let (scope, rest) = blob16(rest)?;
    let (this_update, rest) = signed_number(rest)?;
    let (next_update, rest) = signed_number(rest)?;
    let (entries, rest) = number32(rest)?;
    let (size, rest) = number32(rest)?;
    let row = CrlRow {
        id,
        issuer,
        number,
        base,
        scope,
        this_update,
        next_update,
        entries,
        size,
    };
    Ok((row, rest))
}

/// The row of a command that begins here, and what follows it. Its strings are borrowed.
#[tactic(auto, unfolding(crate::specs::inside::RowReading::command_at))]
fn command(octets: &[u8]) -> Result<(CommandRow<'_>, &[u8]), ReadFault>
    ensures { Gives (λ x. (command_line x.0, x.1.now)) result (command_at octets.now) }
{
    let (_, rest) = tag(3, octets)?;
    let (id, rest) = id(rest)?;
    let (kind, rest) = octet(rest)?;
    let (size, rest) = number32(rest)?;
    let (about, rest) = blob16(rest)?;
    let (purposes, rest) = blob16(rest)?;
    let (outcome, rest) = octet(rest)?;
    let (detail, rest) = number32(rest)?;
    let row = CommandRow {
        id,
        kind,
        size,
        about,
        purposes,
        outcome,
        detail,
    };
    Ok((row, rest))
}

/// The row of an anchor that the octets are.
pub(crate) fn whole_anchor(octets: &[u8]) -> Result<AnchorRow<'_>, ReadFault>
    ensures { Gives anchor_line result (whole (anchor_at octets.now)) }
{
    let (row, rest) = anchor(octets)?;
    if !rest.is_empty() {
        return Err(ReadFault::Form);
    }
    Ok(row)
}

/// The row of a CRL that the octets are.
pub(crate) fn whole_crl(octets: &[u8]) -> Result<CrlRow<'_>, ReadFault>
    ensures { Gives crl_line result (whole (crl_at octets.now)) }
{
    let (row, rest) = crl(octets)?;
    if !rest.is_empty() {
        return Err(ReadFault::Form);
    }
    Ok(row)
}

/// The row of a command that the octets are.
pub(crate) fn whole_command(octets: &[u8]) -> Result<CommandRow<'_>, ReadFault>
    ensures { Gives command_line result (whole (command_at octets.now)) }
{
    let (row, rest) = command(octets)?;
    if !rest.is_empty() {
        return Err(ReadFault::Form);
    }
    Ok(row)
}
