//! The rows of a page are written.

ghost use Rattle.std.specs.Prelude.{◌≡◌, ◌++◌, OnOk};
ghost use Rattle.std.specs.Int.{to_be_bytes, w32};
ghost use Rattle.ts_question.specs.Rows.{AnchorFits, CrlFits, CommandFits, moment_encoding};
ghost use Rattle.ts_question.specs.Rows.{anchor_encoding, crl_encoding, command_encoding};
ghost use Rattle.ts_question.specs.RowView.{anchor_line, crl_line, command_line};

use crate::rows::{AnchorRow, CommandRow, CrlRow};
use std::alloc::AllocError;
use ts_codec::writing::push_blob16;

/// Writes a moment as eight octets in two's complement, the highest first.
#[tactic(auto, unfolding(crate::specs::Rows::moment_encoding))]
fn push_moment(out: &mut Vec<u8>, moment: i64) -> Result<(), AllocError>
    ensures { OnOk result (out.new.items ≡ out.old.items ++ moment_encoding moment) }
{
    out.extend_from_slice(&moment.cast_unsigned().to_be_bytes())?;
    Ok(())
}

/// Writes the row of an anchor.
pub(crate) fn push_anchor(out: &mut Vec<u8>, row: &AnchorRow<'_>) -> Result<(), AllocError>
    requires { AnchorFits (anchor_line row.now) }
    ensures { OnOk result (out.new.items ≡ out.old.items ++ anchor_encoding (anchor_line row.now)) }
{
    out.push(1)?;
    out.extend_from_slice(&row.id)?;
    push_blob16(out, row.subject)?;
    push_blob16(out, row.purposes)?;
    Ok(())
}

/// Writes the times of a CRL, how many entries it has and how many octets.
fn push_numbers(out: &mut Vec<u8>, row: &CrlRow<'_>) -> Result<(), AllocError>
    ensures { OnOk result (out.new.items
        ≡ out.old.items ++ (moment_encoding row.now.this_update
        ++ (moment_encoding row.now.next_update
        ++ (to_be_bytes w32 row.now.entries ++ to_be_bytes w32 row.now.size)))) }
{
    push_moment(out, row.this_update)?;
    push_moment(out, row.next_update)?;
    out.extend_from_slice(&row.entries.to_be_bytes())?;
    out.extend_from_slice(&row.size.to_be_bytes())?;
    Ok(())
}

/// Writes the row of a CRL.
pub(crate) fn push_crl(out: &mut Vec<u8>, row: &CrlRow<'_>) -> Result<(), AllocError>
    requires { CrlFits (crl_line row.now) }
    ensures { OnOk result (out.new.items ≡ out.old.items ++ crl_encoding (crl_line row.now)) }
{
    out.push(2)?;
    out.extend_from_slice(&row.id)?;
    push_blob16(out, row.issuer)?;
    push_blob16(out, row.number)?;
    push_blob16(out, row.base)?;
    push_blob16(out, row.scope)?;
    push_numbers(out, row)?;
    Ok(())
}

/// Writes the row of a command.
pub(crate) fn push_command(out: &mut Vec<u8>, row: &CommandRow<'_>) -> Result<(), AllocError>
    requires { CommandFits (command_line row.now) }
    ensures { OnOk result (out.new.items
        ≡ out.old.items ++ command_encoding (command_line row.now)) }
{
    out.push(3)?;
    out.extend_from_slice(&row.id)?;
    out.push(row.kind)?;
    out.extend_from_slice(&row.size.to_be_bytes())?;
    push_blob16(out, row.about)?;
    push_blob16(out, row.purposes)?;
    out.push(row.outcome)?;
    out.extend_from_slice(&row.detail.to_be_bytes())?;
    Ok(())
}
