//! Files that are DER or texts of blocks.

ghost use Rattle.std.specs.Prelude.{◌≡◌, map, IfOk};
ghost use Rattle.ts_pem.specs.Files.{Gives, block_in, has_begin, is_labelled, labelled_of};
ghost use Rattle.ts_pem.specs.Files.{values_of};
ghost use Rattle.ts_pem.specs.declared.block.Label.TheVariants.{Certificate, Crl};

use crate::block::{Block, Label};
use crate::fault::PemFault;
use crate::line::{first_line, is_begin};
use crate::reading::read_blocks;
use std::alloc::{AllocError, Global};

/// Whether octets are a text of blocks: they have a line that begins a block, of whatever label.
pub fn is_pem(octets: &[u8]) -> bool
    ensures { result ≡ has_begin octets.now }
{
    let mut rest = octets;
    loop {
        let (line, others) = first_line(rest);
        if is_begin(line) {
            return true;
        }
        let Some(others) = others else {
            return false;
        };
        rest = others;
    }
}

/// Whether two labels are one.
fn is_labelled(label: Label, other: Label) -> bool
    ensures { result ≡ is_labelled label other }
{
    match label {
        Label::Certificate => matches!(other, Label::Certificate),
        Label::Crl => matches!(other, Label::Crl),
    }
}

/// The octets of the blocks of a label.
fn blocks_labelled(
    alloc: Global,
    label: Label,
    blocks: Vec<Block>,
) -> Result<Vec<Vec<u8>>, AllocError>
    ensures { IfOk result (λ v. map (λ x. x.items) v.items ≡ labelled_of label
        (map block_in blocks.items)) }
{
    let mut found = Vec::new(alloc);
    for block in blocks {
        if is_labelled(label, block.label) {
            found.push(block.octets)?;
        }
    }
    Ok(found)
}

/// The values of a label in a file.
fn read_values(alloc: Global, label: Label, octets: &[u8]) -> Result<Vec<Vec<u8>>, PemFault>
    ensures { Gives (λ v. map (λ x. x.items) v.items) result (values_of label octets.now) }
{
    if is_pem(octets) {
        let blocks = read_blocks(alloc, octets)?;
        return Ok(blocks_labelled(alloc, label, blocks)?);
    }
    let mut found = Vec::new(alloc);
    found.push(octets.to_vec(alloc)?).map_err(AllocError::from)?;
    Ok(found)
}

/// The certificates that a file holds: those of the blocks of a text, and of any other file one,
/// its octets, which are not looked at.
///
/// # Errors
///
/// The first fault of the text, those of CRLs included; or that memory was refused.
pub fn read_certificates(alloc: Global, octets: &[u8]) -> Result<Vec<Vec<u8>>, PemFault>
    ensures { Gives (λ v. map (λ x. x.items) v.items) result (values_of Certificate octets.now) }
{
    let values = read_values(alloc, Label::Certificate, octets);
    values
}

/// The CRLs that a file holds, in the same way.
///
/// # Errors
///
/// Those of [`read_certificates`].
pub fn read_crls(alloc: Global, octets: &[u8]) -> Result<Vec<Vec<u8>>, PemFault>
    ensures { Gives (λ v. map (λ x. x.items) v.items) result (values_of Crl octets.now) }
{
    let values = read_values(alloc, Label::Crl, octets);
    values
}
