//! The blocks of a text, line by line.

ghost use Rattle.std.specs.Prelude.{◌≡◌, List, IfOk, MatchResult, map, option_map};
ghost use Rattle.ts_pem.specs.declared.fault.PemFault.TheVariants.{OutOfMemory};
ghost use Rattle.ts_pem.specs.Blocks.{AreBlocks};
ghost use Rattle.ts_pem.specs.Files.{Gives, block_in};
ghost use Rattle.ts_pem.specs.Pem.{at_end, at_start, blocks_of, decode, end_block, inside, outside};
ghost use Rattle.ts_pem.specs.Pem.{PemBlock, label_of as label_in, lines, step};

use crate::block::{Block, Label};
use crate::fault::PemFault;
use crate::line::{ends, first_line, is_base64, is_begin, is_end, is_stray, label_of, trim};
use base64::DecodeAllocError;
use base64::engine::general_purpose::STANDARD;
use std::alloc::{AllocError, Global};
use std::marker::Model;

/// A block whose end has not come.
#[derive(Drop)]
struct OpenBlock {
    label: Label,
    /// The number of the line that begins it.
    line: usize,
    /// The base64 of the lines since.
    body: Vec<u8>,
}

impl Model for OpenBlock {
    ghost use Rattle.ts_pem.specs.Pem.{Open};

    ghost Value = { Open };

    ghost view = { λ o. record { label = o.label; line = o.line; body = o.body.items } };
}

/// What the lines so far say.
#[derive(Drop)]
struct Reading {
    alloc: Global,
    blocks: Vec<Block>,
    current: Option<OpenBlock>,
}

impl Model for Reading {
    ghost use Rattle.std.specs.Prelude.{map};
    ghost use Rattle.ts_pem.specs.Files.{block_in};
    ghost use Rattle.ts_pem.specs.Pem.{Reading};

    ghost Value = { Reading };

    ghost view = { λ r. record { blocks = map block_in r.blocks.items; open_block = r.current } };
}

/// The octets of which a text is the base64, if there are some.
fn decode(alloc: Global, text: &[u8]) -> Result<Option<Vec<u8>>, AllocError>
    ensures { IfOk result (λ found. option_map (λ v. v.items) found ≡ decode text.now) }
{
    match STANDARD.decode(alloc, text) {
        Ok(octets) => Ok(Some(octets)),
        Err(DecodeAllocError::DecodeError(_)) => Ok(None),
        Err(DecodeAllocError::OutOfMemory) => Err(AllocError),
    }
}

impl Reading {
    /// No line yet.
    fn new(alloc: Global) -> Reading
        ensures { result ≡ at_start }
    {
        Reading {
            alloc,
            blocks: Vec::new(alloc),
            current: None,
        }
    }

    /// The next line, without the blanks at its end, which has this number.
    fn take(self, number: usize, line: &[u8]) -> Result<Reading, PemFault>
        ensures { Gives (λ r. r) result (step number line.now self.blocks self.open_block) }
    {
        let Reading {
            alloc,
            blocks,
            current,
        } = self;
        match current {
            None => begin(alloc, blocks, number, line),
            Some(current) => within(alloc, blocks, current, number, line),
        }
    }

    /// The blocks, at the end of the text.
    fn end(self) -> Result<Vec<Block>, PemFault>
        ensures { Gives (λ v. map block_in v.items) result (at_end self.blocks self.open_block) }
    {
        let Reading {
            alloc: _,
            blocks,
            current,
        } = self;
        match current {
            None => Ok(blocks),
            Some(current) => Err(PemFault::NoEnd(current.line)),
        }
    }
}

/// A line outside of all blocks.
fn begin(alloc: Global, blocks: Vec<Block>, number: usize, line: &[u8]) -> Result<Reading, PemFault>
    ensures { Gives (λ r. r) result
        (outside number (map block_in blocks.items) line.now (label_in line.now)) }
{
    let current = match label_of(line) {
        Some(label) => Some(OpenBlock {
            label,
            line: number,
            body: Vec::new(alloc),
        }),
        None if is_stray(line) => return Err(PemFault::NoBegin(number)),
        None => None,
    };
    Ok(Reading {
        alloc,
        blocks,
        current,
    })
}

/// A line within a block.
fn within(
    alloc: Global,
    blocks: Vec<Block>,
    mut current: OpenBlock,
    number: usize,
    line: &[u8],
) -> Result<Reading, PemFault>
    ensures { Gives (λ r. r) result (inside number (map block_in blocks.items) current line.now) }
{
    if ends(current.label, line) {
        return close(alloc, blocks, current, number);
    }
    if is_end(line) {
        return Err(PemFault::OtherEnd(number));
    }
    if is_begin(line) {
        return Err(PemFault::NoEnd(current.line));
    }
    if !is_base64(line) {
        return Err(PemFault::NotBase64(number));
    }
    current.body.extend_from_slice(line)?;
    Ok(Reading {
        alloc,
        blocks,
        current: Some(current),
    })
}

/// The end of a block.
fn close(
    alloc: Global,
    mut blocks: Vec<Block>,
    current: OpenBlock,
    number: usize,
) -> Result<Reading, PemFault>
    ensures { Gives (λ r. r) result
        (end_block number (map block_in blocks.items) current.label (decode current.body)) }
{
    let Some(octets) = decode(alloc, &current.body)? else {
        return Err(PemFault::NotBase64(number));
    };
    blocks
        .push(Block {
            label: current.label,
            octets,
        })
        .map_err(AllocError::from)?;
    Ok(Reading {
        alloc,
        blocks,
        current: None,
    })
}

/// All blocks of a text.
fn read_lines(alloc: Global, text: &[u8]) -> Result<Vec<Block>, PemFault>
    ensures { Gives (λ v. map block_in v.items) result (blocks_of text.now) }
{
    let mut reading = Reading::new(alloc);
    let mut rest = text;
    let mut number = 1usize;
    loop {
        let (line, others) = first_line(rest);
        reading = reading.take(number, trim(line))?;
        let Some(others) = others else {
            return reading.end();
        };
        rest = others;
        number += 1;
    }
}

/// The blocks of certificates and of CRLs in a text, in order. A line outside of them does not
/// count, those of blocks of other labels neither. The steps grow with the length of the text.
///
/// # Errors
///
/// The first fault with the number of its line; or that memory was refused.
pub fn read_blocks(alloc: Global, text: &[u8]) -> Result<Vec<Block>, PemFault>
    ensures found { IfOk result (λ v. AreBlocks (lines text.now) (map block_in v.items)) }
    ensures only { (blocks : List PemBlock) → AreBlocks (lines text.now) blocks
        → MatchResult result (λ v. map block_in v.items ≡ blocks) (λ fault. fault ≡ OutOfMemory) }
    ensures exact { Gives (λ v. map block_in v.items) result (blocks_of text.now) }
{
    let blocks = read_lines(alloc, text);
    blocks
}
