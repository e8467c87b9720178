//! The rows of a page.

ghost use Rattle.std.specs.Prelude.{◌≡◌, ◌++◌, Some, option_map, IfOk, IfSome, OnOk};
ghost use Rattle.ts_question.specs.Rows.{AnchorLine, CrlLine, CommandLine};
ghost use Rattle.ts_question.specs.Rows.{AnchorFits, CrlFits, CommandFits};
ghost use Rattle.ts_question.specs.Rows.{anchor_encoding, crl_encoding, command_encoding};
ghost use Rattle.ts_question.specs.RowView.{anchor_line, crl_line, command_line};

use crate::row_reading;
use crate::row_writing::{push_anchor, push_command, push_crl};
use std::alloc::AllocError;
use ts_codec::ReadFault;

/// A trust anchor of a store.
#[derive(Clone, Copy, Debug, PartialEq, Eq)]
pub struct AnchorRow<'a> {
    /// The SHA-256 of its certificate.
    pub id: [u8; 32],
    /// The contents octets of its subject, a Name.
    pub subject: &'a [u8],
    /// Its purposes, as a command writes them: 00 for any, else 01, an octet of their number and
    /// each after an octet of its length.
    pub purposes: &'a [u8],
}

/// A CRL of a store: a delta CRL where it has a base.
#[derive(Clone, Copy, Debug, PartialEq, Eq)]
pub struct CrlRow<'a> {
    /// Its SHA-256.
    pub id: [u8; 32],
    /// The contents octets of its issuer, a Name.
    pub issuer: &'a [u8],
    /// The contents octets of its CRL number, an INTEGER; none where it has none.
    pub number: &'a [u8],
    /// Those of its base CRL number.
    pub base: &'a [u8],
    /// The value of its issuingDistributionPoint extension, in DER; none where it has none.
    pub scope: &'a [u8],
    /// When it was issued, in seconds from 1970-01-01T00:00:00Z.
    pub this_update: i64,
    /// By when the next one is issued.
    pub next_update: i64,
    /// How many entries it has.
    pub entries: u32,
    /// How many octets it has.
    pub size: u32,
}

/// A command that a store took.
#[derive(Clone, Copy, Debug, PartialEq, Eq)]
pub struct CommandRow<'a> {
    /// The id that the client chose.
    pub id: [u8; 16],
    /// The octet of its kind.
    pub kind: u8,
    /// How many octets the certificate or the CRL has that it loads; 0 where it loads none.
    pub size: u32,
    /// The id of the anchor or of the CRL that it is about; none where it is about none.
    pub about: &'a [u8],
    /// The purposes that it sets, as it writes them; none where it sets none.
    pub purposes: &'a [u8],
    /// What it came to: 0 applied, 1 repeated, 2 refused.
    pub outcome: u8,
    /// The position of the first command of its id, where it repeats one; the code of the refusal,
    /// where it was refused; else 0.
    pub detail: u32,
}

impl<'a> AnchorRow<'a> {
    /// The row that octets are. `None` exactly where they are not one whole row of this kind.
    ///
    /// # Errors
    ///
    /// Out of memory.
    pub fn read(octets: &'a [u8]) -> Result<Option<AnchorRow<'a>>, AllocError>
        // The octets are the encoding of the row that is read.
        ensures found { IfOk result (λ read. IfSome read (λ r. AnchorFits (anchor_line r)
            × (octets.now ≡ anchor_encoding (anchor_line r)))) }
        // Octets that encode a row are read as it.
        ensures only { (l : AnchorLine) → AnchorFits l → octets.now ≡ anchor_encoding l
            → IfOk result (λ read. option_map anchor_line read ≡ Some l) }
    {
        match row_reading::whole_anchor(octets) {
            Ok(row) => Ok(Some(row)),
            Err(ReadFault::Form) => Ok(None),
            Err(ReadFault::Memory) => Err(AllocError),
        }
    }

    /// Writes the row after other octets.
    ///
    /// # Errors
    ///
    /// Out of memory.
    pub fn write(&self, out: &mut Vec<u8>) -> Result<(), AllocError>
        requires { AnchorFits (anchor_line self.now) }
        ensures { OnOk result (out.new.items
            ≡ out.old.items ++ anchor_encoding (anchor_line self.now)) }
    {
        push_anchor(out, self)
    }
}

impl<'a> CrlRow<'a> {
    /// The row that octets are. `None` exactly where they are not one whole row of this kind.
    ///
    /// # Errors
    ///
    /// Out of memory.
    pub fn read(octets: &'a [u8]) -> Result<Option<CrlRow<'a>>, AllocError>
        // The octets are the encoding of the row that is read.
        ensures found { IfOk result (λ read. IfSome read (λ r. CrlFits (crl_line r)
            × (octets.now ≡ crl_encoding (crl_line r)))) }
        // Octets that encode a row are read as it.
        ensures only { (l : CrlLine) → CrlFits l → octets.now ≡ crl_encoding l
            → IfOk result (λ read. option_map crl_line read ≡ Some l) }
    {
        match row_reading::whole_crl(octets) {
            Ok(row) => Ok(Some(row)),
            Err(ReadFault::Form) => Ok(None),
            Err(ReadFault::Memory) => Err(AllocError),
        }
    }

    /// Writes the row after other octets.
    ///
    /// # Errors
    ///
    /// Out of memory.
    pub fn write(&self, out: &mut Vec<u8>) -> Result<(), AllocError>
        requires { CrlFits (crl_line self.now) }
        ensures { OnOk result (out.new.items ≡ out.old.items ++ crl_encoding (crl_line self.now)) }
    {
        push_crl(out, self)
    }
}

impl<'a> CommandRow<'a> {
    /// The row that octets are. `None` exactly where they are not one whole row of this kind.
    ///
    /// # Errors
    ///
    /// Out of memory.
    pub fn read(octets: &'a [u8]) -> Result<Option<CommandRow<'a>>, AllocError>
        // The octets are the encoding of the row that is read.
        ensures found { IfOk result (λ read. IfSome read (λ r. CommandFits (command_line r)
            × (octets.now ≡ command_encoding (command_line r)))) }
        // Octets that encode a row are read as it.
        ensures only { (l : CommandLine) → CommandFits l → octets.now ≡ command_encoding l
            → IfOk result (λ read. option_map command_line read ≡ Some l) }
    {
        match row_reading::whole_command(octets) {
            Ok(row) => Ok(Some(row)),
            Err(ReadFault::Form) => Ok(None),
            Err(ReadFault::Memory) => Err(AllocError),
        }
    }

    /// Writes the row after other octets.
    ///
    /// # Errors
    ///
    /// Out of memory.
    pub fn write(&self, out: &mut Vec<u8>) -> Result<(), AllocError>
        requires { CommandFits (command_line self.now) }
        ensures { OnOk result (out.new.items
            ≡ out.old.items ++ command_encoding (command_line self.now)) }
    {
        push_command(out, self)
    }
}
