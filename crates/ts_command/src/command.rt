//! Commands.

ghost use Rattle.std.specs.Prelude.{◌≡◌, ◌<◌, ◌≤◌, List, ℕ, Some, length, IfOk, IfSome};
ghost use Rattle.std.specs.Prelude.{MatchResult};
ghost use Rattle.ts_command.specs.Commands.{id_of, command_encoding, CommandFits};
ghost use Rattle.ts_codec.specs.Reading.{whole};
ghost use Rattle.ts_command.specs.Reading.{command_at};
ghost use Rattle.ts_command.specs.declared.command.Command.TheVariants.{AddAnchor, LoadCrl};

use crate::purposes::Purposes;
use crate::reading::read_command;
use crate::values::{CertificateOctets, CrlOctets, TooLong};
use crate::writing::{has_encoding, push_encoding};
use std::alloc::{AllocError, Global};
use ts_octets::Octets;

/// A command of a trust store. Its client chose its id.
#[derive(Debug, Drop)]
pub enum Command {
    /// Adds a trust anchor for any purpose.
    AddAnchor {
        id: [u8; 16],
        certificate: CertificateOctets,
    },
    /// Removes the trust anchor whose certificate has this SHA-256 digest.
    WithdrawAnchor {
        id: [u8; 16],
        anchor: [u8; 32],
    },
    /// Adds a CRL.
    LoadCrl {
        id: [u8; 16],
        crl: CrlOctets,
    },
    /// Removes the CRL that has this SHA-256 digest.
    DropCrl {
        id: [u8; 16],
        crl: [u8; 32],
    },
    /// Sets the purposes of the trust anchor whose certificate has this SHA-256 digest.
    SetPurposes {
        id: [u8; 16],
        anchor: [u8; 32],
        purposes: Purposes,
    },
    /// Changes nothing.
    Noop {
        id: [u8; 16],
    },
}

impl Command {
    /// The command that adds a trust anchor with these octets as its certificate, which may be
    /// none.
    ///
    /// # Errors
    ///
    /// `TooLong` exactly where there are more than 65,536 octets.
    pub fn add_anchor(id: [u8; 16], certificate: Octets) -> Result<Command, TooLong>
        ensures { MatchResult result (λ command. (command ≡ AddAnchor id certificate)
            × (length certificate ≤ 65536)) (λ _. 65536 < length certificate) }
    {
        let certificate = CertificateOctets::new(certificate)?;
        Ok(Command::AddAnchor { id, certificate })
    }

    /// The command that adds these octets as a CRL, which may be none.
    ///
    /// # Errors
    ///
    /// `TooLong` exactly where there are more than 4,194,304 octets.
    pub fn load_crl(id: [u8; 16], crl: Octets) -> Result<Command, TooLong>
        ensures { MatchResult result (λ command. (command ≡ LoadCrl id crl)
            × (length crl ≤ 4194304)) (λ _. 4194304 < length crl) }
    {
        let crl = CrlOctets::new(crl)?;
        Ok(Command::LoadCrl { id, crl })
    }

    /// The id that the client chose.
    pub fn id(&self) -> [u8; 16]
        ensures { result ≡ id_of self.now }
    {
        match self {
            Command::AddAnchor { id, .. }
            | Command::WithdrawAnchor { id, .. }
            | Command::LoadCrl { id, .. }
            | Command::DropCrl { id, .. }
            | Command::SetPurposes { id, .. }
            | Command::Noop { id } => *id,
        }
    }

    /// A copy. The octets of a certificate or a CRL are shared.
    ///
    /// # Errors
    ///
    /// Out of memory.
    pub fn try_copy(&self, alloc: Global) -> Result<Command, AllocError>
        ensures { IfOk result (λ copy. copy ≡ self.now) }
    {
        Ok(match self {
            Command::AddAnchor { id, certificate } => Command::AddAnchor {
                id: *id,
                certificate: certificate.share()?,
            },
            Command::WithdrawAnchor { id, anchor } => Command::WithdrawAnchor {
                id: *id,
                anchor: *anchor,
            },
            Command::LoadCrl { id, crl } => Command::LoadCrl {
                id: *id,
                crl: crl.share()?,
            },
            Command::DropCrl { id, crl } => Command::DropCrl { id: *id, crl: *crl },
            Command::SetPurposes {
                id,
                anchor,
                purposes,
            } => Command::SetPurposes {
                id: *id,
                anchor: *anchor,
                purposes: purposes.try_copy(alloc)?,
            },
            Command::Noop { id } => Command::Noop { id: *id },
        })
    }

    /// The command that octets are: 16 octets of id, an octet of the kind, and its fields. `None`
    /// exactly where they are not one whole command.
    ///
    /// # Errors
    ///
    /// Out of memory.
    pub fn read(alloc: Global, octets: &[u8]) -> Result<Option<Command>, AllocError>
        // The result is the one that the definition of reading gives.
        ensures exact { IfOk result (λ read. read ≡ whole (command_at octets.now)) }
        // The octets are the encoding of the command that is read.
        ensures found { IfOk result (λ read. IfSome read
            (λ command. CommandFits command × (octets.now ≡ command_encoding command))) }
        // Octets that encode a command are read as it.
        ensures only { (command : Command) → CommandFits command → octets.now ≡ command_encoding
            command
            → IfOk result (λ read. read ≡ Some command) }
    {
        read_command(alloc, octets)
    }

    /// Every command has an encoding: its fields are within their limits. Nothing is done.
    pub fn has_encoding(&self)
        ensures { CommandFits self.now }
    {
        has_encoding(self);
    }

    /// The octets of the command, which are its one encoding.
    ///
    /// # Errors
    ///
    /// Out of memory.
    pub fn octets(&self, alloc: Global) -> Result<Vec<u8>, AllocError>
        ensures encoded { IfOk result (λ octets. octets.items ≡ command_encoding self.now) }
        ensures fits { CommandFits self.now }
    {
        self.has_encoding();
        let mut octets = Vec::new(alloc);
        push_encoding(&mut octets, self)?;
        Ok(octets)
    }
}
