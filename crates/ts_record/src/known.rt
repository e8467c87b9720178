//! A command that is read twice in a row is copied, not read again: that a node took a command and
//! that it was chosen are two facts, mostly one behind the other. A copy may share memory.

ghost use Rattle.std.specs.Prelude.{◌≡◌, ◌≤◌, true, List, length, IfOk, IfSome, IfNone};
ghost use Rattle.std.specs.Option.{ForSome};

use std::alloc::{AllocError, Global};
use ts_synod::Codec;

/// The command that was read last, and the octets that it was read from.
#[derive(Drop)]
pub(crate) struct KnownFacts<'a, C: Codec> {
    octets: &'a [u8],
    command: Option<C>,
    ghost read: { ForSome command
        (λ c. (1 ≤ length (C.octets c)) × (octets.now ≡ C.octets c)) },
}

/// Whether two lists of octets are one.
fn are_same(a: &[u8], b: &[u8]) -> bool
    ensures { result ≡ true → a.now ≡ b.now }
{
    a == b
}

impl<'a, C: Codec> KnownFacts<'a, C> {
    /// None was read.
    pub fn none() -> KnownFacts<'a, C> {
        KnownFacts {
            octets: &[],
            command: None,
        }
    }

    /// A copy of the last command, if it was read from these octets.
    fn copy_of(&self, alloc: Global, source: &[u8]) -> Result<Option<C>, AllocError>
        ensures { IfOk result (λ read. IfSome read
            (λ command. (1 ≤ length (C.octets command)) × (source.now ≡ C.octets command))) }
    {
        match &self.command {
            Some(command) if are_same(source, self.octets) => { Ok(Some(command.try_copy(alloc)?)) }
            _ => Ok(None),
        }
    }

    /// Reads a command from all of the octets, as [`Codec::read`] does.
    pub fn read(&mut self, alloc: Global, source: &'a [u8]) -> Result<Option<C>, AllocError>
        ensures found { IfOk result (λ read. IfSome read
            (λ command. (1 ≤ length (C.octets command)) × (source.now ≡ C.octets command))) }
        ensures none { IfOk result (λ read. IfNone read
            ((command : C) → 1 ≤ length (C.octets command)
            → source.now ≡ C.octets command → ⊥)) }
    {
        if let Some(copy) = self.copy_of(alloc, source)? {
            return Ok(Some(copy));
        }
        let read = C::read(alloc, source)?;
        if let Some(command) = &read {
            let command = command.try_copy(alloc)?;
            *self = KnownFacts {
                octets: source,
                command: Some(command),
            };
        }
        Ok(read)
    }
}
