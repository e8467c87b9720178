//! Records are opened.

ghost use Rattle.std.specs.Prelude.{◌≡◌, ◌+◌, ◌++◌, [], ℕ, List, drop, length, OnOk, OnErr, IfOk};
ghost use Rattle.std.specs.Prelude.{IfSome};
ghost use Rattle.ts_guard.specs.Session.{context};
ghost use Rattle.ts_guard.specs.Opening.{HasCome, IsNewOpener, IsOpenerFor, Opens};
ghost use Rattle.ts_guard.specs.inside.First.{First, HasRoom};

use crate::fault::GuardFault;
use crate::record::{HEAD, content_length, tag_of};
use crate::session::{Direction, Session, begin_tags};
use std::alloc::{AllocError, Global};
use ts_hmac::{Hmac, is_same_tag};
use ts_queue::Queue;

/// What came on a connection in one direction and was not let through, and what its tags are made
/// with.
#[derive(Drop)]
pub struct Opener {
    alloc: Global,
    /// The tags' beginning: the key and the context.
    start: Hmac,
    /// The number of the next record.
    number: u64,
    held: Queue,
}

impl Opener {
    /// An opener of the records of one direction of a connection, of which nothing has come.
    pub fn new(alloc: Global, key: &[u8], session: &Session, direction: Direction) -> Opener
        ensures { IsNewOpener key.now (context session.now direction) [] result }
    {
        Opener::after(alloc, key, session, direction, Queue::new(alloc))
    }

    /// An opener that holds what came behind a hello.
    pub(crate) fn after(
        alloc: Global,
        key: &[u8],
        session: &Session,
        direction: Direction,
        held: Queue,
    ) -> Opener
        ensures { IsNewOpener key.now (context session.now direction) held result }
    {
        Opener {
            alloc,
            start: begin_tags(key, session, direction),
            number: 0,
            held,
        }
    }

    /// Takes the next piece of the stream.
    ///
    /// # Errors
    ///
    /// Memory that is refused. Nothing changes then.
    pub fn push(&mut self, piece: &[u8]) -> Result<(), AllocError>
        ensures came { OnOk result (HasCome self.old piece.now self.new) }
        ensures unchanged { OnErr result (self.new ≡ self.old) }
    {
        self.held.push(piece)
    }

    /// How many octets are held. No more than a record are, where all records that are there are
    /// opened.
    pub fn held_count(&self) -> usize
        ensures { result ≡ length self.now.held }
    {
        self.held.len()
    }

    /// The content of the first record.
    fn first(&self) -> Result<Option<Vec<u8>>, GuardFault>
        ensures room { IfOk result (λ found. IfSome found (λ content.
            HasRoom self.now.number self.now.held content.items)) }
        ensures first { (key context : List ℕ) → IsOpenerFor key context self.now
            → First key context self.now.number self.now.held result }
    {
        if self.number == u64::MAX {
            return Err(GuardFault::Number);
        }
        let octets = self.held.octets();
        let size = match content_length(octets) {
            Ok(Some(size)) => size,
            Ok(None) => return Ok(None),
            Err(fault) => return Err(fault),
        };
        let content = &octets[HEAD..HEAD + size];
        let mut given = [0; 32];
        given.copy_from_slice(&octets[5..HEAD]);
        if !is_same_tag(&given, &tag_of(&self.start, self.number, content)) {
            return Err(GuardFault::Tag);
        }
        Ok(Some(Vec::from_slice(self.alloc, content)?))
    }

    /// The content of the next record; `None` where no whole record is there yet.
    ///
    /// # Errors
    ///
    /// What is wrong in the next record's place; that all numbers are used; memory that is refused.
    /// Nothing changes then: what is wrong stays, whatever comes after it.
    pub fn take(&mut self) -> Result<Option<Vec<u8>>, GuardFault>
        // Of the key and the context that the opener is for.
        ensures opens { (key context : List ℕ) → IsOpenerFor key context self.old
            → Opens key context self.old result self.new }
    {
        let Some(content) = self.first()? else {
            return Ok(None);
        };
        self.held.skip(HEAD + content.len());
        self.number += 1;
        Ok(Some(content))
    }
}
