//! Records are sealed.

ghost use Rattle.std.specs.Prelude.{◌≡◌, ◌≤◌, ◌+◌, ◌++◌, ◌∷◌, ℕ, List, length, OnOk, OnErr};
ghost use Rattle.std.specs.Int.{to_be_bytes, w32};
ghost use Rattle.ts_guard.specs.Session.{context};
ghost use Rattle.ts_guard.specs.Sealed.{record_of};
ghost use Rattle.ts_guard.specs.Sealing.{IsNewSealer, IsSealerFor, Seals};

use crate::fault::GuardFault;
use crate::record::{HEAD, MAX_CONTENT, VERSION, tag_of};
use crate::session::{Direction, Session, begin_tags};
use std::alloc::AllocError;
use ts_hmac::Hmac;

/// What the tags of one direction of a connection are made with.
#[derive(Drop)]
pub struct Sealer {
    /// The tags' beginning: the key and the context.
    start: Hmac,
    /// The number of the next record.
    number: u64,
}

/// What stands before a content.
fn head(size: u32, tag: &[u8; 32]) -> [u8; HEAD]
    ensures { result ≡ to_be_bytes w32 size ++ 3 ∷ tag.now }
{
    let mut head = [VERSION; HEAD];
    head[..4].copy_from_slice(&size.to_be_bytes());
    head[5..].copy_from_slice(tag);
    head
}

/// Puts a record behind other octets.
fn push_record(out: &mut Vec<u8>, tag: &[u8; 32], content: &[u8]) -> Result<(), AllocError>
    requires { length content.now ≤ 65536 }
    ensures pushed { OnOk result (out.new.items ≡ out.old.items ++
        record_of 3 tag.now content.now) }
    ensures unchanged { OnErr result (out.new.items ≡ out.old.items) }
{
    let before = out.len();
    let size = HEAD - 4 + content.len();
    out.extend_from_slice(&head(size as u32, tag))?;
    match out.extend_from_slice(content) {
        Ok(()) => Ok(()),
        Err(refused) => {
            out.truncate(before);
            Err(refused)
        }
    }
}

impl Sealer {
    /// A sealer of one direction of a connection, which has sealed nothing.
    pub fn new(key: &[u8], session: &Session, direction: Direction) -> Sealer
        ensures { IsNewSealer key.now (context session.now direction) result }
    {
        Sealer {
            start: begin_tags(key, session, direction),
            number: 0,
        }
    }

    /// Puts the record of a content of 1 to 65,536 octets behind other octets.
    ///
    /// # Errors
    ///
    /// `Length` for another content; `Number` where all numbers are used; memory that is refused.
    /// Nothing changes then.
    pub fn seal(&mut self, content: &[u8], out: &mut Vec<u8>) -> Result<(), GuardFault>
        // Of the key and the context that the sealer is for.
        ensures seals { (key context : List ℕ) → IsSealerFor key context self.old
            → Seals key context self.old content.now out.old.items result self.new out.new.items }
    {
        if content.is_empty() || content.len() > MAX_CONTENT {
            return Err(GuardFault::Length);
        }
        if self.number == u64::MAX {
            return Err(GuardFault::Number);
        }
        let tag = tag_of(&self.start, self.number, content);
        push_record(out, &tag, content)?;
        self.number += 1;
        Ok(())
    }
}
