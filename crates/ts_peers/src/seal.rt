//! The seal of a line to a peer: what is sent is sealed with the node's own key, and what comes is
//! opened.

ghost use Rattle.std.specs.Prelude.{◌≡◌};

use std::alloc::Global;
use std::random::RandomSource;
use ts_access::{EntranceFault, Key, Visitor};
use ts_carrier::Mailbox;
use ts_guard::MAX_CONTENT;
use ts_keyring::draw;
use ts_queue::Queue;

/// What stands between the socket of a line and its frames, where the node has a key.
#[derive(Drop)]
pub(crate) struct Seal {
    alloc: Global,
    visitor: Visitor,
    /// What is ready to be written: the greeting, and sealed records.
    pub out: Queue,
}

impl Seal {
    /// The seal of a new connection, whose greeting is ready to be written. `None` where the system
    /// gives no random octets, or no memory.
    pub fn new(source: &impl RandomSource, alloc: Global, key: &Key) -> Option<Seal> {
        let visitor = Visitor::new(alloc, key.id, key.secret, draw(source)?);
        let mut out = Queue::new(alloc);
        out.push(&visitor.hello()).ok()?;
        Some(Seal {
            alloc,
            visitor,
            out,
        })
    }

    /// Octets came on the socket. `false` where memory was refused.
    pub fn push(&mut self, piece: &[u8]) -> bool {
        self.visitor.push(piece).is_ok()
    }

    /// The next octets of the peer's answers.
    pub fn take(&mut self) -> Result<Option<Vec<u8>>, EntranceFault> {
        self.visitor.take()
    }

    /// Seals octets that are ready to be sent, if none is ready to be written yet: at most one
    /// record. `false` where they can't be sealed.
    pub fn seal(&mut self, mailbox: &mut Mailbox) -> bool
        ensures { mailbox.new.frames ≡ mailbox.old.frames }
    {
        let count = mailbox.octets().len().min(MAX_CONTENT);
        if count == 0 || self.out.len() > 0 || !self.visitor.has_begun() {
            return true;
        }
        let mut record = Vec::new(self.alloc);
        match self.visitor.seal(&mailbox.octets()[..count], &mut record) {
            Ok(true) => {}
            Ok(false) | Err(_) => return false,
        }
        if self.out.push(&record).is_err() {
            return false;
        }
        mailbox.sent(count);
        true
    }
}
