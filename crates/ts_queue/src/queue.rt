//! The queue.

ghost use Rattle.std.specs.Prelude.{◌≡◌, ◌≤◌, ◌++◌, [], length, drop, OnOk, OnErr};

use std::alloc::{AllocError, Global};
use std::marker::Model;

/// The most octets of room that an empty queue keeps.
pub const KEPT: usize = 65_536;

/// Octets in their order. Contracts see those that have not left.
#[derive(Drop)]
pub struct Queue {
    alloc: Global,
    buffer: Vec<u8>,
    /// Where the octets begin that have not left.
    start: usize,
}

impl Model for Queue {
    ghost use Rattle.std.specs.Prelude.{ℕ, List, drop, length, ◌≤◌};

    ghost Value = { List ℕ };

    ghost view = { λ q. drop q.start q.buffer.items };

    ghost invariant = { λ q. q.start ≤ length q.buffer.items };
}

impl Queue {
    /// No octets.
    pub fn new(alloc: Global) -> Queue
        ensures { result ≡ [] }
    {
        Queue {
            alloc,
            buffer: Vec::new(alloc),
            start: 0,
        }
    }

    /// How many octets there are.
    pub fn len(&self) -> usize
        ensures { result ≡ length self.now }
    {
        self.buffer.len() - self.start
    }

    /// The octets.
    pub fn octets(&self) -> &[u8]
        ensures { result.now ≡ self.now }
    {
        &self.buffer[self.start..]
    }

    /// Where all octets have left, begins the room anew, or lets it go if it is large.
    fn begin_anew(&mut self)
        ensures { self.new ≡ self.old }
    {
        if self.start < self.buffer.len() {
            return;
        }
        if self.buffer.capacity() > KEPT {
            self.buffer = Vec::new(self.alloc);
        } else {
            self.buffer.truncate(0);
        }
        self.start = 0;
    }

    /// Puts octets at the back.
    ///
    /// # Errors
    ///
    /// Memory that is refused. Nothing changes then.
    pub fn push(&mut self, piece: &[u8]) -> Result<(), AllocError>
        ensures pushed { OnOk result (self.new ≡ self.old ++ piece.now) }
        ensures unchanged { OnErr result (self.new ≡ self.old) }
    {
        if self.start <= self.buffer.len() / 2 {
            self.buffer.extend_from_slice(piece)?;
            return Ok(());
        }
        // More has left than is left: what is left goes to the front of new room.
        let mut buffer = Vec::from_slice(self.alloc, &self.buffer[self.start..])?;
        buffer.extend_from_slice(piece)?;
        self.buffer = buffer;
        self.start = 0;
        Ok(())
    }

    /// Lets this many octets leave at the front.
    pub fn skip(&mut self, count: usize)
        requires { count ≤ length self.old }
        ensures { self.new ≡ drop count self.old }
    {
        self.start += count;
        self.begin_anew();
    }

    /// Lets all octets go, and their room.
    pub fn clear(&mut self)
        ensures { self.new ≡ [] }
    {
        self.buffer = Vec::new(self.alloc);
        self.start = 0;
    }
}
