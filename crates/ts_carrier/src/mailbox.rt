//! Frames that wait to be sent to a peer.

ghost use Rattle.std.specs.Prelude.{◌≡◌, ◌≤◌, ◌+◌, ◌-◌, ◌∷◌, ◌++◌, [], length, drop, nat_le};
ghost use Rattle.std.specs.Prelude.{IfOk, OnOk, OnErr};
ghost use Rattle.ts_carrier.specs.Mailbox.{OneReady, Same, fill, has_room, octets_in, total};
ghost use Rattle.ts_carrier.specs.Mailbox.{with_frame, with_room};

use std::alloc::{AllocError, Global};
use std::collections::VecDeque;
use ts_queue::Queue;

/// The most whole frames that wait.
pub const MAX_FRAMES: usize = 256;

/// The most octets of whole frames that wait for a peer that is reached. 32 of the longest commands
/// are given for one question of a node that catches up, and fit.
pub const MOST_REACHED: usize = 167_772_160;

/// The most octets of whole frames that wait for a peer that is not.
pub const MOST_LOST: usize = 16_777_216;

/// How many octets are made ready to be sent, if so many wait.
const READY: usize = 16_384;

/// Frames that wait to be sent to a peer, in the order in which they came.
#[derive(Drop)]
pub struct Mailbox {
    frames: VecDeque<Vec<u8>>,
    /// The octets that are being sent.
    ready: Queue,
}

impl Mailbox {
    /// Nothing waits.
    pub fn new(alloc: Global) -> Mailbox
        ensures frames { result.frames.items ≡ [] }
        ensures ready { result.ready ≡ [] }
    {
        Mailbox {
            frames: VecDeque::new(alloc),
            ready: Queue::new(alloc),
        }
    }

    /// How many whole frames wait.
    pub fn len(&self) -> usize
        ensures { result ≡ length self.now.frames.items }
    {
        self.frames.len()
    }

    /// Whether the frames that wait have at most so many octets.
    fn fits(&self, budget: usize) -> bool
        ensures { result ≡ nat_le (total self.now.frames.items) budget }
    {
        let mut left = budget;
        for frame in self.frames.iter() {
            match left.checked_sub(frame.len()) {
                Some(rest) => left = rest,
                None => return false,
            }
        }
        true
    }

    /// Whether there is room for one frame more beside those that wait, which may have so many
    /// octets.
    fn has_room(&self, budget: usize) -> bool
        ensures { result ≡ has_room budget self.now.frames.items }
    {
        self.frames.len() < MAX_FRAMES && self.fits(budget)
    }

    /// The oldest frames go, until there is room for one frame more beside those that wait, which
    /// may have so many octets: how many go.
    pub fn make_room(&mut self, budget: usize) -> usize
        ensures frames { self.new.frames.items ≡ with_room budget self.old.frames.items }
        ensures gone { result + length self.new.frames.items ≡ length self.old.frames.items }
        ensures ready { self.new.ready ≡ self.old.ready }
    {
        let before = self.frames.len();
        while !self.frames.is_empty() && !self.has_room(budget) {
            let _oldest = self.frames.pop_front();
        }
        before - self.frames.len()
    }

    /// Puts a frame behind the others. Where there is no room for it, as [`MAX_FRAMES`] wait, or it
    /// and those that wait have more than `most` octets, the oldest of them go: how many do. One
    /// that has more than `most` by itself is put all the same.
    ///
    /// # Errors
    ///
    /// Memory that is refused. The frame is lost then, and so are those that had to go.
    pub fn put(&mut self, frame: Vec<u8>, most: usize) -> Result<usize, AllocError>
        ensures put { OnOk result
            (self.new.frames.items ≡ with_frame most self.old.frames.items frame) }
        ensures gone { IfOk result (λ gone.
            gone + length self.new.frames.items ≡ length self.old.frames.items + 1) }
        ensures lost { OnErr result (self.new.frames.items
            ≡ with_room (most - length frame.items) self.old.frames.items) }
        ensures ready { self.new.ready ≡ self.old.ready }
    {
        let gone = self.make_room(most.saturating_sub(frame.len()));
        self.frames.push_back(frame)?;
        Ok(gone)
    }

    /// Makes octets ready to be sent before all frames that wait.
    ///
    /// # Errors
    ///
    /// Memory that is refused. Nothing changes then.
    pub fn begin(&mut self, octets: &[u8]) -> Result<(), AllocError>
        ensures ready { OnOk result (self.new.ready ≡ self.old.ready ++ octets.now) }
        ensures unchanged { OnErr result (self.new.ready ≡ self.old.ready) }
        ensures frames { self.new.frames ≡ self.old.frames }
    {
        self.ready.push(octets)
    }

    /// Makes the first frame that waits ready to be sent.
    ///
    /// # Errors
    ///
    /// Memory that is refused. Nothing changes then.
    fn ready_one(&mut self) -> Result<(), AllocError>
        ensures one { OnOk result (OneReady self.old self.new) }
        ensures unchanged { OnErr result (Same self.old self.new) }
    {
        let Some(frame) = self.frames.front() else {
            return Ok(());
        };
        self.ready.push(frame)?;
        let _ready = self.frames.pop_front();
        Ok(())
    }

    /// Makes frames ready to be sent, one after another, until [`READY`] octets are or none waits.
    ///
    /// # Errors
    ///
    /// Memory that is refused. The frame and those behind it wait on.
    pub fn fill(&mut self) -> Result<(), AllocError>
        ensures filled { OnOk result (fill self.old.ready self.old.frames.items
            ≡ (self.new.ready, self.new.frames.items)) }
        ensures same { octets_in self.new ≡ octets_in self.old }
    {
        while self.ready.len() < READY && !self.frames.is_empty() {
            self.ready_one()?;
        }
        Ok(())
    }

    /// The octets that are ready to be sent.
    pub fn octets(&self) -> &[u8]
        ensures { result.now ≡ self.now.ready }
    {
        self.ready.octets()
    }

    /// So many octets of those that were ready have been sent.
    pub fn sent(&mut self, count: usize)
        requires { count ≤ length self.old.ready }
        ensures ready { self.new.ready ≡ drop count self.old.ready }
        ensures frames { self.new.frames ≡ self.old.frames }
    {
        self.ready.skip(count);
    }

    /// The connection broke: what was being sent is lost. Whole frames go on waiting.
    pub fn cut(&mut self)
        ensures ready { self.new.ready ≡ [] }
        ensures frames { self.new.frames ≡ self.old.frames }
    {
        self.ready.clear();
    }
}
