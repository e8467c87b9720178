//! A stream of frames, up to the first one that a role may not ask.

ghost use Rattle.std.specs.Prelude.{◌≡◌, ◌≤◌, ◌<◌, ◌+◌, ◌^◌, [], ℕ, List, length};
ghost use Rattle.std.specs.Prelude.{MatchOption, OnOk, OnErr, IfOk, ◌++◌};
ghost use Rattle.ts_access.specs.Frames.{Says};
ghost use Rattle.ts_access.specs.Sifted.{IsSieve};
ghost use Rattle.ts_access.specs.Sifting.{Came, Passes, Sifts, Starts, handed_by};
ghost use Rattle.ts_access.specs.declared.sieve.Phase.TheVariants as phases;

use crate::key::Role;
use crate::rights::may;
use std::alloc::{AllocError, Global};
use std::cmp::min;
use ts_queue::Queue;

/// The least and the most octets behind a frame's length.
const MIN_LENGTH: usize = 2;

const MAX_LENGTH: usize = 8_388_608;

/// How many octets of a frame say whether it may be asked.
const HEAD: usize = 8;

/// What is handed on in the place of a frame that the role may not ask: a frame of kind 00, which a
/// server refuses as of no kind that it takes.
pub(crate) const REFUSAL: [u8; 6] = [0, 0, 0, 2, 2, 0];

/// Where a sieve is in its stream.
#[derive(Clone, Copy, Debug, PartialEq, Eq)]
pub enum Phase {
    /// At the beginning of a frame.
    Head,
    /// In a frame that may be asked, of which so many octets have not been handed on.
    Frame(usize),
    /// At or behind a length that no frame has: the reader behind refuses it.
    Faulty,
    /// At or behind the first frame that may not be asked.
    Refused,
}

/// Hands on a stream of frames as it comes, up to the first frame that a role may not ask of a
/// node.
#[derive(Drop)]
pub struct Sieve {
    alloc: Global,
    role: Role,
    node: u8,
    phase: Phase,
    /// What came and was not handed on.
    held: Queue,
}

/// The number that begins here.
fn length_at(octets: &[u8]) -> Option<u32>
    ensures { MatchOption result (length octets.now < 4) (Says octets.now) }
{
    if octets.len() < 4 {
        return None;
    }
    Some(u32::from_be_bytes([octets[0], octets[1], octets[2], octets[3]]))
}

/// Where a stream is whose next frame begins here.
fn phase_at(role: Role, node: u8, octets: &[u8]) -> Phase
    ensures { Starts role node octets.now result }
{
    let Some(size) = length_at(octets) else {
        return Phase::Head;
    };
    let size = size as usize;
    if size < MIN_LENGTH || size > MAX_LENGTH {
        return Phase::Faulty;
    }
    let whole = 4 + size;
    if octets.len() < whole && octets.len() < HEAD {
        return Phase::Head;
    }
    let frame = &octets[..min(whole, octets.len())];
    if may(role, node, frame) {
        Phase::Frame(whole)
    } else {
        Phase::Refused
    }
}

impl Sieve {
    /// A stream of which nothing has come.
    pub fn new(alloc: Global, role: Role, node: u8) -> Sieve
        ensures role { result.role ≡ role }
        ensures node { result.node ≡ node }
        ensures begins { IsSieve result [] [] }
    {
        Sieve {
            alloc,
            role,
            node,
            phase: Phase::Head,
            held: Queue::new(alloc),
        }
    }

    /// What the stream's sender is to the node.
    pub fn role(&self) -> Role
        ensures { result ≡ self.now.role }
    {
        self.role
    }

    /// How many octets are held. Where all was taken that can be, they are fewer than eight.
    pub fn held_count(&self) -> usize
        ensures { result ≡ length self.now.held }
    {
        self.held.len()
    }

    /// Holds a piece, or drops it.
    fn receive(&mut self, piece: &[u8]) -> Result<(), AllocError>
        ensures came { OnOk result (Came self.old piece.now self.new) }
        ensures unchanged { OnErr result (self.new ≡ self.old) }
    {
        match self.phase {
            Phase::Refused => Ok(()),
            _ => self.held.push(piece),
        }
    }

    /// Takes the next piece of the stream. Behind a frame that may not be asked it is dropped.
    ///
    /// # Errors
    ///
    /// Memory that is refused. Nothing changes then.
    pub fn push(&mut self, piece: &[u8]) -> Result<(), AllocError>
        ensures came { OnOk result (Came self.old piece.now self.new) }
        ensures unchanged { OnErr result (self.new ≡ self.old) }
        ensures is { (stream handed : List ℕ) → IsSieve self.old stream handed
            → OnOk result (IsSieve self.new (stream ++ piece.now) handed) }
    {
        self.receive(piece)
    }

    /// Hands on what there is of a frame of which so many octets have not been handed on.
    fn pass(&mut self, left: usize) -> Result<Vec<u8>, AllocError>
        ensures passes { IfOk result (λ octets. Passes (phases.Frame left) self.old.held
            octets.items self.new.held self.new.phase) }
        ensures unchanged { OnErr result (self.new ≡ self.old) }
        ensures role { self.new.role ≡ self.old.role }
        ensures node { self.new.node ≡ self.old.node }
    {
        let count = self.held.len();
        if count < left {
            let octets = Vec::from_slice(self.alloc, self.held.octets())?;
            self.held.clear();
            self.phase = Phase::Frame(left - count);
            return Ok(octets);
        }
        let octets = Vec::from_slice(self.alloc, &self.held.octets()[..left])?;
        self.held.skip(left);
        self.phase = Phase::Head;
        Ok(octets)
    }

    /// Hands on all that there is.
    fn pass_all(&mut self) -> Result<Vec<u8>, AllocError>
        ensures passes { IfOk result (λ octets. Passes phases.Faulty self.old.held octets.items
            self.new.held self.new.phase) }
        ensures unchanged { OnErr result (self.new ≡ self.old) }
        ensures role { self.new.role ≡ self.old.role }
        ensures node { self.new.node ≡ self.old.node }
    {
        let octets = Vec::from_slice(self.alloc, self.held.octets())?;
        self.held.clear();
        self.phase = Phase::Faulty;
        Ok(octets)
    }

    /// Drops all that there is, and hands on the frame of no kind.
    fn refuse(&mut self) -> Result<Vec<u8>, AllocError>
        ensures passes { IfOk result (λ octets. Passes phases.Refused self.old.held octets.items
            self.new.held self.new.phase) }
        ensures unchanged { OnErr result (self.new ≡ self.old) }
        ensures role { self.new.role ≡ self.old.role }
        ensures node { self.new.node ≡ self.old.node }
    {
        let octets = Vec::from_slice(self.alloc, &REFUSAL)?;
        self.held.clear();
        self.phase = Phase::Refused;
        Ok(octets)
    }

    /// Hands on the next octets.
    fn sift(&mut self) -> Result<Option<Vec<u8>>, AllocError>
        ensures { Sifts self.old result self.new }
    {
        if self.held.len() == 0 {
            return Ok(None);
        }
        let phase = match self.phase {
            Phase::Head => phase_at(self.role, self.node, self.held.octets()),
            phase => phase,
        };
        let octets = match phase {
            Phase::Head => return Ok(None),
            Phase::Frame(left) => self.pass(left)?,
            Phase::Faulty => self.pass_all()?,
            Phase::Refused => self.refuse()?,
        };
        Ok(Some(octets))
    }

    /// The next octets to hand on, of one frame at most; `None` where there are none, or too few to
    /// say whether their frame may be asked.
    ///
    /// # Errors
    ///
    /// Memory that is refused. Nothing changes then.
    pub fn take(&mut self) -> Result<Option<Vec<u8>>, AllocError>
        ensures sifts { Sifts self.old result self.new }
        ensures is { (stream handed : List ℕ) → IsSieve self.old stream handed
            → IsSieve self.new stream (handed ++ handed_by result) }
    {
        self.sift()
    }
}
