//! The server's side of a connection with keys.

ghost use Rattle.std.specs.Prelude.{◌≡◌, ◌-◌, ◌^◌, ◌++◌, [], ℕ, List, min, false, OnOk, OnErr};
ghost use Rattle.std.specs.Prelude.{MatchResult};
ghost use Rattle.ts_guard.specs.Hello.{challenge_octets};
ghost use Rattle.ts_access.specs.Entered.{HasHandedOn};
ghost use Rattle.ts_access.specs.Entering.{Greets, HasCome, IsSame, IsUngreeted, Steps, Stops};
ghost use Rattle.ts_access.specs.Entering.{Takes, has_begun, held_in, role_in, SealsIn};
ghost use Rattle.ts_access.specs.declared.key.Key.{Key};
ghost use Rattle.ts_access.specs.Sifting.{handed_by};

use crate::fault::EntranceFault;
use crate::key::{Key, Role};
use crate::keys::key_of;
use crate::line::Line;
use crate::sieve::Sieve;
use std::alloc::{AllocError, Global};
use std::mem::replace;
use ts_guard::{CHALLENGE_LENGTH, Challenger, GuardFault};

/// How far a connection is.
#[derive(Drop)]
pub(crate) enum Stage {
    /// The greeting is not whole yet.
    Waits(Challenger),
    /// The key was found.
    Open(Line),
    /// Nothing is let through any more.
    Closed,
}

/// The server's side of one connection. Its challenge has to be new for each connection: 32 octets
/// at random.
#[derive(Drop)]
pub struct Entrance {
    alloc: Global,
    node: u8,
    challenge: [u8; 32],
    stage: Stage,
}

/// Finds the key that the client names, once its greeting is whole.
fn greet(
    challenger: Challenger,
    alloc: Global,
    node: u8,
    keys: &[Key],
) -> Result<(Stage, Option<Vec<u8>>), EntranceFault>
    ensures { MatchResult result (λ step. Greets node keys.now challenger step.0 step.1)
        (IsUngreeted keys.now challenger) }
{
    let Some(greeting) = challenger.greeting()? else {
        return Ok((Stage::Waits(challenger), None));
    };
    let Some(key) = key_of(keys, greeting.key_id) else {
        return Err(EntranceFault::UnknownKey);
    };
    let channel = challenger.accept(greeting, &key.secret);
    let sieve = Sieve::new(alloc, key.role, node);
    let line = Line { channel, sieve };
    Ok((Stage::Open(line), Some(Vec::new(alloc))))
}

impl Stage {
    /// Goes on by one step.
    fn step(
        self,
        alloc: Global,
        node: u8,
        keys: &[Key],
    ) -> Result<(Stage, Option<Vec<u8>>), EntranceFault>
        ensures { MatchResult result (λ step. Steps node keys.now self step.1 step.0)
            (Stops keys.now self) }
    {
        match self {
            Stage::Waits(challenger) => greet(challenger, alloc, node, keys),
            Stage::Open(line) => {
                let mut line = line;
                let octets = line.take()?;
                Ok((Stage::Open(line), octets))
            }
            Stage::Closed => Ok((Stage::Closed, None)),
        }
    }
}

impl Entrance {
    /// A connection to this node of which nothing has come.
    pub fn new(alloc: Global, node: u8, challenge: [u8; 32]) -> Entrance
        ensures node { result.node ≡ node }
        ensures challenge { result.challenge ≡ challenge }
        ensures begins { (keys : List Key) → HasHandedOn keys result [] [] }
        ensures waits { has_begun result.stage ≡ false }
    {
        Entrance {
            alloc,
            node,
            challenge,
            stage: Stage::Waits(Challenger::new(alloc, challenge)),
        }
    }

    /// What the server sends first.
    pub fn hello(&self) -> [u8; CHALLENGE_LENGTH]
        ensures { result ≡ challenge_octets self.now.challenge }
    {
        Challenger::new(self.alloc, self.challenge).hello()
    }

    /// Whether the key was found, so that `seal` works.
    pub fn has_begun(&self) -> bool
        ensures { result ≡ has_begun self.now.stage }
    {
        matches!(&self.stage, Stage::Open(_))
    }

    /// The role of the key that was found.
    pub fn role(&self) -> Option<Role>
        ensures { result ≡ role_in self.now.stage }
    {
        match &self.stage {
            Stage::Open(line) => Some(line.sieve.role()),
            _ => None,
        }
    }

    /// How many octets that came are held. Each call of `take` that answers `Some` leaves fewer.
    pub fn held_count(&self) -> usize
        ensures { result ≡ min (2 ^ 64 - 1) (held_in self.now.stage) }
    {
        match &self.stage {
            Stage::Waits(challenger) => challenger.held_count(),
            Stage::Open(line) => line.held_count(),
            Stage::Closed => 0,
        }
    }

    /// Takes the next octets that came. Where nothing is let through any more they are dropped.
    ///
    /// # Errors
    ///
    /// Memory that is refused. Nothing changes then.
    pub fn push(&mut self, piece: &[u8]) -> Result<(), AllocError>
        ensures same { IsSame self.old self.new }
        ensures came { OnOk result (HasCome self.old.stage piece.now self.new.stage) }
        ensures unchanged { OnErr result (self.new.stage ≡ self.old.stage) }
        ensures handed { (keys : List Key) (came handed : List ℕ)
            → HasHandedOn keys self.old came handed
            → OnOk result (HasHandedOn keys self.new (came ++ piece.now) handed) }
    {
        match &mut self.stage {
            Stage::Waits(challenger) => challenger.push(piece),
            Stage::Open(line) => line.channel.opener.push(piece),
            Stage::Closed => Ok(()),
        }
    }

    /// Goes on by one step.
    fn go(&mut self, keys: &[Key]) -> Result<Option<Vec<u8>>, EntranceFault>
        ensures same { IsSame self.old self.new }
        ensures takes { Takes keys.now self.old result self.new }
    {
        let stage = replace(&mut self.stage, Stage::Closed);
        let (stage, octets) = stage.step(self.alloc, self.node, keys)?;
        self.stage = stage;
        Ok(octets)
    }

    /// Goes on by one step: the next octets to hand on to the reader of frames; or no octets, where
    /// the key was found or a record was opened, and there may be more at the next call; `None`
    /// where there is nothing more without more octets.
    ///
    /// # Errors
    ///
    /// What is wrong with the greeting or the next record; that no key has the number; memory that
    /// is refused. Nothing is let through or sealed any more then.
    pub fn take(&mut self, keys: &[Key]) -> Result<Option<Vec<u8>>, EntranceFault>
        ensures same { IsSame self.old self.new }
        ensures takes { Takes keys.now self.old result self.new }
        ensures handed { (came handed : List ℕ) → HasHandedOn keys.now self.old came handed
            → HasHandedOn keys.now self.new came (handed ++ handed_by result) }
    {
        self.go(keys)
    }

    /// Seals 1 to 65,536 octets of the answers into one record, behind other octets; `false` where
    /// there is no key, and then nothing changes.
    ///
    /// # Errors
    ///
    /// `Length` for other octets; `Number` where all numbers are used; memory that is refused.
    /// Nothing changes then.
    pub fn seal(&mut self, octets: &[u8], out: &mut Vec<u8>) -> Result<bool, GuardFault>
        ensures same { IsSame self.old self.new }
        ensures seals { SealsIn self.old.stage octets.now out.old.items result self.new.stage
            out.new.items }
        ensures handed { (keys : List Key) (came handed : List ℕ)
            → HasHandedOn keys self.old came handed → HasHandedOn keys self.new came handed }
    {
        match &mut self.stage {
            Stage::Open(line) => line.seal(octets, out),
            _ => Ok(false),
        }
    }
}
