//! The client's side of a connection with keys.

ghost use Rattle.std.specs.Prelude.{◌≡◌, IfOk, IfErr, OnOk, OnErr};
ghost use Rattle.std.specs.Prelude.{MatchResult, []};
ghost use Rattle.ts_guard.specs.Hello.{greeting_octets};
ghost use Rattle.ts_access.specs.Visiting.{Answers, HasCome, IsSame, IsUnanswered, OpensNext};
ghost use Rattle.ts_access.specs.Visiting.{OpensNone, SealsIn, SealsNext, Steps, Stops, Takes};
ghost use Rattle.ts_access.specs.Visiting.{has_begun, held_in};
ghost use Rattle.ts_access.specs.declared.visitor.Visit.TheVariants as visits;
ghost use Rattle.ts_guard.specs.declared.greeter.Greeter.{Greeter};

use crate::fault::EntranceFault;
use std::alloc::{AllocError, Global};
use std::mem::replace;
use ts_guard::{Channel, GREETING_LENGTH, Greeter, Greeting, GuardFault};

/// How far a connection is.
#[derive(Drop)]
pub(crate) enum Visit {
    /// The challenge is not whole yet.
    Waits(Greeter),
    /// The challenge came.
    Open(Channel),
    /// Nothing is let through any more.
    Closed,
}

/// The client's side of one connection. Its nonce has to be new for each connection: 32 octets at
/// random.
#[derive(Drop)]
pub struct Visitor {
    alloc: Global,
    greeting: Greeting,
    secret: [u8; 32],
    visit: Visit,
}

/// Begins the connection once the challenge is whole.
fn answer(
    greeter: Greeter,
    alloc: Global,
    secret: &[u8; 32],
) -> Result<(Visit, Option<Vec<u8>>), EntranceFault>
    ensures { MatchResult result (λ step. Answers secret.now greeter step.0 step.1)
        (IsUnanswered greeter) }
{
    let Some(challenge) = greeter.challenge()? else {
        return Ok((Visit::Waits(greeter), None));
    };
    let channel = greeter.begin(challenge, secret);
    Ok((Visit::Open(channel), Some(Vec::new(alloc))))
}

/// Opens the next record.
fn open_next(channel: &mut Channel) -> Result<Option<Vec<u8>>, EntranceFault>
    ensures opens { IfOk result (λ octets. OpensNext channel.old octets channel.new) }
    ensures ends { IfErr result (OpensNone channel.old) }
{
    let octets = channel.opener.take()?;
    Ok(octets)
}

/// Seals octets into one record, behind other octets.
fn seal_next(channel: &mut Channel, octets: &[u8], out: &mut Vec<u8>) -> Result<bool, GuardFault>
    ensures { SealsNext channel.old octets.now out.old.items result channel.new out.new.items }
{
    match channel.sealer.seal(octets, out) {
        Ok(()) => Ok(true),
        Err(fault) => Err(fault),
    }
}

impl Visit {
    /// Goes on by one step.
    fn step(
        self,
        alloc: Global,
        secret: &[u8; 32],
    ) -> Result<(Visit, Option<Vec<u8>>), EntranceFault>
        ensures { MatchResult result (λ step. Steps secret.now self step.1 step.0) (Stops self) }
    {
        match self {
            Visit::Waits(greeter) => answer(greeter, alloc, secret),
            Visit::Open(channel) => {
                let mut channel = channel;
                let octets = open_next(&mut channel)?;
                Ok((Visit::Open(channel), octets))
            }
            Visit::Closed => Ok((Visit::Closed, None)),
        }
    }
}

impl Visitor {
    /// A connection with this key of which nothing has come.
    pub fn new(alloc: Global, key_id: u32, secret: [u8; 32], nonce: [u8; 32]) -> Visitor
        ensures key_id { result.greeting.key_id ≡ key_id }
        ensures nonce { result.greeting.nonce ≡ nonce }
        ensures secret { result.secret ≡ secret }
        ensures begins { (greeter : Greeter) × (result.visit ≡ visits.Waits greeter)
            × (greeter.greeting ≡ result.greeting) × (greeter.held ≡ []) }
    {
        let greeting = Greeting { key_id, nonce };
        Visitor {
            alloc,
            greeting,
            secret,
            visit: Visit::Waits(Greeter::new(alloc, greeting)),
        }
    }

    /// What the client sends first. It need not wait for the challenge.
    pub fn hello(&self) -> [u8; GREETING_LENGTH]
        ensures { result ≡ greeting_octets self.now.greeting.key_id self.now.greeting.nonce }
    {
        Greeter::new(self.alloc, self.greeting).hello()
    }

    /// Whether the challenge came, so that `seal` works.
    pub fn has_begun(&self) -> bool
        ensures { result ≡ has_begun self.now.visit }
    {
        matches!(&self.visit, Visit::Open(_))
    }

    /// How many octets that came are held. Each call of `take` that answers `Some` leaves fewer.
    pub fn held_count(&self) -> usize
        ensures { result ≡ held_in self.now.visit }
    {
        match &self.visit {
            Visit::Waits(greeter) => greeter.held_count(),
            Visit::Open(channel) => channel.opener.held_count(),
            Visit::Closed => 0,
        }
    }

    /// Takes the next octets that came. Where nothing is let through any more they are dropped.
    ///
    /// # Errors
    ///
    /// Memory that is refused. Nothing changes then.
    pub fn push(&mut self, piece: &[u8]) -> Result<(), AllocError>
        ensures same { IsSame self.old self.new }
        ensures came { OnOk result (HasCome self.old.visit piece.now self.new.visit) }
        ensures unchanged { OnErr result (self.new.visit ≡ self.old.visit) }
    {
        match &mut self.visit {
            Visit::Waits(greeter) => greeter.push(piece),
            Visit::Open(channel) => channel.opener.push(piece),
            Visit::Closed => Ok(()),
        }
    }

    /// Goes on by one step: the next octets of the server's answers; or no octets, where the
    /// challenge came, and there may be more at the next call; `None` where there is nothing more
    /// without more octets.
    ///
    /// # Errors
    ///
    /// What is wrong with the challenge or the next record; memory that is refused. Nothing is let
    /// through or sealed any more then.
    pub fn take(&mut self) -> Result<Option<Vec<u8>>, EntranceFault>
        ensures same { IsSame self.old self.new }
        ensures takes { Takes self.old result self.new }
    {
        let visit = replace(&mut self.visit, Visit::Closed);
        let (visit, octets) = visit.step(self.alloc, &self.secret)?;
        self.visit = visit;
        Ok(octets)
    }

    /// Seals 1 to 65,536 octets of the requests into one record, behind other octets; `false` where
    /// the challenge has not come, and then nothing changes.
    ///
    /// # Errors
    ///
    /// `Length` for other octets; `Number` where all numbers are used; memory that is refused.
    /// Nothing changes then.
    pub fn seal(&mut self, octets: &[u8], out: &mut Vec<u8>) -> Result<bool, GuardFault>
        ensures same { IsSame self.old self.new }
        ensures seals { SealsIn self.old.visit octets.now out.old.items result self.new.visit
            out.new.items }
    {
        match &mut self.visit {
            Visit::Open(channel) => seal_next(channel, octets, out),
            _ => Ok(false),
        }
    }
}
