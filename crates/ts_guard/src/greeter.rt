//! The client's side of a connection, until a challenge came.

ghost use Rattle.std.specs.Prelude.{◌≡◌, ◌≤◌, ◌++◌, [], drop, length, OnOk, OnErr, MatchResult};
ghost use Rattle.std.specs.Prelude.{MatchOption};
ghost use Rattle.ts_guard.specs.Hello.{IsHelloFault, IsPartHello, challenge_octets};
ghost use Rattle.ts_guard.specs.Hello.{greeting_octets};
ghost use Rattle.ts_guard.specs.Channels.{IsChannel, client_session};
ghost use Rattle.ts_guard.specs.declared.session.Direction.TheVariants.{FromClient, FromServer};

use crate::channel::Channel;
use crate::fault::HelloFault;
use crate::hello::{CHALLENGE_LENGTH, GREETING_LENGTH, Greeting, challenge_in, greeting_octets};
use crate::opener::Opener;
use crate::sealer::Sealer;
use crate::session::{Direction, Session};
use std::alloc::{AllocError, Global};
use ts_queue::Queue;

/// A client that waits for a challenge. Its nonce has to be new for each connection, so that no
/// server can play an old one to it: 32 octets at random.
#[derive(Drop)]
pub struct Greeter {
    alloc: Global,
    greeting: Greeting,
    held: Queue,
}

impl Greeter {
    /// A connection of which nothing has come.
    pub fn new(alloc: Global, greeting: Greeting) -> Greeter
        ensures greeting { result.greeting ≡ greeting }
        ensures held { result.held ≡ [] }
    {
        Greeter {
            alloc,
            greeting,
            held: Queue::new(alloc),
        }
    }

    /// What the client sends first. It need not wait for the challenge.
    pub fn hello(&self) -> [u8; GREETING_LENGTH]
        ensures { result ≡ greeting_octets self.now.greeting.key_id self.now.greeting.nonce }
    {
        greeting_octets(&self.greeting)
    }

    /// Takes the next piece of what the server sends.
    ///
    /// # Errors
    ///
    /// Memory that is refused. Nothing changes then.
    pub fn push(&mut self, piece: &[u8]) -> Result<(), AllocError>
        ensures pushed { OnOk result (self.new.held ≡ self.old.held ++ piece.now) }
        ensures unchanged { OnErr result (self.new.held ≡ self.old.held) }
        ensures greeting { self.new.greeting ≡ self.old.greeting }
    {
        self.held.push(piece)
    }

    /// How many octets are held, of the challenge and behind it.
    pub fn held_count(&self) -> usize
        ensures { result ≡ length self.now.held }
    {
        self.held.len()
    }

    /// What the server says first; `None` where it is not whole yet.
    ///
    /// # Errors
    ///
    /// What is wrong in its place.
    pub fn challenge(&self) -> Result<Option<[u8; 32]>, HelloFault>
        ensures { MatchResult result
            (λ found. MatchOption found (IsPartHello 34 0x40 self.now.held)
            (λ challenge. (38 ≤ length self.now.held)
            × (self.now.held ≡ challenge_octets challenge ++ drop 38 self.now.held)))
            (λ fault. IsHelloFault 34 0x40 self.now.held fault) }
    {
        challenge_in(self.held.octets())
    }

    /// The connection, once the challenge came. What came behind the challenge is held by its
    /// opener.
    pub fn begin(self, challenge: [u8; 32], key: &[u8]) -> Channel
        requires { 38 ≤ length self.held }
        ensures { IsChannel key.now (client_session self challenge) FromServer FromClient
            (drop 38 self.held) result }
    {
        let Greeter {
            alloc,
            greeting,
            mut held,
        } = self;
        held.skip(CHALLENGE_LENGTH);
        let nonce = greeting.nonce;
        let session = Session {
            key_id: greeting.key_id,
            challenge,
            nonce,
        };
        Channel {
            opener: Opener::after(alloc, key, &session, Direction::FromServer, held),
            sealer: Sealer::new(key, &session, Direction::FromClient),
        }
    }
}
