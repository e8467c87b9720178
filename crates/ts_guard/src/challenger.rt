//! The server's side of a connection, until a greeting came.

ghost use Rattle.std.specs.Prelude.{◌≡◌, ◌≤◌, ◌++◌, [], drop, length, OnOk, OnErr, MatchResult};
ghost use Rattle.std.specs.Prelude.{MatchOption};
ghost use Rattle.ts_guard.specs.Hello.{IsHelloFault, IsPartHello, challenge_octets};
ghost use Rattle.ts_guard.specs.Hello.{greeting_octets};
ghost use Rattle.ts_guard.specs.Channels.{IsChannel, server_session};
ghost use Rattle.ts_guard.specs.declared.session.Direction.TheVariants.{FromClient, FromServer};

use crate::channel::Channel;
use crate::fault::HelloFault;
use crate::hello::{CHALLENGE_LENGTH, GREETING_LENGTH, Greeting, challenge_octets, greeting_in};
use crate::opener::Opener;
use crate::sealer::Sealer;
use crate::session::{Direction, Session};
use std::alloc::{AllocError, Global};
use ts_queue::Queue;

/// A server that waits for a greeting. Its challenge has to be new for each connection: 32 octets
/// at random.
#[derive(Drop)]
pub struct Challenger {
    alloc: Global,
    challenge: [u8; 32],
    held: Queue,
}

impl Challenger {
    /// A connection of which nothing has come.
    pub fn new(alloc: Global, challenge: [u8; 32]) -> Challenger
        ensures challenge { result.challenge ≡ challenge }
        ensures held { result.held ≡ [] }
    {
        Challenger {
            alloc,
            challenge,
            held: Queue::new(alloc),
        }
    }

    /// What the server sends first.
    pub fn hello(&self) -> [u8; CHALLENGE_LENGTH]
        ensures { result ≡ challenge_octets self.now.challenge }
    {
        challenge_octets(&self.challenge)
    }

    /// Takes the next piece of what the client sends.
    ///
    /// # Errors
    ///
    /// Memory that is refused. Nothing changes then.
    pub fn push(&mut self, piece: &[u8]) -> Result<(), AllocError>
        ensures pushed { OnOk result (self.new.held ≡ self.old.held ++ piece.now) }
        ensures unchanged { OnErr result (self.new.held ≡ self.old.held) }
        ensures challenge { self.new.challenge ≡ self.old.challenge }
    {
        self.held.push(piece)
    }

    /// How many octets are held, of the greeting and behind it.
    pub fn held_count(&self) -> usize
        ensures { result ≡ length self.now.held }
    {
        self.held.len()
    }

    /// What the client says first; `None` where it is not whole yet.
    ///
    /// # Errors
    ///
    /// What is wrong in its place.
    pub fn greeting(&self) -> Result<Option<Greeting>, HelloFault>
        ensures { MatchResult result
            (λ found. MatchOption found (IsPartHello 38 0x41 self.now.held)
            (λ greeting. (42 ≤ length self.now.held)
            × (self.now.held
            ≡ greeting_octets greeting.key_id greeting.nonce ++ drop 42 self.now.held)))
            (λ fault. IsHelloFault 38 0x41 self.now.held fault) }
    {
        greeting_in(self.held.octets())
    }

    /// The connection, once the greeting came that names this key. What came behind the greeting is
    /// held by its opener.
    pub fn accept(self, greeting: Greeting, key: &[u8]) -> Channel
        requires { 42 ≤ length self.held }
        ensures { IsChannel key.now (server_session self greeting) FromClient FromServer
            (drop 42 self.held) result }
    {
        let Challenger {
            alloc,
            challenge,
            mut held,
        } = self;
        held.skip(GREETING_LENGTH);
        let nonce = greeting.nonce;
        let session = Session {
            key_id: greeting.key_id,
            challenge,
            nonce,
        };
        Channel {
            opener: Opener::after(alloc, key, &session, Direction::FromClient, held),
            sealer: Sealer::new(key, &session, Direction::FromServer),
        }
    }
}
