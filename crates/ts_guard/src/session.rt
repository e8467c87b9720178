//! What the tags on a connection speak for.

ghost use Rattle.std.specs.Prelude.{◌≡◌};
ghost use Rattle.ts_hmac.specs.Holding.{Holds};
ghost use Rattle.ts_guard.specs.Session.{context, direction_octet};

use ts_hmac::Hmac;

/// The name of the protocol and its version, at the front of what each tag vouches for.
const LABEL: &[u8] = b"lehoratu 3";

/// From which side of a connection a record comes.
#[derive(Clone, Copy, Debug, PartialEq, Eq)]
pub enum Direction {
    FromClient,
    FromServer,
}

/// A connection, by what each side has put into it.
#[derive(Clone, Copy, Debug, PartialEq, Eq)]
pub struct Session {
    /// The number of the key that the client has named.
    pub key_id: u32,
    /// The server's 32 octets.
    pub challenge: [u8; 32],
    /// The client's 32 octets.
    pub nonce: [u8; 32],
}

impl Direction {
    /// The octet of a direction in what tags vouch for.
    fn octet(self) -> u8
        ensures { result ≡ direction_octet self }
    {
        match self {
            Direction::FromClient => 0,
            Direction::FromServer => 1,
        }
    }
}

/// The tags' common beginning, of a key, a connection and a direction.
pub(crate) fn begin_tags(key: &[u8], session: &Session, direction: Direction) -> Hmac
    ensures { Holds result key.now (context session.now direction) }
{
    let mut hmac = Hmac::new(key);
    hmac.update(LABEL);
    hmac.update(&session.key_id.to_be_bytes());
    hmac.update(&session.challenge);
    hmac.update(&session.nonce);
    hmac.update(&[direction.octet()]);
    hmac
}
