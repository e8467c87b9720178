//! What a node knows of a peer.

ghost use Rattle.std.specs.Prelude.{◌≡◌, true};
ghost use Rattle.ts_carrier.specs.Contact.{after_end, after_octets, after_prefix, after_reach};
ghost use Rattle.ts_carrier.specs.Contact.{after_write, end_of, is_mute, is_to_ask, new_contact};

use crate::dial::is_silent;

/// How many milliseconds pass until a peer is asked again how many commands it knows.
const BEAT: u64 = 1_000;

/// What the end of a connection to a peer says.
#[derive(Clone, Copy, Debug, PartialEq, Eq)]
pub enum ContactEnd {
    /// Nothing new: there was no connection, or such an end was said before.
    Quiet,
    /// The peer had said how many commands it knows.
    Lost,
    /// It had not.
    Unanswered,
}

/// What a node knows of a peer, by what came on the connection to it. Moments are milliseconds.
#[derive(Clone, Copy, Debug, PartialEq, Eq)]
pub struct Contact {
    /// How many commands the peer has said that it knows.
    pub prefix: u32,
    /// When octets last came from it, or a connection to it was made last.
    pub heard: u64,
    /// When it was asked last.
    pub asked: u64,
    /// How many octets were written to it since it was heard.
    pub sent: u64,
    /// Whether it has said on this connection that it is the node that is meant.
    pub is_met: bool,
    /// Whether it has said on this connection how many commands it knows.
    pub is_known: bool,
    /// Whether it was said, since it was known last, that it does not answer.
    pub is_told: bool,
}

impl Contact {
    /// Nothing is known.
    pub fn new() -> Contact
        ensures { result ≡ new_contact }
    {
        Contact {
            prefix: 0,
            heard: 0,
            asked: 0,
            sent: 0,
            is_met: false,
            is_known: false,
            is_told: false,
        }
    }

    /// There is a connection, and the peer is asked which node it is.
    pub fn reach(&mut self, now: u64)
        ensures { self.new ≡ after_reach self.old now }
    {
        self.heard = now;
        self.asked = now;
        self.sent = 0;
        self.is_met = false;
        self.is_known = false;
    }

    /// Octets came from the peer.
    pub fn hear(&mut self, now: u64)
        ensures { self.new ≡ after_octets self.old now }
    {
        self.heard = now;
        self.sent = 0;
    }

    /// So many octets were written to it.
    pub fn write(&mut self, count: usize)
        ensures { self.new ≡ after_write self.old count }
    {
        self.sent = self.sent.saturating_add(count as u64);
    }

    /// Whether it is silent for too long.
    pub fn is_silent(self, now: u64) -> bool
        ensures { result ≡ is_mute self now }
    {
        is_silent(self.heard, self.sent, now)
    }

    /// Whether it is time to ask it how many commands it knows.
    pub fn is_to_ask(self, now: u64) -> bool
        ensures { result ≡ is_to_ask self now }
    {
        self.is_met && now.saturating_sub(self.asked) >= BEAT && self.heard >= self.asked
    }

    /// It is asked how many commands it knows.
    pub fn ask(&mut self, now: u64)
        ensures { self.new ≡ record self.old { asked = now } }
    {
        self.asked = now;
    }

    /// It has said that it is the node that is meant.
    pub fn meet(&mut self)
        ensures { self.new ≡ record self.old { is_met = true } }
    {
        self.is_met = true;
    }

    /// It has said how many commands it knows.
    pub fn learn(&mut self, prefix: u32)
        ensures { self.new ≡ after_prefix self.old prefix }
    {
        self.prefix = prefix;
        self.is_known = true;
        self.is_told = false;
    }

    /// The connection is lost, or where `was_up` is false, none was made.
    pub fn end(&mut self, was_up: bool) -> ContactEnd
        ensures end { result ≡ end_of self.old was_up }
        ensures after { self.new ≡ after_end self.old was_up }
    {
        self.is_met = false;
        if self.is_known {
            self.is_known = false;
            return ContactEnd::Lost;
        }
        if !was_up || self.is_told {
            return ContactEnd::Quiet;
        }
        self.is_told = true;
        ContactEnd::Unanswered
    }
}
