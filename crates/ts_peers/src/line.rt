//! The line to a peer: a connection that is made, used and made again.

ghost use Rattle.std.specs.Prelude.{◌≡◌, ℕ, Bool, List, false, true};
ghost use Rattle.ts_peers.specs.Waiting.{all_pass};

use crate::hearing::{identity_in, take_answer};
use crate::seal::Seal;
use mio::event::Event;
use mio::net::TcpStream;
use mio::{Interest, Registry, Token};
use std::alloc::Global;
use std::net::{Net, SocketAddr};
use std::random::RandomSource;
use ts_access::Key;
use ts_carrier::{Contact, ContactEnd, Dial, MOST_LOST, MOST_REACHED, Mailbox, Phase, SILENCE};
use ts_links::Service;
use ts_node::Identity;
use ts_sockets::{PIECE, Socket};
use ts_wire::{Feed, Frame};

/// The frame Identify, by which a peer is asked which node of which group it is.
const IDENTIFY: [u8; 6] = [0, 0, 0, 2, 2, 0x17];

/// The frame Status, by which a peer is asked how many commands it knows.
const STATUS: [u8; 6] = [0, 0, 0, 2, 2, 0x15];

/// The most reads and writes of a line in one round.
const CALLS: u32 = 16;

/// What became of a line in a round.
#[derive(Clone, Copy, Debug, PartialEq, Eq)]
pub(crate) enum LineChange {
    /// Nothing that anybody has to be told.
    None,
    /// The peer was reached.
    Reached,
    /// The peer was lost.
    Lost,
    /// The peer ended the connection before it answered.
    Refused,
    /// It is another node than was meant, or one of another group.
    Stranger(Identity),
}

/// What a round of a line has at hand.
#[derive(Clone, Copy)]
pub(crate) struct LineRound<'a> {
    pub registry: &'a Registry,
    pub token: Token,
    /// The key that the node shows, if it has one.
    pub own: &'a Option<Key>,
    /// The moment, in milliseconds.
    pub now: u64,
    /// Any number.
    pub chance: u64,
}

/// The line to a peer.
#[derive(Drop)]
pub struct Line {
    alloc: Global,
    /// The number of the peer.
    pub node: u8,
    /// Which node of which group it has to be.
    expected: Identity,
    address: SocketAddr,
    mailbox: Mailbox,
    dial: Dial,
    socket: Option<Socket>,
    seal: Option<Seal>,
    answers: Feed,
    /// What is known of the peer.
    contact: Contact,
    /// Which node it is, if it is another one than is meant.
    stranger: Option<Identity>,
    /// How many messages to it were dropped.
    pub dropped: u64,
}

impl Line {
    /// The line to a peer of a node, which is down.
    pub(crate) fn new(alloc: Global, own: Identity, node: u8, address: SocketAddr) -> Line {
        Line {
            alloc,
            node,
            expected: Identity { node, ..own },
            address,
            mailbox: Mailbox::new(alloc),
            dial: Dial::new(),
            socket: None,
            seal: None,
            answers: Feed::new(alloc),
            contact: Contact::new(),
            stranger: None,
            dropped: 0,
        }
    }

    /// The most octets of messages that wait: for a peer that is lost far fewer.
    fn most(&self) -> usize {
        if self.contact.is_met {
            MOST_REACHED
        } else {
            MOST_LOST
        }
    }

    /// So many messages were dropped.
    fn count_dropped(&mut self, count: usize)
        ensures { self.new ≡ record self.old { dropped = self.new.dropped } }
    {
        self.dropped = self.dropped.saturating_add(count as u64);
    }

    /// Puts a frame behind those that wait for the peer. Without memory it is dropped.
    pub(crate) fn put(&mut self, frame: Vec<u8>)
        ensures node { self.new.node ≡ self.old.node }
        ensures passes { (test : ℕ → List ℕ → Bool) → all_pass test self.old ≡ true
            → test self.old.node frame.items ≡ true → all_pass test self.new ≡ true }
    {
        let waiting = self.mailbox.len();
        let most = self.most();
        let gone = match self.mailbox.put(frame, most) {
            Ok(gone) => gone,
            Err(_) => waiting.saturating_sub(self.mailbox.len()).saturating_add(1),
        };
        self.count_dropped(gone);
    }

    /// What is known of the peer.
    pub fn contact(&self) -> Contact {
        self.contact
    }

    /// How many messages wait for the peer.
    pub fn waiting(&self) -> usize {
        self.mailbox.len()
    }

    /// An event of its socket.
    pub(crate) fn mark(&mut self, event: &Event) {
        if let Some(socket) = &mut self.socket {
            socket.mark(event);
        }
    }

    /// The connection is lost, or was not made.
    fn lose(&mut self, round: LineRound<'_>) -> LineChange {
        let was_up = matches!(self.dial.phase, Phase::Up { .. });
        self.socket = None;
        self.seal = None;
        self.answers = Feed::new(self.alloc);
        self.mailbox.cut();
        let dropped = self.mailbox.make_room(MOST_LOST);
        self.count_dropped(dropped);
        self.dial.lose(round.now, round.chance);
        match (self.contact.end(was_up), self.stranger) {
            (ContactEnd::Quiet, _) => LineChange::None,
            (ContactEnd::Lost, _) => LineChange::Lost,
            (ContactEnd::Unanswered, Some(identity)) => LineChange::Stranger(identity),
            (ContactEnd::Unanswered, None) => LineChange::Refused,
        }
    }

    /// Begins to connect.
    fn dial<N: Net>(&mut self, net: &N, round: LineRound<'_>) -> LineChange {
        self.dial.begin(round.now);
        let both = Interest::READABLE | Interest::WRITABLE;
        let Ok(mut stream) = TcpStream::connect(net, self.address) else {
            return self.lose(round);
        };
        if round
            .registry
            .register(&mut stream, round.token, both)
            .is_err()
        {
            return self.lose(round);
        }
        self.socket = Some(Socket::dialed(stream));
        LineChange::None
    }

    /// Whether the connection that is being made is there.
    fn is_made(&self) -> bool {
        match &self.socket {
            Some(socket) => socket.is_made(),
            None => false,
        }
    }

    /// Whether a write may take something.
    fn is_writable(&self) -> bool {
        match &self.socket {
            Some(socket) => socket.is_writable(),
            None => false,
        }
    }

    /// Looks after a connection that is being made.
    fn finish(
        &mut self,
        source: &impl RandomSource,
        since: u64,
        round: LineRound<'_>,
    ) -> LineChange {
        if !self.is_writable() {
            if round.now.saturating_sub(since) < SILENCE {
                return LineChange::None;
            }
            return self.lose(round);
        }
        if !self.is_made() {
            return self.lose(round);
        }
        if let Some(key) = round.own {
            self.seal = Seal::new(source, self.alloc, key);
            if self.seal.is_none() {
                return self.lose(round);
            }
        }
        if self.mailbox.begin(&IDENTIFY).is_err() {
            return self.lose(round);
        }
        self.dial.reach(round.now);
        self.contact.reach(round.now);
        self.stranger = None;
        LineChange::None
    }

    /// Asks the peer how many commands it knows.
    fn ask_prefix(&mut self, now: u64) {
        self.contact.ask(now);
        if let Ok(frame) = Vec::from_slice(self.alloc, &STATUS) {
            self.put(frame);
        }
    }

    /// Takes an answer. `false` where it is none that a node gives to a message, or the peer is
    /// another node than is meant. Once it says that it is that node, it is asked how many commands
    /// it knows, and gets what waits for it.
    fn take_answer(&mut self, answer: &Frame, now: u64) -> bool {
        let is_right = take_answer(&mut self.contact, self.expected, answer);
        let identity = identity_in(answer);
        if identity.is_none() {
            return is_right;
        }
        if is_right {
            self.ask_prefix(now);
        } else {
            self.stranger = identity;
        }
        is_right
    }

    /// Takes the answers that are whole. `false` where the connection is over.
    fn take_answers(&mut self, octets: &[u8], now: u64) -> bool {
        if self.answers.push(octets).is_err() {
            return false;
        }
        for _answer in 0..PIECE {
            match self.answers.take() {
                Ok(Some(answer)) => {
                    let is_right = self.take_answer(&answer, now);
                    drop(answer);
                    if !is_right {
                        return false;
                    }
                }
                Ok(None) => return true,
                Err(_) => return false,
            }
        }
        true
    }

    /// Takes the octets that came: as they are, or as the seal opens them. `false` where the
    /// connection is over.
    fn take_in(&mut self, piece: &[u8], now: u64) -> bool {
        let Some(seal) = &mut self.seal else {
            return self.take_answers(piece, now);
        };
        if !seal.push(piece) {
            return false;
        }
        for _record in 0..PIECE {
            let Some(seal) = &mut self.seal else {
                return false;
            };
            match seal.take() {
                Ok(Some(octets)) => {
                    if !self.take_answers(&octets, now) {
                        return false;
                    }
                }
                Ok(None) => return true,
                Err(_) => return false,
            }
        }
        true
    }

    /// Reads what has come. `false` where the connection is over.
    fn read_all(&mut self, buffer: &mut [u8; PIECE], now: u64) -> bool {
        for _read in 0..CALLS {
            let Some(socket) = &mut self.socket else {
                return false;
            };
            if !socket.is_readable() {
                return !socket.is_ended();
            }
            let Some(count) = socket.read(buffer) else {
                return false;
            };
            if count > 0 {
                self.contact.hear(now);
                if !self.take_in(&buffer[..count], now) {
                    return false;
                }
            }
        }
        true
    }

    /// Makes octets ready to be written: before the peer has said that it is the node that is
    /// meant, nothing but the question for that. `false` where they can't be.
    fn make_ready(&mut self) -> bool
        ensures unmet { self.old.contact.is_met ≡ false
            → self.new.mailbox.frames ≡ self.old.mailbox.frames }
    {
        if self.contact.is_met && self.mailbox.fill().is_err() {
            return false;
        }
        match &mut self.seal {
            Some(seal) => seal.seal(&mut self.mailbox),
            None => true,
        }
    }

    /// Whether octets are ready to be written.
    fn waits(&self) -> bool {
        match &self.seal {
            Some(seal) => seal.out.len() > 0,
            None => !self.mailbox.octets().is_empty(),
        }
    }

    /// Writes once. `false` where the connection is over.
    fn write_once<S: Service>(&mut self, service: &S) -> bool
        requires { S.is_kept service.now }
    {
        let Some(socket) = &mut self.socket else {
            return false;
        };
        if let Some(seal) = &mut self.seal {
            let octets = seal.out.octets();
            let Some(count) = socket.write(service, octets) else {
                return false;
            };
            seal.out.skip(count);
            self.contact.write(count);
            return true;
        }
        let octets = self.mailbox.octets();
        let Some(count) = socket.write(service, octets) else {
            return false;
        };
        self.mailbox.sent(count);
        self.contact.write(count);
        true
    }

    /// Writes what waits. `false` where the connection is over.
    fn write_all<S: Service>(&mut self, service: &S) -> bool
        requires { S.is_kept service.now }
    {
        for _write in 0..CALLS {
            if !self.make_ready() {
                return false;
            }
            if !self.is_writable() || !self.waits() {
                return true;
            }
            if !self.write_once(service) {
                return false;
            }
        }
        true
    }

    /// Reads what has come, unless the peer is silent for too long, and writes what waits. `false`
    /// where the connection is over.
    fn read_and_write<S: Service>(
        &mut self,
        service: &S,
        buffer: &mut [u8; PIECE],
        now: u64,
    ) -> bool
        requires { S.is_kept service.now }
    {
        self.read_all(buffer, now) && !self.contact.is_silent(now) && self.write_all(service)
    }

    /// Looks after a connection that is there.
    fn exchange<S: Service>(
        &mut self,
        service: &S,
        buffer: &mut [u8; PIECE],
        round: LineRound<'_>,
    ) -> LineChange
        requires { S.is_kept service.now }
    {
        if self.contact.is_to_ask(round.now) {
            self.ask_prefix(round.now);
        }
        let was_known = self.contact.is_known;
        if !self.read_and_write(service, buffer, round.now) {
            return self.lose(round);
        }
        if self.contact.is_known && !was_known {
            return LineChange::Reached;
        }
        LineChange::None
    }

    /// One round of the line: it is dialed, looked after, read and written.
    pub(crate) fn tend<S: Service, N: Net + RandomSource>(
        &mut self,
        net: &N,
        service: &S,
        buffer: &mut [u8; PIECE],
        round: LineRound<'_>,
    ) -> LineChange
        requires { S.is_kept service.now }
    {
        match self.dial.phase {
            Phase::Down { .. } if self.dial.is_due(round.now) => self.dial(net, round),
            Phase::Down { .. } => LineChange::None,
            Phase::Dialing { since } => self.finish(net, since, round),
            Phase::Up { .. } => self.exchange(service, buffer, round),
        }
    }
}
