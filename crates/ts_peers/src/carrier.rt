//! What a loop carries: the node's messages to itself, which it is handed at once, and those to its
//! peers, which wait on a line each.

ghost use Rattle.std.specs.Prelude.{◌≡◌, ◌⊎◌, ◌<◌, ◌∷◌, ◌++◌, ℕ, Bool, IfSome, List, [], length};
ghost use Rattle.std.specs.Prelude.{map, slice_index_or, true};
ghost use Rattle.ts_carrier.specs.declared.event.FrameEvent.TheVariants.{Submits};
ghost use Rattle.ts_links.specs.Calls.{HasReached};
ghost use Rattle.ts_peers.specs.Events.{HasHeard, HasSeen, IsAfter, IsRefused};
ghost use Rattle.ts_peers.specs.Waiting.{HasSorted, all_lines_pass};
ghost use Rattle.ts_peers.specs.declared.line.Line.{Line};

use crate::asking::ask;
use crate::frames::{is_settled, messages_in, octets_of, outcome_of, prefix_of};
use crate::line::{Line, LineChange, LineRound};
use crate::senders::{Sender, Senders};
use crate::telling::{MOST, log_frame, tell_rows};
use mio::event::Event;
use mio::{Registry, Token};
use rand_core::{Rng, SeedableRng};
use rand_xoshiro::SplitMix64;
use std::alloc::Global;
use std::net::{Net, SocketAddr};
use std::random::RandomSource;
use ts_access::Key;
use ts_carrier::{FrameEvent, Gate, event_of, whole_frame};
use ts_command::Command;
use ts_links::{Connections, Service};
use ts_node::Identity;
use ts_sockets::PIECE;
use ts_synod::{Body, Message};
use ts_wire::Frame;

/// The token of the first peer's line. The others follow.
pub const PEERS: usize = usize::MAX - 16;

/// The frame Take, by which a node is asked for the messages that wait.
const TAKE: [u8; 6] = [0, 0, 0, 2, 2, 0x12];

/// The frame CatchUp, by which a node is told to ask others for what it lacks.
const CATCH_UP: [u8; 6] = [0, 0, 0, 2, 2, 0x14];

/// The frame Status, by which a node is asked how many commands it knows.
const STATUS: [u8; 6] = [0, 0, 0, 2, 2, 0x15];

/// How often in a round a node is handed the messages to itself that it made last.
const STEPS: u32 = 64;

/// How many milliseconds pass until a node that is behind is told again to catch up, if it has not
/// learned anything.
const BEHIND: u64 = 500;

/// What a loop carries.
#[derive(Drop)]
pub struct Carrier {
    alloc: Global,
    /// Whether messages are carried at all.
    carries: bool,
    /// Whether standard error is told what happens.
    tells: bool,
    lines: Vec<Line>,
    /// The command of a client that is under way, and when it is proposed.
    gate: Gate,
    /// How many of these standard error was told of, once it was told.
    told: Option<u32>,
    /// From where the commands came that clients submitted here.
    senders: Senders,
    /// When the node was last told to catch up.
    urged: u64,
    /// The slot of the client whose command was taken last.
    last: usize,
    /// How many requests clients had made when it was last looked after.
    taken: u64,
    /// There is more to do at once.
    more: bool,
    chances: SplitMix64,
}

impl Carrier {
    /// A carrier of a node, without peers. `seed` is any number.
    pub fn new(alloc: Global, own: Identity, carries: bool, tells: bool, seed: u64) -> Carrier {
        Carrier {
            alloc,
            carries,
            tells,
            lines: Vec::new(alloc),
            gate: Gate::new(alloc, own.node, own.nodes),
            told: None,
            senders: Senders::new(alloc),
            urged: 0,
            last: 0,
            taken: 0,
            more: carries,
            chances: SplitMix64::seed_from_u64(seed),
        }
    }

    /// Adds the line to a peer of the node that this is.
    pub fn add(&mut self, own: Identity, node: u8, address: SocketAddr) -> bool {
        self.lines
            .push(Line::new(self.alloc, own, node, address))
            .is_ok()
    }

    /// The lines to peers.
    pub fn lines(&self) -> &[Line] {
        &self.lines
    }

    /// An event of a line.
    pub fn mark(&mut self, place: usize, event: &Event) {
        if let Some(line) = self.lines.get_mut(place) {
            line.mark(event);
        }
    }

    /// The slot behind that of the client whose command was taken last.
    pub fn next_slot(&self) -> usize {
        self.last.wrapping_add(1)
    }

    /// Whether the frame that begins here has to wait for a command that is under way.
    pub fn holds_back(&self, held: &[u8], now: u64) -> bool {
        self.gate.holds_back(held, now)
    }

    /// The frame that begins here is taken next of a slot, if it is whole: it may be a client's
    /// command, or say that a round of the one that is under way was refused.
    pub fn see(&mut self, held: &[u8], slot: usize, from: SocketAddr, now: u64)
        ensures { HasSeen self.old.carries held.now now self.old.gate self.new.gate }
    {
        let Some(frame) = whole_frame(held) else {
            return;
        };
        let event = event_of(frame);
        if event == FrameEvent::Submits {
            self.senders.see(frame, Sender::At(from));
            self.last = slot;
        }
        if self.carries {
            self.take_event(frame, event, now);
        }
    }

    /// The frame is taken next for a request of HTTP: it may be a client's command.
    pub fn see_http(&mut self, frame: &[u8], now: u64)
        ensures { HasSeen self.old.carries frame.now now self.old.gate self.new.gate }
    {
        let Some(frame) = whole_frame(frame) else {
            return;
        };
        let event = event_of(frame);
        if event == FrameEvent::Submits {
            self.senders.see(frame, Sender::Http);
            self.more = self.more || self.carries;
        }
        if self.carries {
            self.take_event(frame, event, now);
        }
    }

    /// A frame is taken that says this.
    fn take_event(&mut self, frame: &[u8], event: FrameEvent, now: u64)
        ensures { IsAfter event frame.now now self.old.gate self.new.gate }
    {
        match event {
            FrameEvent::Submits => self.begin(frame, now),
            // Without memory nodes have no turns for a while.
            FrameEvent::Begins { node } => {
                let _seen = self.gate.see_rival(self.alloc, node, now);
            }
            FrameEvent::Refuses => self.refuse(now),
            FrameEvent::Other => {}
        }
    }

    /// A client's command is taken by this frame. Without memory nothing looks after it.
    fn begin(&mut self, frame: &[u8], now: u64)
        ensures { IsAfter Submits frame.now now self.old.gate self.new.gate }
    {
        if let Ok(frame) = Vec::from_slice(self.alloc, frame) {
            let chance = self.chances.next_u64();
            self.gate.begin(frame, now, chance);
        }
    }

    /// A round of the command that is under way was refused.
    fn refuse(&mut self, now: u64)
        ensures refused { IsRefused now self.old.gate self.new.gate }
        ensures lines { self.new.lines ≡ self.old.lines }
    {
        let chance = self.chances.next_u64();
        self.gate.refuse(now, chance);
    }

    /// The place of the line to a node.
    fn place_of(&self, node: u8) -> Option<usize>
        ensures { IfSome result (λ place. (place < length self.now.lines.items)
            × ((d : Line) → (slice_index_or self.now.lines.items place d).node ≡ node)) }
    {
        for place in 0..self.lines.len() {
            if self.lines[place].node == node {
                return Some(place);
            }
        }
        None
    }

    /// Puts a message on the line to its node. Without one it is lost.
    fn hand_on(&mut self, node: u8, frame: Vec<u8>)
        ensures lines { (test : ℕ → List ℕ → Bool)
            → all_lines_pass test self.old.lines.items ≡ true
            → test node frame.items ≡ true
            → all_lines_pass test self.new.lines.items ≡ true }
        ensures gate { self.new.gate ≡ self.old.gate }
    {
        if let Some(place) = self.place_of(node) {
            self.lines[place].put(frame);
        }
    }

    /// A message of the node: it may have refused a round of its own.
    fn see_message(&mut self, message: &Message<Command>, now: u64)
        ensures heard { HasHeard message.now now self.old.gate self.new.gate }
        ensures lines { self.new.lines ≡ self.old.lines }
    {
        if message.from == message.to && matches!(message.body, Body::Busy { .. }) {
            self.refuse(now);
        }
    }

    /// Takes the messages that wait at the node. Those to itself are given, in their frames; the
    /// others wait on their lines then.
    fn sort(&mut self, given: &[u8], now: u64) -> Vec<Vec<u8>>
        ensures { HasSorted given.now now self.old.lines.items self.new.lines.items
            self.old.gate self.new.gate (map (λ frame. frame.items) result.items) }
    {
        let mut own = Vec::new(self.alloc);
        for message in messages_in(self.alloc, given) {
            let (from, to) = (message.from, message.to);
            self.see_message(&message, now);
            let Some(frame) = octets_of(self.alloc, Frame::Peer(message)) else {
                continue;
            };
            if from == to {
                add_frame(&mut own, frame);
            } else {
                self.hand_on(to, frame);
            }
        }
        own
    }
}

/// Puts a frame behind others. Without memory it is lost.
fn add_frame(frames: &mut Vec<Vec<u8>>, frame: Vec<u8>)
    ensures { (frames.new.items ≡ frames.old.items ++ frame ∷ [])
        ⊎ (frames.new.items ≡ frames.old.items) }
{
    let _pushed = frames.push(frame);
}

/// Hands a node these messages, one after another.
fn deliver<S: Service>(
    table: &mut Connections,
    service: &mut S,
    alloc: Global,
    frames: &[Vec<u8>],
    now: u64,
)
    requires { S.is_ready service.old }
    ensures reached { HasReached S.turn S.keeps service.old table.old service.new table.new }
    ensures ready { S.is_ready service.new }
{
    for frame in frames {
        let _answer = ask(table, service, alloc, frame, now);
    }
}

impl Carrier {
    /// Takes the node's messages once, and hands it those to itself. Whether there were some.
    fn take_once<S: Service>(&mut self, table: &mut Connections, service: &mut S, now: u64) -> bool
        requires { S.is_ready service.old }
        ensures reached { HasReached S.turn S.keeps service.old table.old service.new table.new }
        ensures ready { S.is_ready service.new }
    {
        let Some(given) = ask(table, service, self.alloc, &TAKE, now) else {
            return false;
        };
        let own = self.sort(&given, now);
        deliver(table, service, self.alloc, &own, now);
        !own.is_empty()
    }

    /// Takes the node's messages, and hands it those to itself, until it makes no more of them.
    fn take_all<S: Service>(&mut self, table: &mut Connections, service: &mut S, now: u64)
        requires { S.is_ready service.old }
        ensures reached { HasReached S.turn S.keeps service.old table.old service.new table.new }
        ensures ready { S.is_ready service.new }
    {
        for _step in 0..STEPS {
            if !self.take_once(table, service, now) {
                return;
            }
        }
        self.more = true;
    }

    /// Asks the node how many commands it knows.
    fn look<S: Service>(&mut self, table: &mut Connections, service: &mut S, now: u64)
        requires { S.is_ready service.old }
        ensures reached { HasReached S.turn S.keeps service.old table.old service.new table.new }
        ensures ready { S.is_ready service.new }
    {
        let Some(answer) = ask(table, service, self.alloc, &STATUS, now) else {
            return;
        };
        if let Some(prefix) = prefix_of(self.alloc, &answer) {
            self.gate.learn(prefix, now);
        }
    }

    /// Whether the command that is under way is known to be chosen, or can't be asked for.
    fn is_over<S: Service>(&self, table: &mut Connections, service: &mut S, now: u64) -> bool
        requires { S.is_ready service.old }
        ensures reached { HasReached S.turn S.keeps service.old table.old service.new table.new }
        ensures ready { S.is_ready service.new }
    {
        let Some(wanted) = self.gate.wanted() else {
            return false;
        };
        let Some(request) = outcome_of(self.alloc, &wanted.frame) else {
            return true;
        };
        match ask(table, service, self.alloc, &request, now) {
            Some(answer) => is_settled(self.alloc, &answer),
            None => false,
        }
    }

    /// Proposes the command that is under way again, if it is time.
    fn propose_again<S: Service>(&mut self, table: &mut Connections, service: &mut S, now: u64)
        requires { S.is_ready service.old }
        ensures reached { HasReached S.turn S.keeps service.old table.old service.new table.new }
        ensures ready { S.is_ready service.new }
    {
        let Some(frame) = self.gate.due(now) else {
            return;
        };
        let _answer = ask(table, service, self.alloc, frame, now);
        let chance = self.chances.next_u64();
        self.gate.tried(now, chance);
        self.more = true;
    }

    /// Looks after the command that is under way: it may be chosen, or its round may be lost.
    fn follow<S: Service>(&mut self, table: &mut Connections, service: &mut S, now: u64)
        requires { S.is_ready service.old }
        ensures reached { HasReached S.turn S.keeps service.old table.old service.new table.new }
        ensures ready { S.is_ready service.new }
    {
        if self.is_over(table, service, now) {
            self.gate.end(now);
            self.more = true;
            return;
        }
        self.propose_again(table, service, now);
    }

    /// Whether a peer knows more commands, and none was learned for a while.
    fn is_behind(&self, now: u64) -> bool {
        let prefix = self.gate.prefix();
        now.saturating_sub(self.gate.grown().max(self.urged)) >= BEHIND
            && self.lines.iter().any(|line| line.contact().prefix > prefix)
    }

    /// Tells the node to catch up, if it is behind.
    fn catch_up<S: Service>(&mut self, table: &mut Connections, service: &mut S, now: u64)
        requires { S.is_ready service.old }
        ensures reached { HasReached S.turn S.keeps service.old table.old service.new table.new }
        ensures ready { S.is_ready service.new }
    {
        if !self.is_behind(now) {
            return;
        }
        let _answer = ask(table, service, self.alloc, &CATCH_UP, now);
        self.urged = now;
        self.more = true;
    }

    /// Whether there is something to carry, or to look after, once clients have made so many
    /// requests.
    fn has_work(&self, taken: u64, now: u64) -> bool {
        self.more || taken != self.taken || self.gate.due(now).is_some() || self.is_behind(now)
    }

    /// Carries what the node has made, and looks after the command that is under way.
    pub fn carry<S: Service>(
        &mut self,
        table: &mut Connections,
        service: &mut S,
        taken: u64,
        now: u64,
    )
        requires { S.is_ready service.old }
        ensures reached { HasReached S.turn S.keeps service.old table.old service.new table.new }
        ensures ready { S.is_ready service.new }
    {
        if !self.carries || !self.has_work(taken, now) {
            return;
        }
        self.taken = taken;
        self.more = false;
        self.take_all(table, service, now);
        self.look(table, service, now);
        self.follow(table, service, now);
        self.catch_up(table, service, now);
    }

    /// Whether there is more to carry at once.
    pub fn has_more(&self) -> bool {
        self.more
    }

    /// How many milliseconds the loop may wait, and at most `longest`, for the command that is
    /// under way, or for the next one.
    pub fn patience(&self, now: u64, longest: u64) -> u64 {
        self.gate.patience(now, longest)
    }

    /// Tells standard error of commands that were chosen since it was told last: one by one, or how
    /// many the node knows where they are many.
    pub fn tell<S: Service, R: Eprint>(
        &mut self,
        rt: &R,
        table: &mut Connections,
        service: &mut S,
        now: u64,
    )
        requires { S.is_ready service.old }
        ensures reached { HasReached S.turn S.keeps service.old table.old service.new table.new }
        ensures ready { S.is_ready service.new }
    {
        let prefix = self.gate.prefix();
        if !self.tells || self.told == Some(prefix) {
            return;
        }
        let told = self.told.replace(prefix);
        if let Some(from) = told {
            if prefix.saturating_sub(from) <= MOST {
                let Some(request) = log_frame(self.alloc, from, prefix) else {
                    return;
                };
                if let Some(answer) = ask(table, service, self.alloc, &request, now) {
                    tell_rows(rt, self.alloc, from, &answer, &self.senders);
                }
                return;
            }
        }
        let _ = eprintln!(rt; "trustd: knows {prefix} commands");
    }

    /// One round of the lines to the peers. Standard error is told of those reached and lost.
    pub fn tend<S: Service, R: Net + Eprint + RandomSource>(
        &mut self,
        rt: &R,
        service: &S,
        registry: &Registry,
        own: &Option<Key>,
        buffer: &mut [u8; PIECE],
        now: u64,
    )
        requires { S.is_kept service.now }
    {
        for place in 0..self.lines.len() {
            let round = LineRound {
                registry,
                token: Token(PEERS.saturating_add(place)),
                own,
                now,
                chance: self.chances.next_u64(),
            };
            let Some(line) = self.lines.get_mut(place) else {
                return;
            };
            let change = line.tend(rt, service, buffer, round);
            if self.tells {
                tell(rt, line.node, change);
            }
        }
    }
}

/// Tells standard error what became of a peer.
fn tell(rt: &impl Eprint, node: u8, change: LineChange) {
    let _told = match change {
        LineChange::None => Ok(()),
        LineChange::Reached => eprintln!(rt; "trustd: peer {node} is reached"),
        LineChange::Lost => eprintln!(rt; "trustd: peer {node} is lost"),
        LineChange::Refused => eprintln!(rt;
            "trustd: peer {node} ended the connection before it answered: does it know this key?"
        ),
        LineChange::Stranger(
            Identity {
                node: other,
                nodes,
                group,
            },
        ) => eprintln!(rt;
            "trustd: peer {node} is node {other} of {nodes} of group {group}: it gets nothing"
        ),
    };
}
