//! The loop.

ghost use Rattle.std.specs.Prelude.{◌≡◌};
ghost use Rattle.ts_question.specs.Question.{StoreQuestion};
ghost use Rattle.ts_node.specs.Machine.{store_of};
ghost use Rattle.ts_node.specs.Ahead.{IsAhead};
ghost use Rattle.ts_command.specs.Octets.{octets_of};
ghost use Rattle.ts_serve.specs.Turn.{HasKept, StagedTurn};
ghost use Rattle.ts_links.specs.Calls.{HasReached, IsQuiet};
ghost use Rattle.ts_links.specs.Turns.{IsServed};

use crate::fault::LoopFault;
use crate::listening::{ListenFault, add_places, listener_at};
use crate::pumping::Round;
use crate::reporting::{FRESH, report_of};
use crate::rounds::{LISTENER, begin_all, end_all, mark, sweep};
use crate::shared::Shared;
use crate::showing::{ShownMetrics, show_all};
use crate::watch::Watch;
use crate::web::Web;
use mio::net::TcpListener;
use mio::{Events, Interest, Poll, Registry};
use std::alloc::Global;
use std::net::{Net, ToSocketAddrs};
use std::random::RandomSource;
use std::rt::{Clock, Files};
use std::time::{Duration, Instant, SystemTime, UNIX_EPOCH};
use ts_access::Key;
use ts_command::{Command, Outcome};
use ts_disk::Disk;
use ts_links::{Connections, Service};
use ts_node::{Identity, Machine};
use ts_peers::{Carrier, Group, PeerAddress};
use ts_question::{Answer, Question};
use ts_serve::Server;
use ts_sockets::{Accepts, Access, Counts, Door, Entry, Limits, PIECE, accept_some};

/// How many milliseconds a round waits at most.
const ROUND: u64 = 50;

/// How many events a round takes.
const EVENTS: usize = 1024;

/// The sockets, and what is known of them.
#[derive(Drop)]
struct Edge {
    alloc: Global,
    poll: Poll,
    events: Events,
    listener: TcpListener,
    doors: Vec<Option<Door>>,
    shared: Shared,
    web: Option<Web>,
    accepts: Accepts,
    start: Instant,
    swept: u64,
    /// When the service was last told how it does.
    noted: Option<u64>,
    /// A connection could do more.
    more: bool,
}

/// The listener at an address, and the events of its connections. Without keys it is an address
/// that this machine alone reaches, unless any is allowed.
fn listener_of<R: Net>(
    rt: &R,
    address: &str,
    access: &Access<'_>,
) -> Result<(TcpListener, Poll), LoopFault> {
    let (mut listener, _) = match listener_at(rt, address, access.is_locked() || access.open) {
        Ok(found) => found,
        Err(ListenFault::Address) => return Err(LoopFault::Listen),
        Err(ListenFault::Unprotected) => return Err(LoopFault::Unprotected),
    };
    let Ok(poll) = Poll::new(rt) else {
        return Err(LoopFault::Poll);
    };
    let registered = poll
        .registry()
        .register(&mut listener, LISTENER, Interest::READABLE);
    if registered.is_err() {
        return Err(LoopFault::Poll);
    }
    Ok((listener, poll))
}

/// A number that differs from run to run.
fn seed_of<R: Clock>(rt: &R) -> Option<u64> {
    let now = SystemTime::now(rt).ok()?;
    let past = now.duration_since(UNIX_EPOCH).ok()?;
    Some(u64::from(past.subsec_nanos()))
}

/// Adds the peers of a group to its carrier. Their addresses are looked up once.
fn add_peers<R: Net>(
    rt: &R,
    carrier: &mut Carrier,
    own: Identity,
    peers: &[PeerAddress],
) -> Result<(), LoopFault> {
    for peer in peers {
        let Ok(mut found) = peer.address.as_str().to_socket_addrs(rt) else {
            return Err(LoopFault::Peer(peer.node));
        };
        let Some(address) = found.next() else {
            return Err(LoopFault::Peer(peer.node));
        };
        if !carrier.add(own, peer.node, address) {
            return Err(LoopFault::Memory);
        }
    }
    Ok(())
}

/// The listener of HTTP, where one is wanted.
fn web_of<R: Net>(
    rt: &R,
    alloc: Global,
    registry: &Registry,
    slots: usize,
    access: &Access<'_>,
) -> Result<Option<Web>, LoopFault> {
    let Some(address) = &access.http else {
        return Ok(None);
    };
    let web = Web::new(rt, alloc, registry, address.as_str(), slots, access)?;
    Ok(Some(web))
}

/// The clock, in seconds from 1970-01-01T00:00:00Z.
fn seconds_of<R: Clock>(rt: &R) -> Option<i64> {
    let now = SystemTime::now(rt).ok()?;
    let past = now.duration_since(UNIX_EPOCH).ok()?;
    i64::try_from(past.as_secs()).ok()
}

impl Edge {
    /// The listener alone, without places for connections.
    fn with_listener<R: Net + Clock>(
        rt: &R,
        alloc: Global,
        address: &str,
        own: Identity,
        group: &Group,
        access: &Access<'_>,
    ) -> Result<Edge, LoopFault> {
        let (Some(seed), Ok(start)) = (seed_of(rt), Instant::now(rt)) else {
            return Err(LoopFault::Clock);
        };
        let events = Events::with_capacity(alloc, EVENTS)?;
        let (listener, poll) = listener_of(rt, address, access)?;
        Ok(Edge {
            alloc,
            poll,
            events,
            listener,
            doors: Vec::new(alloc),
            shared: Shared {
                carrier: Carrier::new(alloc, own, group.carries, group.tells, seed),
                counts: Counts::new(),
                watch: Watch::new(),
            },
            web: None,
            accepts: Accepts::AtEvent,
            start,
            swept: 0,
            noted: None,
            more: false,
        })
    }

    /// Adds places for so many connections, the peers, and the listener of HTTP.
    fn prepare<R: Net>(
        &mut self,
        rt: &R,
        slots: usize,
        own: Identity,
        group: &Group,
        access: &Access<'_>,
    ) -> Result<(), LoopFault> {
        add_places(&mut self.doors, slots)?;
        add_peers(rt, &mut self.shared.carrier, own, &group.peers)?;
        self.web = web_of(rt, self.alloc, self.poll.registry(), slots, access)?;
        Ok(())
    }

    /// The sockets at the start: the listeners, and no connection.
    fn new<R: Net + Clock>(
        rt: &R,
        alloc: Global,
        address: &str,
        slots: usize,
        own: Identity,
        group: &Group,
        access: &Access<'_>,
    ) -> Result<Edge, LoopFault> {
        let mut edge = Edge::with_listener(rt, alloc, address, own, group, access)?;
        match edge.prepare(rt, slots, own, group, access) {
            Ok(()) => Ok(edge),
            Err(fault) => {
                drop(edge);
                Err(fault)
            }
        }
    }

    /// The milliseconds since the start.
    fn now<R: Clock>(&self, rt: &R) -> Result<u64, LoopFault> {
        let Ok(elapsed) = self.start.elapsed(rt) else {
            return Err(LoopFault::Clock);
        };
        Ok(u64::try_from(elapsed.as_millis()).unwrap_or(u64::MAX))
    }

    /// Waits for events, and marks the doors that have one. Whether the listener has, and the
    /// milliseconds since the start.
    fn wait<R: Clock>(&mut self, rt: &R) -> Result<(bool, u64), LoopFault> {
        let begun = self.now(rt)?;
        let wait = if self.goes_on() {
            0
        } else {
            self.shared.carrier.patience(begun, ROUND)
        };
        let longest = Some(Duration::from_millis(wait));
        if self.poll.poll(&mut self.events, longest).is_err() {
            return Err(LoopFault::Poll);
        }
        let now = self.now(rt)?;
        let carrier = &mut self.shared.carrier;
        let accepts = mark(&mut self.doors, carrier, &mut self.web, &self.events);
        Ok((accepts, now))
    }

    /// Accepts connections, if it is time.
    fn accept<R: RandomSource>(
        &mut self,
        rt: &R,
        table: &mut Connections,
        access: &Access<'_>,
        event: bool,
        now: u64,
    )
        ensures { IsQuiet table.old table.new }
    {
        if !self.accepts.is_due(event, now) {
            return;
        }
        let entry = Entry {
            rt,
            alloc: self.alloc,
            registry: self.poll.registry(),
            access,
        };
        self.accepts = accept_some(
            table,
            &mut self.doors,
            &self.listener,
            &entry,
            now,
            &mut self.shared.counts,
        );
    }

    /// Takes down for the connections of HTTP what time it is, and what is counted.
    fn show<R: Files + Clock>(&mut self, rt: &R, access: &Access<'_>, now: u64) {
        let Some(web) = &mut self.web else {
            return;
        };
        if !web.has_work(now) {
            return;
        }
        if let Some(seconds) = seconds_of(rt) {
            web.board.now = seconds;
        }
        if web.is_stale(now) {
            let shown = ShownMetrics {
                version: access.version,
                frames: &self.shared.counts,
                http: web.counts,
                carrier: &self.shared.carrier,
                watch: &self.shared.watch,
                meter: access.meter,
            };
            let _shown = show_all(rt, self.alloc, &mut web.board, &shown);
        }
    }

    /// Tells the service how it does, once a second.
    fn note<S: Service>(&mut self, service: &S, access: &Access<'_>, now: u64) {
        if let Some(noted) = self.noted {
            if now.saturating_sub(noted) < FRESH {
                return;
            }
        }
        self.noted = Some(now);
        let http = match &self.web {
            Some(web) => web.counts,
            None => Counts::new(),
        };
        let about = match &access.about {
            Some(about) => about.as_str(),
            None => "",
        };
        let shown = ShownMetrics {
            version: access.version,
            frames: &self.shared.counts,
            http,
            carrier: &self.shared.carrier,
            watch: &self.shared.watch,
            meter: access.meter,
        };
        if let Ok(text) = report_of(self.alloc, about, &shown, now) {
            service.note(text.as_str().as_bytes());
        }
    }

    /// The requests of HTTP are taken.
    fn take_web<S: Service, R: Files + Clock>(
        &mut self,
        round: &Round<'_, R>,
        table: &mut Connections,
        service: &mut S,
        access: &Access<'_>,
        buffer: &mut [u8; PIECE],
    )
        requires { S.is_ready service.old }
        ensures reached { HasReached S.turn S.keeps service.old table.old service.new table.new }
        ensures ready { S.is_ready service.new }
    {
        self.show(round.rt, access, round.now);
        let Some(web) = &mut self.web else {
            return;
        };
        let registry = self.poll.registry();
        web.begin(round, registry, table, service, &mut self.shared, buffer);
    }

    /// All that is there is taken: the requests on all connections, what the node sends itself, and
    /// the requests of HTTP. What is answered waits.
    fn take<S: Service, R: Files + Clock>(
        &mut self,
        round: &Round<'_, R>,
        table: &mut Connections,
        service: &mut S,
        access: &Access<'_>,
        buffer: &mut [u8; PIECE],
    )
        requires { S.is_ready service.old }
        ensures reached { HasReached S.turn S.keeps service.old table.old service.new table.new }
        ensures ready { S.is_ready service.new }
    {
        let (shared, doors) = (&mut self.shared, &mut self.doors);
        begin_all(round, table, service, shared, doors, buffer);
        let taken = shared.counts.taken;
        shared.carrier.carry(table, service, taken, round.now);
        self.take_web(round, table, service, access, buffer);
    }

    /// All that waits is written, since what followed from it is kept: on the connections, on the
    /// lines to the peers, and on the connections of HTTP.
    fn write<S: Service, R: Net + Eprint + RandomSource>(
        &mut self,
        round: &Round<'_, R>,
        table: &mut Connections,
        service: &S,
        limits: &Limits,
        own: &Option<Key>,
        buffer: &mut [u8; PIECE],
    )
        requires { S.is_kept service.now }
        ensures { IsQuiet table.old table.new }
    {
        let (doors, counts) = (&mut self.doors, &mut self.shared.counts);
        self.more = end_all(round, table, service, doors, counts);
        if let Some(web) = &mut self.web {
            web.end(service, limits, round.now);
        }
        let registry = self.poll.registry();
        self.shared
            .carrier
            .tend(round.rt, service, registry, own, buffer, round.now);
    }

    /// Whether something is to be done at once.
    fn goes_on(&self) -> bool {
        let web = match &self.web {
            Some(web) => web.goes_on(),
            None => false,
        };
        web || self.more || self.shared.carrier.has_more() || self.accepts == Accepts::Now
    }

    /// How many connections are over.
    fn over(&self) -> u64 {
        let web = match &self.web {
            Some(web) => web.counts.over(),
            None => 0,
        };
        self.shared.counts.over().saturating_add(web)
    }

    /// One round: what is there is taken, what followed from it is kept, by one append, and then
    /// what waits is written.
    ///
    /// # Errors
    ///
    /// `NodeFailed` where it can't be kept: nothing that was answered in the round leaves.
    fn round<S: Service, R: Net + Files + Clock + Eprint + RandomSource>(
        &mut self,
        rt: &R,
        table: &mut Connections,
        service: &mut S,
        buffer: &mut [u8; PIECE],
        limits: &Limits,
        access: &mut Access<'_>,
    ) -> Result<(), LoopFault>
        requires { S.is_ready service.old }
        ensures reached { HasReached S.turn S.keeps service.old table.old service.new table.new }
        ensures ready { S.is_ready service.new }
    {
        let (event, now) = self.wait(rt)?;
        access.refresh(rt, self.alloc, now);
        self.accept(rt, table, access, event, now);
        self.note(service, access, now);
        let round = Round {
            rt,
            alloc: self.alloc,
            keys: access.keys(),
            now,
        };
        self.take(&round, table, service, access, buffer);
        if !service.keep() {
            return Err(LoopFault::NodeFailed);
        }
        self.write(&round, table, service, limits, &access.own, buffer);
        self.shared.carrier.tell(rt, table, service, now);
        self.sweep(table, limits, now);
        Ok(())
    }

    /// Closes the connections that are late.
    fn sweep(&mut self, table: &mut Connections, limits: &Limits, now: u64)
        ensures { IsQuiet table.old table.new }
    {
        let (shared, doors) = (&mut self.shared, &mut self.doors);
        self.swept = sweep(table, shared, doors, &limits.deadlines(), self.swept, now);
    }

    /// Rounds, until so many connections are over, or one fails.
    fn serve<S: Service, R: Net + Files + Clock + Eprint + RandomSource>(
        &mut self,
        rt: &R,
        table: &mut Connections,
        service: &mut S,
        limits: &Limits,
        access: &mut Access<'_>,
    ) -> Result<(), LoopFault>
        requires { S.is_ready service.old }
        ensures reached { HasReached S.turn S.keeps service.old table.old service.new table.new }
        ensures ready { S.is_ready service.new }
    {
        let mut buffer = [0u8; PIECE];
        for _round in 0..u64::MAX {
            self.round(rt, table, service, &mut buffer, limits, access)?;
            if self.over() >= limits.connections {
                return Ok(());
            }
        }
        Ok(())
    }
}

/// Tells standard error that the node listens, if that is wanted.
fn greet(rt: &impl Eprint, access: &Access<'_>) {
    if let Some(greeting) = &access.greeting {
        let greeting = greeting.as_str();
        let _ = eprint!(rt; "{greeting}");
    }
}

/// Serves an address to many connections at once, by one thread: each request is taken in its turn,
/// and a connection that is slow, silent or reads nothing keeps no other from being answered. What
/// followed from all requests that were there at once is kept on disk by one append, and then they
/// are answered. A connection's own fault ends it alone. Where the group says so messages are
/// carried: the node's to itself at once, those to peers on a connection to each, which is made
/// again where it breaks. While a command is under way no other is taken from a client. Where keys
/// are wanted, what comes is handed on as `ts_access` lets it through.
///
/// # Errors
///
/// `Listen`, `Peer`, `Poll`, `Clock` and `Memory` where the system gives no listener, no address of
/// a peer, no events, time or memory; `Unprotected` where there are no keys and other machines
/// reach the address; `NodeFailed` once a device of the node has failed: all connections end then,
/// without the answers that were not kept.
pub fn serve_all<R, D, M>(
    rt: &R,
    alloc: Global,
    server: &mut Server<D, M>,
    address: &str,
    limits: &Limits,
    group: &Group,
    access: &mut Access<'_>,
) -> Result<Counts, LoopFault>
where
    R: Net + Files + Clock + Eprint + RandomSource,
    D: Disk,
    M: Machine<Command, Outcome = Outcome, Question = Question, Answer = Answer>,
    requires { IsAhead D.state octets_of M.commands server.old.node server.old.staged }
    // Whatever comes, in whatever pieces and whatever order: only moves on the connections were
    // made, and the server has answered the requests that these take, one after another.
    ensures served { IsServed (StagedTurn D.state
        (store_of StoreQuestion M.client_id M.outcome) M.basis M.is_answer) (HasKept D.state)
        server.old
        server.new }
    ensures ahead { IsAhead D.state octets_of M.commands server.new.node server.new.staged }
{
    let slots = limits.connections_at_once;
    // One slot more is for what the loop asks of its own node.
    let mut table = Connections::new(alloc, slots.saturating_add(1))?;
    let own = server.identity();
    let mut edge = Edge::new(rt, alloc, address, slots, own, group, access)?;
    greet(rt, access);
    let served = edge.serve(rt, &mut table, server, limits, access);
    let counts = edge.shared.counts;
    drop(edge);
    drop(table);
    match served {
        Ok(()) => Ok(counts),
        Err(fault) => Err(fault),
    }
}
