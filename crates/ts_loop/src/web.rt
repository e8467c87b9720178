//! The connections of HTTP. They have slots of their own; what they ask of the node the loop asks
//! for them, as it asks for itself.

ghost use Rattle.ts_links.specs.Calls.{HasReached};

use crate::fault::LoopFault;
use crate::listening::{ListenFault, add_places, listener_at};
use crate::pumping::Round;
use crate::shared::Shared;
use crate::web_door::{RoundEnd, WebDoor, begin_web, end_web};
use mio::event::Event;
use mio::net::{TcpListener, TcpStream};
use mio::{Interest, Registry, Token};
use std::alloc::Global;
use std::net::Net;
use std::rt::Clock;
use ts_links::{Connections, Service};
use ts_site::{Board, Face, Scene};
use ts_sockets::{ACCEPTS, Accepts, Access, Counts, Limits, PIECE, Socket, Why};

/// The token of the listener. The doors follow.
pub(crate) const WEB: usize = 1_000_000;

/// How many milliseconds pass until late connections are looked for again.
const SWEEP: u64 = 100;

/// How many milliseconds pass until what is counted is shown anew.
const SHOW: u64 = 100;

/// The listener, its connections, and what they are shown.
#[derive(Drop)]
pub(crate) struct Web {
    alloc: Global,
    listener: TcpListener,
    doors: Vec<Option<WebDoor>>,
    accepts: Accepts,
    event: bool,
    swept: u64,
    /// When what is counted was shown last.
    shown: Option<u64>,
    /// Whether commands are taken: the node has keys, and is reached over loopback.
    commands: bool,
    pub board: Board,
    pub counts: Counts,
    /// A connection could do more.
    pub more: bool,
}

/// The listener at an address, and whether this machine alone reaches it.
fn listener_of_web<R: Net>(
    rt: &R,
    registry: &Registry,
    address: &str,
    open: bool,
) -> Result<(TcpListener, bool), LoopFault> {
    let (mut listener, is_loopback) = match listener_at(rt, address, open) {
        Ok(found) => found,
        Err(ListenFault::Address) => return Err(LoopFault::ListenHttp),
        Err(ListenFault::Unprotected) => return Err(LoopFault::UnprotectedHttp),
    };
    let registered = registry.register(&mut listener, Token(WEB), Interest::READABLE);
    if registered.is_err() {
        return Err(LoopFault::Poll);
    }
    Ok((listener, is_loopback))
}

/// The slot of the connection that has been idle longest.
fn idlest(doors: &[Option<WebDoor>]) -> Option<usize> {
    let mut found = None;
    let mut earliest = u64::MAX;
    for (slot, place) in doors.iter().enumerate() {
        let Some(door) = place else {
            continue;
        };
        if let Some(since) = door.face.idle_since() {
            if since < earliest {
                earliest = since;
                found = Some(slot);
            }
        }
    }
    found
}

/// The first slot without a connection.
fn first_free(doors: &[Option<WebDoor>]) -> Option<usize> {
    doors.iter().position(|place| place.is_none())
}

impl Web {
    /// The listener at an address alone, with so many slots.
    pub fn new<R: Net>(
        rt: &R,
        alloc: Global,
        registry: &Registry,
        address: &str,
        slots: usize,
        access: &Access<'_>,
    ) -> Result<Web, LoopFault> {
        let (listener, is_loopback) = listener_of_web(rt, registry, address, access.open)?;
        let mut web = Web {
            alloc,
            listener,
            doors: Vec::new(alloc),
            accepts: Accepts::AtEvent,
            event: false,
            swept: 0,
            shown: None,
            commands: is_loopback && access.is_locked(),
            board: Board::new(alloc, access.node),
            counts: Counts::new(),
            more: false,
        };
        match add_places(&mut web.doors, slots) {
            Ok(()) => Ok(web),
            Err(fault) => {
                drop(web);
                Err(LoopFault::from(fault))
            }
        }
    }

    /// An event of the listener, or of a door.
    pub fn mark(&mut self, place: usize, event: &Event) {
        if place == 0 {
            self.event = true;
        } else if let Some(Some(door)) = self.doors.get_mut(place - 1) {
            door.mark(event);
        }
    }

    /// Whether there is something to do at once.
    pub fn goes_on(&self) -> bool {
        self.more || self.accepts == Accepts::Now
    }

    /// Whether a connection has something to do, or the listener has an event.
    pub fn has_work(&self, now: u64) -> bool {
        self.accepts.is_due(self.event, now)
            || self
                .doors
                .iter()
                .any(|place| matches!(place, Some(WebDoor { hot: true, .. })))
    }

    /// Whether what is counted was not shown for a tenth of a second. It is shown now.
    pub fn is_stale(&mut self, now: u64) -> bool {
        if let Some(shown) = self.shown {
            if now.saturating_sub(shown) < SHOW {
                return false;
            }
        }
        self.shown = Some(now);
        true
    }

    /// Closes the connection of a slot.
    fn close(&mut self, slot: usize, why: Why) {
        if slot < self.doors.len() {
            self.doors[slot] = None;
            self.counts.closed(why);
        }
    }

    /// A slot for a new connection: a free one, or that of the connection that has been idle
    /// longest, which makes room.
    fn find_slot(&mut self) -> Option<usize> {
        if let Some(slot) = first_free(&self.doors) {
            return Some(slot);
        }
        let slot = idlest(&self.doors)?;
        self.close(slot, Why::MadeRoom);
        Some(slot)
    }

    /// Lets a connection in, if there is a slot for it. Else it is closed.
    fn let_in(&mut self, registry: &Registry, mut stream: TcpStream, now: u64) {
        let Some(slot) = self.find_slot() else {
            self.counts.refuse();
            return;
        };
        let token = Token(WEB.saturating_add(1).saturating_add(slot));
        let both = Interest::READABLE | Interest::WRITABLE;
        if slot >= self.doors.len() || registry.register(&mut stream, token, both).is_err() {
            self.counts.refuse();
            return;
        }
        let _nodelay = stream.set_nodelay(true);
        self.counts.opened();
        self.doors[slot] = Some(WebDoor::new(Socket::new(stream), Face::new(self.alloc, now)));
    }

    /// Accepts connections, until none waits or one can't be accepted. When to accept next.
    fn accept_some(&mut self, registry: &Registry, now: u64) -> Accepts {
        for _accept in 0..ACCEPTS {
            match self.listener.accept() {
                Ok((stream, _)) => self.let_in(registry, stream, now),
                Err(error) => return Accepts::after(&error, now, &mut self.counts),
            }
        }
        Accepts::Now
    }

    /// Accepts connections, if it is time.
    fn accept(&mut self, registry: &Registry, now: u64) {
        if self.accepts.is_due(self.event, now) {
            self.event = false;
            self.accepts = self.accept_some(registry, now);
        }
    }

    /// What is known of a slot after a round: whether it could do more.
    fn settle(&mut self, slot: usize, left: RoundEnd) -> bool {
        match left {
            RoundEnd::More => true,
            RoundEnd::Held => false,
            RoundEnd::Waits => {
                if let Some(Some(door)) = self.doors.get_mut(slot) {
                    door.hot = false;
                }
                false
            }
            RoundEnd::Ended => {
                self.close(slot, Why::Ended);
                false
            }
            RoundEnd::Failed => {
                self.close(slot, Why::Failed);
                false
            }
        }
    }

    /// A round of a slot begins, if it is to be looked at: it is read, and its requests are taken.
    fn begin_slot<S: Service, R: Clock>(
        &mut self,
        round: &Round<'_, R>,
        table: &mut Connections,
        service: &mut S,
        shared: &mut Shared,
        slot: usize,
        buffer: &mut [u8; PIECE],
    )
        requires { S.is_ready service.old }
        ensures reached { HasReached S.turn S.keeps service.old table.old service.new table.new }
        ensures ready { S.is_ready service.new }
    {
        let Some(Some(door)) = self.doors.get_mut(slot) else {
            return;
        };
        if !door.hot || !door.begin(buffer, round.now) {
            return;
        }
        let scene = Scene {
            now: self.board.now,
            node: self.board.node,
            commands: self.commands,
            keys: round.keys,
        };
        let board = &mut self.board;
        begin_web(round, &scene, table, service, shared, door, board);
    }

    /// A round begins: connections are accepted, read, and their requests are taken.
    pub fn begin<S: Service, R: Clock>(
        &mut self,
        round: &Round<'_, R>,
        registry: &Registry,
        table: &mut Connections,
        service: &mut S,
        shared: &mut Shared,
        buffer: &mut [u8; PIECE],
    )
        requires { S.is_ready service.old }
        ensures reached { HasReached S.turn S.keeps service.old table.old service.new table.new }
        ensures ready { S.is_ready service.new }
    {
        self.accept(registry, round.now);
        for slot in 0..self.doors.len() {
            self.begin_slot(round, table, service, shared, slot, buffer);
        }
    }

    /// A round of a slot ends, if it is to be looked at: it is written. Whether it could do more.
    fn end_slot<S: Service>(&mut self, service: &S, slot: usize, now: u64) -> bool
        requires { S.is_kept service.now }
    {
        let Some(Some(door)) = self.doors.get_mut(slot) else {
            return false;
        };
        if !door.hot {
            return false;
        }
        let left = end_web(service, door, now);
        self.settle(slot, left)
    }

    /// A round ends: connections are written, and closed where they are late.
    pub fn end<S: Service>(&mut self, service: &S, limits: &Limits, now: u64)
        requires { S.is_kept service.now }
    {
        self.more = false;
        for slot in 0..self.doors.len() {
            if self.end_slot(service, slot, now) {
                self.more = true;
            }
        }
        self.sweep(limits, now);
    }

    /// Closes the connections that are late, if a tenth of a second has gone since that was done.
    fn sweep(&mut self, limits: &Limits, now: u64) {
        if now.saturating_sub(self.swept) < SWEEP {
            return;
        }
        self.swept = now;
        for slot in 0..self.doors.len() {
            let Some(Some(door)) = self.doors.get(slot) else {
                continue;
            };
            if door.face.is_late(limits.idle_ms, limits.request_ms, now) {
                self.close(slot, Why::Late);
            }
        }
    }
}
