//! The socket of a connection of HTTP, and what is known of it.

ghost use Rattle.ts_links.specs.Calls.{HasReached};

use crate::pumping::Round;
use crate::shared::Shared;
use crate::watch::{Watch, moment};
use mio::event::Event;
use std::rt::Clock;
use ts_links::{Connections, Service};
use ts_peers::{ask, first_of};
use ts_site::{Board, Face, Scene};
use ts_sockets::{PIECE, Socket};
use ts_wire::Frame;

/// The most requests of one connection that are answered before the others have their turn.
const TURNS: u32 = 8;

/// The socket of a connection of HTTP, and what a round does with it.
#[derive(Drop)]
pub(crate) struct WebDoor {
    socket: Socket,
    pub face: Face,
    /// It is to be looked at in this round.
    pub hot: bool,
    /// How often the node was asked for it in this round.
    turns: u32,
    /// It failed in this round.
    failed: bool,
}

/// What became of a connection in a round.
#[derive(Clone, Copy, Debug, PartialEq, Eq)]
pub(crate) enum RoundEnd {
    /// It waits for its socket.
    Waits,
    /// It could do more.
    More,
    /// Its command has to wait for another that is under way.
    Held,
    /// Its client has closed it, and all was answered.
    Ended,
    /// It failed.
    Failed,
}

impl WebDoor {
    /// The door of a new connection.
    pub fn new(socket: Socket, face: Face) -> WebDoor {
        WebDoor {
            socket,
            face,
            hot: true,
            turns: 0,
            failed: false,
        }
    }

    /// An event of its socket.
    pub fn mark(&mut self, event: &Event) {
        self.hot = true;
        self.socket.mark(event);
    }

    /// A round begins: reads once, if there is room. `false` where the connection failed.
    pub fn begin(&mut self, buffer: &mut [u8; PIECE], now: u64) -> bool {
        self.turns = 0;
        self.failed = !self.read(buffer, now);
        !self.failed
    }

    /// Reads once, if there is room. `false` where the connection failed.
    fn read(&mut self, buffer: &mut [u8; PIECE], now: u64) -> bool {
        if !self.socket.is_readable() || !self.face.reads() {
            return true;
        }
        let Some(count) = self.socket.read(buffer) else {
            return false;
        };
        self.face.push(&buffer[..count], now).is_ok()
    }

    /// Writes once, if something waits. `false` where the connection failed.
    fn write<S: Service>(&mut self, service: &S, now: u64) -> bool
        requires { S.is_kept service.now }
    {
        if !self.socket.is_writable() || self.face.octets().is_empty() {
            return true;
        }
        match self.socket.write(service, self.face.octets()) {
            Some(count) => {
                self.face.leave(count, now);
                true
            }
            None => false,
        }
    }

    /// Ends what is written, once all has left of a connection that has ended.
    fn shut_if_done(&mut self) {
        if self.face.is_ended() && self.face.octets().is_empty() {
            self.socket.shut();
        }
    }

    /// What is left to do after the turns of this round.
    fn left(&self) -> RoundEnd {
        let waits = !self.face.octets().is_empty();
        let reads = self.socket.is_readable() && self.face.reads();
        let writes = waits && self.socket.is_writable();
        if self.face.goes_on() || self.turns == TURNS || reads || writes {
            return RoundEnd::More;
        }
        if self.face.asks().is_some() {
            return RoundEnd::Held;
        }
        if self.socket.is_ended() && !waits {
            return RoundEnd::Ended;
        }
        RoundEnd::Waits
    }
}

/// What became of a turn of a connection.
#[derive(Clone, Copy, Debug, PartialEq, Eq)]
enum TurnEnd {
    /// The node was asked.
    Asked,
    /// There is nothing to ask it, or it can't be asked now.
    Nothing,
    /// The connection can't go on.
    Failed,
}

/// Asks the node, and gives its answer.
fn ask_node<S: Service, R: Clock>(
    round: &Round<'_, R>,
    table: &mut Connections,
    service: &mut S,
    watch: &mut Watch,
    request: &[u8],
) -> Option<Frame>
    requires { S.is_ready service.old }
    ensures reached { HasReached S.turn S.keeps service.old table.old service.new table.new }
    ensures ready { S.is_ready service.new }
{
    let begun = moment(round.rt);
    let answer = ask(table, service, round.alloc, request, round.now)?;
    watch.took(round.rt, begun);
    first_of(round.alloc, &answer)
}

/// Asks the node what the next request of a connection asks of it.
fn turn<S: Service, R: Clock>(
    round: &Round<'_, R>,
    table: &mut Connections,
    service: &mut S,
    shared: &mut Shared,
    face: &mut Face,
    board: &mut Board,
) -> TurnEnd
    requires { S.is_ready service.old }
    ensures reached { HasReached S.turn S.keeps service.old table.old service.new table.new }
    ensures ready { S.is_ready service.new }
{
    let Some(request) = face.asks() else {
        return TurnEnd::Nothing;
    };
    if shared.carrier.holds_back(request, round.now) {
        return TurnEnd::Nothing;
    }
    shared.carrier.see_http(request, round.now);
    let watch = &mut shared.watch;
    let Some(frame) = ask_node(round, table, service, watch, request) else {
        return TurnEnd::Failed;
    };
    let given = face.give(&frame, board, round.now);
    drop(frame);
    match given {
        Ok(()) => TurnEnd::Asked,
        Err(_) => TurnEnd::Failed,
    }
}

/// Answers requests of a connection. How often the node was asked, and `None` where the connection
/// can't go on.
fn take_turns<S: Service, R: Clock>(
    round: &Round<'_, R>,
    scene: &Scene<'_>,
    table: &mut Connections,
    service: &mut S,
    shared: &mut Shared,
    face: &mut Face,
    board: &mut Board,
) -> Option<u32>
    requires { S.is_ready service.old }
    ensures reached { HasReached S.turn S.keeps service.old table.old service.new table.new }
    ensures ready { S.is_ready service.new }
{
    for turns in 0..TURNS {
        if face.take(scene, board, round.now).is_err() {
            return None;
        }
        match turn(round, table, service, shared, face, board) {
            TurnEnd::Asked => {}
            TurnEnd::Nothing => return Some(turns),
            TurnEnd::Failed => return None,
        }
    }
    Some(TURNS)
}

/// Some turns of a connection that was read. What it is answered waits.
pub(crate) fn begin_web<S: Service, R: Clock>(
    round: &Round<'_, R>,
    scene: &Scene<'_>,
    table: &mut Connections,
    service: &mut S,
    shared: &mut Shared,
    door: &mut WebDoor,
    board: &mut Board,
)
    requires { S.is_ready service.old }
    ensures reached { HasReached S.turn S.keeps service.old table.old service.new table.new }
    ensures ready { S.is_ready service.new }
{
    let face = &mut door.face;
    match take_turns(round, scene, table, service, shared, face, board) {
        Some(turns) => door.turns = turns,
        None => door.failed = true,
    }
}

/// One write of a connection, and what is left to do on it.
pub(crate) fn end_web<S: Service>(service: &S, door: &mut WebDoor, now: u64) -> RoundEnd
    requires { S.is_kept service.now }
{
    if door.failed || !door.write(service, now) {
        return RoundEnd::Failed;
    }
    door.shut_if_done();
    door.left()
}
