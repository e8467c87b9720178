//! One connection of HTTP before a node, as a value.

ghost use Rattle.std.specs.Prelude.{◌≡◌, ◌≤◌, ◌⊎◌, ◌&&◌, List, None, IfOk, OnOk, length};
ghost use Rattle.std.specs.Prelude.{option_map, take, true, false};
ghost use Rattle.ts_http.specs.Moves.{HasCome, HasLeft, is_ended, is_read, request_in};
ghost use Rattle.ts_http.specs.Times.{begun_at, enter_phase, idle_since, is_late_in, lighten};
ghost use Rattle.ts_http.specs.Times.{phase_in};
ghost use Rattle.ts_site.specs.Account.{IsBegun};
ghost use Rattle.ts_api.specs.Response.{IsLine};
ghost use Rattle.ts_api.specs.declared.response.Response.{Response};
ghost use Rattle.ts_site.specs.Faces.{Follows, HasBegun, IsDone, IsGiven, Responds, State};
ghost use Rattle.ts_site.specs.Faces.{Takes, has_room, state_of, wrong_words};
ghost use Rattle.ts_site.specs.inside.Stepping.{IsStep};
ghost use Rattle.ts_site.specs.declared.next.Next.TheVariants.{Tell};

use crate::board::Board;
use crate::next::{Next, Pending};
use crate::site::{begin, go_on};
use std::alloc::{AllocError, Global};
use ts_api::{Response, Route, Scene, headers_of, phrase_of, route_in};
use ts_http::{Connection, HttpFault, MAX_HELD, Progress};
use ts_wire::Frame;

/// What the node is asked for the request that waits.
#[derive(Drop)]
pub(crate) struct Asking {
    pub pending: Pending,
    /// The octets of the frame.
    pub frame: Vec<u8>,
}

/// One connection of HTTP before a node: octets that came go in, frames for the node come out, and
/// the node's answers become responses.
#[derive(Drop)]
pub struct Face {
    pub(crate) alloc: Global,
    pub(crate) connection: Connection,
    /// What the node is asked for the request that waits.
    pub(crate) asking: Option<Asking>,
    /// Requests wait until what waits to leave is less.
    pub(crate) paused: bool,
}

/// Why a request is not taken, in words.
fn words_of(status: u16) -> &'static str
    ensures { result.now ≡ wrong_words status }
{
    match status {
        413 => "a body has at most 8388608 octets",
        414 => "the path is too long",
        431 => "the header fields are too long",
        501 => "a transfer coding that isn't taken here",
        _ => "this is no request of HTTP/1.1",
    }
}

impl Face {
    /// A connection of which nothing has come, at this moment in milliseconds.
    pub fn new(alloc: Global, now: u64) -> Face
        ensures begun { IsBegun (state_of result) }
        ensures paused { result.paused ≡ false }
        ensures times { result.connection.times ≡ begun_at now }
    {
        Face {
            alloc,
            connection: Connection::new(alloc, now),
            asking: None,
            paused: false,
        }
    }

    /// Octets came. Of a connection that has ended they are dropped.
    ///
    /// # Errors
    ///
    /// Memory that is refused.
    pub fn push(&mut self, piece: &[u8], now: u64) -> Result<(), AllocError>
        ensures came { OnOk result (HasCome self.old.connection self.new.connection piece.now) }
        ensures asks { self.new.asking ≡ self.old.asking }
        ensures paused { self.new.paused ≡ self.old.paused }
        ensures times { OnOk result (self.new.connection.times
            ≡ enter_phase (phase_in self.new.connection) now self.old.connection.times) }
    {
        self.connection.push(piece, now)
    }

    /// Whether more is to be read from the client.
    pub fn reads(&self) -> bool
        ensures { result ≡ is_read self.now.connection && has_room self.now.connection }
    {
        self.connection.reads() && self.connection.octets().len() < MAX_HELD
    }

    /// Whether requests that have come can be taken now, which had to wait.
    pub fn goes_on(&self) -> bool
        ensures { result ≡ self.now.paused && has_room self.now.connection }
    {
        self.paused && self.connection.octets().len() < MAX_HELD
    }

    /// Whether nothing more is answered.
    pub fn is_ended(&self) -> bool
        ensures { result ≡ is_ended self.now.connection }
    {
        self.connection.is_ended()
    }

    /// The octets of the frame that the node is to be asked by.
    pub fn asks(&self) -> Option<&[u8]>
        ensures { option_map (λ frame. frame.now) result
            ≡ option_map (λ asking. asking.frame.items) self.now.asking }
    {
        match &self.asking {
            Some(asking) => Some(asking.frame.as_slice()),
            None => None,
        }
    }

    /// What waits to leave.
    pub fn octets(&self) -> &[u8]
        ensures { result.now ≡ self.now.connection.out }
    {
        self.connection.octets()
    }

    /// So many of the octets that wait have left.
    pub fn leave(&mut self, count: usize, now: u64)
        requires { count ≤ length self.old.connection.out }
        ensures left { HasLeft self.old.connection self.new.connection
            (take count self.old.connection.out) }
        ensures asks { self.new.asking ≡ self.old.asking }
        ensures paused { self.new.paused ≡ self.old.paused }
        ensures times { self.new.connection.times ≡ enter_phase (phase_in self.new.connection) now
            (lighten count now self.old.connection.times) }
    {
        self.connection.leave(count, now);
    }

    /// Whether the connection is late, by the times of `ts_http`.
    pub fn is_late(&self, idle_ms: u64, request_ms: u64, now: u64) -> bool
        ensures { result ≡ is_late_in self.now.connection idle_ms request_ms now }
    {
        self.connection.is_late(idle_ms, request_ms, now)
    }

    /// Since when nothing is asked.
    pub fn idle_since(&self) -> Option<u64>
        ensures { result ≡ idle_since self.now.connection.times }
    {
        self.connection.idle_since()
    }

    /// Writes a response.
    fn respond(
        &mut self,
        response: &Response,
        route: Route,
        board: &mut Board,
        now: u64,
    ) -> Result<(), HttpFault>
        ensures responds { OnOk result
            (Responds self.old.connection self.new.connection response.now) }
        ensures asks { self.new.asking ≡ self.old.asking }
        ensures paused { self.new.paused ≡ self.old.paused }
        ensures times { OnOk result (self.new.connection.times
            ≡ enter_phase (phase_in self.new.connection) now self.old.connection.times) }
    {
        let headers = headers_of(self.alloc, response)?;
        let (status, phrase) = (response.status, phrase_of(response.status));
        self.connection
            .respond(status, phrase, headers, &response.body, now)?;
        board.answered(route, status);
        Ok(())
    }

    /// Writes the response to what is no request that is taken.
    fn refuse(&mut self, status: u16, board: &mut Board, now: u64) -> Result<(), HttpFault>
        ensures { OnOk result ((response : Response)
            × IsLine status (wrong_words status) response
            × Follows now (Tell response) (state_of self.old) (state_of self.new)) }
    {
        let response = Response::line(self.alloc, status, words_of(status))?;
        self.respond(&response, Route::None, board, now)
    }

    /// The route of the request that waits.
    fn route(&self) -> Route {
        match self.connection.request() {
            Some(request) => route_in(&request.target),
            None => Route::None,
        }
    }

    /// Writes a response, or asks the node.
    fn follow(&mut self, next: Next, board: &mut Board, now: u64) -> Result<(), HttpFault>
        ensures follows { OnOk result (Follows now next (state_of self.old) (state_of self.new)) }
        ensures paused { self.new.paused ≡ self.old.paused }
    {
        match next {
            Next::Tell(response) => {
                let route = self.route();
                self.respond(&response, route, board, now)
            }
            Next::Ask(pending, frame) => {
                self.asking = Some(Asking { pending, frame });
                Ok(())
            }
        }
    }

    /// Takes the request that waits. Whether there was one.
    fn take_request(
        &mut self,
        scene: &Scene<'_>,
        board: &mut Board,
        now: u64,
    ) -> Result<bool, HttpFault>
        ensures { IfOk result (λ there. ((there ≡ true)
            × HasBegun scene.entry.now now (state_of self.old) (state_of self.new))
            ⊎ ((there ≡ false) × (state_of self.new ≡ state_of self.old)
            × (request_in self.old.connection ≡ None))) }
    {
        let Some(request) = self.connection.request() else {
            return Ok(false);
        };
        let next = begin(self.alloc, request, scene)?;
        self.follow(next, board, now)?;
        Ok(true)
    }

    /// The next step, while the node is not asked. Whether there may be another.
    fn step(&mut self, scene: &Scene<'_>, board: &mut Board, now: u64) -> Result<bool, HttpFault>
        requires { self.old.asking ≡ None }
        ensures { IfOk result (IsStep scene.entry.now now (state_of self.old) (state_of self.new)) }
    {
        match self.connection.read(now)? {
            Progress::Goes => Ok(true),
            Progress::Waits => Ok(false),
            Progress::Stops => match self.connection.wrong() {
                Some(status) => {
                    self.refuse(status, board, now)?;
                    Ok(false)
                }
                None => self.take_request(scene, board, now),
            },
        }
    }

    /// Goes on until the node has to be asked, or nothing can be done before more comes, or enough
    /// waits to leave that requests have to wait (`goes_on` says when they can be taken again).
    ///
    /// # Errors
    ///
    /// Memory that is refused. The connection can't go on then.
    pub fn take(&mut self, scene: &Scene<'_>, board: &mut Board, now: u64) -> Result<(), HttpFault>
        ensures { OnOk result ((mids : List State)
            × Takes scene.entry.now now (state_of self.old) mids (state_of self.new)
            × IsDone mids (state_of self.new) self.new.paused) }
    {
        self.paused = false;
        for _step in 0..u32::MAX {
            if let Some(_) = &self.asking {
                return Ok(());
            }
            if self.connection.octets().len() >= MAX_HELD {
                self.paused = true;
                return Ok(());
            }
            if !self.step(scene, board, now)? {
                return Ok(());
            }
        }
        Ok(())
    }

    /// The node has answered by this frame: the response to the request waits to leave, or the node
    /// is asked more.
    ///
    /// # Errors
    ///
    /// Memory that is refused; `Write` where nothing was asked. The connection can't go on then.
    pub fn give(&mut self, frame: &Frame, board: &mut Board, now: u64) -> Result<(), HttpFault>
        ensures given { OnOk result
            (IsGiven now (state_of self.old) frame.now (state_of self.new)) }
        ensures paused { self.new.paused ≡ self.old.paused }
    {
        let Some(asking) = self.asking.take() else {
            return Err(HttpFault::Write);
        };
        let next = go_on(self.alloc, asking.pending, frame, board)?;
        self.follow(next, board, now)
    }
}
