//! One connection of HTTP/1.1, as a value.

ghost use Rattle.std.specs.Prelude.{◌≡◌, ◌≤◌, length, option_map, take, OnOk};
ghost use Rattle.ts_http.specs.Moves.{HasCome, HasLeft, IsNew, IsSame, is_ended, is_read};
ghost use Rattle.ts_http.specs.Moves.{request_in, wrong_in};
ghost use Rattle.ts_http.specs.Times.{begun_at, enter_phase, idle_since, is_late_in, lighten};
ghost use Rattle.ts_http.specs.Times.{phase_in};
ghost use Rattle.ts_http.specs.Times.{size_at};

use crate::request::Request;
use crate::times::{Phase, Times};
use http1::{Limits, Server};
use std::alloc::{AllocError, Global};
use ts_queue::Queue;

/// The most octets of a body, as of a frame.
pub const MAX_BODY: usize = 8_388_608;

/// How many octets are held before no more are read.
pub const MAX_HELD: usize = 65_536;

/// How far a connection is.
#[derive(Drop)]
pub(crate) enum Stage {
    /// No head has come.
    Head,
    /// Of this request the body comes.
    Body(Request),
    /// This request has come whole, and waits for its response.
    Whole(Request),
    /// What came is no request that is taken: it waits for a response of this status, and nothing
    /// more is answered. `is_head`: the request was HEAD.
    Wrong { status: u16, is_head: bool },
    /// Nothing more is answered.
    Ended,
}

/// One connection of HTTP/1.1: octets that came go in, requests come out one after another, and the
/// response to each is written before the next is read.
#[derive(Drop)]
pub struct Connection {
    pub(crate) alloc: Global,
    pub(crate) server: Server,
    pub(crate) stage: Stage,
    /// What came and was not read.
    pub(crate) input: Queue,
    /// What was written and has not left.
    pub(crate) out: Queue,
    /// How many octets of a body are announced.
    pub(crate) announced: u64,
    pub(crate) times: Times,
}

impl Connection {
    /// A connection of which nothing has come, at this moment in milliseconds.
    pub fn new(alloc: Global, now: u64) -> Connection
        ensures begun { IsNew result }
        ensures times { result.times ≡ begun_at now }
    {
        Connection {
            alloc,
            server: Server::new(Limits::default()),
            stage: Stage::Head,
            input: Queue::new(alloc),
            out: Queue::new(alloc),
            announced: 0,
            times: Times::new(now),
        }
    }

    /// Octets came. Of a connection that has ended they are dropped.
    ///
    /// # Errors
    ///
    /// Memory that is refused.
    pub fn push(&mut self, piece: &[u8], now: u64) -> Result<(), AllocError>
        ensures came { OnOk result (HasCome self.old self.new piece.now) }
        ensures times { OnOk result (self.new.times
            ≡ enter_phase (phase_in self.new) now self.old.times) }
    {
        if !self.is_ended() {
            self.input.push(piece)?;
        }
        self.look(now);
        Ok(())
    }

    /// Whether more is to be read from the client: of a connection that has ended all is, and
    /// dropped.
    pub fn reads(&self) -> bool
        ensures { result ≡ is_read self.now }
    {
        self.is_ended() || self.input.len() < MAX_HELD
    }

    /// The request that waits for its response.
    pub fn request(&self) -> Option<&Request>
        ensures { option_map (λ request. request.now) result ≡ request_in self.now }
    {
        match &self.stage {
            Stage::Whole(request) => Some(request),
            _ => None,
        }
    }

    /// The status of the response that waits for what is wrong with what came.
    pub fn wrong(&self) -> Option<u16>
        ensures { result ≡ wrong_in self.now }
    {
        match &self.stage {
            Stage::Wrong { status, .. } => Some(*status),
            _ => None,
        }
    }

    /// Whether nothing more is answered.
    pub fn is_ended(&self) -> bool
        ensures { result ≡ is_ended self.now }
    {
        matches!(&self.stage, Stage::Ended)
    }

    /// What waits to leave.
    pub fn octets(&self) -> &[u8]
        ensures { result.now ≡ self.now.out }
    {
        self.out.octets()
    }

    /// So many of the octets that wait have left.
    pub fn leave(&mut self, count: usize, now: u64)
        requires { count ≤ length self.old.out }
        ensures left { HasLeft self.old self.new (take count self.old.out) }
        ensures times { self.new.times
            ≡ enter_phase (phase_in self.new) now (lighten count now self.old.times) }
    {
        self.out.skip(count);
        self.times.leave(count, now);
        self.look(now);
    }

    /// How many octets of a body are announced, or have come.
    fn size(&self) -> u64
        ensures { result ≡ size_at self.now.stage self.now.announced }
    {
        match &self.stage {
            Stage::Body(request) => self.announced.max(request.body.len() as u64),
            _ => 0,
        }
    }

    /// What the connection does.
    fn phase(&self) -> Phase
        ensures { result ≡ phase_in self.now }
    {
        if self.out.len() > 0 {
            return Phase::Answer;
        }
        match &self.stage {
            Stage::Head if self.input.len() == 0 => Phase::Idle,
            Stage::Head | Stage::Body(_) => Phase::Request,
            Stage::Whole(_) | Stage::Wrong { .. } => Phase::Asked,
            Stage::Ended => Phase::Ended,
        }
    }

    /// Takes down what the connection does at this moment.
    pub(crate) fn look(&mut self, now: u64)
        ensures same { IsSame self.old self.new }
        ensures times { self.new.times ≡ enter_phase (phase_in self.new) now self.old.times }
        ensures announced { self.new.announced ≡ self.old.announced }
    {
        let phase = self.phase();
        self.times.enter(phase, now);
    }

    /// Whether the connection is late: nothing is asked for `idle_ms`; or a request takes longer to
    /// come than `request_ms`, and a second for each mebibyte of its body that is announced or has
    /// come; or an answer waits so long, and again so long after each 65,536 octets that left; or
    /// it has ended so long ago. While a request waits for its response it is not.
    pub fn is_late(&self, idle_ms: u64, request_ms: u64, now: u64) -> bool
        ensures { result ≡ is_late_in self.now idle_ms request_ms now }
    {
        self.times.is_late(idle_ms, request_ms, self.size(), now)
    }

    /// Since when nothing is asked.
    pub fn idle_since(&self) -> Option<u64>
        ensures { result ≡ idle_since self.now.times }
    {
        self.times.idle_since()
    }
}
