//! A connection's turn: the frame at the front is taken and answered.

ghost use Rattle.std.specs.Prelude.{◌≡◌, ◌≤◌, ◌<◌, ◌++◌, length, drop};
ghost use Rattle.ts_wire.specs.Frames.{frame_encoding, FrameFits};
ghost use Rattle.ts_wire.specs.declared.frame.Frame.{Frame as Request};
ghost use Rattle.ts_serve.specs.Stream.{Stops};
ghost use Rattle.ts_serve.specs.Text.{text};
ghost use Rattle.ts_links.specs.Times.{times_took};
ghost use Rattle.ts_links.specs.Turns.{KeepGives, RefuseGives, TurnGives};

use crate::front::first;
use crate::link::{Link, MAX_WAITING, Stage, TakeResult};
use crate::service::Service;
use std::alloc::{AllocError, Global};
use ts_serve::{AnswerFault, refusal};
use ts_wire::{FeedError, Frame, FrameFault};

impl Link {
    /// Lets a request that was taken go.
    fn pass(&mut self, size: usize, now: u64)
        requires { size ≤ length self.old.held }
        ensures { self.new ≡ record self.old {
          held = drop size self.old.held;
          times = times_took self.old.waits self.old.times now;
        } }
    {
        self.times = self.times.took(self.waits.octets(), now);
        self.held.skip(size);
    }

    /// Lets a request that was taken go, and puts its answers behind those that wait. Where memory
    /// is refused they are lost, and the connection is closed.
    fn keep(&mut self, size: usize, octets: &[u8], now: u64) -> Result<TakeResult, AllocError>
        requires { size ≤ length self.old.held }
        ensures { KeepGives self.old size octets.now now result self.new }
    {
        self.pass(size, now);
        self.put(octets)?;
        Ok(TakeResult::Request)
    }

    /// Answers a wrong frame. Nothing more is taken then.
    fn refuse(
        &mut self,
        alloc: Global,
        fault: FrameFault,
        now: u64,
    ) -> Result<TakeResult, AllocError>
        requires open { self.old.stage ≡ Stage.Open }
        requires stops { Stops fault self.old.held }
        ensures { RefuseGives self.old fault now result self.new }
    {
        let octets = refusal(alloc, fault)?;
        self.times = self.times.refused(now);
        self.put(&octets)?;
        self.stage = Stage::Refused;
        Ok(TakeResult::Fault)
    }

    /// Answers the frame at the front.
    fn answer<S: Service>(
        &mut self,
        alloc: Global,
        service: &mut S,
        frame: Frame,
        size: usize,
        now: u64,
    ) -> Result<TakeResult, AllocError>
        requires ready { S.is_ready service.old }
        requires open { self.old.stage ≡ Stage.Open }
        requires few { length self.old.waits < 65536 }
        requires fits { FrameFits frame }
        requires within { size ≤ length self.old.held }
        requires front { self.old.held ≡ frame_encoding frame ++ drop size self.old.held }
        ensures gives { TurnGives S.turn service.old self.old now result service.new self.new }
        ensures ready { S.is_ready service.new }
    {
        match service.answer(frame) {
            Ok(octets) => self.keep(size, &octets, now),
            Err(AnswerFault::NoRequest) => self.refuse(alloc, FrameFault::Kind, now),
            Err(AnswerFault::Memory) => {
                self.pass(size, now);
                self.stage = Stage::Closed;
                Err(AllocError)
            }
        }
    }

    /// Takes the frame at the front, if it is whole and there is room for answers, and puts its
    /// answers behind those that wait.
    ///
    /// # Errors
    ///
    /// Memory that is refused. Nothing was done then, or an answer is lost and the connection is
    /// closed.
    pub(crate) fn take<S: Service>(
        &mut self,
        alloc: Global,
        service: &mut S,
        now: u64,
    ) -> Result<TakeResult, AllocError>
        requires { S.is_ready service.old }
        ensures gives { TurnGives S.turn service.old self.old now result service.new self.new }
        ensures ready { S.is_ready service.new }
    {
        if self.stage != Stage::Open || self.waits.len() >= MAX_WAITING {
            return Ok(TakeResult::Nothing);
        }
        match first(alloc, self.held.octets()) {
            Ok(Some((frame, size))) => self.answer(alloc, service, frame, size, now),
            Ok(None) => Ok(TakeResult::Nothing),
            Err(FeedError::Frame(fault)) => self.refuse(alloc, fault, now),
            Err(FeedError::Memory) => Err(AllocError),
        }
    }
}
