//! Requests are read.

ghost use Rattle.std.specs.Prelude.{◌≡◌, IfOk, OnOk};
ghost use Rattle.ts_http.specs.Moves.{BeginsBody, FromBody, FromHead, Has, HasRead, Invites};
ghost use Rattle.ts_http.specs.Moves.{TakesPiece};
ghost use Rattle.ts_http.specs.Reading.{Tells};
ghost use Rattle.ts_http.specs.Times.{enter_phase, phase_in};
ghost use Rattle.ts_http.specs.declared.connection.Stage.TheVariants as stages;
ghost use Rattle.ts_http.specs.declared.reading.Progress.TheVariants.{Stops};
ghost use Rattle.ts_http.specs.inside.Behind.{IsBehind};

use crate::connection::{Connection, MAX_BODY, Stage};
use crate::fault::HttpFault;
use crate::looking::{Head, Piece, look_for_body, look_for_head};
use crate::request::Request;
use http1::BodySize;
use std::mem::replace;

/// The status where a body is too long (RFC 9110 15.5.14).
const TOO_LONG: u16 = 413;

/// The status where a transfer coding isn't taken (RFC 9112 6.1).
const CODED: u16 = 501;

/// What became of a read.
#[derive(Clone, Copy, Debug, PartialEq, Eq)]
pub enum Progress {
    /// There may be more to read.
    Goes,
    /// There is not before more has come.
    Waits,
    /// A request, or something wrong, waits for its response; or nothing more is answered.
    Stops,
}

impl Connection {
    /// What came is no request that is taken.
    fn fail(&mut self, status: u16, is_head: bool) -> Progress
        ensures wrong { Has self.new self.old.server (stages.Wrong status is_head)
            self.old.input self.old.out }
        ensures stops { result ≡ Stops }
        ensures times { self.new.times ≡ self.old.times }
    {
        self.stage = Stage::Wrong { status, is_head };
        Progress::Stops
    }

    /// Says that a body may come, where the client waits for that (RFC 9110 10.1.1).
    fn invite(&mut self) -> Result<(), HttpFault>
        ensures invites { OnOk result (Invites self.old self.new.server self.new.out) }
        ensures input { OnOk result (self.new.input ≡ self.old.input) }
        ensures times { OnOk result (self.new.times ≡ self.old.times) }
    {
        if !self.server.expects_continue() {
            return Ok(());
        }
        let mut octets = Vec::new(self.alloc);
        self.server
            .write_informational(&mut octets, 100, b"Continue", &[])?;
        self.out.push(&octets)?;
        Ok(())
    }

    /// Takes the head of a request: its body comes, unless it isn't taken.
    fn take_head(&mut self, request: Request) -> Result<Progress, HttpFault>
        ensures read { OnOk result (BeginsBody self.old request self.new) }
        ensures told { IfOk result (IsBehind self.new.stage) }
        ensures times { OnOk result (self.new.times ≡ self.old.times) }
    {
        self.announced = 0;
        if self.server.has_codings() {
            return Ok(self.fail(CODED, request.is_head()));
        }
        if let BodySize::Known(size) = self.server.unread_size() {
            if size > MAX_BODY as u64 {
                return Ok(self.fail(TOO_LONG, request.is_head()));
            }
            self.announced = size;
        }
        self.invite()?;
        self.stage = Stage::Body(request);
        Ok(Progress::Goes)
    }

    /// One read where a head is due.
    fn read_head(&mut self) -> Result<Progress, HttpFault>
        ensures read { OnOk result (FromHead self.old self.new) }
        ensures told { IfOk result (Tells stages.Head self.old self.new) }
        ensures times { OnOk result (self.new.times ≡ self.old.times) }
    {
        match look_for_head(self.alloc, &mut self.server, self.input.octets())? {
            Head::Came(request, count) => {
                self.input.skip(count);
                self.take_head(request)
            }
            Head::Nothing(count) => {
                self.input.skip(count);
                self.stage = Stage::Head;
                Ok(Progress::Waits)
            }
            Head::Wrong(status) => Ok(self.fail(status, false)),
        }
    }

    /// Takes a piece of a body.
    fn take_piece(&mut self, mut request: Request, piece: &[u8]) -> Result<Progress, HttpFault>
        ensures read { OnOk result (TakesPiece self.old request piece.now self.new) }
        ensures told { IfOk result (IsBehind self.new.stage) }
        ensures times { OnOk result (self.new.times ≡ self.old.times) }
    {
        if request.body.len() + piece.len() > MAX_BODY {
            return Ok(self.fail(TOO_LONG, request.is_head()));
        }
        request.body.extend_from_slice(piece)?;
        self.stage = Stage::Body(request);
        Ok(Progress::Goes)
    }

    /// One read within the body of a request.
    fn read_body(&mut self, request: Request) -> Result<Progress, HttpFault>
        ensures read { OnOk result (FromBody request self.old self.new) }
        ensures told { IfOk result (Tells (stages.Body request) self.old self.new) }
        ensures times { OnOk result (self.new.times ≡ self.old.times) }
    {
        match look_for_body(self.alloc, &mut self.server, self.input.octets())? {
            Piece::Came(piece, count) => {
                self.input.skip(count);
                self.take_piece(request, &piece)
            }
            Piece::Nothing(count) => {
                self.input.skip(count);
                self.stage = Stage::Body(request);
                Ok(Progress::Waits)
            }
            Piece::End(count) => {
                self.input.skip(count);
                self.stage = Stage::Whole(request);
                Ok(Progress::Stops)
            }
            Piece::Wrong(status) => Ok(self.fail(status, request.is_head())),
        }
    }

    /// Reads on: a head, or a piece of a body.
    fn read_on(&mut self) -> Result<Progress, HttpFault>
        ensures read { OnOk result (HasRead self.old self.new) }
        ensures told { IfOk result (Tells self.old.stage self.old self.new) }
        ensures times { OnOk result (self.new.times ≡ self.old.times) }
    {
        match replace(&mut self.stage, Stage::Ended) {
            Stage::Head => self.read_head(),
            Stage::Body(request) => self.read_body(request),
            stage => {
                self.stage = stage;
                Ok(Progress::Stops)
            }
        }
    }

    /// Reads on: a head, or a piece of a body.
    ///
    /// # Errors
    ///
    /// Memory that is refused. The connection can't go on then.
    pub fn read(&mut self, now: u64) -> Result<Progress, HttpFault>
        ensures read { OnOk result (HasRead self.old self.new) }
        ensures told { IfOk result (Tells self.old.stage self.old self.new) }
        ensures times { OnOk result (self.new.times
            ≡ enter_phase (phase_in self.new) now self.old.times) }
    {
        let progress = self.read_on()?;
        self.look(now);
        Ok(progress)
    }
}
