//! Responses are written.

ghost use Rattle.std.specs.Prelude.{◌≡◌, true, false, IfOk, OnOk};
ghost use Rattle.http1.specs.Head.{pairs};
ghost use Rattle.ts_http.specs.Writing.{IsWritten, closing};
ghost use Rattle.ts_http.specs.Times.{enter_phase, phase_in};
ghost use Rattle.ts_http.specs.Moves.{Answers, EndsWith, HasAnswered, Writes, manner_at};

use crate::connection::{Connection, Stage};
use crate::fault::HttpFault;
use http1::{BodySize, Header, Server};
use std::alloc::Global;

/// The header field that says that the connection ends behind a response (RFC 9112 9.6).
const CLOSES: Header<'static> = Header {
    name: b"connection",
    value: b"close",
};

/// The octets of a response, without its body.
fn bare(
    alloc: Global,
    server: &mut Server,
    status: u16,
    phrase: &str,
    headers: &[Header<'_>],
    body: &[u8],
) -> Result<Vec<u8>, HttpFault>
    ensures { IfOk result (λ octets. IsWritten server.old status phrase.now (pairs headers.now)
        body.now true octets.items server.new) }
{
    let size = BodySize::Known(body.len() as u64);
    let mut out = Vec::new(alloc);
    server.write_response(&mut out, status, phrase.as_bytes(), headers, size)?;
    server.write_end(&mut out, &[])?;
    Ok(out)
}

/// The octets of a response, with its body.
fn whole(
    alloc: Global,
    server: &mut Server,
    status: u16,
    phrase: &str,
    headers: &[Header<'_>],
    body: &[u8],
) -> Result<Vec<u8>, HttpFault>
    ensures { IfOk result (λ octets. IsWritten server.old status phrase.now (pairs headers.now)
        body.now false octets.items server.new) }
{
    let size = BodySize::Known(body.len() as u64);
    let mut out = Vec::new(alloc);
    server.write_response(&mut out, status, phrase.as_bytes(), headers, size)?;
    server.write_data(&mut out, body)?;
    server.write_end(&mut out, &[])?;
    Ok(out)
}

/// The octets of a response, without its body where the request was HEAD.
fn written(
    alloc: Global,
    server: &mut Server,
    status: u16,
    phrase: &str,
    headers: &[Header<'_>],
    body: &[u8],
    is_head: bool,
) -> Result<Vec<u8>, HttpFault>
    ensures { IfOk result (λ octets. IsWritten server.old status phrase.now (pairs headers.now)
        body.now is_head octets.items server.new) }
{
    if is_head {
        return bare(alloc, server, status, phrase, headers, body);
    }
    whole(alloc, server, status, phrase, headers, body)
}

/// Header fields, with the one that says that the connection ends.
fn with_close(headers: Vec<Header<'_>>) -> Result<Vec<Header<'_>>, HttpFault>
    ensures { IfOk result (λ all. pairs all.items ≡ closing true (pairs headers.entry.items)) }
{
    let mut headers = headers;
    headers.push(CLOSES)?;
    Ok(headers)
}

impl Connection {
    /// Whether the response that waits is to a HEAD, and whether the connection ends behind it.
    fn manner(&self) -> Option<(bool, bool)>
        ensures { result ≡ manner_at self.now.stage }
    {
        match &self.stage {
            Stage::Whole(request) => Some((request.is_head(), false)),
            Stage::Wrong { is_head, .. } => Some((*is_head, true)),
            _ => None,
        }
    }

    /// Writes a response, and goes on to the next request, or ends.
    fn write(
        &mut self,
        status: u16,
        phrase: &str,
        headers: &[Header<'_>],
        body: &[u8],
        is_head: bool,
    ) -> Result<(), HttpFault>
        ensures written { OnOk result (Writes self.old self.new status phrase.now
            (pairs headers.now) body.now is_head) }
        ensures times { OnOk result (self.new.times ≡ self.old.times) }
    {
        let (alloc, server) = (self.alloc, &mut self.server);
        let octets = written(alloc, server, status, phrase, headers, body, is_head)?;
        self.out.push(&octets)?;
        Ok(())
    }

    /// Writes the response to a request.
    fn answer(
        &mut self,
        status: u16,
        phrase: &str,
        headers: Vec<Header<'_>>,
        body: &[u8],
        is_head: bool,
    ) -> Result<(), HttpFault>
        ensures written { OnOk result (Answers self.old self.new status phrase.now
            (pairs headers.entry.items) body.now is_head) }
        ensures times { OnOk result (self.new.times ≡ self.old.times) }
    {
        self.write(status, phrase, &headers, body, is_head)?;
        if self.server.is_closed() {
            self.stage = Stage::Ended;
            return Ok(());
        }
        self.stage = Stage::Head;
        Ok(())
    }

    /// Writes the response to what is wrong, and ends.
    fn refuse(
        &mut self,
        status: u16,
        phrase: &str,
        headers: Vec<Header<'_>>,
        body: &[u8],
        is_head: bool,
    ) -> Result<(), HttpFault>
        ensures written { OnOk result (EndsWith self.old self.new status phrase.now
            (pairs headers.entry.items) body.now is_head) }
        ensures times { OnOk result (self.new.times ≡ self.old.times) }
    {
        let headers = with_close(headers)?;
        self.write(status, phrase, &headers, body, is_head)?;
        self.stage = Stage::Ended;
        Ok(())
    }

    /// Writes the response to what waits for one.
    fn respond_to(
        &mut self,
        status: u16,
        phrase: &str,
        headers: Vec<Header<'_>>,
        body: &[u8],
    ) -> Result<(), HttpFault>
        ensures answered { OnOk result (HasAnswered self.old self.new status phrase.now
            (pairs headers.entry.items) body.now) }
        ensures times { OnOk result (self.new.times ≡ self.old.times) }
    {
        match self.manner() {
            Some((is_head, false)) => self.answer(status, phrase, headers, body, is_head),
            Some((is_head, true)) => self.refuse(status, phrase, headers, body, is_head),
            None => Err(HttpFault::Write),
        }
    }

    /// Writes the response to the request that waits, or to what is wrong; then the connection
    /// ends.
    ///
    /// # Errors
    ///
    /// Memory that is refused; `Write` where none waits, or the response can't be written. The
    /// connection can't go on then.
    pub fn respond(
        &mut self,
        status: u16,
        phrase: &str,
        headers: Vec<Header<'_>>,
        body: &[u8],
        now: u64,
    ) -> Result<(), HttpFault>
        ensures answered { OnOk result (HasAnswered self.old self.new status phrase.now
            (pairs headers.entry.items) body.now) }
        ensures times { OnOk result (self.new.times
            ≡ enter_phase (phase_in self.new) now self.old.times) }
    {
        self.respond_to(status, phrase, headers, body)?;
        self.look(now);
        Ok(())
    }
}
