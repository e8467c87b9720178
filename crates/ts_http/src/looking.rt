//! What the octets that came hold.

ghost use Rattle.std.specs.Prelude.{IfOk};
ghost use Rattle.ts_http.specs.Looking.{FindsBody, FindsHead};

use crate::request::{Request, request_at};
use http1::{Event, Server};
use httparse::spans::EMPTY_HEADER_SPAN;
use std::alloc::{AllocError, Global};

/// The most header fields of a request.
const MAX_FIELDS: usize = 64;

/// What octets begin with where a head is due.
#[derive(Drop)]
pub(crate) enum Head {
    /// The head of this request, of so many octets.
    Came(Request, usize),
    /// Less than a head, in so many octets.
    Nothing(usize),
    /// No head that is taken: this status answers it.
    Wrong(u16),
}

/// What octets begin with within a body.
#[derive(Drop)]
pub(crate) enum Piece {
    /// These octets of the body, in so many octets.
    Came(Vec<u8>, usize),
    /// Nothing of the body, in so many octets.
    Nothing(usize),
    /// The end of the body, in so many octets.
    End(usize),
    /// No body that is taken: this status answers it.
    Wrong(u16),
}

/// What octets begin with where a head is due.
pub(crate) fn look_for_head(
    alloc: Global,
    server: &mut Server,
    octets: &[u8],
) -> Result<Head, AllocError>
    ensures { IfOk result (FindsHead server.old octets.now server.new) }
{
    let mut headers = [EMPTY_HEADER_SPAN; MAX_FIELDS];
    let read = match server.read(octets, &mut headers) {
        Ok(read) => read,
        Err(error) => return Ok(Head::Wrong(error.status())),
    };
    match read.event {
        Event::Head(head) => {
            let request = request_at(alloc, octets, &headers, head)?;
            Ok(Head::Came(request, read.consumed))
        }
        Event::NeedMore => Ok(Head::Nothing(read.consumed)),
        // Nothing else comes where a head is due.
        _ => Ok(Head::Wrong(400)),
    }
}

/// What octets begin with within a body.
pub(crate) fn look_for_body(
    alloc: Global,
    server: &mut Server,
    octets: &[u8],
) -> Result<Piece, AllocError>
    ensures { IfOk result (FindsBody server.old octets.now server.new) }
{
    let mut trailers = [EMPTY_HEADER_SPAN; MAX_FIELDS];
    let read = match server.read(octets, &mut trailers) {
        Ok(read) => read,
        Err(error) => return Ok(Piece::Wrong(error.status())),
    };
    match read.event {
        Event::Data(span) => {
            let piece = Vec::from_slice(alloc, span.of(octets))?;
            Ok(Piece::Came(piece, read.consumed))
        }
        Event::End(_) => Ok(Piece::End(read.consumed)),
        Event::NeedMore => Ok(Piece::Nothing(read.consumed)),
        // Nothing else comes within a body.
        _ => Ok(Piece::Wrong(400)),
    }
}
