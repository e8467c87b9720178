//! A stream of requests is answered.

ghost use Rattle.std.specs.Prelude.{◌≡◌, ◌≢◌, List, Option, [], IfSome, IfErr, OnOk};
ghost use Rattle.ts_question.specs.Question.{StoreQuestion};
ghost use Rattle.ts_node.specs.Machine.{store_of};
ghost use Rattle.ts_node.specs.Node.{IsSound};
ghost use Rattle.ts_command.specs.Octets.{octets_of};
ghost use Rattle.ts_wire.specs.Stream.{IsPartial, Splits};
ghost use Rattle.ts_wire.specs.declared.fault.FrameFault.{FrameFault};
ghost use Rattle.ts_wire.specs.declared.frame.Frame.{Frame as Request};
ghost use Rattle.ts_serve.specs.Turn.{ServerTurn};
ghost use Rattle.ts_serve.specs.Stream.{IsAnswered, IsServed, Run};
ghost use Rattle.ts_serve.specs.inside.Steps.{Drains, Reads, Serves};

use crate::fault::ServeFault;
use crate::sending::{flush, refuse};
use crate::server::Server;
use std::io::{ErrorKind, Read, Write};
use ts_command::{Command, Outcome};
use ts_disk::Disk;
use ts_node::Machine;
use ts_question::{Answer, Question};
use ts_wire::{Feed, FeedError};

/// The most reads of one stream.
pub const READ_LIMIT: u32 = 16_777_216;

/// The most octets that one read takes.
const PIECE: usize = 8192;

/// Answers the frames that are whole, up to a fault.
fn drain<D, M, W>(
    server: &mut Server<D, M>,
    feed: &mut Feed,
    writer: &mut W,
) -> Result<(), ServeFault>
where
    D: Disk,
    M: Machine<Command, Outcome = Outcome, Question = Question, Answer = Answer>,
    W: Write,
    requires { IsSound D.state octets_of M.commands server.old.node }
    ensures drains { Drains (ServerTurn D.state
        (store_of StoreQuestion M.client_id M.outcome) M.basis M.is_answer) feed.old server.old
        (W.contents writer.old) result server.new feed.new (W.contents writer.new) }
    ensures sound { IsSound D.state octets_of M.commands server.new.node }
{
    loop {
        match feed.take() {
            Ok(Some(frame)) => server.answer(false, frame, writer)?,
            Ok(None) => return flush(writer),
            Err(FeedError::Frame(fault)) => return Err(server.refuse(fault, writer)),
            Err(FeedError::Memory) => return Err(ServeFault::Memory),
        }
    }
}

/// Reads once, and answers the frames that are whole then. `false` where the stream is at its end.
fn step<D, M, R, W>(
    server: &mut Server<D, M>,
    reader: &mut R,
    writer: &mut W,
    feed: &mut Feed,
    buffer: &mut [u8; PIECE],
) -> Result<bool, ServeFault>
where
    D: Disk,
    M: Machine<Command, Outcome = Outcome, Question = Question, Answer = Answer>,
    R: Read,
    W: Write,
    requires sound { IsSound D.state octets_of M.commands server.old.node }
    requires partial { IsPartial feed.old }
    ensures reads { Reads (ServerTurn D.state (store_of StoreQuestion M.client_id M.outcome) M.basis
        M.is_answer)
        (R.remaining reader.old) (R.remaining reader.new)
        feed.old server.old (W.contents writer.old) result server.new feed.new
        (W.contents writer.new) }
    ensures sound { IsSound D.state octets_of M.commands server.new.node }
{
    match reader.read(buffer) {
        Ok(0) => Ok(false),
        Ok(count) => {
            feed.push(&buffer[..count])?;
            drain(server, feed, writer)?;
            Ok(true)
        }
        Err(error) if error.kind() == ErrorKind::Interrupted => Ok(true),
        Err(_) => Err(ServeFault::Read),
    }
}

/// Serves a stream with at most this many reads.
pub(crate) fn serve_within<D, M, R, W>(
    server: &mut Server<D, M>,
    reader: &mut R,
    writer: &mut W,
    reads: u32,
) -> Result<(), ServeFault>
where
    D: Disk,
    M: Machine<Command, Outcome = Outcome, Question = Question, Answer = Answer>,
    R: Read,
    W: Write,
    requires { IsSound D.state octets_of M.commands server.old.node }
    ensures serves { Serves (ServerTurn D.state
        (store_of StoreQuestion M.client_id M.outcome) M.basis M.is_answer)
        (R.remaining reader.old) server.old (W.contents writer.old)
        result (R.remaining reader.new) server.new (W.contents writer.new) }
    ensures sound { IsSound D.state octets_of M.commands server.new.node }
{
    let mut feed = server.feed();
    let mut buffer = [0; PIECE];
    for _read in 0..reads {
        if !step(server, reader, writer, &mut feed, &mut buffer)? {
            return end_of(&feed);
        }
    }
    Err(ServeFault::ReadLimit)
}

/// How a stream that has ended was served: well, or `Cut` where it ended within a frame.
fn end_of(feed: &Feed) -> Result<(), ServeFault>
    ensures whole { OnOk result (feed.now ≡ []) }
    ensures cut { IfErr result (λ fault. (fault ≡ ServeFault.Cut) × (feed.now ≢ [])) }
{
    if feed.is_empty() {
        Ok(())
    } else {
        Err(ServeFault::Cut)
    }
}

/// Answers the requests that a reader gives, on a writer, each when its turn comes, up to the end
/// of the stream or to a wrong frame, whose answer comes last. An interrupted read or write is
/// tried again.
///
/// # Errors
///
/// `Read` and `Write` where the reader or the writer fails; `ReadLimit` where the stream has not
/// ended after `READ_LIMIT` reads; `Cut` where it ends within a frame; `Frame` with the fault of a
/// wrong frame; `Memory` that is refused. The server has then answered the frames that were
/// taken, and what was written is a front of those answers. A node's fault is answered, and the
/// stream goes on.
pub fn serve<D, M, R, W>(
    server: &mut Server<D, M>,
    reader: &mut R,
    writer: &mut W,
) -> Result<(), ServeFault>
where
    D: Disk,
    M: Machine<Command, Outcome = Outcome, Question = Question, Answer = Answer>,
    R: Read,
    W: Write,
    requires { IsSound D.state octets_of M.commands server.old.node }
    // Where the reader tells its octets: what is written is the text of the answers to the stream's
    // requests, and nothing else.
    ensures served { IfSome (R.remaining reader.old)
        (λ stream. IsServed (ServerTurn D.state
        (store_of StoreQuestion M.client_id M.outcome) M.basis M.is_answer) stream
        server.old (W.contents writer.old) result server.new (W.contents writer.new)) }
    // Those are the requests among the frames that the stream splits into.
    ensures exact { IfSome (R.remaining reader.old)
        (λ stream. (frames : List Request) (fault : Option FrameFault)
        → Splits stream frames fault
        → IsAnswered (ServerTurn D.state (store_of StoreQuestion M.client_id M.outcome) M.basis
        M.is_answer)
        frames fault server.old (W.contents writer.old) result server.new
        (W.contents writer.new)) }
    // Whatever is read, the server has answered some requests, one after another.
    ensures run { (requests answers : List Request)
        × Run (ServerTurn D.state (store_of StoreQuestion M.client_id M.outcome) M.basis
        M.is_answer) server.old
        requests answers server.new }
    ensures sound { IsSound D.state octets_of M.commands server.new.node }
{
    serve_within(server, reader, writer, READ_LIMIT)
}
