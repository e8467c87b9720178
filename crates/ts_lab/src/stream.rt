//! The lab: answers a script that a reader gives, on a writer.

ghost use Rattle.std.specs.Prelude.{◌≡◌, ◌≢◌, ◌≤◌, ◌<◌, ◌+◌, ◌^◌, ◌⊎◌, IfErr, IfOk, IfSome, OnOk};
ghost use Rattle.std.specs.Io.KnownBytes.{Appends};
ghost use Rattle.ts_script.specs.Wrong.{text_of};
ghost use Rattle.ts_lab.specs.Lab.{IsAnswered};
ghost use Rattle.ts_lab.specs.inside.Lab.{IsRead, IsStep, done_in, fed_in};

use crate::scanner::{ScanStep, Scanner, Stop};
use std::alloc::Global;
use std::io;
use std::io::{ErrorKind, Read, Write};
use ts_script::WrongLine;

/// The most reads that the lab makes of its input.
pub const READ_LIMIT: u32 = 16_777_216;

/// The most octets that one read takes.
const PIECE: usize = 8192;

/// Why a script was not answered.
#[derive(Clone, Copy, Debug, PartialEq, Eq)]
pub(crate) enum StreamFault {
    /// A read failed.
    Read,
    /// The input had not ended after the most reads.
    ReadLimit,
    /// A write failed.
    Write,
}

/// Answers the script that the reader gives, on the writer, line by line up to its first wrong
/// line, which is answered with `line N: WORD`. A line is answered once it is whole.
///
/// Returns the status to end with: 0 for a script without a wrong line, 2 after a wrong line, and
/// 1, with no further text, where the reader or the writer fails or the input has not ended after
/// `READ_LIMIT` reads. An interrupted read is tried again.
pub fn lab<R: Read, W: Write>(alloc: Global, reader: &mut R, writer: &mut W) -> u8
    ensures bound { result ≤ 2 }
    ensures text { result ≢ 1 → IfSome (R.remaining reader.old) (λ script.
        IsAnswered script (W.contents writer.old) (W.contents writer.new) result) }
{
    match answer(alloc, reader, writer, READ_LIMIT) {
        Ok(status) => status,
        Err(_) => 1,
    }
}

/// The lab with at most this many reads.
pub(crate) fn answer<R: Read, W: Write>(
    alloc: Global,
    reader: &mut R,
    writer: &mut W,
    reads: u32,
) -> Result<u8, StreamFault>
    ensures known { IfOk result (λ status. (status ≡ 0) ⊎ (status ≡ 2)) }
    ensures text { IfOk result (λ status. IfSome (R.remaining reader.old) (λ script.
        IsAnswered script (W.contents writer.old) (W.contents writer.new) status)) }
{
    match first_wrong_line(alloc, reader, writer, reads)? {
        None => Ok(0),
        Some(wrong) => {
            say(writer, wrong).map_err(|_| StreamFault::Write)?;
            Ok(2)
        }
    }
}

/// Answers a script up to its first wrong line.
fn first_wrong_line<R: Read, W: Write>(
    alloc: Global,
    reader: &mut R,
    writer: &mut W,
    reads: u32,
) -> Result<Option<WrongLine>, StreamFault>
    ensures { IfOk result (λ wrong. IfSome (R.remaining reader.old) (λ script.
        IsRead script (W.contents writer.old) (W.contents writer.new) wrong)) }
{
    let mut scanner = Scanner::new(alloc);
    let mut buffer = [0; PIECE];
    for _read in 0..reads {
        if let ScanStep::Done(wrong) = step(alloc, reader, writer, &mut scanner, &mut buffer)? {
            return Ok(wrong);
        }
    }
    Err(StreamFault::ReadLimit)
}

/// Reads once, and answers the lines that end in what was read.
fn step<R: Read, W: Write>(
    alloc: Global,
    reader: &mut R,
    writer: &mut W,
    scanner: &mut Scanner,
    buffer: &mut [u8; PIECE],
) -> Result<ScanStep, StreamFault>
    requires { scanner.old.number + 8192 < 2 ^ 64 }
    ensures says { IsStep (R.remaining reader.old) (R.remaining reader.new) (W.contents writer.old)
        (W.contents writer.new) scanner.old scanner.new result }
    ensures counts { scanner.new.number ≤ scanner.old.number + 8192 }
{
    match reader.read(buffer) {
        Ok(0) => done(scanner.end(alloc, writer)),
        Ok(count) => fed(scanner.feed(alloc, writer, &buffer[..count])),
        Err(error) if error.kind() == ErrorKind::Interrupted => Ok(ScanStep::More),
        Err(_) => Err(StreamFault::Read),
    }
}

/// What the end of a script comes to.
fn done(answered: Result<(), Stop>) -> Result<ScanStep, StreamFault>
    ensures { result ≡ done_in answered }
{
    match answered {
        Ok(()) => Ok(ScanStep::Done(None)),
        Err(Stop::Wrong(wrong)) => Ok(ScanStep::Done(Some(wrong))),
        Err(Stop::Write) => Err(StreamFault::Write),
    }
}

/// What a piece of a script comes to.
fn fed(answered: Result<(), Stop>) -> Result<ScanStep, StreamFault>
    ensures { result ≡ fed_in answered }
{
    match answered {
        Ok(()) => Ok(ScanStep::More),
        Err(Stop::Wrong(wrong)) => Ok(ScanStep::Done(Some(wrong))),
        Err(Stop::Write) => Err(StreamFault::Write),
    }
}

/// Writes the line of output for a wrong line.
fn say<W: Write>(writer: &mut W, wrong: WrongLine) -> io::Result<()>
    ensures { OnOk result (Appends (W.contents writer.old) (W.contents writer.new)
        (text_of (Some wrong))) }
{
    writeln!(writer, "{wrong}")?;
    writer.flush()
}
