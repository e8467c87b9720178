//! A script that comes in pieces, answered line by line up to its first wrong one.

ghost use Rattle.std.specs.Prelude.{◌≡◌, ◌≢◌, ◌++◌, IfErr, ◌+◌, ◌<◌, ◌≤◌, ◌^◌, [], ◌∷◌, length};
ghost use Rattle.std.specs.Prelude.{OnOk};
ghost use Rattle.std.specs.Io.KnownBytes.{Appends};
ghost use Rattle.ts_script.specs.Known.{known_in};
ghost use Rattle.ts_lab.specs.inside.Scanner.{Scans, Finishes, Closes};

use crate::answer::answer_line;
use crate::network::Network;
use std::alloc::Global;
use std::io;
use std::io::Write;
use ts_script::{LINE_FEED, LineFault, Symbols, WrongLine};

/// Where a script that comes in pieces has been answered up to.
#[derive(Drop)]
pub(crate) struct Scanner {
    /// The number of the line that is being read, from 1.
    number: u64,
    /// What has come of that line.
    line: Vec<u8>,
    /// What the lines before it have named.
    known: Symbols,
    /// The nodes that they have begun and changed.
    nodes: Option<Network>,
}

/// Why a script is answered no further.
#[derive(Clone, Copy, Debug, PartialEq, Eq)]
pub(crate) enum Stop {
    /// A line is refused.
    Wrong(WrongLine),
    /// A write failed.
    Write,
}

impl Scanner {
    /// At the start of a script.
    pub fn new(alloc: Global) -> Scanner
        ensures number { result.number ≡ 1 }
        ensures line { result.line.items ≡ [] }
        ensures known { known_in result.known ≡ [] }
    {
        Scanner {
            number: 1,
            line: Vec::new(alloc),
            known: Symbols::new(alloc),
            nodes: None,
        }
    }

    /// Takes the next octets of the script, and writes the answer of each line that they end.
    ///
    /// # Errors
    ///
    /// The first wrong line, once the line feed that ends it is among the octets, or a failed
    /// write. The scanner is of no use then.
    pub fn feed<W: Write>(
        &mut self,
        alloc: Global,
        writer: &mut W,
        piece: &[u8],
    ) -> Result<(), Stop>
        requires { self.old.number + length piece.now < 2 ^ 64 }
        ensures scans { Scans self.old self.new (W.contents writer.old)
            (W.contents writer.new) piece.now result }
        ensures counts { self.new.number ≤ self.old.number + length piece.now }
    {
        for octet in piece {
            self.take(alloc, writer, *octet)?;
        }
        Ok(())
    }

    /// Takes one octet: a line feed ends the line, and any other octet is added to it.
    fn take<W: Write>(&mut self, alloc: Global, writer: &mut W, octet: u8) -> Result<(), Stop>
        requires { self.old.number + 1 < 2 ^ 64 }
        ensures scans { Scans self.old self.new (W.contents writer.old) (W.contents writer.new)
            (octet ∷ []) result }
        ensures counts { self.new.number ≤ self.old.number + 1 }
    {
        if octet == LINE_FEED {
            self.next(alloc, writer)
        } else {
            self.push(octet)
        }
    }

    /// Ends the line that is being read, and begins the next.
    fn next<W: Write>(&mut self, alloc: Global, writer: &mut W) -> Result<(), Stop>
        requires { self.old.number + 1 < 2 ^ 64 }
        ensures scans { Scans self.old self.new (W.contents writer.old) (W.contents writer.new)
            (LINE_FEED ∷ []) result }
        ensures counts { self.new.number ≤ self.old.number + 1 }
    {
        match self.finish(alloc, writer) {
            Ok(()) => {
                self.number += 1;
                self.line.clear();
                Ok(())
            }
            Err(stop) => Err(stop),
        }
    }

    /// Takes an octet of the line.
    fn push(&mut self, octet: u8) -> Result<(), Stop>
        requires { octet ≢ LINE_FEED }
        ensures number { self.new.number ≡ self.old.number }
        ensures known { self.new.known ≡ self.old.known }
        ensures ok { OnOk result (self.new.line.items ≡ self.old.line.items ++ octet ∷ []) }
        ensures err { IfErr result (λ stop. stop
            ≡ Stop.Wrong (record { number = self.old.number; fault = LineFault.Memory })) }
    {
        match self.line.push(octet) {
            Ok(()) => Ok(()),
            Err(_) => Err(Stop::Wrong(WrongLine {
                number: self.number,
                fault: LineFault::Memory,
            })),
        }
    }

    /// Ends the script, and writes the answer of a last line without a line feed.
    ///
    /// # Errors
    ///
    /// That line, where it is wrong, or a failed write.
    pub fn end<W: Write>(&mut self, alloc: Global, writer: &mut W) -> Result<(), Stop>
        ensures number { self.new.number ≡ self.old.number }
        ensures closes { Closes self.old (W.contents writer.old) (W.contents writer.new) result }
    {
        if self.line.is_empty() {
            Ok(())
        } else {
            self.finish(alloc, writer)
        }
    }

    /// Ends the line that is being read, where a line feed or the end of the script does, and
    /// writes its answer.
    ///
    /// # Errors
    ///
    /// This line, where it is wrong, or a failed write.
    fn finish<W: Write>(&mut self, alloc: Global, writer: &mut W) -> Result<(), Stop>
        ensures number { self.new.number ≡ self.old.number }
        ensures finishes { Finishes self.old self.new (W.contents writer.old)
            (W.contents writer.new) result }
    {
        match answer_line(alloc, &mut self.known, &mut self.nodes, &self.line) {
            Ok(text) => say(writer, text.as_bytes()).map_err(|_| Stop::Write),
            Err(fault) => Err(Stop::Wrong(WrongLine {
                number: self.number,
                fault,
            })),
        }
    }
}

/// What reading a script has come to.
#[derive(Clone, Copy, Debug, PartialEq, Eq)]
pub(crate) enum ScanStep {
    /// There may be more to read.
    More,
    /// It was answered to its end, or up to a wrong line.
    Done(Option<WrongLine>),
}

/// Writes a text, and passes it on.
pub(crate) fn say<W: Write>(writer: &mut W, text: &[u8]) -> io::Result<()>
    ensures { OnOk result (Appends (W.contents writer.old) (W.contents writer.new) text.now) }
{
    if text.is_empty() {
        return Ok(());
    }
    writer.write_all(text)?;
    writer.flush()
}
