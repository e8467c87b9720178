//! Lines of text that a terminal shows as they are.

ghost use Rattle.std.specs.Prelude.{◌≡◌, ◌++◌, ◌∷◌, [], true, ℕ, List, OnOk, IfOk};
ghost use Rattle.std.specs.List.{list_all};
ghost use Rattle.ts_line.specs.Lines.{is_printable, text_of};

use std::alloc::{AllocError, Global};
use std::marker::Model;
use ts_line::Line;

/// Lines of printable characters of ASCII. Contracts see the octets of each.
#[derive(Drop)]
pub(crate) struct Lines {
    alloc: Global,
    lines: Vec<Line>,
}

impl Model for Lines {
    ghost use Rattle.std.specs.Prelude.{ℕ, List};

    ghost Value = { List (List ℕ) };

    ghost view = { λ l. l.lines.items };
}

impl Lines {
    /// No line.
    pub(crate) fn new(alloc: Global) -> Lines
        ensures { result ≡ [] }
    {
        Lines {
            alloc,
            lines: Vec::new(alloc),
        }
    }

    /// Where memory is taken from.
    pub(crate) fn alloc(&self) -> Global {
        self.alloc
    }

    /// Puts a line after the others.
    pub(crate) fn push(&mut self, line: Line) -> Result<(), AllocError>
        ensures { OnOk result (self.new ≡ self.old ++ line ∷ []) }
    {
        self.lines.push(line)?;
        Ok(())
    }

    /// Puts other lines after these.
    pub(crate) fn append(&mut self, others: Lines) -> Result<(), AllocError>
        ensures { OnOk result (self.new ≡ self.old ++ others) }
    {
        for line in others.lines {
            self.lines.push(line)?;
        }
        Ok(())
    }

    /// The text of the lines, each ended by a line feed.
    pub(crate) fn text(&self) -> Result<Vec<u8>, AllocError>
        ensures text { IfOk result (λ text. text.items ≡ text_of self.now) }
        ensures printable { list_all (list_all is_printable) self.now ≡ true }
    {
        are_printable(&self.lines);
        ended_lines(self.alloc, &self.lines)
    }
}

impl Lines {
    /// Begins a line that is nested so deep: two spaces for each level, and its key.
    pub(crate) fn begin(&self, depth: usize, key: &str) -> Result<Line, AllocError> {
        let mut line = Line::new(self.alloc);
        for _level in 0..depth {
            line.text(b"  ")?;
        }
        line.text(key.as_bytes())?;
        Ok(line)
    }

    /// A line of a key and a value.
    pub(crate) fn entry(
        &mut self,
        depth: usize,
        key: &str,
        value: &[u8],
    ) -> Result<(), AllocError> {
        let mut line = self.begin(depth, key)?;
        line.word(value)?;
        self.push(line)
    }

    /// A line of a key and octets in hexadecimal digits.
    pub(crate) fn hex(&mut self, depth: usize, key: &str, octets: &[u8]) -> Result<(), AllocError> {
        let mut line = self.begin(depth, key)?;
        line.word(b"")?;
        line.hex(octets)?;
        self.push(line)
    }

    /// A line of a key and a number.
    pub(crate) fn number(
        &mut self,
        depth: usize,
        key: &str,
        number: u64,
    ) -> Result<(), AllocError> {
        let mut line = self.begin(depth, key)?;
        line.word(b"")?;
        line.number(number)?;
        self.push(line)
    }
}

/// Lines, each ended by a line feed.
fn ended_lines(alloc: Global, lines: &[Line]) -> Result<Vec<u8>, AllocError>
    ensures { IfOk result (λ text. text.items ≡ text_of lines.now) }
{
    let mut text = Vec::new(alloc);
    for line in lines {
        text.extend_from_slice(line.as_slice())?;
        text.push(b'\n')?;
    }
    Ok(text)
}

/// Each character of a line is printable. Nothing is done.
fn are_printable(lines: &[Line])
    ensures { list_all (list_all is_printable) lines.now ≡ true }
{
    for line in lines {
        let _ = line.as_slice();
    }
}
