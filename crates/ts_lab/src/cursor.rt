//! The words of a line, one after the other.

ghost use Rattle.std.specs.Prelude.{◌<◌, IfOk};

use ts_literal::number_of_octets;
use ts_script::LineFault;
use ts_script::words::{SPACE, first_piece, is_name, moment_of};
use ts_time::Moment;

/// The words of a line that are left.
#[derive(Drop)]
pub(crate) struct Cursor<'a> {
    left: Option<&'a [u8]>,
}

impl<'a> Cursor<'a> {
    /// At the first word of a line.
    pub fn new(line: &'a [u8]) -> Cursor<'a> {
        Cursor { left: Some(line) }
    }

    /// What is left, none at the end of the line.
    pub fn left(&self) -> Option<&'a [u8]> {
        self.left
    }

    /// The next word. At the end of the line there is none, which has no form.
    pub fn next(&mut self) -> Result<&'a [u8], LineFault> {
        let Some(left) = self.left else {
            return Err(LineFault::Form);
        };
        let (word, rest) = first_piece(left, SPACE);
        self.left = rest;
        Ok(word)
    }

    /// The keyword that has to stand next.
    pub fn keyword(&mut self, keyword: &[u8]) -> Result<(), LineFault> {
        if self.next()? == keyword {
            Ok(())
        } else {
            Err(LineFault::Form)
        }
    }

    /// The next word as a number.
    pub fn number(&mut self) -> Result<u32, LineFault> {
        number_of_octets(self.next()?).ok_or(LineFault::Form)
    }

    /// The next word as a name.
    pub fn name(&mut self) -> Result<&'a [u8], LineFault> {
        let word = self.next()?;
        if is_name(word) {
            Ok(word)
        } else {
            Err(LineFault::Form)
        }
    }

    /// The next word as a moment.
    pub fn moment(&mut self) -> Result<Moment, LineFault> {
        moment_of(self.next()?).ok_or(LineFault::Form)
    }

    /// The next word as an id: two lower-case hexadecimal digits.
    pub fn id(&mut self) -> Result<u8, LineFault> {
        let [high, low] = self.next()? else {
            return Err(LineFault::Form);
        };
        Ok(digit_of(*high)? * 16 + digit_of(*low)?)
    }

    /// The line has to end here.
    pub fn end(&self) -> Result<(), LineFault> {
        match self.left {
            None => Ok(()),
            Some(_) => Err(LineFault::Form),
        }
    }
}

/// What a lower-case hexadecimal digit stands for.
fn digit_of(octet: u8) -> Result<u8, LineFault>
    ensures { IfOk result (λ digit. digit < 16) }
{
    match octet {
        b'0'..=b'9' => Ok(octet - b'0'),
        b'a'..=b'f' => Ok(octet - b'a' + 10),
        _ => Err(LineFault::Form),
    }
}
