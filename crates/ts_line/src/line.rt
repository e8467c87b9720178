//! A line of text that a terminal shows as it is.

ghost use Rattle.std.specs.Prelude.{◌≡◌, ◌<◌, ◌++◌, ◌∷◌, [], true, ℕ, List, OnOk, IfOk};
ghost use Rattle.std.specs.Prelude.{string_bytes};
ghost use Rattle.std.specs.Fmt.{decimal};
ghost use Rattle.std.specs.List.{flat_map, list_all};
ghost use Rattle.ts_line.specs.Lines.{is_printable, digit, two_hex_digits, hex, shown_octet};
ghost use Rattle.ts_line.specs.Lines.{kept, kept_octet, printable};
ghost use Rattle.ts_line.specs.Names.{value_octet};

use std::alloc::{AllocError, Global};
use std::marker::Model;

/// A line of printable characters of ASCII alone, whatever is written. Contracts see its octets.
#[derive(Drop)]
pub struct Line {
    alloc: Global,
    octets: Vec<u8>,
}

impl Model for Line {
    ghost use Rattle.std.specs.Prelude.{◌≡◌, ℕ, List, true};
    ghost use Rattle.std.specs.List.{list_all};
    ghost use Rattle.ts_line.specs.Lines.{is_printable};

    ghost Value = { List ℕ };

    ghost view = { λ l. l.octets.items };

    ghost invariant = { λ l. list_all is_printable l.octets.items ≡ true };
}

/// A hexadecimal digit.
fn digit(number: u8) -> u8
    requires { number < 16 }
    ensures digit { result ≡ digit number }
    ensures printable { is_printable result ≡ true }
{
    if number < 10 {
        b'0' + number
    } else {
        b'a' - 10 + number
    }
}

/// Whether an octet is a printable character of ASCII.
fn is_printable(octet: u8) -> bool
    ensures { result ≡ is_printable octet }
{
    32 <= octet && octet <= 126
}

impl Line {
    /// An empty line.
    pub fn new(alloc: Global) -> Line
        ensures { result ≡ [] }
    {
        Line {
            alloc,
            octets: Vec::new(alloc),
        }
    }

    /// A line that begins with these octets.
    pub fn of(alloc: Global, octets: &[u8]) -> Result<Line, AllocError>
        ensures { IfOk result (λ line. line ≡ printable octets.now) }
    {
        let mut line = Line::new(alloc);
        line.text(octets)?;
        Ok(line)
    }

    /// The octets of the line.
    pub fn as_slice(&self) -> &[u8]
        ensures octets { result.now ≡ self.now }
        ensures printable { list_all is_printable self.now ≡ true }
    {
        self.octets.as_slice()
    }

    /// The line as a text.
    pub fn to_text(&self) -> Result<String, AllocError>
        ensures text { IfOk result (λ text. string_bytes text ≡ self.now) }
        ensures printable { IfOk result (λ text. list_all is_printable (string_bytes text) ≡ true) }
    {
        match str::from_utf8(self.octets.as_slice()) {
            Ok(text) => String::from_str(self.alloc, text),
            // Printable characters of ASCII are UTF-8.
            Err(_) => Err(AllocError),
        }
    }

    /// Writes a character that is shown as it is.
    fn put(&mut self, octet: u8) -> Result<(), AllocError>
        requires { is_printable octet ≡ true }
        ensures { OnOk result (self.new ≡ self.old ++ octet ∷ []) }
    {
        self.octets.push(octet)?;
        Ok(())
    }

    /// Writes an octet: as itself where it is printable and no backslash, else as `\x` and its two
    /// hexadecimal digits.
    fn octet(&mut self, octet: u8) -> Result<(), AllocError>
        ensures { OnOk result (self.new ≡ self.old ++ shown_octet octet) }
    {
        if is_printable(octet) && octet != b'\\' {
            return self.put(octet);
        }
        self.put(b'\\')?;
        self.put(b'x')?;
        self.two_digits(octet)
    }

    /// Writes octets in this way.
    pub fn text(&mut self, octets: &[u8]) -> Result<(), AllocError>
        ensures { OnOk result (self.new ≡ self.old ++ printable octets.now) }
    {
        for octet in octets {
            self.octet(*octet)?;
        }
        Ok(())
    }

    /// Writes an octet of a text that is shown already.
    fn kept(&mut self, octet: u8) -> Result<(), AllocError>
        ensures { OnOk result (self.new ≡ self.old ++ kept_octet octet) }
    {
        if is_printable(octet) {
            return self.put(octet);
        }
        self.octet(octet)
    }

    /// Writes a text that is shown already, as what another line holds: a backslash stays as it is.
    pub fn shown(&mut self, octets: &[u8]) -> Result<(), AllocError>
        ensures { OnOk result (self.new ≡ self.old ++ kept octets.now) }
    {
        for octet in octets {
            self.kept(*octet)?;
        }
        Ok(())
    }

    /// Writes an octet of the value of an attribute.
    fn value_octet(&mut self, octet: u8) -> Result<(), AllocError>
        ensures { OnOk result (self.new ≡ self.old ++ value_octet octet) }
    {
        if octet == b',' || octet == b'+' {
            self.put(b'\\')?;
            return self.put(octet);
        }
        self.octet(octet)
    }

    /// Writes the value of an attribute of a name: a comma and a plus sign, which separate
    /// attributes, behind a backslash, other octets as they are shown.
    pub(crate) fn value(&mut self, octets: &[u8]) -> Result<(), AllocError>
        ensures { OnOk result (self.new ≡ self.old ++ flat_map value_octet octets.now) }
    {
        for octet in octets {
            self.value_octet(*octet)?;
        }
        Ok(())
    }

    /// Writes a space and octets.
    pub fn word(&mut self, octets: &[u8]) -> Result<(), AllocError>
        ensures { OnOk result (self.new ≡ self.old ++ 32 ∷ printable octets.now) }
    {
        self.put(b' ')?;
        self.text(octets)
    }

    /// Writes the two hexadecimal digits of an octet.
    fn two_digits(&mut self, octet: u8) -> Result<(), AllocError>
        ensures { OnOk result (self.new ≡ self.old ++ two_hex_digits octet) }
    {
        self.put(digit(octet / 16))?;
        self.put(digit(octet % 16))
    }

    /// Writes octets as hexadecimal digits.
    pub fn hex(&mut self, octets: &[u8]) -> Result<(), AllocError>
        ensures { OnOk result (self.new ≡ self.old ++ hex octets.now) }
    {
        for octet in octets {
            self.two_digits(*octet)?;
        }
        Ok(())
    }

    /// Writes a number in decimal.
    #[tactic(auto, using(crate::proofs::Plain::shown_decimal))]
    pub fn number(&mut self, number: u64) -> Result<(), AllocError>
        ensures { OnOk result (self.new ≡ self.old ++ decimal number) }
    {
        let digits = format!(in self.alloc; "{number}")?;
        self.text(digits.as_bytes())
    }
}
