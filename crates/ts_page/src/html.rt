//! HTML, of words of the program and of texts that are escaped.

ghost use Rattle.std.specs.Prelude.{◌≡◌, ◌++◌, ◌∷◌, [], ℕ, List, OnOk, string_bytes};
ghost use Rattle.std.specs.List.{flat_map};
ghost use Rattle.ts_page.specs.Escaped.{IsEscaped, escape, escaped_octet};

use std::alloc::{AllocError, Global};
use std::marker::Model;

/// A text of HTML. Contracts see its octets.
#[derive(Debug, Drop)]
pub(crate) struct Html {
    octets: Vec<u8>,
}

impl Model for Html {
    ghost Value = { List ℕ };

    ghost view = { λ html. html.octets.items };
}

/// Writes an octet, escaped.
fn push_escaped(octets: &mut Vec<u8>, octet: u8) -> Result<(), AllocError>
    ensures { OnOk result (octets.new.items ≡ octets.old.items ++ escaped_octet octet) }
{
    match octet {
        b'&' => octets.extend_from_slice(b"&amp;")?,
        b'<' => octets.extend_from_slice(b"&lt;")?,
        b'>' => octets.extend_from_slice(b"&gt;")?,
        b'"' => octets.extend_from_slice(b"&quot;")?,
        b'\'' => octets.extend_from_slice(b"&#39;")?,
        other => octets.push(other)?,
    }
    Ok(())
}

/// Writes a text, escaped.
fn push_text(octets: &mut Vec<u8>, text: &[u8]) -> Result<(), AllocError>
    ensures { OnOk result (octets.new.items ≡ octets.old.items ++ escape text.now) }
{
    for octet in text {
        push_escaped(octets, *octet)?;
    }
    Ok(())
}

/// What stands for a text is escaped.
fn is_escaped()
    ensures { (text : List ℕ) → IsEscaped (escape text) }
{}

impl Html {
    /// Nothing.
    pub fn new(alloc: Global) -> Html
        ensures { result ≡ [] }
    {
        Html {
            octets: Vec::new(alloc),
        }
    }

    /// Writes words of the program, as they are.
    pub fn raw(&mut self, words: &'static str) -> Result<(), AllocError>
        ensures { OnOk result (self.new ≡ self.old ++ words.now) }
    {
        self.octets.extend_from_slice(words.as_bytes())?;
        Ok(())
    }

    /// Writes a text, escaped.
    pub fn text(&mut self, text: &str) -> Result<(), AllocError>
        ensures added { OnOk result (self.new ≡ self.old ++ escape text.now) }
        ensures escaped { IsEscaped (escape text.now) }
    {
        is_escaped();
        push_text(&mut self.octets, text.as_bytes())
    }

    /// The octets.
    pub fn into_vec(self) -> Vec<u8>
        ensures { result.items ≡ self }
    {
        self.octets
    }
}
