//! Lines and what they are.

ghost use Rattle.std.specs.Prelude.{◌≡◌, ◌<◌, ◌≤◌, ◌+◌, ◌∷◌, length, option_map};
ghost use Rattle.std.specs.List.{list_all, position};
ghost use Rattle.std.specs.Str.{bytes_eq};
ghost use Rattle.ts_pem.specs.Pem.{lines, without_blanks, is_blank, is_begin, is_end, is_symbol};
ghost use Rattle.ts_pem.specs.Pem.{label_of};
ghost use Rattle.ts_pem.specs.Pem.{end_line, is_line_feed, is_stray};
ghost use Rattle.ts_pem.specs.inside.Lines.{rest_of, IsShorter};

use crate::block::Label;

const BEGIN_CERTIFICATE: &[u8] = b"-----BEGIN CERTIFICATE-----";

const END_CERTIFICATE: &[u8] = b"-----END CERTIFICATE-----";

const BEGIN_CRL: &[u8] = b"-----BEGIN X509 CRL-----";

const END_CRL: &[u8] = b"-----END X509 CRL-----";

/// Where the first line feed of a text is.
fn line_feed(text: &[u8]) -> Option<usize>
    ensures { result ≡ position is_line_feed text.now }
{
    text.iter().position(|octet| *octet == b'\n')
}

/// The first line of a text, and what follows its line feed, if it has one.
pub(crate) fn first_line(text: &[u8]) -> (&[u8], Option<&[u8]>)
    ensures lines { lines text.now ≡ result.0.now ∷ rest_of (option_map (λ r. r.now) result.1) }
    ensures shorter { IsShorter (option_map (λ r. r.now) result.1) (length text.now) }
{
    match line_feed(text) {
        Some(end) => (&text[..end], Some(&text[end + 1..])),
        None => (text, None),
    }
}

/// Whether an octet is a space or a control character.
fn is_blank(octet: u8) -> bool
    ensures { result ≡ is_blank octet }
{
    octet <= b' '
}

/// A line without the blanks at its end.
pub(crate) fn trim(line: &[u8]) -> &[u8]
    ensures { result.now ≡ without_blanks line.now }
{
    let mut rest = line;
    while let [front @ .., last] = rest {
        if !is_blank(*last) {
            return rest;
        }
        rest = front;
    }
    rest
}

/// The label of the block that a line begins.
pub(crate) fn label_of(line: &[u8]) -> Option<Label>
    ensures { result ≡ label_of line.now }
{
    if line == BEGIN_CERTIFICATE {
        return Some(Label::Certificate);
    }
    if line == BEGIN_CRL {
        return Some(Label::Crl);
    }
    None
}

/// Whether a line ends a block of this label.
pub(crate) fn ends(label: Label, line: &[u8]) -> bool
    ensures { result ≡ bytes_eq line.now (end_line label) }
{
    match label {
        Label::Certificate => line == END_CERTIFICATE,
        Label::Crl => line == END_CRL,
    }
}

/// Whether a line begins a block of whatever label.
pub(crate) fn is_begin(line: &[u8]) -> bool
    ensures { result ≡ is_begin line.now }
{
    line.starts_with(b"-----BEGIN ")
}

/// Whether a line ends a block of whatever label.
pub(crate) fn is_end(line: &[u8]) -> bool
    ensures { result ≡ is_end line.now }
{
    line.starts_with(b"-----END ")
}

/// Whether a line ends with the end of a block that is read, whatever stands before it.
pub(crate) fn is_stray(line: &[u8]) -> bool
    ensures { result ≡ is_stray line.now }
{
    line.ends_with(END_CERTIFICATE) || line.ends_with(END_CRL)
}

/// Whether an octet is one that base64 uses.
fn is_symbol(octet: u8) -> bool
    ensures { result ≡ is_symbol octet }
{
    matches!(octet, b'A'..=b'Z' | b'a'..=b'z' | b'/'..=b'9' | b'+' | b'=')
}

/// Whether a line has only octets that base64 uses.
pub(crate) fn is_base64(line: &[u8]) -> bool
    ensures { result ≡ list_all is_symbol line.now }
{
    line.iter().all(|octet| is_symbol(*octet))
}
