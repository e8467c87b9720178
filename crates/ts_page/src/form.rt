//! The form.

use crate::html::Html;
use std::alloc::AllocError;
use ts_form::{Field, Pair};

/// The last value that pairs give a field.
fn value_of<'a>(pairs: &'a [Pair], field: Field) -> &'a str {
    let mut value = "";
    for pair in pairs {
        if pair.name.as_str() == field.name() {
            value = pair.value.as_str();
        }
    }
    value
}

/// Writes the field for the chain.
fn push_chain(html: &mut Html, pairs: &[Pair]) -> Result<(), AllocError> {
    html.raw("<form method=\"post\" action=\"verify\">\n<label for=\"chain\">")?;
    html.raw("Chain in PEM, the certificate that is to be judged first</label>\n")?;
    html.raw("<textarea id=\"chain\" name=\"chain\" rows=\"10\" required>")?;
    // A line feed behind the tag is dropped (HTML Standard 13.2.6.4.7).
    html.raw("\n")?;
    html.text(value_of(pairs, Field::Chain))?;
    html.raw("</textarea>\n")
}

/// Writes the field for a line of text.
fn push_line(
    html: &mut Html,
    pairs: &[Pair],
    field: Field,
    words: &'static str,
    hint: &'static str,
) -> Result<(), AllocError> {
    html.raw("<label for=\"")?;
    html.raw(field.name())?;
    html.raw("\">")?;
    html.raw(words)?;
    html.raw(" <small>")?;
    html.raw(hint)?;
    html.raw("</small></label>\n<input type=\"text\" autocomplete=\"off\" id=\"")?;
    html.raw(field.name())?;
    html.raw("\" name=\"")?;
    html.raw(field.name())?;
    html.raw("\" value=\"")?;
    html.text(value_of(pairs, field))?;
    html.raw("\">\n")
}

/// Writes the field for a flag.
fn push_flag(
    html: &mut Html,
    pairs: &[Pair],
    field: Field,
    words: &'static str,
) -> Result<(), AllocError> {
    html.raw("<label class=\"flag\"><input type=\"checkbox\" value=\"1\" name=\"")?;
    html.raw(field.name())?;
    html.raw("\"")?;
    if value_of(pairs, field) == "1" {
        html.raw(" checked")?;
    }
    html.raw("> ")?;
    html.raw(words)?;
    html.raw("</label>\n")
}

/// Writes the form, with what was given.
pub(crate) fn push_form(html: &mut Html, pairs: &[Pair]) -> Result<(), AllocError> {
    html.raw("<h2>Is a chain valid?</h2>\n")?;
    push_chain(html, pairs)?;
    let hint = "as 20260131120000Z; empty: now";
    push_line(html, pairs, Field::At, "Time", hint)?;
    let hint = "64 digits; empty: any of the store";
    push_line(html, pairs, Field::Anchor, "Id of the trust anchor", hint)?;
    let hint = "how many commands; empty: all";
    push_line(html, pairs, Field::K, "Position of the store", hint)?;
    let hint = "as 1.3.6.1.5.5.7.3.1; empty: any";
    push_line(html, pairs, Field::Purpose, "Purpose", hint)?;
    push_flag(html, pairs, Field::Hard, "refuse what may be revoked")?;
    push_flag(html, pairs, Field::Deltas, "use delta CRLs")?;
    html.raw("<div><button>Ask</button></div>\n</form>\n")
}
