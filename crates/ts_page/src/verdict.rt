//! The page of a verdict.

use crate::chain_table::push_chain;
use crate::form::push_form;
use crate::head::{begin, end, push_number};
use crate::html::Html;
use std::alloc::{AllocError, Global};
use ts_form::Pair;
use ts_json::AnswerFields;
use ts_render::CertificateFields;

/// Writes a row of the verdict.
fn push_row(html: &mut Html, name: &'static str, value: &str) -> Result<(), AllocError> {
    html.raw("<dt>")?;
    html.raw(name)?;
    html.raw("</dt><dd>")?;
    html.text(value)?;
    html.raw("</dd>\n")
}

/// Writes a row, if there is a text for it.
fn push_some(
    html: &mut Html,
    name: &'static str,
    value: &Option<String>,
) -> Result<(), AllocError> {
    match value {
        Some(value) => push_row(html, name, value.as_str()),
        None => Ok(()),
    }
}

/// Writes a row with a number.
fn push_count(
    alloc: Global,
    html: &mut Html,
    name: &'static str,
    value: u64,
) -> Result<(), AllocError> {
    html.raw("<dt>")?;
    html.raw(name)?;
    html.raw("</dt><dd>")?;
    push_number(alloc, html, value)?;
    html.raw("</dd>\n")
}

/// The start of a verdict's section, with its heading.
fn title_of(valid: Option<bool>) -> &'static str {
    match valid {
        Some(true) => "<section class=\"valid\" id=\"verdict\">\n<h2>Valid</h2>\n",
        Some(false) => "<section class=\"invalid\" id=\"verdict\">\n<h2>Not valid</h2>\n",
        None => "<section class=\"none\" id=\"verdict\">\n<h2>No verdict</h2>\n",
    }
}

/// Writes the rows of a verdict.
fn push_rows(alloc: Global, html: &mut Html, fields: &AnswerFields) -> Result<(), AllocError> {
    push_row(html, "Reply", fields.reply)?;
    if let Some(position) = fields.position {
        push_count(alloc, html, "Certificate", position)?;
    }
    push_some(html, "Reason", &fields.reason)?;
    push_some(html, "Section of the RFC", &fields.section)?;
    push_some(html, "Trust anchor", &fields.anchor)?;
    push_some(html, "Time", &fields.at)?;
    push_count(alloc, html, "Position of the store", fields.k)?;
    push_row(html, "Question", fields.id.as_str())
}

/// Writes a verdict.
fn push_verdict(
    alloc: Global,
    html: &mut Html,
    fields: &AnswerFields,
    chain: &[CertificateFields],
    note: &'static str,
) -> Result<(), AllocError> {
    html.raw(title_of(fields.valid))?;
    html.raw("<p>")?;
    html.text(fields.explanation.as_str())?;
    html.raw("</p>\n<p>")?;
    html.raw(note)?;
    html.raw("</p>\n")?;
    push_chain(alloc, html, chain, fields)?;
    html.raw("<dl>\n")?;
    push_rows(alloc, html, fields)?;
    html.raw("</dl>\n</section>\n")
}

/// The page with a verdict, and what was asked. The note stands below the explanation.
pub fn verdict_page(
    alloc: Global,
    fields: &AnswerFields,
    chain: &[CertificateFields],
    note: &'static str,
    pairs: &[Pair],
) -> Result<Vec<u8>, AllocError> {
    let mut html = begin(alloc)?;
    push_verdict(alloc, &mut html, fields, chain, note)?;
    push_form(&mut html, pairs)?;
    end(html)
}

/// The page with why there is no verdict, and what was asked.
pub fn problem_page(alloc: Global, words: &str, pairs: &[Pair]) -> Result<Vec<u8>, AllocError> {
    let mut html = begin(alloc)?;
    html.raw("<section class=\"none\" id=\"verdict\">\n<h2>Not asked</h2>\n<p>")?;
    html.text(words)?;
    html.raw("</p>\n</section>\n")?;
    push_form(&mut html, pairs)?;
    end(html)
}
