//! The certificates of a question.

use crate::head::{push_cell, push_count, push_moment};
use crate::html::Html;
use std::alloc::{AllocError, Global};
use ts_json::AnswerFields;
use ts_render::CertificateFields;

/// Writes why the certificate of a row is not good.
fn push_why(html: &mut Html, fields: &AnswerFields) -> Result<(), AllocError> {
    html.raw("<td>not good: ")?;
    match &fields.reason {
        Some(reason) => html.text(reason.as_str())?,
        None => html.text(fields.reply)?,
    }
    if let Some(section) = &fields.section {
        html.raw(", RFC ")?;
        html.text(section.as_str())?;
    }
    html.raw("</td>\n")
}

/// Writes the row of a certificate.
fn push_row(
    alloc: Global,
    html: &mut Html,
    place: u64,
    certificate: &CertificateFields,
    fields: &AnswerFields,
) -> Result<(), AllocError> {
    html.raw(if certificate.fails {
        "<tr class=\"bad\">"
    } else {
        "<tr>"
    })?;
    push_count(alloc, html, place)?;
    push_cell(html, "<td class=\"name\">", certificate.subject.as_str())?;
    push_moment(html, "<td>", &certificate.not_before)?;
    push_moment(html, "<td>", &certificate.not_after)?;
    if certificate.fails {
        push_why(html, fields)?;
    } else {
        html.raw("<td></td>\n")?;
    }
    html.raw("</tr>\n")
}

/// Writes the certificates of a question.
pub(crate) fn push_chain(
    alloc: Global,
    html: &mut Html,
    chain: &[CertificateFields],
    fields: &AnswerFields,
) -> Result<(), AllocError> {
    html.raw("<div class=\"wide\"><table id=\"certificates\">\n<tr><th></th><th>Subject</th>")?;
    html.raw("<th>notBefore</th><th>notAfter</th><th></th></tr>\n")?;
    for (place, certificate) in chain.iter().enumerate() {
        push_row(alloc, html, place as u64 + 1, certificate, fields)?;
    }
    html.raw("</table></div>\n")
}
