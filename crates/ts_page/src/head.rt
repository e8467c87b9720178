//! What all pages have: their beginning and end, and rows of tables.

use crate::html::Html;
use std::alloc::{AllocError, Global};

/// What stands above all.
const HEAD: &str = "\
<!doctype html>
<html lang=\"en\">
<head>
<meta charset=\"utf-8\">
<meta name=\"viewport\" content=\"width=device-width, initial-scale=1\">
<title>Trust store</title>
<link rel=\"stylesheet\" href=\"style.css\">
<script src=\"script.js\" defer></script>
</head>
<body>
<h1><a href=\"./\">Trust store</a></h1>
";

/// The beginning of a page.
pub(crate) fn begin(alloc: Global) -> Result<Html, AllocError> {
    let mut html = Html::new(alloc);
    html.raw(HEAD)?;
    Ok(html)
}

/// The end of a page, and its octets.
pub(crate) fn end(html: Html) -> Result<Vec<u8>, AllocError> {
    let mut html = html;
    html.raw("</body>\n</html>\n")?;
    Ok(html.into_vec())
}

/// Writes a number.
pub(crate) fn push_number(alloc: Global, html: &mut Html, value: u64) -> Result<(), AllocError> {
    let text = format!(in alloc; "{value}")?;
    html.text(text.as_str())
}

/// Writes a cell of a table.
pub(crate) fn push_cell(
    html: &mut Html,
    open: &'static str,
    value: &str,
) -> Result<(), AllocError> {
    html.raw(open)?;
    html.text(value)?;
    html.raw("</td>\n")
}

/// Writes a cell with a number.
pub(crate) fn push_count(alloc: Global, html: &mut Html, value: u64) -> Result<(), AllocError> {
    html.raw("<td>")?;
    push_number(alloc, html, value)?;
    html.raw("</td>\n")
}

/// Writes the date and the time of a moment that is written as 20260131120000Z.
fn push_date(html: &mut Html, text: &str) -> Result<(), AllocError> {
    let parts = [
        (0, 4, "-"),
        (4, 6, "-"),
        (6, 8, " "),
        (8, 10, ":"),
        (10, 12, ":"),
        (12, 14, " UTC"),
    ];
    for (from, to, behind) in parts {
        let Some(part) = text.get(from..to) else {
            return html.text("?");
        };
        html.text(part)?;
        html.raw(behind)?;
    }
    Ok(())
}

/// Writes a cell with a moment, if there is one.
pub(crate) fn push_moment(
    html: &mut Html,
    open: &'static str,
    moment: &Option<String>,
) -> Result<(), AllocError> {
    html.raw(open)?;
    if let Some(text) = moment {
        push_date(html, text.as_str())?;
    }
    html.raw("</td>\n")
}
