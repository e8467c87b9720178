//! The page of a store.

use crate::form::push_form;
use crate::head::{begin, end, push_cell, push_count, push_moment, push_number};
use crate::html::Html;
use std::alloc::{AllocError, Global};
use ts_render::{AnchorFields, CrlFields, PurposeFields, RowFields};

/// How near a nextUpdate is marked, in seconds.
const NEAR: i64 = 86_400;

/// How many rows a page has at most.
const ROWS: u64 = 64;

/// A peer, and how many commands it has said that it knows.
#[derive(Clone, Copy, Debug, PartialEq, Eq)]
pub struct PeerLine {
    pub node: u8,
    pub prefix: u64,
    /// Whether it has answered on the connection that is there.
    pub reached: bool,
}

/// A page of what a store holds.
#[derive(Drop)]
pub struct StoreView {
    /// The number of the node.
    pub node: u8,
    /// After how many commands.
    pub k: u64,
    /// How many the node knows.
    pub prefix: u64,
    /// How many rows stand before the page.
    pub from: u64,
    /// How many rows there are.
    pub total: u64,
    pub rows: Vec<RowFields>,
}

/// Writes the line of a node.
fn push_node(
    alloc: Global,
    html: &mut Html,
    node: u8,
    prefix: u64,
    state: &'static str,
) -> Result<(), AllocError> {
    html.raw("<tr>")?;
    push_count(alloc, html, u64::from(node))?;
    push_count(alloc, html, prefix)?;
    html.raw("<td>")?;
    html.raw(state)?;
    html.raw("</td></tr>\n")
}

/// Writes the nodes, and what they know.
fn push_nodes(
    alloc: Global,
    html: &mut Html,
    view: &StoreView,
    peers: &[PeerLine],
) -> Result<(), AllocError> {
    html.raw("<h2>Nodes</h2>\n<div class=\"wide\"><table id=\"nodes\">\n")?;
    html.raw("<tr><th>Node</th><th>Commands</th><th></th></tr>\n")?;
    push_node(alloc, html, view.node, view.prefix, "this node")?;
    for peer in peers {
        let state = if peer.reached {
            "reached"
        } else {
            "not reached"
        };
        push_node(alloc, html, peer.node, peer.prefix, state)?;
    }
    html.raw("</table></div>\n")
}

/// Writes the slider over positions.
fn push_slider(alloc: Global, html: &mut Html, view: &StoreView) -> Result<(), AllocError> {
    html.raw("<h2>The store after <span id=\"shown\">")?;
    push_number(alloc, html, view.k)?;
    html.raw("</span> of ")?;
    push_number(alloc, html, view.prefix)?;
    html.raw(" commands</h2>\n<form method=\"get\" action=\"./\">\n")?;
    html.raw("<input type=\"range\" name=\"k\" min=\"0\" max=\"")?;
    push_number(alloc, html, view.prefix)?;
    html.raw("\" value=\"")?;
    push_number(alloc, html, view.k)?;
    html.raw("\" aria-label=\"Position of the store\">\n<button>Show</button>\n</form>\n")
}

/// Writes the purposes of an anchor.
fn push_purposes(html: &mut Html, purposes: &PurposeFields) -> Result<(), AllocError> {
    html.raw("<td>")?;
    match purposes {
        PurposeFields::Any => html.raw("any")?,
        PurposeFields::Unknown => html.raw("not shown")?,
        PurposeFields::These(texts) if texts.is_empty() => html.raw("none")?,
        PurposeFields::These(texts) => {
            for text in texts {
                html.text(text.as_str())?;
                html.raw(" ")?;
            }
        }
    }
    html.raw("</td>\n")
}

/// Writes the row of an anchor.
fn push_anchor(html: &mut Html, row: &AnchorFields) -> Result<(), AllocError> {
    html.raw("<tr>")?;
    push_cell(html, "<td class=\"name\">", row.subject.as_str())?;
    push_purposes(html, &row.purposes)?;
    push_cell(html, "<td class=\"id\">", row.id.as_str())?;
    html.raw("</tr>\n")
}

/// Writes the anchors of a page.
fn push_anchors(html: &mut Html, rows: &[RowFields]) -> Result<(), AllocError> {
    html.raw("<h3>Trust anchors</h3>\n<div class=\"wide\"><table id=\"anchors\">\n")?;
    html.raw("<tr><th>Subject</th><th>Purposes</th><th>Id</th></tr>\n")?;
    for row in rows {
        if let RowFields::Anchor(row) = row {
            push_anchor(html, row)?;
        }
    }
    html.raw("</table></div>\n")
}

/// How the cell of a nextUpdate begins.
fn next_cell(next: i64, now: i64) -> &'static str {
    if next < now {
        return "<td class=\"past\">past: ";
    }
    if next.saturating_sub(now) < NEAR {
        return "<td class=\"near\">near: ";
    }
    "<td>"
}

/// Writes the row of a CRL.
fn push_crl(alloc: Global, html: &mut Html, row: &CrlFields, now: i64) -> Result<(), AllocError> {
    html.raw("<tr>")?;
    push_cell(html, "<td class=\"name\">", row.issuer.as_str())?;
    html.raw(if row.base.is_some() {
        "<td>delta"
    } else {
        "<td>complete"
    })?;
    if let Some(number) = &row.number {
        html.raw(" ")?;
        html.text(number.as_str())?;
    }
    html.raw("</td>\n")?;
    push_moment(html, "<td>", &row.this_update)?;
    push_moment(html, next_cell(row.next_seconds, now), &row.next_update)?;
    push_count(alloc, html, row.entries)?;
    push_cell(html, "<td class=\"id\">", row.id.as_str())?;
    html.raw("</tr>\n")
}

/// Writes the CRLs of a page.
fn push_crls(
    alloc: Global,
    html: &mut Html,
    rows: &[RowFields],
    now: i64,
) -> Result<(), AllocError> {
    html.raw("<h3>CRLs</h3>\n<div class=\"wide\"><table id=\"crls\">\n<tr><th>Issuer</th>")?;
    html.raw("<th>Number</th><th>thisUpdate</th><th>nextUpdate</th><th>Entries</th>")?;
    html.raw("<th>Id</th></tr>\n")?;
    for row in rows {
        if let RowFields::Crl(row) = row {
            push_crl(alloc, html, row, now)?;
        }
    }
    html.raw("</table></div>\n")
}

/// Writes a link to another page of this store.
fn push_link(
    alloc: Global,
    html: &mut Html,
    view: &StoreView,
    from: u64,
    words: &'static str,
) -> Result<(), AllocError> {
    html.raw("<a href=\"./?k=")?;
    push_number(alloc, html, view.k)?;
    html.raw("&amp;from=")?;
    push_number(alloc, html, from)?;
    html.raw("\">")?;
    html.raw(words)?;
    html.raw("</a> ")
}

/// Writes the links to the pages before and behind this one.
fn push_links(alloc: Global, html: &mut Html, view: &StoreView) -> Result<(), AllocError> {
    html.raw("<p>")?;
    push_number(alloc, html, view.total)?;
    html.raw(" rows. ")?;
    if view.from > 0 {
        let from = view.from.saturating_sub(ROWS);
        push_link(alloc, html, view, from, "Rows before these")?;
    }
    let behind = view.from.saturating_add(view.rows.len() as u64);
    if behind < view.total {
        push_link(alloc, html, view, behind, "Rows behind these")?;
    }
    html.raw("</p>\n")
}

/// The page of a store, at this moment in seconds from 1970-01-01T00:00:00Z.
pub fn store_page(
    alloc: Global,
    peers: &[PeerLine],
    view: &StoreView,
    now: i64,
) -> Result<Vec<u8>, AllocError> {
    let mut html = begin(alloc)?;
    push_nodes(alloc, &mut html, view, peers)?;
    push_slider(alloc, &mut html, view)?;
    push_anchors(&mut html, &view.rows)?;
    push_crls(alloc, &mut html, &view.rows, now)?;
    push_links(alloc, &mut html, view)?;
    push_form(&mut html, &[])?;
    end(html)
}
