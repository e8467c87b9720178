//! What a node's store holds is asked for, page after page, and printed.

use crate::keyed::ReachedNode;
use crate::requests::{answer_from, server_at, tell};
use std::alloc::Global;
use std::io::Print;
use std::net::Net;
use std::random::RandomSource;
use std::rt::{Clock, Files};
use ts_cli::Reach;
use ts_exchange::{Ending, PageWalk, Rows};
use ts_files::{TaskFault, put, say};
use ts_line::Line;
use ts_listing::missing;
use ts_question::Reply;
use ts_render::{row_fields, row_text, write_row};
use ts_serve::Peer;
use ts_wire::FrameFault;

/// The most pages that are asked for: a log of 1,000,000 commands has 15,625.
const MAX_PAGES: u32 = 16_384;

/// The most pages of a store, which has at most 2,304 rows: 36, and some for a node of another
/// version.
pub(crate) const MAX_STORE_PAGES: u32 = 64;

/// A page that a node answered with.
#[derive(Drop)]
pub(crate) struct Page {
    /// After how many commands it holds.
    pub k: u32,
    /// How many rows there are in all.
    pub total: u32,
    /// Those of the page.
    pub rows: Vec<Vec<u8>>,
}

/// What a node answers in a page's place: how many commands it knows, which are too few.
#[derive(Drop)]
pub(crate) struct TooFew {
    k: u32,
    prefix: u32,
}

/// Asks a peer for the next page.
pub(crate) fn page_of<P: Peer>(
    alloc: Global,
    peer: &mut P,
    walk: &PageWalk,
) -> Result<Result<Page, TooFew>, TaskFault>
    requires { P.is_ready peer.old }
    ensures { P.is_ready peer.new }
{
    let Ok(question) = walk.question(alloc) else {
        return Err(TaskFault::OutOfLimits);
    };
    let answer = answer_from(alloc, peer, question)?;
    let k = answer.k();
    match answer.into_reply() {
        Reply::Page { total, rows } => {
            let rows = rows.into_vec();
            Ok(Ok(Page { k, total, rows }))
        }
        Reply::NotYet { prefix } => Ok(Err(TooFew { k, prefix })),
        _ => Err(TaskFault::Frame(FrameFault::Kind)),
    }
}

/// Prints the line of a row.
fn print_row(
    rt: &impl Print,
    alloc: Global,
    sign: &[u8],
    json: bool,
    place: u32,
    octets: &[u8],
) -> Result<(), TaskFault> {
    let Some(row) = row_fields(alloc, octets)? else {
        return Err(TaskFault::Field);
    };
    if json {
        let text = row_text(alloc, place, row)?;
        return say(rt, format!(in alloc; "{text}\n")?.as_str());
    }
    let mut line = Line::of(alloc, sign)?;
    write_row(&mut line, place, &row)?;
    let mut text = Vec::new(alloc);
    text.extend_from_slice(line.as_slice())?;
    text.push(b'\n')?;
    put(rt, &text)
}

/// Prints the rows of a page, after so many.
fn print_page(
    rt: &impl Print,
    alloc: Global,
    json: bool,
    from: u32,
    page: &Page,
) -> Result<(), TaskFault> {
    let mut place = from;
    for row in &page.rows {
        place = place.saturating_add(1);
        print_row(rt, alloc, b"", json, place, row.as_slice())?;
    }
    Ok(())
}

/// Says that a node knows too few commands.
pub(crate) fn say_too_few(rt: &impl Eprint, few: TooFew) -> Ending {
    let TooFew { k, prefix } = few;
    let _said = eprintln!(rt; "trustd: the node knows {prefix} commands, and not {k}");
    Ending::Refused
}

/// Says after how many commands there are how many rows.
fn say_head(rt: &impl Print, alloc: Global, kind: Rows, page: &Page) -> Result<(), TaskFault> {
    let word = match kind {
        Rows::Store => "store",
        Rows::Log => "log",
    };
    let (k, total) = (page.k, page.total);
    say(rt, format!(in alloc; "{word} {k} {total}\n")?.as_str())
}

/// Asks the server at an address for all rows of a walk, page after page at one k, and prints a
/// line of each; before them, but for JSON, k and how many rows there are.
///
/// # Errors
///
/// Those of the exchange; the node's; `Field` where a row is none.
pub(crate) fn print_rows(
    rt: &(impl AllocGlobal + Files + Net + Clock + RandomSource + Print + Eprint),
    reach: &Reach,
    mut walk: PageWalk,
    json: bool,
) -> Result<Ending, TaskFault> {
    let alloc = rt.alloc();
    let mut server = server_at(rt, alloc, reach)?;
    for number in 0..MAX_PAGES {
        let page = page_of(alloc, &mut server, &walk);
        let page = match tell(rt, reach, page)? {
            Ok(page) => page,
            Err(few) => return Ok(say_too_few(rt, few)),
        };
        if number == 0 && !json {
            say_head(rt, alloc, walk.rows, &page)?;
        }
        print_page(rt, alloc, json, walk.from, &page)?;
        if !walk.pass(page.k, page.total, &page.rows) {
            return Ok(Ending::Well);
        }
    }
    Ok(Ending::Well)
}

/// All rows of what a server's store holds after the first k commands, or after all that the server
/// knows.
pub(crate) fn all_rows<R: Net + Clock + RandomSource>(
    alloc: Global,
    server: &mut ReachedNode<'_, R>,
    k: Option<u32>,
) -> Result<Result<Vec<Vec<u8>>, TooFew>, TaskFault> {
    let mut all = Vec::new(alloc);
    let mut walk = PageWalk {
        rows: Rows::Store,
        k,
        from: 0,
    };
    for _ in 0..MAX_STORE_PAGES {
        let page = match page_of(alloc, server, &walk)? {
            Ok(page) => page,
            Err(few) => return Ok(Err(few)),
        };
        let is_more = walk.pass(page.k, page.total, &page.rows);
        for row in page.rows {
            all.push(row)?;
        }
        if !is_more {
            return Ok(Ok(all));
        }
    }
    Ok(Ok(all))
}

/// Prints rows, each after a sign.
fn print_signed(
    rt: &impl Print,
    alloc: Global,
    sign: &[u8],
    rows: &[&[u8]],
) -> Result<(), TaskFault> {
    for row in rows {
        print_row(rt, alloc, sign, false, 0, *row)?;
    }
    Ok(())
}

/// Prints what the store of the server at an address holds after some commands and not after
/// others, with `-`, and then what it holds after these and not after those, with `+`.
///
/// # Errors
///
/// Those of [`print_rows`].
pub(crate) fn print_diff(
    rt: &(impl AllocGlobal + Files + Net + Clock + RandomSource + Print + Eprint),
    reach: &Reach,
    old: u32,
    new: u32,
) -> Result<Ending, TaskFault> {
    let alloc = rt.alloc();
    let mut server = server_at(rt, alloc, reach)?;
    let before = all_rows(alloc, &mut server, Some(old));
    let before = match tell(rt, reach, before)? {
        Ok(rows) => rows,
        Err(few) => return Ok(say_too_few(rt, few)),
    };
    let behind = all_rows(alloc, &mut server, Some(new));
    let behind = match tell(rt, reach, behind)? {
        Ok(rows) => rows,
        Err(few) => return Ok(say_too_few(rt, few)),
    };
    print_signed(rt, alloc, b"- ", &missing(alloc, &behind, &before)?)?;
    print_signed(rt, alloc, b"+ ", &missing(alloc, &before, &behind)?)?;
    Ok(Ending::Well)
}
