//! The words of the lines about nodes.

ghost use Rattle.std.specs.Prelude.{◌≤◌, length};

use crate::cursor::Cursor;
use std::alloc::Global;
use ts_der::Oid;
use ts_script::words::are_names;
use ts_script::{LineFault, Options, oid_in};
use ts_time::Moment;

/// The command of a `submit` line, with the names that it has.
#[derive(Drop)]
pub(crate) enum WantedLine<'a> {
    Add(&'a [u8]),
    Withdraw(&'a [u8]),
    Load(&'a [u8]),
    Drop(&'a [u8]),
    Purposes { name: &'a [u8], oids: Vec<Oid> },
    Noop,
}

/// What an `ask` or a `search` line asks about.
#[derive(Drop)]
pub(crate) enum AskedLine<'a> {
    /// A chain of these names, one or more, under an anchor.
    Chain {
        anchor: &'a [u8],
        names: &'a [u8],
    },
    /// A chain to the leaf, through the pool of these names, if there are any.
    Search {
        leaf: &'a [u8],
        pool: Option<&'a [u8]>,
    },
}

/// A line about nodes.
#[derive(Drop)]
pub(crate) enum NodeLine<'a> {
    Nodes(u32),
    Submit {
        node: u32,
        id: u8,
        wanted: WantedLine<'a>,
    },
    /// The numbers of messages, one or more.
    Deliver(&'a [u8]),
    Settle,
    Restart(u32),
    CatchUp(u32),
    Outcome {
        node: u32,
        id: u8,
    },
    Ask {
        node: u32,
        moment: Moment,
        options: Options,
        asked: AskedLine<'a>,
    },
    Show,
    Compact(u32),
}

impl<'a> NodeLine<'a> {
    /// The words of a line.
    ///
    /// # Errors
    ///
    /// `Form` where they are not those of such a line.
    pub fn read(alloc: Global, line: &'a [u8]) -> Result<NodeLine<'a>, LineFault> {
        let mut words = Cursor::new(line);
        match words.next()? {
            b"submit" => read_submit(alloc, &mut words),
            b"ask" => read_ask(alloc, &mut words),
            b"search" => read_search(alloc, &mut words),
            b"deliver" => read_deliver(&mut words),
            word => read_short(word, &mut words),
        }
    }
}

/// A line of a keyword, with a number and an id at most.
fn read_short<'a>(word: &[u8], words: &mut Cursor<'a>) -> Result<NodeLine<'a>, LineFault> {
    let line = match word {
        b"nodes" => NodeLine::Nodes(words.number()?),
        b"settle" => NodeLine::Settle,
        b"restart" => NodeLine::Restart(words.number()?),
        b"catchup" => NodeLine::CatchUp(words.number()?),
        b"compact" => NodeLine::Compact(words.number()?),
        b"show" => NodeLine::Show,
        b"outcome" => NodeLine::Outcome {
            node: words.number()?,
            id: words.id()?,
        },
        _ => return Err(LineFault::Form),
    };
    words.end()?;
    Ok(line)
}

/// A `submit` line after its first word.
fn read_submit<'a>(alloc: Global, words: &mut Cursor<'a>) -> Result<NodeLine<'a>, LineFault> {
    let node = words.number()?;
    let id = words.id()?;
    let wanted = match words.next()? {
        b"add" => WantedLine::Add(words.name()?),
        b"withdraw" => WantedLine::Withdraw(words.name()?),
        b"load" => WantedLine::Load(words.name()?),
        b"drop" => WantedLine::Drop(words.name()?),
        b"purposes" => WantedLine::Purposes {
            name: words.name()?,
            oids: read_purposes(alloc, words)?,
        },
        b"noop" => WantedLine::Noop,
        _ => return Err(LineFault::Form),
    };
    words.end()?;
    Ok(NodeLine::Submit { node, id, wanted })
}

/// The object identifiers up to the end of a line, ascending, each once.
fn read_purposes(alloc: Global, words: &mut Cursor<'_>) -> Result<Vec<Oid>, LineFault> {
    let mut oids = Vec::new(alloc);
    for _ in 0..u64::MAX {
        if words.left().is_none() {
            break;
        }
        let oid = oid_in(alloc, words.next()?)?;
        put_in_order(&mut oids, oid)?;
    }
    Ok(oids)
}

/// Puts an object identifier among others, which are ascending by their contents octets, where it
/// is not there.
fn put_in_order(oids: &mut Vec<Oid>, oid: Oid) -> Result<(), LineFault> {
    let place = place_of(oids, &oid);
    match oids.get(place) {
        Some(other) if other.as_ref().content == oid.as_ref().content => Ok(()),
        _ => Ok(oids.insert(place, oid)?),
    }
}

/// The place of the first that is not before an object identifier.
fn place_of(oids: &[Oid], oid: &Oid) -> usize
    ensures { result ≤ length oids.now }
{
    for place in 0..oids.len() {
        if oid.as_ref().content <= oids[place].as_ref().content {
            return place;
        }
    }
    oids.len()
}

/// A `deliver` line after its first word.
fn read_deliver<'a>(words: &mut Cursor<'a>) -> Result<NodeLine<'a>, LineFault> {
    let Some(numbers) = words.left() else {
        return Err(LineFault::Form);
    };
    for _ in 0..u64::MAX {
        if words.left().is_none() {
            break;
        }
        let _number = words.number()?;
    }
    Ok(NodeLine::Deliver(numbers))
}

/// An `ask` line after its first word.
fn read_ask<'a>(alloc: Global, words: &mut Cursor<'a>) -> Result<NodeLine<'a>, LineFault> {
    let node = words.number()?;
    let anchor = words.name()?;
    words.keyword(b"at")?;
    let moment = words.moment()?;
    let (options, Some(names)) = Options::read(alloc, words.left(), b"chain")? else {
        return Err(LineFault::Form);
    };
    if !are_names(Some(names)) {
        return Err(LineFault::Form);
    }
    let asked = AskedLine::Chain { anchor, names };
    Ok(NodeLine::Ask {
        node,
        moment,
        options,
        asked,
    })
}

/// A `search` line after its first word.
fn read_search<'a>(alloc: Global, words: &mut Cursor<'a>) -> Result<NodeLine<'a>, LineFault> {
    let node = words.number()?;
    words.keyword(b"at")?;
    let moment = words.moment()?;
    let (options, Some(rest)) = Options::read(alloc, words.left(), b"leaf")? else {
        return Err(LineFault::Form);
    };
    let mut words = Cursor::new(rest);
    let leaf = words.name()?;
    words.keyword(b"pool")?;
    let pool = words.left();
    if !are_names(pool) {
        return Err(LineFault::Form);
    }
    let asked = AskedLine::Search { leaf, pool };
    Ok(NodeLine::Ask {
        node,
        moment,
        options,
        asked,
    })
}
