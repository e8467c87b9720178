//! How a node is served.

ghost use Rattle.std.specs.Prelude.{IfOk, map, option_map, string_bytes};
ghost use Rattle.clap.specs.Matches.{found_of};
ghost use Rattle.clap.specs.Walk.{rows_of};
ghost use Rattle.ts_cli.specs.Serving.{ArePeers, IsHttp, IsServe};

use crate::fault::{CommandFault, WrongValue};
use crate::matched::{
    address_at, are_peers, is_set, number_or, optional_string_at, string_at, strings_at, value_at,
};
use clap::ArgMatches;
use std::alloc::Global;

/// The words of `trustd serve`.
#[derive(Debug, Drop)]
pub struct ServeWords {
    /// The record.
    pub file: String,
    /// The address to listen at.
    pub listen: String,
    /// A table of signatures that are good besides those that are checked.
    pub table: Option<String>,
    /// Whether signatures are those of the stand-in.
    pub stand_in: bool,
    /// The other nodes, each as its number, = and its address.
    pub peers: Vec<String>,
    /// Whether standard error is not told what happens.
    pub quiet: bool,
    /// The file of the keys of those who may ask. Anybody may where there is none.
    pub keys: Option<String>,
    /// The file of the key that the node shows its peers.
    pub key: Option<String>,
    /// Where questions are asked over HTTP, by whoever reaches it.
    pub http: Option<String>,
    /// Whether it is served without keys, and over HTTP, where other machines reach it.
    pub open: bool,
    /// How many seconds a silent client is kept.
    pub idle: u32,
    /// How many seconds a client has for a whole request, and to read an answer.
    pub request: u32,
    /// How many clients are served at once.
    pub at_once: u32,
    /// How many connections to take.
    pub connections: u32,
}

/// The most connections that a server takes.
const MANY: u32 = 1_000_000;

/// The peers that are named, kept.
fn peers_at(alloc: Global, matches: &ArgMatches<'_>) -> Result<Vec<String>, CommandFault>
    ensures { IfOk result (λ peers.
        ArePeers (rows_of (found_of matches.now)) (map string_bytes peers.items)) }
{
    let peers = strings_at(alloc, matches, "peer")?;
    if !are_peers(peers.as_slice()) {
        return Err(CommandFault::Value(WrongValue::Peer));
    }
    Ok(peers)
}

/// The address of HTTP, if one is given.
fn http_at(alloc: Global, matches: &ArgMatches<'_>) -> Result<Option<String>, CommandFault>
    ensures { IfOk result (λ http. IsHttp (rows_of (found_of matches.now))
        (option_map string_bytes http)) }
{
    if value_at(matches, "http").is_none() {
        return Ok(None);
    }
    Ok(Some(address_at(alloc, matches, "http")?))
}

/// The words of `trustd serve`.
pub(crate) fn serve_words(
    alloc: Global,
    matches: &ArgMatches<'_>,
) -> Result<ServeWords, CommandFault>
    ensures { IfOk result (IsServe (rows_of (found_of matches.now))) }
{
    let table = optional_string_at(alloc, matches, "table")?;
    let stand_in = is_set(matches, "stand-in");
    if stand_in && table.is_some() {
        return Err(CommandFault::Value(WrongValue::Check));
    }
    Ok(ServeWords {
        file: string_at(alloc, matches, "file")?,
        listen: address_at(alloc, matches, "listen")?,
        table,
        stand_in,
        peers: peers_at(alloc, matches)?,
        quiet: is_set(matches, "quiet"),
        keys: optional_string_at(alloc, matches, "keys")?,
        key: optional_string_at(alloc, matches, "key")?,
        http: http_at(alloc, matches)?,
        open: is_set(matches, "open"),
        idle: number_or(matches, "idle", 1, 3600, 30, WrongValue::Seconds)?,
        request: number_or(matches, "request", 1, 3600, 5, WrongValue::Seconds)?,
        at_once: number_or(
            matches,
            "connections-at-once",
            1,
            4096,
            512,
            WrongValue::AtOnce,
        )?,
        connections: number_or(
            matches,
            "connections",
            1,
            MANY,
            MANY,
            WrongValue::Connections,
        )?,
    })
}
