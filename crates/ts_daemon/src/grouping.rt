//! The group that a node is served in.

use std::alloc::{AllocError, Global};
use std::rt::Files;
use ts_access::{Key, Role};
use ts_check::ALGORITHMS;
use ts_cli::{ServeWords, VERSION, peer_of};
use ts_files::{TaskFault, key_in, keyring_of};
use ts_meter::Meter;
use ts_node::Identity;
use ts_peers::{Group, PeerAddress};
use ts_sockets::Access;

/// Whether a peer of this number may be added: it is another node of the group, and is not there
/// yet.
fn may_be_added(peers: &[PeerAddress], own: Identity, node: u8) -> bool {
    node != own.node && node <= own.nodes && peers.iter().all(|peer| peer.node != node)
}

/// The group that the words name, of this node.
///
/// # Errors
///
/// `Field` where a peer is named twice, or is no other node of the group; `Memory`.
fn group_of(
    rt: &impl Eprint,
    alloc: Global,
    words: &ServeWords,
    own: Identity,
) -> Result<Group, TaskFault> {
    let mut peers = Vec::new(alloc);
    for text in &words.peers {
        let Some((node, address)) = peer_of(text.as_str()) else {
            return Err(TaskFault::Field);
        };
        if !may_be_added(&peers, own, node) {
            let (own, nodes) = (own.node, own.nodes);
            let _ = eprintln!(rt;
                "trustd: --peer {node}: this is node {own} of {nodes}, and a peer is another, named once"
            );
            return Err(TaskFault::Field);
        }
        let address = String::from_str(alloc, address)?;
        peers.push(PeerAddress { node, address })?;
    }
    Ok(Group {
        carries: own.nodes == 1 || !peers.is_empty(),
        peers,
        tells: !words.quiet,
    })
}

/// The key that the words name for this node, if they name one: one of a peer with its number.
fn own_key<R: Files + Eprint>(
    rt: &R,
    alloc: Global,
    words: &ServeWords,
    node: u8,
) -> Result<Option<Key>, TaskFault> {
    let Some(key) = key_in(rt, alloc, &words.key)? else {
        return Ok(None);
    };
    if key.role != Role::Peer(node) {
        let _ = eprintln!(rt; "trustd: the key of --key is not one of peer {node}");
        return Err(TaskFault::Field);
    }
    Ok(Some(key))
}

/// A copy of a text that may not be there.
fn copy_of(alloc: Global, text: &Option<String>) -> Result<Option<String>, TaskFault> {
    match text {
        Some(text) => Ok(Some(String::from_str(alloc, text.as_str())?)),
        None => Ok(None),
    }
}

/// Who may ask the node of this number, and what it shows its peers, as the words say; and what
/// counts the work of its disks.
///
/// # Errors
///
/// `Field` where the node's own key is not one of a peer with its number; those of the files.
fn access_of<'m, R: Files + Eprint>(
    rt: &R,
    alloc: Global,
    words: &ServeWords,
    node: u8,
    meter: &'m Meter,
) -> Result<Access<'m>, TaskFault> {
    Ok(Access {
        node,
        keyring: keyring_of(rt, alloc, &words.keys)?,
        own: own_key(rt, alloc, words, node)?,
        open: words.open,
        http: copy_of(alloc, &words.http)?,
        meter: Some(meter),
        version: Some(VERSION),
        about: Some(about_of(alloc, words)?),
        greeting: None,
    })
}

/// The check of signatures, in a word.
fn check_word(words: &ServeWords) -> &'static str {
    if words.stand_in {
        return "stand-in";
    }
    if words.table.is_some() {
        return "native, table";
    }
    "native"
}

/// What serves a node: the program's version, its check of signatures, and which algorithms that
/// knows.
fn about_of(alloc: Global, words: &ServeWords) -> Result<String, AllocError> {
    let (version, check) = (VERSION, check_word(words));
    let mut about = format!(in alloc; "version {version}\ncheck {check}\n")?;
    if !words.stand_in {
        about.push_str(ALGORITHMS)?;
    }
    Ok(about)
}

/// What standard error is told once the node listens: what is served, and what is not protected.
/// Nothing where that is not wanted.
fn greeting_of(
    alloc: Global,
    words: &ServeWords,
    group: &Group,
    access: &Access<'_>,
) -> Result<Option<String>, AllocError> {
    if words.quiet {
        return Ok(None);
    }
    let (file, listen) = (words.file.as_str(), words.listen.as_str());
    let peers = group.peers.len();
    let mut text = format!(in alloc; "trustd: serves {file} at {listen}, {peers} peers\n")?;
    if let Some(http) = &words.http {
        let http = http.as_str();
        let line = format!(in alloc; "trustd: answers HTTP at {http}, to whoever reaches it\n")?;
        text.push_str(line.as_str())?;
    }
    let (has_keys, has_key) = (access.keyring.is_some(), access.own.is_some());
    if !has_keys {
        let line = format!(in alloc;
            "trustd: no --keys: whoever reaches {listen} may change the store\n"
        )?;
        text.push_str(line.as_str())?;
    }
    if !group.carries {
        text.push_str("trustd: no --peer: only `trustd carry` takes messages to the others\n")?;
    }
    if !has_keys && has_key {
        text.push_str("trustd: --key without --keys: others reach this node without one\n")?;
    }
    if has_keys && !has_key && peers > 0 {
        text.push_str("trustd: no --key: peers that want keys refuse this node\n")?;
    }
    Ok(Some(text))
}

/// The group that the words name, of this node, and who may ask it.
///
/// # Errors
///
/// Those of [`group_of`] and of [`access_of`].
pub(crate) fn setting_of<'m, R: Files + Eprint>(
    rt: &R,
    alloc: Global,
    words: &ServeWords,
    own: Identity,
    meter: &'m Meter,
) -> Result<(Group, Access<'m>), TaskFault> {
    let group = group_of(rt, alloc, words, own)?;
    match access_of(rt, alloc, words, own.node, meter) {
        Ok(mut access) => match greeting_of(alloc, words, &group, &access) {
            Ok(greeting) => {
                access.greeting = greeting;
                Ok((group, access))
            }
            Err(_) => {
                drop((group, access));
                Err(TaskFault::Memory)
            }
        },
        Err(fault) => {
            drop(group);
            Err(fault)
        }
    }
}
