//! A file of keys.

ghost use Rattle.std.specs.Prelude.{◌≡◌, ◌≢◌, ◌++◌, [], ℕ, List, IfOk, IfErr, OnOk, MatchOption};
ghost use Rattle.std.specs.Prelude.{option_map, string_bytes};
ghost use Rattle.ts_access.specs.Keys.{Adds, AddsLine, IsKeyLine, IsNode, IsRefused};
ghost use Rattle.ts_access.specs.Keys.{IsRole, IsSecret, IsWrongLine, is_skipped, key_found};
ghost use Rattle.ts_access.specs.Keys.{line_text, node_word, role_text, role_words};
ghost use Rattle.ts_access.specs.Pieces.{lines_of, words_behind};
ghost use Rattle.ts_access.specs.declared.key.Key.{Key};
ghost use Rattle.ts_access.specs.declared.key.Role.{Role};

use crate::fault::KeysFault;
use crate::key::{Key, Role};
use crate::piece::{Mark, first_piece, first_word};
use std::alloc::{AllocError, Global};
use ts_literal::number_of_octets;

/// The most keys that a file has.
pub const MAX_KEYS: usize = 4_096;

/// The first word of each role.
const PEER: &[u8] = b"peer";

const ADMIN: &[u8] = b"admin";

const READER: &[u8] = b"reader";

/// The number of a node that a word writes.
fn node_of(word: &[u8]) -> Option<u8>
    ensures { MatchOption result ((node : ℕ) → IsNode node → word.now ≢ node_word node)
        (λ node. IsNode node × (word.now ≡ node_word node)) }
{
    let [digit] = word else {
        return None;
    };
    if *digit < b'1' || b'9' < *digit {
        return None;
    }
    Some(*digit - b'0')
}

/// The secret that a word writes in hexadecimal digits.
fn secret_of(word: &[u8]) -> Option<[u8; 32]>
    ensures { MatchOption result ((secret : List ℕ) → ¬ (IsSecret word.now secret))
        (IsSecret word.now) }
{
    let mut secret = [0; 32];
    match hex::decode_to_slice(word, &mut secret) {
        Ok(()) => Some(secret),
        Err(_) => None,
    }
}

/// The role that the first words name, and what follows them.
fn role_in(words: Option<&[u8]>) -> Option<(Role, Option<&[u8]>)>
    ensures { MatchOption result ((role : Role) (others : List (List ℕ)) → IsRole role
        → words_behind (option_map (λ rest. rest.now) words.entry) ≢ role_words role ++ others)
        (λ found. IsRole found.0 × (words_behind (option_map (λ rest. rest.now) words.entry)
        ≡ role_words found.0 ++ words_behind (option_map (λ rest. rest.now) found.1))) }
{
    let (name, rest) = first_word(words)?;
    if name == ADMIN {
        return Some((Role::Admin, rest));
    }
    if name == READER {
        return Some((Role::Reader, rest));
    }
    if name != PEER {
        return None;
    }
    let (node, rest) = first_word(rest)?;
    let node = node_of(node)?;
    Some((Role::Peer(node), rest))
}

/// The key that a line names.
fn key_in(line: &[u8]) -> Option<Key>
    ensures { MatchOption result ((key : Key) → ¬ (IsKeyLine line.now key)) (IsKeyLine line.now) }
{
    let (id, rest) = first_word(Some(line))?;
    let id = number_of_octets(id)?;
    let (role, rest) = role_in(rest)?;
    let (digits, rest) = first_word(rest)?;
    let secret = secret_of(digits)?;
    if first_word(rest).is_some() {
        return None;
    }
    Some(Key { id, role, secret })
}

/// Whether a line has no octet, or begins with `#`.
fn is_skipped(line: &[u8]) -> bool
    ensures { result ≡ is_skipped line.now }
{
    match line {
        [] => true,
        [first, ..] => *first == b'#',
    }
}

/// The first key of this number.
pub fn key_of(keys: &[Key], id: u32) -> Option<&Key>
    ensures { option_map (λ key. key.now) result ≡ key_found keys.now id }
{
    for key in keys {
        if key.id == id {
            return Some(key);
        }
    }
    None
}

/// Puts the key that a line names, if it names one, behind the others.
fn push_line(keys: &mut Vec<Key>, line: &[u8], number: u32) -> Result<(), KeysFault>
    ensures adds { OnOk result (AddsLine keys.old.items line.now keys.new.items) }
    ensures wrong { IfErr result (IsWrongLine keys.old.items line.now number) }
{
    if is_skipped(line) {
        return Ok(());
    }
    let Some(key) = key_in(line) else {
        return Err(KeysFault::Line(number));
    };
    if key_of(keys, key.id).is_some() {
        return Err(KeysFault::Twice(key.id));
    }
    if keys.len() >= MAX_KEYS {
        return Err(KeysFault::TooMany);
    }
    match keys.push(key) {
        Ok(()) => Ok(()),
        Err(_) => Err(KeysFault::Memory),
    }
}

/// The keys of a text. Each line is `ID ROLE SECRET`: a number below 2^32 in decimal without
/// leading zeros; `peer` and the number of a node, 1 to 9, or `admin` or `reader`; 64 hexadecimal
/// digits. Between words are spaces or tabs, one or more. A line that is empty or begins with `#`
/// is skipped. A line ends with a line feed alone.
///
/// # Errors
///
/// The first line that is wrong: none of these, a number that an earlier line has named, or one
/// key more than 4,096; a text of 4,294,967,295 octets or more; memory that is refused.
pub fn read_keys(alloc: Global, text: &[u8]) -> Result<Vec<Key>, KeysFault>
    ensures found { IfOk result (λ keys. Adds [] (lines_of text.now) keys.items) }
    ensures fault { IfErr result (IsRefused text.now) }
{
    if text.len() >= u32::MAX as usize {
        return Err(KeysFault::TooMany);
    }
    let mut keys = Vec::new(alloc);
    let mut number = 0u32;
    let mut rest = Some(text);
    while let Some(left) = rest {
        let (line, behind) = first_piece(left, Mark::LineFeed);
        number += 1;
        push_line(&mut keys, line, number)?;
        rest = behind;
    }
    Ok(keys)
}

/// The words of a role.
fn role_text(alloc: Global, role: Role) -> Result<String, AllocError>
    ensures { IfOk result (λ text. string_bytes text ≡ role_text role) }
{
    match role {
        Role::Peer(node) => format!(in alloc; "peer {node}"),
        Role::Admin => format!(in alloc; "admin"),
        Role::Reader => format!(in alloc; "reader"),
    }
}

/// The line that names a key, without a line feed.
///
/// # Errors
///
/// Memory that is refused.
pub fn key_line(alloc: Global, key: &Key) -> Result<String, AllocError>
    ensures { IfOk result (λ line. string_bytes line ≡ line_text key.now) }
{
    let role = role_text(alloc, key.role)?;
    let secret = hex::encode(alloc, key.secret)?;
    format!(in alloc; "{} {} {}", key.id, role, secret)
}
