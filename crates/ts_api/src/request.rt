//! What a request says, beside its query and its body.

ghost use Rattle.std.specs.Prelude.{◌≡◌, map, option_map};
ghost use Rattle.ts_http.specs.Request.{field_in};
ghost use Rattle.std.specs.List.{position};
ghost use Rattle.ts_api.specs.Request.{bearer_in, bearer_of, behind_authority, behind_http};
ghost use Rattle.ts_api.specs.Request.{behind_https, behind_scheme};
ghost use Rattle.ts_api.specs.Request.{ends_authority, is_mark, local_of, path_in, path_of};
ghost use Rattle.ts_api.specs.Request.{query_in, query_of, rooted, route_in, with_field};

use crate::route::{Route, route_of};
use ts_http::Field;

/// How many octets the name of the scheme has, and the space behind it (RFC 6750 2.1).
const SCHEME: usize = 7;

/// What a request shows of a key.
#[derive(Clone, Copy, PartialEq, Eq)]
pub enum Bearer {
    /// Nothing.
    None,
    /// Something that is no secret, or more than one.
    Wrong,
    /// The secret of a key.
    Secret([u8; 32]),
}

/// What the value of a field Authorization shows: `Bearer` in whatever case, a space, and the
/// secret in 64 hexadecimal digits.
fn bearer_of(value: &[u8]) -> Bearer
    ensures { result ≡ bearer_of value.now }
{
    if value.len() < SCHEME || !value[..SCHEME].eq_ignore_ascii_case(b"bearer ") {
        return Bearer::Wrong;
    }
    let mut secret = [0; 32];
    match hex::decode_to_slice(&value[SCHEME..], &mut secret) {
        Ok(()) => Bearer::Secret(secret),
        Err(_) => Bearer::Wrong,
    }
}

/// What one more field shows, behind what those before it showed.
fn with_field(bearer: Bearer, field: &Field) -> Bearer
    ensures { result ≡ with_field bearer (field_in field.now) }
{
    if !field.name.as_slice().eq_ignore_ascii_case(b"authorization") {
        return bearer;
    }
    match bearer {
        Bearer::None => bearer_of(&field.value),
        _ => Bearer::Wrong,
    }
}

/// What header fields show of a key.
pub fn bearer_in(fields: &[Field]) -> Bearer
    ensures { result ≡ bearer_in (map field_in fields.now) }
{
    let mut bearer = Bearer::None;
    for field in fields {
        bearer = with_field(bearer, field);
    }
    bearer
}

/// Where the first question mark of a target is.
fn mark_of(target: &[u8]) -> Option<usize>
    ensures { result ≡ position is_mark target.now }
{
    target.iter().position(|octet| *octet == b'?')
}

/// The path before a question mark (RFC 3986 3.3).
fn path_in(octets: &[u8]) -> &[u8]
    ensures { result.now ≡ path_in octets.now }
{
    match mark_of(octets) {
        Some(place) => &octets[..place],
        None => octets,
    }
}

/// The query behind a question mark (RFC 3986 3.4).
fn query_in(octets: &[u8]) -> &[u8]
    ensures { result.now ≡ query_in octets.now }
{
    match mark_of(octets) {
        Some(place) => &octets[place + 1..],
        None => &[],
    }
}

/// What stands behind the two slashes of a URI of `http`, in whatever case.
fn behind_http(target: &[u8]) -> Option<&[u8]>
    ensures { option_map (λ octets. octets.now) result ≡ behind_http target.now }
{
    if target.len() < 7 || !target[..7].eq_ignore_ascii_case(b"http://") {
        return None;
    }
    Some(&target[7..])
}

/// What stands behind the two slashes of a URI of `https`.
fn behind_https(target: &[u8]) -> Option<&[u8]>
    ensures { option_map (λ octets. octets.now) result ≡ behind_https target.now }
{
    if target.len() < 8 || !target[..8].eq_ignore_ascii_case(b"https://") {
        return None;
    }
    Some(&target[8..])
}

/// What stands behind the two slashes of a URI of one of these.
fn behind_scheme(target: &[u8]) -> Option<&[u8]>
    ensures { option_map (λ octets. octets.now) result ≡ behind_scheme target.now }
{
    match behind_http(target) {
        Some(octets) => Some(octets),
        None => behind_https(target),
    }
}

/// Where an authority ends: at a slash, a question mark or a number sign.
fn authority_end(octets: &[u8]) -> Option<usize>
    ensures { result ≡ position ends_authority octets.now }
{
    octets.iter().position(|octet| *octet == b'/' || (*octet == b'?' || *octet == b'#'))
}

/// What stands behind an authority, which is not empty.
fn behind_authority(octets: &[u8]) -> Option<&[u8]>
    ensures { option_map (λ local. local.now) result ≡ behind_authority octets.now }
{
    match authority_end(octets) {
        Some(0) => None,
        Some(place) => Some(&octets[place..]),
        None if octets.is_empty() => None,
        None => Some(&[]),
    }
}

/// The path and the query of a target in absolute form, a URI of `http` or `https` (RFC 9112
/// 3.2.2).
fn local_of(target: &[u8]) -> Option<&[u8]>
    ensures { option_map (λ local. local.now) result ≡ local_of target.now }
{
    match behind_scheme(target) {
        Some(octets) => behind_authority(octets),
        None => None,
    }
}

/// A path of a URI: none is `/` (RFC 9110 4.2.3).
fn rooted(path: &[u8]) -> &[u8]
    ensures { result.now ≡ rooted path.now }
{
    if path.is_empty() { b"/" } else { path }
}

/// A target's path: in absolute form that of the URI.
fn path_of(target: &[u8]) -> &[u8]
    ensures { result.now ≡ path_of target.now }
{
    match local_of(target) {
        Some(local) => rooted(path_in(local)),
        None => path_in(target),
    }
}

/// A target's query: in absolute form that of the URI.
pub fn query_of(target: &[u8]) -> &[u8]
    ensures { result.now ≡ query_of target.now }
{
    match local_of(target) {
        Some(local) => query_in(local),
        None => query_in(target),
    }
}

/// What is at a target's path.
pub fn route_in(target: &[u8]) -> Route
    ensures { result ≡ route_in target.now }
{
    route_of(path_of(target))
}
