//! Whether a name of a certificate is that of a host.

ghost use Rattle.std.specs.Prelude.{◌≡◌, ◌↔◌, ◌++◌, ◌∷◌, ℕ, List, true, IsTrue, MatchOption, ◌≢◌};
ghost use Rattle.std.specs.List.{position};
ghost use Rattle.ts_name.specs.Holds.{dot};
ghost use Rattle.ts_verify.specs.Matching.{is_dotless, IsUnderWildcard, Matches};
ghost use Rattle.ts_verify.specs.Hosts.{is_dot};

/// Where the first dot of a name is.
fn first_dot(name: &[u8]) -> Option<usize>
    ensures { result ≡ position is_dot name.now }
{
    name.iter().position(|octet| *octet == b'.')
}

/// The first label of a name, and what follows its dot, if there is a dot.
fn split_label(name: &[u8]) -> Option<(&[u8], &[u8])>
    ensures { MatchOption result (is_dotless name.now ≡ true) (λ parts.
        (name.now ≡ parts.0.now ++ dot ∷ parts.1.now) × (is_dotless parts.0.now ≡ true)) }
{
    let end = first_dot(name)?;
    Some((&name[..end], &name[end + 1..]))
}

/// What follows the wildcard and the dot at the front of a pattern.
fn after_wildcard(pattern: &[u8]) -> Option<&[u8]>
    ensures { MatchOption result ((rest : List ℕ) → pattern.now ≢ 42 ∷ dot ∷ rest)
        (λ rest. pattern.now ≡ 42 ∷ dot ∷ rest.now) }
{
    match pattern {
        [b'*', b'.', rest @ ..] => Some(rest),
        _ => None,
    }
}

/// Whether a pattern stands for a host by its wildcard.
fn is_under_wildcard(pattern: &[u8], host: &[u8]) -> bool
    ensures { IsTrue result ↔ IsUnderWildcard pattern.now host.now }
{
    let Some(rest) = after_wildcard(pattern) else {
        return false;
    };
    let Some((label, others)) = split_label(host) else {
        return false;
    };
    !label.is_empty() && others.eq_ignore_ascii_case(rest)
}

/// Whether a dNSName matches a host name.
pub(crate) fn matches(pattern: &[u8], host: &[u8]) -> bool
    ensures { IsTrue result ↔ Matches pattern.now host.now }
{
    if pattern.eq_ignore_ascii_case(host) {
        return true;
    }
    is_under_wildcard(pattern, host)
}
