//! Which of two disks is in use.

ghost use Rattle.std.specs.Prelude.{◌≡◌, ◌≢◌, true, false, ◌≤◌, ◌<◌, ◌^◌, ◌++◌, ◌∷◌, ℕ, List};
ghost use Rattle.std.specs.Prelude.{length, IfSome, IfNone};
ghost use Rattle.ts_journal.specs.Images.{Header, head};
ghost use Rattle.ts_journal.specs.Choice.{header_of_owner, LooksLike, choice_of, is_same_owner};
ghost use Rattle.ts_journal.specs.Choice.{IsChosen};
ghost use Rattle.ts_journal.specs.Choice.{Unchosen};

use crate::Stage;
use crate::header::head_octets;

/// Whose journal an image begins with: a node, of how many and of which group; and its generation.
#[derive(Clone, Copy, Debug, PartialEq, Eq)]
pub struct Owner {
    pub node: u8,
    pub nodes: u8,
    pub group: u32,
    pub generation: u64,
}

/// What an image looks like: below 25 octets; with a clear live byte; live with a wrong header; or
/// live.
#[derive(Clone, Copy, Debug, PartialEq, Eq)]
pub enum Look {
    Short,
    Shut,
    Wrong,
    Right(Owner),
}

/// The disk in use: the second where the two are swapped, its header, and what the other disk
/// holds.
#[derive(Clone, Copy, Debug, PartialEq, Eq)]
pub struct Choice {
    pub swapped: bool,
    pub owner: Owner,
    pub stage: Stage,
}

/// What an image looks like.
pub fn look_at(octets: &[u8]) -> Look
    ensures { LooksLike octets.now result }
{
    if octets.len() < 25 {
        return Look::Short;
    }
    if octets[24] == 0 {
        return Look::Shut;
    }
    let owner = owner_at(octets);
    let header = head_octets(&owner);
    if !is_same(&octets[..24], &header) {
        return Look::Wrong;
    }
    if owner.node < 1 || owner.nodes < owner.node || 9 < owner.nodes {
        return Look::Wrong;
    }
    Look::Right(owner)
}

/// Whether two strings of octets are equal.
fn is_same(a: &[u8], b: &[u8]) -> bool
    ensures equal { result ≡ true → a.now ≡ b.now }
    ensures different { result ≡ false → a.now ≢ b.now }
{
    a == b
}

/// The owner in the header that an image begins with. It means nothing where the image begins with
/// no header.
fn owner_at(octets: &[u8]) -> Owner
    requires { 25 ≤ length octets.now }
    ensures { (h : Header) (live : ℕ) (rest : List ℕ) → h.group < 2 ^ 32
        → h.generation < 2 ^ 64 → octets.now ≡ head h ++ (live ∷ rest)
        → h ≡ header_of_owner result }
{
    let generation = u64::from_be_bytes([
        octets[16], octets[17], octets[18], octets[19], octets[20], octets[21], octets[22],
        octets[23],
    ]);
    Owner {
        node: octets[8],
        nodes: octets[9],
        group: u32::from_be_bytes([octets[12], octets[13], octets[14], octets[15]]),
        generation,
    }
}

/// Whether two owners are the same node, of as many nodes and of the same group.
fn is_same_owner(first: Owner, second: Owner) -> bool
    ensures { result ≡ is_same_owner first second }
{
    first.node == second.node && first.nodes == second.nodes && first.group == second.group
}

/// The disk in use: the one that is live beside one that is not, or of two live ones of the same
/// owner the one of the greater generation; none otherwise.
fn pick(a: Look, b: Look) -> Option<Choice>
    ensures { result ≡ choice_of a b }
{
    match (a, b) {
        (Look::Right(owner), Look::Shut) => Some(Choice {
            swapped: false,
            owner,
            stage: Stage::Closed,
        }),
        (Look::Shut, Look::Right(owner)) => Some(Choice {
            swapped: true,
            owner,
            stage: Stage::Closed,
        }),
        (Look::Right(first), Look::Right(second)) => {
            if !is_same_owner(first, second) {
                None
            } else if second.generation < first.generation {
                Some(Choice {
                    swapped: false,
                    owner: first,
                    stage: Stage::Live,
                })
            } else if first.generation < second.generation {
                Some(Choice {
                    swapped: true,
                    owner: second,
                    stage: Stage::Live,
                })
            } else {
                None
            }
        }
        _ => None,
    }
}

/// The disk in use of two images: the one of the greater generation of those that are live. None
/// where an image has fewer than 25 octets, where none is live, where one is live with a wrong
/// header, and at two that are not of one node and group or are of one generation.
pub fn choose(a: &[u8], b: &[u8]) -> Option<Choice>
    ensures chosen { IfSome result (λ choice. IsChosen choice a.now b.now) }
    ensures none { IfNone result (Unchosen a.now b.now) }
{
    pick(look_at(a), look_at(b))
}
