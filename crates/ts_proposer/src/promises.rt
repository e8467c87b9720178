//! The promises of a round, by node.

ghost use Rattle.std.specs.Prelude.{◌≡◌, ◌≤◌, Some, is_some};
ghost use Rattle.std.specs.Option.{option_copied};
ghost use Rattle.std.specs.Ordering.{nat_cmp};
ghost use Rattle.std.specs.BTreeMap.{get};
ghost use Rattle.ts_synod.specs.Lists.{update_at};
ghost use Rattle.ts_synod.specs.Majority.{is_majority};
ghost use Rattle.ts_synod.specs.Proposer.{greatest_reported, reported_vote};
ghost use Rattle.ts_proposer.specs.Promises.{promises_in};

use std::collections::BTreeMap;
use ts_synod::{Command, Vote};

/// The node has promised.
pub fn has_promised<C: Command>(promises: &BTreeMap<u8, Option<Option<Vote<C>>>>, node: u8) -> bool
    ensures { result ≡ is_some (promises_in promises.now node) }
{
    match promises.get(&node) {
        Some(Some(_)) => true,
        _ => false,
    }
}

/// A majority has promised, together with the node `from`.
#[tactic(auto, using(crate::proofs::OneMore::count_more))]
pub fn has_majority<C: Command>(
    nodes: u8,
    promises: &BTreeMap<u8, Option<Option<Vote<C>>>>,
    from: u8,
    taken: &Option<Vote<C>>,
) -> bool
    requires { nodes ≤ 9 }
    ensures { result ≡ is_majority nodes
        (λ a. is_some (update_at (promises_in promises.now) from (Some taken.now) a)) }
{
    let _taken = taken;
    let mut given: u8 = 0;
    for node in 0..nodes {
        if node + 1 == from || has_promised(promises, node + 1) {
            given += 1;
        }
    }
    nodes / 2 < given
}

/// The vote that a node reported, where `from` reports `taken`.
fn reported_by<'a, C: Command>(
    promises: &'a BTreeMap<u8, Option<Option<Vote<C>>>>,
    from: u8,
    taken: &'a Option<Vote<C>>,
    node: u8,
) -> Option<&'a Vote<C>>
    ensures { option_copied result
        ≡ reported_vote (update_at (promises_in promises.now) from (Some taken.now) node) }
{
    if node == from {
        return taken.as_ref();
    }
    match promises.get(&node) {
        Some(Some(Some(vote))) => Some(vote),
        _ => None,
    }
}

/// Of the votes reported, where `from` reports `taken`, the one of the greatest ballot.
#[tactic(auto, using(crate::proofs::OneMore::greatest_more))]
pub fn greatest_of<'a, C: Command>(
    nodes: u8,
    promises: &'a BTreeMap<u8, Option<Option<Vote<C>>>>,
    from: u8,
    taken: &'a Option<Vote<C>>,
) -> Option<&'a Vote<C>>
    requires { nodes ≤ 9 }
    ensures { option_copied result
        ≡ greatest_reported (update_at (promises_in promises.now) from (Some taken.now)) nodes }
{
    let mut greatest: Option<&'a Vote<C>> = None;
    for node in 0..nodes {
        if let Some(vote) = reported_by(promises, from, taken, node + 1) {
            greatest = match greatest {
                Some(other) if vote.ballot <= other.ballot => Some(other),
                _ => Some(vote),
            };
        }
    }
    greatest
}
