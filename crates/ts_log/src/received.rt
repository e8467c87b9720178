//! The votes received by position and sender.

ghost use Rattle.std.specs.Prelude.{◌≡◌, ℕ, OnOk, None, Some, is_some, true};
ghost use Rattle.std.specs.Option.{option_copied};
ghost use Rattle.std.specs.Ordering.{nat_cmp};
ghost use Rattle.std.specs.BTreeMap.{get};
ghost use Rattle.ts_synod.specs.Lists.{update_at};
ghost use Rattle.ts_log.specs.Maps.{HasPlaceIn, received_in, vote_in};

use std::alloc::{AllocError, Global};
use std::collections::BTreeMap;
use ts_synod::{Vote, put_at, replace_at};

/// The votes of the greatest ballot by position and sender.
#[derive(Drop)]
pub struct ReceivedVotes<C> {
    alloc: Global,
    votes: BTreeMap<u32, BTreeMap<u8, Option<Vote<C>>>>,
}

impl<C: Drop> ReceivedVotes<C> {
    /// No vote is received.
    pub fn new(alloc: Global) -> ReceivedVotes<C>
        ensures { (p a : ℕ) → received_in result.votes p a ≡ None }
    {
        ReceivedVotes {
            alloc,
            votes: BTreeMap::new(alloc),
        }
    }

    /// The vote received from a node at a position.
    pub fn vote(&self, position: u32, node: u8) -> Option<&Vote<C>>
        ensures { option_copied result ≡ received_in self.now.votes position node }
    {
        match self.votes.get(&position) {
            Some(votes) => match votes.get(&node) {
                Some(Some(vote)) => Some(vote),
                _ => None,
            },
            None => None,
        }
    }

    /// Makes a place for a node's vote at a position.
    pub fn reserve(&mut self, position: u32, node: u8) -> Result<(), AllocError>
        ensures place { OnOk result (HasPlaceIn (get nat_cmp self.new.votes position) node) }
        ensures same { received_in self.new.votes ≡ received_in self.old.votes }
    {
        open_position(self.alloc, &mut self.votes, position)?;
        let mut votes = replace_at(&mut self.votes, position, BTreeMap::new(self.alloc));
        let result = reserve_in(&mut votes, node);
        put_at(&mut self.votes, position, votes);
        result
    }

    /// Puts a node's vote at its place.
    pub fn put(&mut self, position: u32, node: u8, vote: Vote<C>)
        requires { HasPlaceIn (get nat_cmp self.old.votes position) node }
        ensures { received_in self.new.votes
            ≡ update_at (received_in self.old.votes) position
            (update_at (received_in self.old.votes position) node (Some vote)) }
    {
        let mut votes = replace_at(&mut self.votes, position, BTreeMap::new(self.alloc));
        put_at(&mut votes, node, Some(vote));
        put_at(&mut self.votes, position, votes);
    }

    /// Forgets the votes at a position.
    pub fn forget(&mut self, position: u32)
        ensures { received_in self.new.votes
            ≡ update_at (received_in self.old.votes) position (λ a. None) }
    {
        let _votes = self.votes.remove(&position);
    }
}

/// Makes a place for a node's vote.
fn reserve_in<C: Drop>(
    votes: &mut BTreeMap<u8, Option<Vote<C>>>,
    node: u8,
) -> Result<(), AllocError>
    ensures place { OnOk result (HasPlaceIn (Some votes.new) node) }
    ensures same { (a : ℕ) → vote_in (Some votes.new) a ≡ vote_in (Some votes.old) a }
{
    if !votes.contains_key(&node) {
        votes.insert(node, None)?;
    }
    Ok(())
}

/// Makes a place for the votes of a position.
fn open_position<C: Drop>(
    alloc: Global,
    votes: &mut BTreeMap<u32, BTreeMap<u8, Option<Vote<C>>>>,
    position: u32,
) -> Result<(), AllocError>
    ensures place { OnOk result (is_some (get nat_cmp votes.new position) ≡ true) }
    ensures same { received_in votes.new ≡ received_in votes.old }
{
    if !votes.contains_key(&position) {
        votes.insert(position, BTreeMap::new(alloc))?;
    }
    Ok(())
}
