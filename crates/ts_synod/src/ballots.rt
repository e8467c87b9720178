//! Ballots: the proposal numbers of 'Paxos Made Simple' 2.2.

ghost use Rattle.std.specs.Prelude.{◌≡◌};
ghost use Rattle.ts_synod.specs.Ballot.{ballot};

/// A proposal number: 16 times a round, and the number of the node whose round it is.
pub type Ballot = u64;

/// The ballot of a node's round.
pub fn ballot_of(node: u8, round: u32) -> Ballot
    ensures { result ≡ ballot node round }
{
    16 * (round as u64) + node as u64
}
