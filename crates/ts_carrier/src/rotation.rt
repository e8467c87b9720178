//! In which order nodes propose, where several do.

ghost use Rattle.std.specs.Prelude.{◌≡◌, [], nat_lt, OnOk, OnErr};
ghost use Rattle.ts_carrier.specs.Rotation.{distance, is_before, pace_after, rank, retry_at};
ghost use Rattle.ts_carrier.specs.Rotation.{turn_at, window, with_rival};

use std::alloc::{AllocError, Global};

/// The most milliseconds that a position is taken to need.
const LONGEST_PACE: u64 = 500;

/// How many positions one after the other have the same node as the first: it need not wait between
/// them until it has learned what another node proposed.
const BLOCK: u32 = 8;

/// For how many milliseconds a node has its turn after it was seen to propose.
const RIVALRY: u64 = 1_000;

/// Another node, and when it was last seen to propose.
#[derive(Clone, Copy, Debug)]
pub struct Rival {
    node: u8,
    seen: u64,
}

/// The order in which the nodes of a group propose, so that none refuses another's round: of each
/// eight positions another one of those that were seen to propose a short while ago is the first,
/// and each further one waits for as long as a position takes. Moments are milliseconds.
#[derive(Debug, Drop)]
pub struct Rotation {
    /// The number of the node.
    own: u8,
    /// How many nodes the group has.
    nodes: u8,
    /// How many milliseconds a position takes.
    pace: u16,
    /// The others that were seen to propose.
    rivals: Vec<Rival>,
}

/// How far a node is behind the first of so many at a position.
fn distance(node: u8, nodes: u8, position: u32) -> u64
    ensures { result ≡ distance node nodes position }
{
    let nodes = u64::from(nodes.max(1));
    (u64::from(node) + nodes - u64::from(position / BLOCK) % nodes) % nodes
}

impl Rotation {
    /// That of the node `own` in a group of `nodes`. Before one was learned, a position is taken to
    /// need a millisecond.
    pub fn new(alloc: Global, own: u8, nodes: u8) -> Rotation
        ensures own { result.own ≡ own }
        ensures nodes { result.nodes ≡ nodes }
        ensures pace { result.pace ≡ 1 }
        ensures rivals { result.rivals.items ≡ [] }
    {
        Rotation {
            own,
            nodes,
            pace: 1,
            rivals: Vec::new(alloc),
        }
    }

    /// Whether the group has other nodes.
    pub fn is_shared(&self) -> bool
        ensures { result ≡ nat_lt 1 self.now.nodes }
    {
        self.nodes > 1
    }

    /// Whether a node was seen to propose a short while ago, and comes before this one at a
    /// position.
    fn is_before(&self, position: u32, now: u64, rival: Rival) -> bool
        ensures { result ≡ is_before self.now position now rival }
    {
        now.saturating_sub(rival.seen) < RIVALRY
            && distance(rival.node, self.nodes, position) < distance(self.own, self.nodes, position)
    }

    /// How many such nodes there are.
    fn rank(&self, position: u32, now: u64) -> usize
        ensures { result ≡ rank self.now position now }
    {
        self.rivals
            .iter()
            .copied()
            .filter(|rival| self.is_before(position, now, *rival))
            .count()
    }

    /// When it is the node's turn at a position.
    pub fn turn_at(&self, position: u32, now: u64) -> u64
        ensures { result ≡ turn_at self.now position now }
    {
        let rank = self.rank(position, now) as u64;
        now.saturating_add(u64::from(self.pace).saturating_mul(rank))
    }

    /// How many milliseconds the time has in which a command is proposed again by chance, after so
    /// many tries.
    fn window(&self, tries: u32) -> u64
        ensures { result ≡ window self.now tries }
    {
        let shortest = 2 * u64::from(self.pace) + 2;
        match tries {
            0 => shortest,
            1 => 2 * shortest,
            2 => 4 * shortest,
            3 => 8 * shortest,
            4 => 16 * shortest,
            5 => 32 * shortest,
            6 => 64 * shortest,
            _ => 128 * shortest,
        }
    }

    /// When a command is proposed again whose round was refused, if nothing is chosen meanwhile.
    pub fn retry_at(&self, position: u32, now: u64, tries: u32, chance: u64) -> u64
        ensures { result ≡ retry_at self.now position now tries chance }
    {
        self.turn_at(position, now)
            .saturating_add(u64::from(self.pace))
            .saturating_add(chance % self.window(tries))
    }

    /// A position was learned, so many whole milliseconds after the one before it. The last one,
    /// which is not whole, counts too, so that each node has its turn where a position takes none.
    pub fn learn(&mut self, took: u64)
        ensures { self.new ≡ record self.old { pace = pace_after self.old.pace took } }
    {
        let most = (2 * u64::from(self.pace) + 10).min(LONGEST_PACE);
        self.pace = took.min(most) as u16 + 1;
    }

    /// A node was seen to propose.
    ///
    /// # Errors
    ///
    /// Memory that is refused. Nothing changes then.
    pub fn see(&mut self, alloc: Global, node: u8, now: u64) -> Result<(), AllocError>
        ensures seen { OnOk result
            (self.new.rivals.items ≡ with_rival self.old.rivals.items node now) }
        ensures others { self.new ≡ record self.old { rivals = self.new.rivals } }
        ensures unchanged { OnErr result (self.new ≡ self.old) }
    {
        let mut rivals: Vec<Rival> = self
            .rivals
            .iter()
            .copied()
            .filter(|rival| rival.node != node)
            .collect(alloc)?;
        rivals.push(Rival { node, seen: now })?;
        self.rivals = rivals;
        Ok(())
    }
}
