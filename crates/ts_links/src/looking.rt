//! What a loop asks of the connections.

ghost use Rattle.std.specs.Prelude.{◌≡◌, ◌↔◌, ◌+◌, ◌<◌, ◌≤◌, IsTrue, true, length};
ghost use Rattle.ts_links.specs.Moves.{IsIdle};
ghost use Rattle.ts_links.specs.Table.{IsIdlest, MayRead, held_at, is_late_at, stage_at};
ghost use Rattle.ts_links.specs.Table.{waits_at};

use crate::connections::Connections;
use crate::link::{Link, Stage};
use crate::times::Deadlines;

/// Whether a connection is open, and nothing is held and nothing waits on it.
fn is_idle(link: &Link) -> bool
    ensures idle { result ≡ true → IsIdle link.now }
    ensures only { IsIdle link.now → result ≡ true }
{
    link.stage == Stage::Open && link.held.len() == 0 && link.waits.len() == 0
}

/// Of the slot that was idle longest so far and one more, the one that has been idle longest.
fn idlest_with(links: &[Link], found: Option<usize>, slot: usize) -> Option<usize>
    requires within { slot < length links.now }
    requires so_far { IsIdlest links.now slot found }
    ensures { IsIdlest links.now (slot + 1) result }
{
    let link = &links[slot];
    if !is_idle(link) {
        return found;
    }
    match found {
        Some(other) if links[other].times.idle <= link.times.idle => found,
        _ => Some(slot),
    }
}

impl Connections {
    /// What waits to leave on a slot.
    pub fn waiting(&self, slot: usize) -> &[u8]
        ensures { result.now ≡ waits_at self.now.links.items slot }
    {
        match self.links.get(slot) {
            Some(link) => link.waits.octets(),
            None => &[],
        }
    }

    /// What has come on a slot and was not taken.
    pub fn octets_held(&self, slot: usize) -> &[u8]
        ensures { result.now ≡ held_at self.now.links.items slot }
    {
        match self.links.get(slot) {
            Some(link) => link.held.octets(),
            None => &[],
        }
    }

    /// The state of a slot's connection.
    pub fn stage(&self, slot: usize) -> Stage
        ensures { result ≡ stage_at self.now.links.items slot }
    {
        match self.links.get(slot) {
            Some(link) => link.stage,
            None => Stage::Closed,
        }
    }

    /// Whether more may be read on a slot: it is open and has room.
    pub fn reads(&self, slot: usize) -> bool
        ensures { IsTrue result ↔ MayRead self.now.links.items slot }
    {
        match self.links.get(slot) {
            Some(link) => link.stage == Stage::Open && link.has_room(),
            None => false,
        }
    }

    /// Whether the time of a slot's connection is over.
    pub fn is_late(&self, slot: usize, deadlines: &Deadlines, now: u64) -> bool
        ensures { result ≡ is_late_at deadlines.now self.now.links.items slot now }
    {
        match self.links.get(slot) {
            Some(link) => link.is_late(deadlines, now),
            None => false,
        }
    }

    /// The connection that has been idle longest, of those on which nothing is held and nothing
    /// waits.
    pub fn idlest(&self) -> Option<usize>
        ensures { IsIdlest self.now.links.items (length self.now.links.items) result }
    {
        let mut found = None;
        for slot in 0..self.links.len() {
            found = idlest_with(&self.links, found, slot);
        }
        found
    }
}
