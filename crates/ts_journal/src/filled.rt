//! The first images of a journal that has entries from the start.

ghost use Rattle.std.specs.Prelude.{◌≡◌, ◌≤◌, ◌⊎◌, ◌++◌, [], ◌∷◌, false, ℕ, List, length, OnOk};
ghost use Rattle.std.specs.Prelude.{IfErr};
ghost use Rattle.ts_disk.specs.declared.fault.DiskFault.TheVariants.{Failed};
ghost use Rattle.ts_disk.specs.Disk.{IsDurable, HasCause, DeviceFailed, EveryImage};
ghost use Rattle.ts_journal.specs.Images.{head, Block, bodies_in, IsFresh, IsText, Begins};
ghost use Rattle.ts_journal.specs.Images.{IsUnused, OpensFrom, AllOrNone, AnyPair, EveryPair};

use crate::choice::Owner;
use crate::header::head_octets;
use crate::rewrite::{LIVE_GATE, begin};
use ts_disk::{Disk, DiskFault, put};

/// Writes the octets before a clear live byte, and a text after it, over what a disk holds, and
/// syncs. A fresh disk is not in use at any moment: its live byte is written first, and clear.
fn lay<D: Disk>(disk: &mut D, octets: &[u8], text: &[u8]) -> Result<(), DiskFault>
    requires length { length octets.now ≡ 24 }
    ensures durable { OnOk result (IsDurable (D.state disk.new)) }
    ensures begun { OnOk result (Begins octets.now text.now (D.state disk.new).read) }
    ensures moments { IsFresh (D.state disk.old)
        → EveryImage IsUnused (D.state disk.old) (D.state disk.new) }
    ensures fault { IfErr result (λ fault. fault ≡ Failed) }
    ensures cause { HasCause (D.state disk.old) (D.state disk.new) result }
{
    disk.write_at(0, &[0; LIVE_GATE + 1])?;
    disk.sync()?;
    begin(disk, octets, text)
}

/// Writes a journal that has entries from the start on two disks, and syncs both. The text is their
/// blocks and the clear commit byte after them. The first disk is live, of generation 1, and its
/// live byte is set last; the second is shut, of generation 0. Octets that the disks held behind
/// these have no meaning from then on.
pub fn format_with<D: Disk>(
    a: &mut D,
    b: &mut D,
    node: u8,
    nodes: u8,
    group: u32,
    text: &[u8],
) -> Result<(), DiskFault>
    requires node_from { 1 ≤ node }
    requires node_to { node ≤ nodes }
    requires nodes_to { nodes ≤ 9 }
    ensures first { OnOk result ((rest : List ℕ) × ((D.state a.new).read ≡
        head (record { node = node; nodes = nodes; group = group; generation = 1 })
        ++ (1 ∷ text.now ++ rest))) }
    ensures second { OnOk result ((rest : List ℕ) × ((D.state b.new).read ≡
        head (record { node = node; nodes = nodes; group = group; generation = 0 })
        ++ (0 ∷ 0 ∷ rest))) }
    // Each pair of images that a crash may leave opens to the entries.
    ensures opens { OnOk result ((blocks : List Block) → IsText blocks text.now
        → AnyPair (OpensFrom (record { node = node; nodes = nodes }) false (bodies_in blocks))
        (D.state a.new) (D.state b.new)) }
    // On fresh disks each pair of images opens to all of the entries or does not open, at every
    // moment.
    ensures moments { IsFresh (D.state a.old) → IsFresh (D.state b.old) → (blocks : List Block)
        → IsText blocks text.now
        → EveryPair (AllOrNone (bodies_in blocks)) (D.state a.old) (D.state b.old) (D.state a.new)
        (D.state b.new) }
    ensures fault { IfErr result (λ fault. (fault ≡ Failed)
        × (DeviceFailed (D.state a.old) (D.state a.new)
        ⊎ DeviceFailed (D.state b.old) (D.state b.new))) }
{
    let live = Owner {
        node,
        nodes,
        group,
        generation: 1,
    };
    let shut = Owner {
        generation: 0,
        ..live
    };
    lay(b, &head_octets(&shut), &[0])?;
    lay(a, &head_octets(&live), text)?;
    put(a, LIVE_GATE, &[1])
}
