//! The first images of a journal.

ghost use Rattle.std.specs.Prelude.{◌≡◌, ◌≤◌, ◌⊎◌, ◌++◌, [], ◌∷◌, drop, OnOk, IfErr};
ghost use Rattle.ts_disk.specs.declared.fault.DiskFault.TheVariants.{Failed};
ghost use Rattle.ts_disk.specs.Disk.{IsDurable, HasCause, DeviceFailed};
ghost use Rattle.ts_journal.specs.Choice.{header_of_owner};
ghost use Rattle.ts_journal.specs.Images.{head, Opens, AnyPair};

use crate::choice::Owner;
use ts_disk::{Disk, DiskFault};

/// The 24 octets before the live byte.
pub fn head_octets(owner: &Owner) -> [u8; 24]
    ensures { result ≡ head (header_of_owner owner.now) }
{
    let (node, nodes) = (owner.node, owner.nodes);
    let [a, b, c, d, e, f, g, h] = owner.generation.to_be_bytes();
    let [i, j, k, l] = owner.group.to_be_bytes();
    [
        0x54, 0x53, 0x52, 0x45, 0x43, 0, 0, 2, node, nodes, 0, 0, i, j, k, l, a, b, c, d, e, f, g,
        h,
    ]
}

/// Writes a header, a live byte and a commit byte over what a disk begins with, and syncs.
fn write_head<D: Disk>(disk: &mut D, owner: &Owner, live: u8) -> Result<(), DiskFault>
    ensures durable { OnOk result (IsDurable (D.state disk.new)) }
    ensures written { OnOk result ((D.state disk.new).read ≡
        head (header_of_owner owner.now) ++ (live ∷ 0 ∷ drop 26 (D.state disk.old).read)) }
    ensures fault { IfErr result (λ fault. fault ≡ Failed) }
    ensures cause { HasCause (D.state disk.old) (D.state disk.new) result }
{
    let (node, nodes) = (owner.node, owner.nodes);
    let [a, b, c, d, e, f, g, h] = owner.generation.to_be_bytes();
    let [i, j, k, l] = owner.group.to_be_bytes();
    let octets = [
        0x54, 0x53, 0x52, 0x45, 0x43, 0, 0, 2, node, nodes, 0, 0, i, j, k, l, a, b, c, d, e, f, g,
        h, live, 0,
    ];
    disk.write_at(0, &octets)?;
    disk.sync()
}

/// Writes an empty journal of a node of a group on two disks, and syncs both. The first is live, of
/// generation 1; the second is shut, of generation 0. Octets that the disks held behind these have
/// no meaning from then on.
pub fn format<D: Disk>(
    a: &mut D,
    b: &mut D,
    node: u8,
    nodes: u8,
    group: u32,
) -> Result<(), DiskFault>
    requires node_from { 1 ≤ node }
    requires node_to { node ≤ nodes }
    requires nodes_to { nodes ≤ 9 }
    ensures first { OnOk result ((D.state a.new).read ≡
        head (record { node = node; nodes = nodes; group = group; generation = 1 })
        ++ (1 ∷ 0 ∷ drop 26 (D.state a.old).read)) }
    ensures second { OnOk result ((D.state b.new).read ≡
        head (record { node = node; nodes = nodes; group = group; generation = 0 })
        ++ (0 ∷ 0 ∷ drop 26 (D.state b.old).read)) }
    // Each pair of images that a crash may leave opens to no entries.
    ensures opens { OnOk result (AnyPair (Opens (record { node = node; nodes = nodes }) [])
        (D.state a.new) (D.state b.new)) }
    ensures fault { IfErr result (λ fault. (fault ≡ Failed)
        × (DeviceFailed (D.state a.old) (D.state a.new)
        ⊎ DeviceFailed (D.state b.old) (D.state b.new))) }
{
    let live = Owner {
        node,
        nodes,
        group,
        generation: 1,
    };
    let shut = Owner {
        generation: 0,
        ..live
    };
    write_head(a, &live, 1)?;
    write_head(b, &shut, 0)
}
