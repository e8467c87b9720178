//! The steps that rewrite a journal on its other disk.

ghost use Rattle.std.specs.Prelude.{◌≡◌, ◌++◌, [], ◌∷◌, true, false, length, OnOk, IfErr};
ghost use Rattle.ts_disk.specs.declared.fault.DiskFault.TheVariants.{Failed};
ghost use Rattle.ts_disk.specs.Disk.{IsDurable, HasCause, EveryImage};
ghost use Rattle.ts_journal.specs.Choice.{header_of_owner};
ghost use Rattle.ts_journal.specs.Images.{IsShut, IsEarlier, Behind, Begins};

use crate::choice::Owner;
use crate::durable::flush;
use ts_disk::{Disk, DiskFault, put};

pub(crate) const LIVE_GATE: usize = 24;

/// Clears the live byte of a disk of an earlier generation, and syncs. A clear live byte is never
/// written, as a torn write could set it.
pub(crate) fn shut<D: Disk>(disk: &mut D, is_live: bool, owner: &Owner) -> Result<(), DiskFault>
    requires durable { IsDurable (D.state disk.old) }
    requires earlier { is_live ≡ true
        → IsEarlier (header_of_owner owner.now) (D.state disk.old).read }
    requires shut { is_live ≡ false → IsShut (D.state disk.old).read }
    ensures durable { OnOk result (IsDurable (D.state disk.new)) }
    ensures shut { OnOk result (IsShut (D.state disk.new).read) }
    ensures moments { EveryImage (Behind (header_of_owner owner.now)) (D.state disk.old)
        (D.state disk.new) }
    ensures fault { IfErr result (λ fault. fault ≡ Failed) }
    ensures cause { HasCause (D.state disk.old) (D.state disk.new) result }
{
    if is_live {
        put(disk, LIVE_GATE, &[0])
    } else {
        flush(disk)
    }
}

/// Writes the octets before the live byte of a shut disk, and a text after it.
pub(crate) fn begin<D: Disk>(disk: &mut D, octets: &[u8], text: &[u8]) -> Result<(), DiskFault>
    requires durable { IsDurable (D.state disk.old) }
    requires shut { IsShut (D.state disk.old).read }
    requires length { length octets.now ≡ 24 }
    ensures durable { OnOk result (IsDurable (D.state disk.new)) }
    ensures begun { OnOk result (Begins octets.now text.now (D.state disk.new).read) }
    ensures moments { EveryImage IsShut (D.state disk.old) (D.state disk.new) }
    ensures fault { IfErr result (λ fault. fault ≡ Failed) }
    ensures cause { HasCause (D.state disk.old) (D.state disk.new) result }
{
    disk.write_at(0, octets)?;
    disk.write_at(LIVE_GATE + 1, text)?;
    disk.sync()
}
