//! A write with its sync.

ghost use Rattle.std.specs.Prelude.{◌≡◌, ◌≤◌, ◌+◌, length, OnOk, IfErr};
ghost use Rattle.ts_disk.specs.declared.fault.DiskFault.TheVariants.{Failed};
ghost use Rattle.ts_disk.specs.Disk.{Torn, overwrite, IsDurable, HasCause, EveryImage};

use crate::{Disk, DiskFault};

/// Writes octets at an offset of a durable disk, and syncs. At every moment since the call began,
/// each image that a crash may leave has the octets outside the range as they were.
pub fn put<D: Disk>(disk: &mut D, at: usize, octets: &[u8]) -> Result<(), DiskFault>
    requires durable { IsDurable (D.state disk.old) }
    requires within { at ≤ length (D.state disk.old).read }
    ensures durable { OnOk result (IsDurable (D.state disk.new)) }
    ensures written { OnOk result ((D.state disk.new).read
        ≡ overwrite (D.state disk.old).read at octets.now) }
    ensures moments { EveryImage (Torn at (length octets.now) (D.state disk.old).read)
        (D.state disk.old) (D.state disk.new) }
    ensures counted { OnOk result ((D.state disk.new).moment ≡ (D.state disk.old).moment + 2) }
    ensures fault { IfErr result (λ fault. fault ≡ Failed) }
    ensures cause { HasCause (D.state disk.old) (D.state disk.new) result }
{
    disk.write_at(at, octets)?;
    disk.sync()
}
