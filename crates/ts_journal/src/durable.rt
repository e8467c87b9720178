//! Writes with their syncs.

ghost use Rattle.std.specs.Prelude.{◌≡◌, ◌≤◌, ◌⊎◌, ◌+◌, length, take, OnOk, IfErr};
ghost use Rattle.ts_disk.specs.declared.fault.DiskFault.TheVariants.{Failed};
ghost use Rattle.ts_disk.specs.Disk.{IsDurable, HasCause, EveryImage};
ghost use Rattle.ts_journal.specs.Gate.{HasClosedGate, HasOpenGate};

use ts_disk::{Disk, DiskFault, put};

/// Writes text after the clear commit byte at `end`, which it then sets. At every moment the commit
/// byte is clear, or it is set and the whole text follows it.
pub(crate) fn extend<D: Disk>(disk: &mut D, end: usize, text: &[u8]) -> Result<(), DiskFault>
    requires durable { IsDurable (D.state disk.old) }
    requires closed { HasClosedGate (take end (D.state disk.old).read) (D.state disk.old).read }
    ensures durable { OnOk result (IsDurable (D.state disk.new)) }
    ensures opened { OnOk result (HasOpenGate (take end (D.state disk.old).read) text.now
        (D.state disk.new).read) }
    ensures moments { EveryImage
        (λ image. HasClosedGate (take end (D.state disk.old).read) image
        ⊎ HasOpenGate (take end (D.state disk.old).read) text.now image)
        (D.state disk.old) (D.state disk.new) }
    ensures counted { OnOk result ((D.state disk.new).moment ≡ (D.state disk.old).moment + 4) }
    ensures fault { IfErr result (λ fault. fault ≡ Failed) }
    ensures cause { HasCause (D.state disk.old) (D.state disk.new) result }
{
    put(disk, end + 1, text)?;
    put(disk, end, &[1])
}

/// Syncs a durable disk. At every moment its image stays.
pub(crate) fn flush<D: Disk>(disk: &mut D) -> Result<(), DiskFault>
    requires durable { IsDurable (D.state disk.old) }
    ensures durable { OnOk result (IsDurable (D.state disk.new)) }
    ensures same { (D.state disk.new).read ≡ (D.state disk.old).read }
    ensures moments { EveryImage (λ image. image ≡ (D.state disk.old).read) (D.state disk.old)
        (D.state disk.new) }
    ensures fault { IfErr result (λ fault. fault ≡ Failed) }
    ensures cause { HasCause (D.state disk.old) (D.state disk.new) result }
{
    disk.sync()
}
