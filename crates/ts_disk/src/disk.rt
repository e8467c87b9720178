//! A disk: what a read gives, and what a crash may leave.

ghost use Rattle.std.specs.Prelude.{◌≡◌, ◌≤◌, ◌+◌, length, IfOk, OnOk, IfErr};
ghost use Rattle.ts_disk.specs.declared.fault.DiskFault.TheVariants.{Failed};
ghost use Rattle.ts_disk.specs.Disk.{State, IsDisk, Call, Same, Torn, overwrite, IsDurable};
ghost use Rattle.ts_disk.specs.Disk.{HasCause};

use crate::DiskFault;
use std::alloc::Global;

/// A device that holds a list of octets, and that may lose what was not yet synced.
pub trait Disk {
    /// What a read gives, which images a crash may leave, and the count of failures.
    ghost state: { Self → State };

    /// The law of a disk.
    ghost lawful: { (disk : Self) → IsDisk (state disk) };

    /// All the octets.
    fn read(&mut self, alloc: Global) -> Result<Vec<u8>, DiskFault>
        ensures octets { IfOk result (λ octets. octets.items ≡ (state self.old).read) }
        ensures same { (state self.new).read ≡ (state self.old).read }
        ensures call { Call Same (state self.old) (state self.new) }
        ensures counted { (state self.new).moment ≡ (state self.old).moment }
        ensures cause { HasCause (state self.old) (state self.new) result };

    /// Writes octets at an offset, over what is there and past the end. Until a sync, a crash may
    /// leave any octets in that range.
    fn write_at(&mut self, at: usize, octets: &[u8]) -> Result<(), DiskFault>
        requires { at ≤ length (state self.old).read }
        ensures written { OnOk result ((state self.new).read
            ≡ overwrite (state self.old).read at octets.now) }
        ensures call { Call (Torn at (length octets.now)) (state self.old) (state self.new) }
        ensures counted { OnOk result ((state self.new).moment ≡ (state self.old).moment + 1) }
        ensures fault { IfErr result (λ fault. fault ≡ Failed) }
        ensures cause { HasCause (state self.old) (state self.new) result };

    /// Afterwards a crash leaves what a read gives.
    fn sync(&mut self) -> Result<(), DiskFault>
        ensures durable { OnOk result (IsDurable (state self.new)) }
        ensures same { (state self.new).read ≡ (state self.old).read }
        ensures call { Call Same (state self.old) (state self.new) }
        ensures counted { OnOk result ((state self.new).moment ≡ (state self.old).moment + 1) }
        ensures fault { IfErr result (λ fault. fault ≡ Failed) }
        ensures cause { HasCause (state self.old) (state self.new) result };

    /// How often the device has failed. The count stays at its last value, 2^64 - 1.
    fn failures(&self) -> u64
        ensures { result ≡ (state self.now).failures };
}
