//! A disk whose writes and syncs are counted.

ghost use Rattle.std.specs.Prelude.{◌≡◌, ◌≤◌, length, IfOk, OnOk, IfErr};
ghost use Rattle.ts_disk.specs.declared.fault.DiskFault.TheVariants.{Failed};
ghost use Rattle.ts_disk.specs.Disk.{Call, HasCause, IsDurable, Same, Torn, overwrite};

use crate::meter::Meter;
use std::alloc::Global;
use ts_disk::{Disk, DiskFault};

/// A disk whose writes and syncs are counted.
#[derive(Drop)]
pub struct MeteredDisk<'a, D> {
    disk: D,
    meter: &'a Meter,
}

impl<'a, D: Disk> MeteredDisk<'a, D> {
    /// This disk, whose calls that meter counts.
    pub fn new(disk: D, meter: &'a Meter) -> MeteredDisk<'a, D>
        ensures { result.disk ≡ disk }
    {
        MeteredDisk { disk, meter }
    }
}

impl<'a, D: Disk> Disk for MeteredDisk<'a, D> {
    ghost state = { λ m. D.state m.disk };

    ghost lawful = { λ m. D.lawful m.disk };

    fn read(&mut self, alloc: Global) -> Result<Vec<u8>, DiskFault> {
        self.disk.read(alloc)
    }

    fn write_at(&mut self, at: usize, octets: &[u8]) -> Result<(), DiskFault> {
        self.meter.write();
        self.disk.write_at(at, octets)
    }

    fn sync(&mut self) -> Result<(), DiskFault> {
        self.meter.sync();
        self.disk.sync()
    }

    fn failures(&self) -> u64 {
        self.disk.failures()
    }
}
