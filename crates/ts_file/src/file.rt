//! A file as a disk.

ghost use Rattle.std.specs.Prelude.{◌≡◌, ◌<◌, ◌≤◌, ◌+◌, ◌-◌, ◌^◌, ◌⊎◌, length, Err, IfErr};
ghost use Rattle.std.specs.Prelude.{IfOk, OnOk};
ghost use Rattle.std.specs.Option.{ForSome};
ghost use Rattle.ts_disk.specs.Disk.{Call, Same, Torn, overwrite, HasCause};
ghost use Rattle.ts_disk.specs.declared.fault.DiskFault.TheVariants.{Failed};
ghost use Rattle.ts_file.specs.History.{disk_after};

use crate::os_file::OsFile;
use std::alloc::Global;
use std::fs::OpenFile;
use std::io;
use std::io::{Read, Seek, Write};
use ts_disk::{Disk, DiskFault};

const MAX_LEN: usize = (1 << 63) - 1;

/// A file as a disk. What it holds is read when it is opened, and can be asked for once, before
/// anything is written; it is not kept in memory beyond that.
///
/// Once a call has failed, the file may hold a part of what was written, and what was to be synced
/// may be lost: each later call fails too, until the file is opened again.
#[derive(Drop)]
pub struct FileDisk<F> {
    file: OsFile<F>,
    /// What the file held when it was opened, until it is asked for or something is written.
    unread: Option<Vec<u8>>,
    /// How many octets the file holds.
    size: usize,
    failures: u64,
    ghost bounded: { size < 2 ^ 63 },
    ghost sized: { size ≡ length (disk_after file.history.events).read },
    ghost whole: { ForSome unread
        (λ octets. octets.items ≡ (disk_after file.history.events).read) },
}

/// A failure of the device, which is counted.
fn count_failure(failures: &mut u64) -> DiskFault
    ensures fault { result ≡ Failed }
    ensures rises { failures.old ≤ failures.new }
    ensures counts { 0 < failures.new }
    ensures cause { (failures.old < failures.new) ⊎ (failures.new ≡ 2 ^ 64 - 1) }
{
    *failures = failures.saturating_add(1);
    DiskFault::Failed
}

impl<F: Read + Write + Seek + OpenFile + Drop> FileDisk<F> {
    ghost use Rattle.ts_file.specs.FileDisk.{state_of};

    /// The disk of a file that is open to read and write, whose octets are read once.
    ///
    /// # Errors
    ///
    /// The file can't be read, or is too long for the memory.
    pub fn new(alloc: Global, file: F) -> io::Result<FileDisk<F>>
        ensures whole { IfOk result (λ disk. (state_of disk).failures ≡ 0) }
    {
        let (file, octets) = OsFile::open(alloc, file)?;
        let size = octets.len();
        Ok(FileDisk {
            file,
            unread: Some(octets),
            size,
            failures: 0,
        })
    }
}

impl<F: Read + Write + Seek + OpenFile + Drop> Disk for FileDisk<F> {
    ghost use Rattle.ts_file.specs.FileDisk.{state_of};
    ghost use Rattle.ts_file.specs.Laws.{lawful_of};
    ghost use Rattle.ts_disk.specs.Disk.{IsDurable};

    ghost state = { state_of };

    ghost lawful = { lawful_of };

    /// The octets of the file. They are not in memory any more where they were asked for before, or
    /// something was written: that is a failure, for no contract says what the file gives.
    fn read(&mut self, alloc: Global) -> Result<Vec<u8>, DiskFault>
        ensures octets { IfOk result (λ octets. octets.items ≡ (state_of self.old).read) }
        ensures same { (state_of self.new).read ≡ (state_of self.old).read }
        ensures call { Call Same (state_of self.old) (state_of self.new) }
        ensures counted { (state_of self.new).moment ≡ (state_of self.old).moment }
        ensures cause { HasCause (state_of self.old) (state_of self.new) result }
        ensures stays { 0 < (state_of self.old).failures → result ≡ Err Failed }
    {
        let _alloc = alloc;
        if self.failures > 0 {
            return Err(count_failure(&mut self.failures));
        }
        match self.unread.take() {
            Some(octets) => Ok(octets),
            None => Err(count_failure(&mut self.failures)),
        }
    }

    fn write_at(&mut self, at: usize, octets: &[u8]) -> Result<(), DiskFault>
        requires { at ≤ length (state_of self.old).read }
        ensures written { OnOk result ((state_of self.new).read
            ≡ overwrite (state_of self.old).read at octets.now) }
        ensures call { Call (Torn at (length octets.now)) (state_of self.old) (state_of self.new) }
        ensures counted { OnOk result ((state_of self.new).moment
            ≡ (state_of self.old).moment + 1) }
        ensures fault { IfErr result (λ fault. fault ≡ Failed) }
        ensures cause { HasCause (state_of self.old) (state_of self.new) result }
        ensures stays { 0 < (state_of self.old).failures → result ≡ Err Failed }
    {
        if self.failures > 0 || octets.len() > MAX_LEN - at {
            return Err(count_failure(&mut self.failures));
        }
        self.unread = None;
        if self.file.write_at(at, octets).is_err() {
            return Err(count_failure(&mut self.failures));
        }
        self.size = self.size.max(at + octets.len());
        Ok(())
    }

    fn sync(&mut self) -> Result<(), DiskFault>
        ensures durable { OnOk result (IsDurable (state_of self.new)) }
        ensures same { (state_of self.new).read ≡ (state_of self.old).read }
        ensures call { Call Same (state_of self.old) (state_of self.new) }
        ensures counted { OnOk result ((state_of self.new).moment
            ≡ (state_of self.old).moment + 1) }
        ensures fault { IfErr result (λ fault. fault ≡ Failed) }
        ensures cause { HasCause (state_of self.old) (state_of self.new) result }
        ensures stays { 0 < (state_of self.old).failures → result ≡ Err Failed }
    {
        if self.failures > 0 {
            return Err(count_failure(&mut self.failures));
        }
        match self.file.sync() {
            Ok(()) => Ok(()),
            Err(_) => Err(count_failure(&mut self.failures)),
        }
    }

    fn failures(&self) -> u64 {
        self.failures
    }
}
