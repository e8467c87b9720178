//! A file of the operating system, whose calls contracts can see. **Its four bodies are trusted**:
//! that each has done what it notes is read here.

ghost use Rattle.std.specs.Prelude.{◌≡◌, [], ◌∷◌, IfOk, OnOk, OnErr};
ghost use Rattle.ts_file.specs.History.{opened, wrote, failed, synced};

use crate::history::History;
use std::alloc::Global;
use std::fs::OpenFile;
use std::io;
use std::io::{Read, Seek, SeekFrom, Write};

const OPENED: u64 = 0;

const WROTE: u64 = 1;

const FAILED: u64 = 2;

const SYNCED: u64 = 3;

/// A file, and what was done to it since it was opened.
#[derive(Drop)]
pub(crate) struct OsFile<F> {
    file: F,
    pub history: History,
}

/// Writes octets over what a file holds at an offset. An interrupted write is tried again, a short
/// one goes on.
fn put<F: Write + Seek>(file: &mut F, at: usize, octets: &[u8]) -> io::Result<()> {
    file.seek(SeekFrom::Start(at as u64))?;
    file.write_all(octets)
}

impl<F: Read + Write + Seek + OpenFile + Drop> OsFile<F> {
    /// A file that is open to read and write, and the octets that it holds.
    ///
    /// # Errors
    ///
    /// The file can't be read, or is too long for the memory.
    pub fn open(alloc: Global, file: F) -> io::Result<(OsFile<F>, Vec<u8>)>
        ensures { IfOk result (λ read. read.0.history.events ≡ opened read.1.items ∷ []) }
    {
        let mut file = file;
        let mut octets = Vec::new(alloc);
        file.seek(SeekFrom::Start(0))?;
        file.read_to_end(&mut octets)?;
        let mut history = History::new();
        history.note(&[OPENED], &octets);
        Ok((OsFile { file, history }, octets))
    }

    /// Writes octets at an offset. Where it fails, a part of them may be written.
    pub fn write_at(&mut self, at: usize, octets: &[u8]) -> io::Result<()>
        ensures done { OnOk result (self.new.history.events
            ≡ wrote at octets.now ∷ self.old.history.events) }
        ensures torn { OnErr result (self.new.history.events
            ≡ failed at octets.now ∷ self.old.history.events) }
    {
        let written = put(&mut self.file, at, octets);
        let kind = if written.is_ok() { WROTE } else { FAILED };
        self.history.note(&[kind, at as u64], octets);
        written
    }

    /// What was written stays, from now on.
    pub fn sync(&mut self) -> io::Result<()>
        ensures done { OnOk result (self.new.history.events ≡ synced ∷ self.old.history.events) }
        ensures lost { OnErr result (self.new.history.events ≡ self.old.history.events) }
    {
        self.file.sync_all()?;
        self.history.note(&[SYNCED], &[]);
        Ok(())
    }
}
