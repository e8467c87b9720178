//! A file as a disk, on real files of the test.

use std::alloc::{AllocError, Allocator, Global};
use std::fs::{Metadata, OpenFile, OpenOptions};
use std::io::{ErrorKind, Read, Seek, SeekFrom, Write};
use std::path::{Path, PathBuf};
use std::rt::Files;
use std::test::Fail;
use std::{fs, io};
use ts_disk::{Disk, DiskFault};
use ts_file::{FileDisk, create, open};

const FOLDER: &str = "ts_file_test";

const PATH: &str = "ts_file_test/record";

/// Writes octets at an offset, which is not past the end, and syncs.
fn put<D: Disk>(disk: &mut D, alloc: Global, at: usize, octets: &[u8]) -> Result<(), DiskFault> {
    if disk.read(alloc)?.len() < at {
        return Err(DiskFault::Memory);
    }
    disk.write_at(at, octets)?;
    disk.sync()
}

/// Whether octets are written to a disk, which gives none behind that.
fn is_written<D: Disk + Drop>(disk: D, alloc: Global, at: usize, octets: &[u8]) -> bool {
    let mut disk = disk;
    let is_put = put(&mut disk, alloc, at, octets).is_ok();
    let is_read = disk.read(alloc).is_ok();
    drop(disk);
    is_put && !is_read
}

/// What a disk gives.
fn octets_of<D: Disk + Drop>(disk: D, alloc: Global) -> Result<Vec<u8>, DiskFault> {
    let mut disk = disk;
    let octets = disk.read(alloc);
    drop(disk);
    octets
}

#[test]
fn what_is_written_is_read_when_it_is_opened_again(rt: HostRuntime) -> Result<(), Fail> {
    let alloc = rt.alloc();
    let _ = fs::remove_dir_all(&rt, FOLDER);
    fs::create_dir(&rt, FOLDER)?;
    assert!(rt; open(&rt, alloc, PATH).is_err());
    assert!(rt; is_written(create(&rt, alloc, PATH)?, alloc, 0, b"octets"));
    assert!(rt; is_written(open(&rt, alloc, PATH)?, alloc, 3, b"opus, 8 arms"));
    let all = b"octopus, 8 arms".as_slice();
    assert_eq!(rt; fs::read(&rt, PATH)?.as_slice(), all);
    assert_eq!(rt; octets_of(open(&rt, alloc, PATH)?, alloc)?.as_slice(), all);
    assert_eq!(rt;
        octets_of(create(&rt, alloc, PATH)?, alloc)?.as_slice(),
        all
    );
    fs::remove_dir_all(&rt, FOLDER)?;
    Ok(())
}

/// A file of which every second write is interrupted, and the others take two octets at most, up to
/// a first that fails.
#[derive(Drop)]
struct Patchy {
    held: Vec<u8>,
    at: usize,
    writes: u64,
    fails_at: u64,
    /// It can be synced where it holds these octets alone.
    wanted: &'static [u8],
}

/// A file that holds the ten digits, with the first write that fails and the octets that it can be
/// synced with.
fn with_ten_octets(
    alloc: Global,
    fails_at: u64,
    wanted: &'static [u8],
) -> Result<Patchy, AllocError> {
    Ok(Patchy {
        held: b"0123456789".to_vec(alloc)?,
        at: 0,
        writes: 0,
        fails_at,
        wanted,
    })
}

impl Read for Patchy {
    fn read(&mut self, buf: &mut [u8]) -> io::Result<usize> {
        let left = self.held.get(self.at..).unwrap_or(&[]);
        let count = left.len().min(buf.len());
        buf[..count].copy_from_slice(&left[..count]);
        self.at = self.at.saturating_add(count);
        Ok(count)
    }
}

impl Write for Patchy {
    fn write(&mut self, buf: &[u8]) -> io::Result<usize> {
        self.writes = self.writes.saturating_add(1);
        if self.writes >= self.fails_at {
            return Err(ErrorKind::Other.into());
        }
        if self.writes % 2 == 1 {
            return Err(ErrorKind::Interrupted.into());
        }
        let count = buf.len().min(2);
        for octet in &buf[..count] {
            if let Some(place) = self.held.get_mut(self.at) {
                *place = *octet;
            }
            self.at = self.at.saturating_add(1);
        }
        Ok(count)
    }

    fn flush(&mut self) -> io::Result<()> {
        Ok(())
    }
}

impl Seek for Patchy {
    fn seek(&mut self, to: SeekFrom) -> io::Result<u64> {
        if let SeekFrom::Start(at) = to {
            self.at = at as usize;
        }
        Ok(0)
    }
}

impl OpenFile for Patchy {
    fn metadata(&self) -> io::Result<Metadata> {
        Err(ErrorKind::Unsupported.into())
    }

    fn set_len(&self, _size: u64) -> io::Result<()> {
        Err(ErrorKind::Unsupported.into())
    }

    fn sync_all(&self) -> io::Result<()> {
        if self.held.as_slice() == self.wanted {
            Ok(())
        } else {
            Err(ErrorKind::Other.into())
        }
    }

    fn sync_data(&self) -> io::Result<()> {
        self.sync_all()
    }
}

/// What writing five octets behind the first three answers, and how many failures are counted.
fn five_put(
    alloc: Global,
    fails_at: u64,
    wanted: &'static [u8],
) -> io::Result<(Result<(), DiskFault>, u64)> {
    let mut disk = FileDisk::new(alloc, with_ten_octets(alloc, fails_at, wanted)?)?;
    let answer = put(&mut disk, alloc, 3, b"abcde");
    let failures = disk.failures();
    drop(disk);
    Ok((answer, failures))
}

#[test]
fn a_short_write_goes_on_and_a_failed_one_fails(rt: HostRuntime) -> Result<(), Fail> {
    let alloc = rt.alloc();
    assert_eq!(rt; five_put(alloc, 100, b"012abcde89")?, (Ok(()), 0));
    // The first two octets are written, and then a write fails; or a sync does.
    assert_eq!(rt; five_put(alloc, 3, b"other")?, (Err(DiskFault::Failed), 1));
    assert_eq!(rt;
        five_put(alloc, 100, b"other")?,
        (Err(DiskFault::Failed), 1)
    );
    Ok(())
}

/// Files of ten digits, of which the one at this path alone can be synced.
#[derive(Drop)]
struct Shelf {
    alloc: Global,
    synced: &'static str,
}

impl Files for Shelf {
    type File = Patchy;

    type Dir = Patchy;

    fn open_file(&self, _how: &OpenOptions, path: &str) -> io::Result<Patchy> {
        let wanted: &'static [u8] = if path == self.synced {
            b"0123456789"
        } else {
            b"other"
        };
        Ok(with_ten_octets(self.alloc, 100, wanted)?)
    }

    fn open_dir(&self, _path: &str) -> io::Result<Patchy> {
        Err(ErrorKind::Unsupported.into())
    }

    fn metadata(&self, _path: &str) -> io::Result<Metadata> {
        Err(ErrorKind::Unsupported.into())
    }

    fn symlink_metadata(&self, _path: &str) -> io::Result<Metadata> {
        Err(ErrorKind::Unsupported.into())
    }

    fn copy(&self, _from: &str, _to: &str) -> io::Result<u64> {
        Err(ErrorKind::Unsupported.into())
    }

    fn rename(&self, _from: &str, _to: &str) -> io::Result<()> {
        Err(ErrorKind::Unsupported.into())
    }

    fn remove_file(&self, _path: &str) -> io::Result<()> {
        Err(ErrorKind::Unsupported.into())
    }

    fn create_dir(&self, _path: &str) -> io::Result<()> {
        Err(ErrorKind::Unsupported.into())
    }

    fn remove_dir(&self, _path: &str) -> io::Result<()> {
        Err(ErrorKind::Unsupported.into())
    }

    fn remove_dir_all<B: Allocator>(&self, _alloc: B, _path: &str) -> io::Result<()> {
        Err(ErrorKind::Unsupported.into())
    }

    /// A file of the folder `links` is really in the folder `files`.
    fn canonicalize<B: Allocator>(&self, alloc: B, path: &str) -> io::Result<PathBuf<B>> {
        if path == "links/record" {
            Ok(Path::new("files/record").to_path_buf(alloc)?)
        } else {
            Err(ErrorKind::Unsupported.into())
        }
    }
}

#[test]
fn a_file_is_made_only_where_its_folder_is_synced(rt: HostRuntime) {
    let alloc = rt.alloc();
    for (path, folder) in [
        ("folder/record", "folder"),
        ("record", "."),
        ("links/record", "files"),
    ] {
        for (synced, is_made) in [(folder, true), ("elsewhere", false), (path, false)] {
            let files = Shelf { alloc, synced };
            assert_eq!(rt; create(&files, alloc, path).is_ok(), is_made);
        }
    }
}
