//! A file of keys, read again where it has changed.

ghost use Rattle.std.specs.Prelude.{◌≡◌, ◌≢◌, false, true};
ghost use Rattle.ts_keyring.specs.Keyring.{HasLooked, after_reading, is_due};

use std::alloc::{AllocError, Global};
use std::io::Read;
use std::rt::Files;
use std::time::SystemTime;
use std::{fs, io};
use ts_access::{Key, KeysFault, read_keys};

/// The most octets of a file of keys.
pub const MAX_KEY_FILE: u64 = 1_048_576;

/// How many milliseconds pass until it is looked again whether the file has changed.
const LOOK: u64 = 1_000;

/// Why a file of keys can't be used.
#[derive(Debug, Drop)]
pub enum KeyFileFault {
    /// The system does not give it.
    File(io::Error),
    /// It is longer than 1 MiB, or holds something else than keys.
    Keys(KeysFault),
}

impl From<io::Error> for KeyFileFault {
    fn from(error: io::Error) -> KeyFileFault {
        KeyFileFault::File(error)
    }
}

impl From<AllocError> for KeyFileFault {
    fn from(_: AllocError) -> KeyFileFault {
        KeyFileFault::Keys(KeysFault::Memory)
    }
}

/// The keys of a file of at most 1 MiB.
///
/// # Errors
///
/// What the system says of the file; what is wrong with its lines.
pub fn read_key_file<R: Files>(
    rt: &R,
    alloc: Global,
    path: &str,
) -> Result<Vec<Key>, KeyFileFault> {
    let file = fs::open(rt, path)?;
    let mut text = Vec::new(alloc);
    let count = file.take(MAX_KEY_FILE + 1).read_to_end(&mut text)?;
    if count as u64 > MAX_KEY_FILE {
        return Err(KeyFileFault::Keys(KeysFault::TooMany));
    }
    match read_keys(alloc, &text) {
        Ok(keys) => Ok(keys),
        Err(fault) => Err(KeyFileFault::Keys(fault)),
    }
}

/// When a file was changed last, if the system says so.
fn time_of_change<R: Files>(rt: &R, path: &str) -> Option<SystemTime> {
    fs::metadata(rt, path).ok()?.modified().ok()
}

/// The keys of those who may ask, and the file that they are of.
#[derive(Drop)]
pub struct Keyring {
    path: String,
    keys: Vec<Key>,
    /// When the file was changed last of which the keys are, as far as it is known.
    changed: Option<SystemTime>,
    /// When the file was changed last that could not be used, if standard error was told of it.
    unusable: Option<Option<SystemTime>>,
    /// When it was looked at last.
    looked: u64,
}

impl Keyring {
    /// The keys of a file.
    ///
    /// # Errors
    ///
    /// Those of [`read_key_file`].
    pub fn read<R: Files>(rt: &R, alloc: Global, path: &str) -> Result<Keyring, KeyFileFault> {
        let changed = time_of_change(rt, path);
        Ok(Keyring {
            path: String::from_str(alloc, path)?,
            keys: read_key_file(rt, alloc, path)?,
            changed,
            unusable: None,
            looked: 0,
        })
    }

    /// The keys.
    pub fn keys(&self) -> &[Key]
        ensures { result.now ≡ self.now.keys.items }
    {
        &self.keys
    }

    /// Whether it is time to look at the file: a second has gone since it was looked at.
    fn is_due(&self, now: u64) -> bool
        ensures { result ≡ is_due self.now now }
    {
        now.saturating_sub(self.looked) >= LOOK
    }

    /// Whether the file was changed since the keys were read of it.
    fn has_changed(&self, changed: Option<SystemTime>) -> bool
        ensures same { result ≡ false → self.now.changed ≡ changed }
        ensures other { result ≡ true → self.now.changed ≢ changed }
    {
        changed != self.changed
    }

    /// The file, changed last at this moment, was read, and has these keys; or it can't be used,
    /// and the keys stay.
    fn take(&mut self, changed: Option<SystemTime>, read: Option<Vec<Key>>)
        ensures { self.new ≡ after_reading self.old changed read }
    {
        match read {
            Some(keys) => {
                self.keys = keys;
                self.changed = changed;
                self.unusable = None;
            }
            None => self.unusable = Some(changed),
        }
    }

    /// Reads the file again, if a second has gone since it was looked at and it has changed since
    /// its keys were read. Where it can't be read, or a line is no key, the keys stay, and it is
    /// read again a second later: it may be readable then, without a change. Standard error is told
    /// of both, and of a file that can't be used once for each change of it.
    pub fn refresh<R: Files + Eprint>(&mut self, rt: &R, alloc: Global, now: u64)
        ensures early { is_due self.old now ≡ false → self.new ≡ self.old }
        ensures due { is_due self.old now ≡ true → HasLooked now self.old self.new }
    {
        if !self.is_due(now) {
            return;
        }
        self.looked = now;
        let changed = time_of_change(rt, self.path.as_str());
        if !self.has_changed(changed) {
            return;
        }
        let is_told = self.unusable == Some(changed);
        let read = read_key_file(rt, alloc, self.path.as_str()).ok();
        let can_be_used = read.is_some();
        self.take(changed, read);
        let (path, count) = (self.path.as_str(), self.keys.len());
        if can_be_used {
            let _ = eprintln!(rt; "trustd: {path}: read again, {count} keys");
        } else if !is_told {
            let _ = eprintln!(rt; "trustd: {path}: can't be used; the keys stay as they were");
        }
    }
}
