//! Files of keys.

use crate::fault::TaskFault;
use crate::files::fault_of;
use std::alloc::Global;
use std::fs;
use std::os::unix::fs::PermissionsExt;
use std::rt::Files;
use ts_access::{Key, KeysFault};
use ts_keyring::{KeyFileFault, Keyring, read_key_file};

/// What is wrong with the lines of a file of keys, said on standard error.
fn fault_of_keys(rt: &impl Eprint, path: &str, fault: KeysFault) -> TaskFault {
    match fault {
        KeysFault::Memory => TaskFault::Memory,
        KeysFault::Line(line) => {
            let _ = eprintln!(rt; "trustd: {path}: line {line} is no key: ID ROLE SECRET");
            TaskFault::KeyLine(line)
        }
        KeysFault::Twice(id) => {
            let _ = eprintln!(rt; "trustd: {path}: two keys have the number {id}");
            TaskFault::Field
        }
        KeysFault::TooMany => {
            let _ = eprintln!(rt; "trustd: {path}: holds more than 4096 keys");
            TaskFault::TooLong
        }
    }
}

/// What is wrong with a file of keys, said on standard error.
fn fault_of_file(rt: &impl Eprint, path: &str, fault: KeyFileFault) -> TaskFault {
    match fault {
        KeyFileFault::File(error) => fault_of(rt, path, &error),
        KeyFileFault::Keys(fault) => fault_of_keys(rt, path, fault),
    }
}

/// Says on standard error that others may read a file of keys, where they may.
fn warn_of_mode<R: Files + Eprint>(rt: &R, path: &str) {
    let Ok(found) = fs::metadata(rt, path) else {
        return;
    };
    if found.permissions().mode() & 0o077 != 0 {
        let _ = eprintln!(rt; "trustd: {path}: others may read this key: chmod 600 {path}");
    }
}

/// The keys of those who may ask, if a file is named.
///
/// # Errors
///
/// `KeyLine` with the first line that is none; `Field` where two have one number; `TooLong`;
/// those of the file.
pub fn keyring_of<R: Files + Eprint>(
    rt: &R,
    alloc: Global,
    path: &Option<String>,
) -> Result<Option<Keyring>, TaskFault> {
    let Some(path) = path else {
        return Ok(None);
    };
    warn_of_mode(rt, path.as_str());
    match Keyring::read(rt, alloc, path.as_str()) {
        Ok(keyring) => Ok(Some(keyring)),
        Err(fault) => Err(fault_of_file(rt, path.as_str(), fault)),
    }
}

/// The one key of a file, if a file is named.
///
/// # Errors
///
/// `Field` where the file holds none, or several; else those of [`keyring_of`].
pub fn key_in<R: Files + Eprint>(
    rt: &R,
    alloc: Global,
    path: &Option<String>,
) -> Result<Option<Key>, TaskFault> {
    let Some(path) = path else {
        return Ok(None);
    };
    warn_of_mode(rt, path.as_str());
    let keys = match read_key_file(rt, alloc, path.as_str()) {
        Ok(keys) => keys,
        Err(fault) => return Err(fault_of_file(rt, path.as_str(), fault)),
    };
    match keys.as_slice() {
        [key] => Ok(Some(*key)),
        others => {
            let (path, count) = (path.as_str(), others.len());
            let _ = eprintln!(rt; "trustd: {path}: holds {count} keys, one is wanted");
            Err(TaskFault::Field)
        }
    }
}
