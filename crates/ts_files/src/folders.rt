//! Folders, which stand for the files in them.

use crate::fault::TaskFault;
use crate::files::fault_of;
use std::alloc::Global;
use std::fs;
use std::rt::Files;

/// Whether a path names a folder, itself or by a link.
fn is_folder<R: Files + Eprint>(rt: &R, path: &str) -> Result<bool, TaskFault> {
    match fs::metadata(rt, path) {
        Ok(found) => Ok(found.is_dir()),
        Err(error) => Err(fault_of(rt, path, &error)),
    }
}

/// The files of a folder in the order of their names: those whose names don't begin with a dot, and
/// none of its folders.
fn files_in<R: AllocGlobal + Files + Eprint + Clone + Drop>(
    rt: &R,
    folder: &str,
) -> Result<Vec<String>, TaskFault> {
    let alloc = rt.alloc();
    let entries = match fs::read_dir(rt, folder) {
        Ok(entries) => entries,
        Err(error) => return Err(fault_of(rt, folder, &error)),
    };
    let mut files = Vec::new(alloc);
    for entry in entries {
        let entry = match entry {
            Ok(entry) => entry,
            Err(error) => return Err(fault_of(rt, folder, &error)),
        };
        let path = String::from_str(alloc, entry.path().to_string_lossy())?;
        if !entry.file_name().starts_with('.') && !is_folder(rt, path.as_str())? {
            files.push(path)?;
        }
    }
    files.sort()?;
    Ok(files)
}

/// The files that paths name, where a folder stands for its files.
///
/// # Errors
///
/// `File`, `Memory`; `Field` where a folder has no file, which standard error says.
pub fn files_of<R: AllocGlobal + Files + Eprint + Clone + Drop>(
    rt: &R,
    paths: &[String],
) -> Result<Vec<String>, TaskFault> {
    let alloc = rt.alloc();
    let mut all = Vec::new(alloc);
    for path in paths {
        let path = path.as_str();
        if !is_folder(rt, path)? {
            all.push(String::from_str(alloc, path)?)?;
            continue;
        }
        let files = files_in(rt, path)?;
        if files.is_empty() {
            let _ = eprintln!(rt; "trustd: {path}: is a folder without files");
            return Err(TaskFault::Field);
        }
        for file in files {
            all.push(file)?;
        }
    }
    Ok(all)
}
