//! Calls on a file of the operating system.

use std::fs::{File, Files, OpenOptions};
use std::io;
use std::path::Path;

/// Opens a file for reading and writing, and makes it where it isn't there. Its name is durable then: the folder is synced.
pub fn open<R: Files<File = File>>(rt: &R, path: &str) -> io::Result<File> {
    let file = OpenOptions::new()
        .read(true)
        .write(true)
        .create(true)
        .open(rt, path)?;
    File::open(rt, folder_of(path))?.sync_all()?;
    Ok(file)
}

/// The folder in which a file of this path stands.
fn folder_of(path: &str) -> &str {
    match Path::new(path).parent() {
        Some(folder) if !folder.as_str().is_empty() => folder.as_str(),
        _ => ".",
    }
}
