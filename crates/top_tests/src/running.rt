//! Runs of the program over memory, and what they leave behind.

use base_io::{MemSink, MemSource, Source};
use base_names::NoMemory;
use cs_top::run;
use disk_model::MemDisk;
use std::alloc::Global;

pub(crate) const SESSION: &[&str] = &["cs_main", "session", "ada"];

/// What a run leaves behind: its status, what it wrote, and the line that tells why.
#[derive(Clone, Copy)]
pub(crate) struct Left<'a> {
    pub(crate) status: u8,
    pub(crate) output: &'a [u8],
    pub(crate) errors: &'a [u8],
}

fn owned(alloc: Global, words: &[&str]) -> Result<Vec<String>, NoMemory> {
    let mut all = Vec::new(alloc);
    for word in words {
        all.push(String::from_str(alloc, word)?)?;
    }
    Ok(all)
}

pub(crate) fn joined(alloc: Global, parts: &[&[u8]]) -> Result<Vec<u8>, NoMemory> {
    let mut all = Vec::new(alloc);
    for part in parts {
        all.extend_from_slice(part)?;
    }
    Ok(all)
}

/// Whether a run with these words leaves this behind, where these writes fail.
pub(crate) fn leaves<S: Source>(
    alloc: Global,
    words: &[&str],
    source: &mut S,
    failing: &[u64],
    left: Left,
) -> Result<bool, NoMemory> {
    let words = owned(alloc, words)?;
    let mut sink = MemSink::new(alloc, Vec::from_slice(alloc, failing)?);
    let mut errs = MemSink::new(alloc, Vec::new(alloc));
    let mut disk = MemDisk::new(alloc);
    let status = run(alloc, &words, source, &mut sink, &mut errs, &mut disk);
    Ok(
        status == left.status
            && sink.bytes().as_slice() == left.output
            && errs.bytes().as_slice() == left.errors,
    )
}

/// The same over an input of these parts.
pub(crate) fn leaves_over(
    alloc: Global,
    words: &[&str],
    parts: &[&[u8]],
    failing: &[u64],
    left: Left,
) -> Result<bool, NoMemory> {
    let mut source = MemSource::new(joined(alloc, parts)?, Vec::new(alloc));
    leaves(alloc, words, &mut source, failing, left)
}

/// Whether all is done, and this written.
pub(crate) fn writes(
    alloc: Global,
    words: &[&str],
    parts: &[&[u8]],
    output: &[u8],
) -> Result<bool, NoMemory> {
    let left = Left {
        status: 0,
        output,
        errors: b"",
    };
    leaves_over(alloc, words, parts, &[], left)
}

/// Whether it ends with this status, and tells why, with nothing written.
pub(crate) fn tells(
    alloc: Global,
    words: &[&str],
    parts: &[&[u8]],
    status: u8,
    errors: &[u8],
) -> Result<bool, NoMemory> {
    let left = Left {
        status,
        output: b"",
        errors,
    };
    leaves_over(alloc, words, parts, &[], left)
}
