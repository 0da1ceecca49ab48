//! Scripts over memory, and what they leave behind.

use base_io::{MemSink, MemSource};
use base_names::NoMemory;
use replay_command::{ReplayEnd, replay};
use std::alloc::Global;

/// A seat of ada with a tagged model, up to its first batch.
pub(crate) const TAGGED: &[u8] =
    b"SEAT 1 ada STANDARD\nAT 1 READ 38\nMinimize\n x\nSubject To\n c: x >= 1\nEnd\nAT 1 SETVTAG x x\n";

/// What that writes.
pub(crate) const TAGGED_SAYS: &[u8] = b"SEATED 1\nOUT 1 3\nOK\nOUT 1 3\nOK\n";

pub(crate) fn joined(alloc: Global, parts: &[&[u8]]) -> Result<Vec<u8>, NoMemory> {
    let mut all = Vec::new(alloc);
    for part in parts {
        all.extend_from_slice(part)?;
    }
    Ok(all)
}

/// Whether a script of these parts ends so, with these parts written.
pub(crate) fn ends(
    alloc: Global,
    script: &[&[u8]],
    end: ReplayEnd,
    written: &[&[u8]],
) -> Result<bool, NoMemory> {
    let mut source = MemSource::new(joined(alloc, script)?, Vec::new(alloc));
    let mut sink = MemSink::new(alloc, Vec::new(alloc));
    let ended = replay(alloc, &mut source, &mut sink);
    Ok(ended == end && sink.bytes().as_slice() == joined(alloc, written)?.as_slice())
}

/// Whether all of it is done, and this written.
pub(crate) fn writes(alloc: Global, script: &[&[u8]], written: &[&[u8]]) -> Result<bool, NoMemory> {
    ends(alloc, script, ReplayEnd::Done, written)
}
