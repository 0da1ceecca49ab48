//! Writes on bytes in memory that can be undone.

ghost use Rattle.std.specs.Prelude.{◌≡◌, ◌+◌, ◌≤◌, List, [], ◌∷◌, ◌++◌, length, map, take, drop, min, IfOk, OnOk, OnErr};
ghost use Rattle.disk_model.specs.Disk.{overwritten};
ghost use Rattle.disk_model.specs.Images.{filled_from, is_written};
ghost use Rattle.disk_model.specs.Undoing.{AreUndos, IsUndo, range_of, synced_by, undone};

use base_names::NoMemory;
use std::alloc::Global;

/// A write's place and length, and what stood there.
#[derive(Debug, Drop)]
pub struct Undo {
    pub at: usize,
    pub len: usize,
    pub was: Vec<u8>,
}

/// What a write of so many bytes at a place will cover.
fn covered(alloc: Global, bytes: &[u8], at: usize, len: usize) -> Result<Undo, NoMemory>
    requires { at ≤ length bytes.now }
    ensures { IfOk result (λ u. (u.at ≡ at) × (u.len ≡ len) × (u.was.items ≡ take len (drop at bytes.now))) }
{
    let rest = &bytes[at..];
    let inside = len.min(rest.len());
    Ok(Undo {
        at,
        len,
        was: rest[..inside].to_vec(alloc)?,
    })
}

/// Writes over what is there from this place on, and past the end.
fn overwrite(bytes: &mut Vec<u8>, at: usize, over: &[u8]) -> Result<(), NoMemory>
    requires { at ≤ length bytes.old.items }
    ensures ok { OnOk result (bytes.new.items ≡ overwritten at over.now bytes.old.items) }
    ensures err { OnErr result (bytes.new.items ≡ bytes.old.items) }
{
    let inside = over.len().min(bytes.len() - at);
    let (front, behind) = over.split_at(inside);
    bytes.extend_from_slice(behind)?;
    bytes[at..at + inside].copy_from_slice(front);
    Ok(())
}

/// Writes over what is there, and notes what the write covered.
pub fn write_over(
    alloc: Global,
    bytes: &mut Vec<u8>,
    undo: &mut Vec<Undo>,
    at: usize,
    over: &[u8],
) -> Result<(), NoMemory>
    requires inside { at ≤ length bytes.old.items }
    requires undos { AreUndos undo.old.items bytes.old.items }
    ensures undos { AreUndos undo.new.items bytes.new.items }
    ensures ok { OnOk result ((bytes.new.items ≡ overwritten at over.now bytes.old.items) × (synced_by undo.new.items bytes.new.items ≡ synced_by undo.old.items bytes.old.items) × (map range_of undo.new.items ≡ map range_of undo.old.items ++ (at, length over.now) ∷ [])) }
    ensures err { OnErr result ((bytes.new.items ≡ bytes.old.items) × (undo.new.items ≡ undo.old.items)) }
{
    let cover = covered(alloc, bytes, at, over.len())?;
    undo.reserve(1)?;
    overwrite(bytes, at, over)?;
    undo.push_reserved(cover);
    Ok(())
}

/// Puts back what a write covered.
fn undo_write(bytes: &mut Vec<u8>, undo: &Undo)
    requires { IsUndo undo.now bytes.old.items }
    ensures { bytes.new.items ≡ undone undo.now bytes.old.items }
{
    let end = undo.at + undo.was.len();
    bytes[undo.at..end].copy_from_slice(&undo.was);
    if undo.was.len() < undo.len {
        bytes.truncate(end);
    }
}

/// Puts back what stood there before the writes, the last one first.
pub fn undo_all(bytes: &mut Vec<u8>, undo: &Vec<Undo>)
    requires { AreUndos undo.now.items bytes.old.items }
    ensures { bytes.new.items ≡ synced_by undo.now.items bytes.old.items }
{
    let mut left = undo.len();
    while left > 0 {
        left -= 1;
        undo_write(bytes, &undo[left]);
    }
}

/// Puts a byte into each place of a write.
fn fill_write(bytes: &mut [u8], undo: &Undo, byte: u8)
    ensures { bytes.new ≡ filled_from 0 (is_written (range_of undo.now ∷ [])) byte bytes.old }
{
    let end = undo.at.saturating_add(undo.len).min(bytes.len());
    let start = undo.at.min(end);
    bytes[start..end].fill(byte);
}

/// Puts a byte into each place that was written.
pub fn fill_all(bytes: &mut [u8], undo: &Vec<Undo>, byte: u8)
    ensures { bytes.new ≡ filled_from 0 (is_written (map range_of undo.now.items)) byte bytes.old }
{
    for write in undo {
        fill_write(bytes, write, byte);
    }
}
