//! The records of a file.

ghost use Rattle.std.specs.Prelude.{◌≡◌, ◌≤◌, ◌<◌, ◌+◌, ◌^◌, ◌*◌, List, ℕ, [], ◌∷◌, ◌++◌, length, MatchOption, IfOk};
ghost use Rattle.journal.specs.Mounting.{IsEnd};
ghost use Rattle.journal.specs.Records.{record_of, bodies_from, AtGate, opened, AreShort};

use base_names::{NoMemory, Text};
use std::alloc::Global;

/// The body of the record that these bytes begin with, and what stands behind it: a gate at least. `None`
/// where the gate isn't open, or the record or one more byte isn't there.
fn first_record<'a>(bytes: &'a [u8]) -> Option<(&'a [u8], &'a [u8])>
    ensures { MatchOption result (bodies_from AtGate bytes.now ≡ []) (λ p. (bytes.now ≡ 1 ∷ (record_of p.0.now ++ p.1.now)) × (0 < length p.1.now) × (length p.0.now < 256 ^ 4)) }
{
    if bytes.len() < 6 {
        return None;
    }
    let gate = bytes[0];
    if gate != 1 {
        return None;
    }
    let length = u32::from_be_bytes([bytes[1], bytes[2], bytes[3], bytes[4]]) as usize;
    let rest = &bytes[5..];
    if rest.len() <= length {
        return None;
    }
    Some((&rest[..length], &rest[length..]))
}

/// The bodies of what stands behind a header, and how many bytes their records have.
pub fn scan(alloc: Global, bytes: &[u8]) -> Result<(Vec<Text>, usize), NoMemory>
    ensures { IfOk result (λ p. IsEnd p.0.items bytes.now × (p.1 ≡ length (opened p.0.items))) }
{
    let mut all = Vec::new(alloc);
    let mut rest = bytes;
    while let Some((body, after)) = first_record(rest) {
        all.push(Text::of(Vec::from_slice(alloc, body)?))?;
        rest = after;
    }
    Ok((all, bytes.len() - rest.len()))
}
