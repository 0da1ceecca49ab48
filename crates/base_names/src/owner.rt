//! The name of an owner.

ghost use Rattle.std.specs.Prelude.{◌≡◌, SomeIff};
ghost use Rattle.std.specs.List.{list_all};
ghost use Rattle.base_names.specs.OwnerName.{is_owner_byte, is_owner_name, IsOwnerName};

use std::cmp::Ordering;
use std::hash::{Hash, Hasher};
use std::marker::Model;
use std::{fmt, str};

/// The most bytes that an owner's name may have.
const OWNER_BYTES: usize = 32;

/// An owner's name: 1 to 32 bytes of `a` to `z`, `0` to `9` and `_`. Contracts see it as the list of
/// its bytes, and it is ordered by them.
#[derive(Clone, Copy, Debug)]
pub struct Owner {
    /// The name, with zeros after its end.
    bytes: [u8; OWNER_BYTES],
    len: u8,
}

impl Model for Owner {
    ghost use Rattle.std.specs.Prelude.{List, ℕ, ◌++◌, ◌-◌, length, take, replicate};
    ghost use Rattle.base_names.specs.OwnerName.{most_bytes, IsKept};

    ghost Value = { List ℕ };

    ghost view = { λ owner. take owner.len owner.bytes };

    ghost invariant = { λ owner. IsKept owner.bytes owner.len };

    ghost inverse = { λ name. record { bytes = name ++ replicate (most_bytes - length name) 0; len = length name } };

    ghost inverse_ok = { λ owner kept. Prim.rw (kept.whole, ← kept.filled) };
}

impl Owner {
    /// The owner of this name. `None` where the text is no owner's name.
    pub fn read(text: &[u8]) -> Option<Owner>
        ensures { SomeIff result (IsOwnerName text.now) text.now }
    {
        if !is_owner_name(text) {
            return None;
        }
        let mut bytes = [0; OWNER_BYTES];
        bytes[..text.len()].copy_from_slice(text);
        Some(Owner {
            bytes,
            len: text.len() as u8,
        })
    }

    pub fn as_bytes(&self) -> &[u8]
        ensures bytes { result.now ≡ self.now }
        ensures name { IsOwnerName self.now }
    {
        &self.bytes[..self.len as usize]
    }

    /// The name as text; it is ASCII.
    pub fn as_str(&self) -> &str
        ensures bytes { result.now ≡ self.now }
        ensures name { IsOwnerName self.now }
    {
        match str::from_utf8(self.as_bytes()) {
            Ok(name) => name,
            Err(_) => unreachable!(),
        }
    }
}

impl fmt::Display for Owner {
    ghost use Rattle.std.specs.Prelude.{Some};

    ghost output = { λ owner. Some owner };

    fn fmt<W: fmt::Write>(&self, f: &mut fmt::Formatter<W>) -> fmt::Result {
        f.write_str(self.as_str())
    }
}

impl PartialEq for Owner {
    ghost use Rattle.std.specs.Str.{bytes_eq};
    ghost use Rattle.std.proofs.Common.{rules};

    ghost eq = { bytes_eq };

    ghost laws = { Prim.search rules };

    fn eq(&self, other: &Owner) -> bool {
        self.as_bytes() == other.as_bytes()
    }
}

impl Eq for Owner {
    ghost use Rattle.std.proofs.Common.{rules};

    ghost laws = { Prim.search rules };
}

impl PartialOrd for Owner {
    ghost use Rattle.std.specs.Cmp.Rules.{comparing};
    ghost use Rattle.std.specs.Ordering.{as_partial_cmp, nat_cmp};
    ghost use Rattle.std.specs.Cmp.Lexicographic.{slice_cmp};
    ghost use Rattle.std.proofs.Common.{rules};

    ghost partial_cmp = { as_partial_cmp (slice_cmp nat_cmp) };

    ghost laws = { Prim.search (comparing, rules) };

    fn partial_cmp(&self, other: &Owner) -> Option<Ordering> {
        Some(self.cmp(other))
    }
}

impl Ord for Owner {
    ghost use Rattle.std.specs.Cmp.Rules.{comparing};
    ghost use Rattle.std.specs.Ordering.{nat_cmp};
    ghost use Rattle.std.specs.Cmp.Lexicographic.{slice_cmp};
    ghost use Rattle.std.proofs.Common.{rules};

    ghost cmp = { slice_cmp nat_cmp };

    ghost total = { Prim.search (comparing, rules) };

    ghost matches_partial_cmp = { Prim.search (comparing, rules) };

    ghost matches_eq = { Prim.search (comparing, rules) };

    fn cmp(&self, other: &Owner) -> Ordering {
        self.as_bytes().cmp(other.as_bytes())
    }
}

impl Hash for Owner {
    ghost use Rattle.std.specs.Hash as fed;
    ghost use Rattle.std.proofs.Common.{rules};

    ghost hash_input = { fed.slice fed.u8 };

    ghost respects_eq = { Prim.search rules };

    fn hash<H: Hasher>(&self, state: &mut H) {
        self.as_bytes().hash(state);
    }
}

fn is_owner_byte(byte: u8) -> bool
    ensures { result ≡ is_owner_byte byte }
{
    byte.is_ascii_lowercase() || byte.is_ascii_digit() || byte == b'_'
}

fn is_owner_name(text: &[u8]) -> bool
    ensures { result ≡ is_owner_name text.now }
{
    match text.len() {
        1..=OWNER_BYTES => are_owner_bytes(text),
        _ => false,
    }
}

fn are_owner_bytes(text: &[u8]) -> bool
    ensures { result ≡ list_all is_owner_byte text.now }
{
    text.iter().all(|byte| is_owner_byte(*byte))
}
