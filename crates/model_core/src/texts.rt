//! Names or tags in a table.
ghost use Rattle.std.specs.Prelude.{◌≡◌, ◌<◌, ◌≤◌, List, [], ◌∷◌, ◌++◌, ℕ, IfSome, OnOk, bytes_eq, false, is_some, length, position};
ghost use Rattle.std.specs.List.{list_any, remove};

use base_names::NoMemory;
use indexmap::IndexSet;
use std::alloc::Global;
use std::marker::Model;

/// Texts, each of them once, with room for further ones.
#[derive(Drop)]
pub(crate) struct Texts {
    table: IndexSet<Vec<u8>>,
}

impl Model for Texts {
    ghost use Rattle.std.specs.Prelude.{map};
    ghost use Rattle.indexmap.specs.IndexSet.{spare};
    ghost use Rattle.model_core.specs.Texts.{Table};

    ghost Value = { Table };

    ghost view = { λ texts. record { texts = map (λ text. text.items) texts.table.keys; room = spare texts.table } };
}

impl Texts {
    pub(crate) fn new(alloc: Global) -> Texts
        ensures { result.texts ≡ [] }
    {
        Texts {
            table: IndexSet::new(alloc),
        }
    }

    /// The place of the text.
    pub(crate) fn place(&self, text: &[u8]) -> Option<usize>
        ensures place { result ≡ position (bytes_eq text.now) self.now.texts }
        ensures found { is_some result ≡ list_any (bytes_eq text.now) self.now.texts }
        ensures within { IfSome result (λ place. place < length self.now.texts) }
    {
        self.table.get_index_of(text)
    }

    pub(crate) fn has(&self, text: &[u8]) -> bool
        ensures { result ≡ list_any (bytes_eq text.now) self.now.texts }
    {
        self.table.contains(text)
    }

    /// Makes room for one more text.
    pub(crate) fn reserve(&mut self) -> Result<(), NoMemory>
        ensures texts { self.new.texts ≡ self.old.texts }
        ensures room { OnOk result (0 < self.new.room) }
    {
        self.table.reserve(1)?;
        Ok(())
    }

    /// Adds a new text at the end.
    pub(crate) fn add(&mut self, alloc: Global, text: &[u8]) -> Result<(), NoMemory>
        requires { list_any (bytes_eq text.now) self.old.texts ≡ false }
        ensures { OnOk result (self.new.texts ≡ self.old.texts ++ text.now ∷ []) }
    {
        let text = Vec::from_slice(alloc, text)?;
        self.reserve()?;
        self.add_reserved(text);
        Ok(())
    }

    /// Adds a new text at the end. It takes no memory.
    pub(crate) fn add_reserved(&mut self, text: Vec<u8>)
        requires room { 0 < self.old.room }
        requires new { list_any (bytes_eq text.items) self.old.texts ≡ false }
        ensures { self.new.texts ≡ self.old.texts ++ text.items ∷ [] }
    {
        self.table.insert(text).unwrap();
    }

    /// Removes the text at the place. Those behind it move one place to the front.
    pub(crate) fn remove_at(&mut self, place: usize)
        requires { place < length self.old.texts }
        ensures { self.new.texts ≡ remove self.old.texts place }
    {
        self.table.shift_remove_index(place);
    }

    /// Takes a text out. The others may change their order.
    pub(crate) fn take_out(&mut self, text: &[u8])
        ensures gone { list_any (bytes_eq text.now) self.new.texts ≡ false }
        ensures others { (other : List ℕ) → bytes_eq text.now other ≡ false → list_any (bytes_eq other) self.new.texts ≡ list_any (bytes_eq other) self.old.texts }
        ensures room { self.old.room ≤ self.new.room }
    {
        self.table.swap_remove(text);
    }
}
