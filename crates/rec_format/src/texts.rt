//! Texts in a table.
ghost use Rattle.std.specs.Prelude.{◌≡◌, ◌∷◌, ◌++◌, [], IfOk, IsTrue, bytes_eq, not};
ghost use Rattle.std.specs.List.{list_any};

use base_names::NoMemory;
use indexmap::IndexSet;
use std::alloc::Global;
use std::marker::Model;

/// Texts in the order of their coming, each of them once. None is copied.
#[derive(Drop)]
pub(crate) struct Texts<'a> {
    table: IndexSet<&'a [u8]>,
}

impl<'a> Model for Texts<'a> {
    ghost use Rattle.std.specs.Prelude.{List, ℕ, map};

    ghost Value = { List (List ℕ) };

    ghost view = { λ texts. map (λ text. text.now) texts.table.keys };
}

impl<'a> Texts<'a> {
    pub(crate) fn new(alloc: Global) -> Texts<'a>
        ensures { result ≡ [] }
    {
        Texts {
            table: IndexSet::new(alloc),
        }
    }

    /// Adds the text at the end, where it is new, and tells whether it is.
    pub(crate) fn add(&mut self, text: &'a [u8]) -> Result<bool, NoMemory>
        ensures new { IfOk result (λ new. new ≡ not (list_any (bytes_eq text.now) self.old)) }
        ensures added { IfOk result (λ new. IsTrue new → self.new ≡ self.old ++ text.now ∷ []) }
    {
        Ok(self.table.insert(text)?)
    }
}
