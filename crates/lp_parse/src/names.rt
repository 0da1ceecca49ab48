//! Names in a table.
ghost use Rattle.std.specs.Prelude.{◌≡◌, [], OnErr, OnOk, bytes_eq, is_some, position};
ghost use Rattle.std.specs.List.{list_any};
ghost use Rattle.lp_parse.specs.Draft.{with_name};

use base_names::NoMemory;
use indexmap::IndexSet;
use std::alloc::Global;
use std::marker::Model;

/// Names in the order of their coming, each of them once.
#[derive(Drop)]
pub(crate) struct Names {
    table: IndexSet<String>,
}

impl Model for Names {
    ghost use Rattle.std.specs.Prelude.{List, ℕ, map, string_bytes};

    ghost Value = { List (List ℕ) };

    ghost view = { λ names. map string_bytes names.table.keys };
}

impl Names {
    pub(crate) fn new(alloc: Global) -> Names
        ensures { result ≡ [] }
    {
        Names {
            table: IndexSet::new(alloc),
        }
    }

    /// The place of the name.
    pub(crate) fn place(&self, name: &str) -> Option<usize>
        ensures place { result ≡ position (bytes_eq name.now) self.now }
        ensures found { is_some result ≡ list_any (bytes_eq name.now) self.now }
    {
        self.table.get_index_of(name)
    }

    /// Adds the name at the end, where it isn't known.
    pub(crate) fn add(&mut self, alloc: Global, name: &str) -> Result<(), NoMemory>
        ensures ok { OnOk result (self.new ≡ with_name self.old name.now) }
        ensures unchanged { OnErr result (self.new ≡ self.old) }
    {
        self.table.insert(String::from_str(alloc, name)?)?;
        Ok(())
    }
}
