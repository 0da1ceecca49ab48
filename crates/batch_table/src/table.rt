//! The table.

ghost use Rattle.std.specs.Prelude.{◌≡◌, ◌≤◌, ◌<◌, ◌^◌, OnOk, length, option_copied};
ghost use Rattle.batch_table.specs.Contents.{AreLawful};
ghost use Rattle.batch_table.specs.Lookups.{going_on};
ghost use Rattle.table_defs.specs.Table.{greatest, no_rows, row_of};

use crate::places::{place_of, place_of_owner};
use crate::statuses::SUBMITTED;
use base_names::{BatchId, NoMemory, Owner};
use model_data::BatchRow;
use std::alloc::Global;
use std::marker::Model;

/// Batches, and the last number that each owner was given.
#[derive(Drop)]
pub struct BatchTable {
    /// By their time of coming.
    pub(crate) rows: Vec<BatchRow>,
    /// One ID for each owner.
    pub(crate) lasts: Vec<BatchId>,
}

impl Model for BatchTable {
    ghost use Rattle.std.specs.Prelude.{◌-◌, min, vec_capacity, vec_len};
    ghost use Rattle.batch_table.specs.Contents.{AreLawful, Contents, table_in};
    ghost use Rattle.table_defs.specs.Keyed.{IsKeyed};

    ghost Value = { Contents };

    ghost view = { λ t. record { table = table_in t.rows.items t.lasts.items; room = min (vec_capacity t.rows - vec_len t.rows) (vec_capacity t.lasts - vec_len t.lasts) } };

    ghost invariant = { λ t. IsKeyed (table_in t.rows.items t.lasts.items) × AreLawful t.rows.items };
}

impl BatchTable {
    /// No batch and no owner. It allocates nothing.
    pub fn empty(alloc: Global) -> BatchTable
        ensures { result.table ≡ no_rows }
    {
        BatchTable {
            rows: Vec::new(alloc),
            lasts: Vec::new(alloc),
        }
    }

    /// Makes room for one record more.
    pub fn reserve(&mut self) -> Result<(), NoMemory>
        ensures table { self.new.table ≡ self.old.table }
        ensures room { OnOk result (1 ≤ self.new.room) }
    {
        self.rows.reserve(1)?;
        self.lasts.reserve(1)?;
        Ok(())
    }

    /// A batch's row.
    pub fn row(&self, id: &BatchId) -> Option<&BatchRow>
        ensures { option_copied result ≡ row_of id.now self.now.table }
    {
        match place_of(&self.rows, id) {
            Some(place) => Some(&self.rows[place]),
            None => None,
        }
    }

    /// The greatest number that an owner was given, and 0 where it was given none.
    pub fn greatest(&self, owner: &Owner) -> u32
        ensures { result ≡ greatest owner.now self.now.table }
    {
        match place_of_owner(&self.lasts, owner) {
            Some(place) => self.lasts[place].number,
            None => 0,
        }
    }

    /// How many rows there are.
    pub fn len(&self) -> usize
        ensures { result ≡ length self.now.table.rows }
    {
        self.rows.len()
    }

    /// How many attempts go on.
    pub fn going_on(&self) -> u64
        ensures count { result ≡ length (going_on self.now.table) }
        ensures small { result < 2 ^ 63 }
    {
        let mut count = 0;
        for row in &self.rows {
            if row.status == SUBMITTED {
                count += 1;
            }
        }
        count
    }

    /// The rows, by their time of coming.
    pub fn rows(&self) -> &[BatchRow]
        ensures rows { result.now ≡ self.now.table.rows }
        ensures lawful { AreLawful result.now }
    {
        &self.rows
    }
}
