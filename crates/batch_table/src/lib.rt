//! The table of batches, changed by one record after the other.
//!
//! [`BatchTable`] is the table of `table_defs`: [`BatchTable::test`] says whether a record is taken and [`BatchTable::apply`] makes of
//! the table what the record says. Room is reserved before, so that applying takes no memory. `specs/Contents.antt` says what a
//! table stands for.
#![tactic(auto)]

mod changes;
mod marks;
mod names;
mod places;
mod statuses;
mod table;
mod testing;

pub use names::{is_same_batch, is_same_owner};
pub use table::BatchTable;
