//! The table of batches: what each record makes of it, which records are taken, and what of it is one owner's.
//!
//! `specs/Table.antt` has the table and what a record makes of it, `specs/Taken.antt` which records are taken and how each
//! other one is refused, `specs/Owned.antt` one owner's part of a table and of its records, and `specs/Outcomes.antt` what
//! records tell of attempts and numbers, apart from any table. What holds of them is said by functions without code:
//! [`each_batch_is_there_once`], [`an_attempt_ends_once`], [`numbers_are_never_used_twice`] and [`an_owners_table_is_that_of_its_records`].
#![tactic(auto)]

mod laws;

pub use laws::{
    an_attempt_ends_once, an_owners_table_is_that_of_its_records, each_batch_is_there_once,
    numbers_are_never_used_twice,
};
