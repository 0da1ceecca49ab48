//! Laws of the place and the word of a text's first fault.
//!
//! A text is read token by token (`lp_defs`, `specs/Reading.antt`), and its fault is where no case fits any more. Here the
//! same is said without a reading, by the tokens themselves and by what tokens spell: `specs/Told.antt` has what the tokens
//! before a place have told, `specs/Faults.antt` which token is wrong and the word of its fault, and [`faults_are_these`]
//! that these are the faults that are read. So that a reader believes what spells a model and what is wrong, and needs no
//! reading. `specs/Places.antt` has what can be gone on with and what can't, and [`where_a_fault_stands`] says where a fault
//! stands by that alone.
#![tactic(auto)]

mod faults;
mod places;

pub use faults::{faults_are_these, one_fault};
pub use places::where_a_fault_stands;
