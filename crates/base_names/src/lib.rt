//! Names, ids and refusals: the small types that every other crate speaks of.
//!
//! - [`NoMemory`] and [`OrMemory`] are want of memory as an answer; [`TryCopy`] makes equal copies.
//! - [`Seq`], [`Text`] and [`Label`], which [`Name`] and [`Tag`] are, are lists and bytes that contracts see as the list of
//!   their items.
//! - [`Owner`], [`Seat`], [`JobId`], [`BatchId`] and [`NodeNo`] say who and what; they are `Copy`.
//!   [`read_id`] and [`write_id`] are inverse to each other.
//! - [`Refusal`] says why a command was not done, and [`refusal_text`] is its exact text.
//! - [`read_digits`], [`read_decimal`] and [`write_decimal`] read and write numbers.
//! - [`History`] is a list that only proofs read, of what came so far.
//! - [`append`] writes what a value prints onto a buffer that is kept: refusals, owners, IDs and numbers print their text.
//!
//! What a name, an ID, a decimal and the text of a refusal are stands in `specs/OwnerName.antt`,
//! `Id.antt`, `Decimal.antt` and `RefusalText.antt`. `specs/Outside.antt` has the words in which the
//! traits of the outside say what was read and written, and when a count of faults rose;
//! `specs/Prefix.antt` has beginnings of lists. The laws of both are in `proofs/`.
#![tactic(auto)]

mod copying;
mod decimal;
mod history;
mod id;
mod id_text;
mod memory;
mod name;
mod node;
mod owner;
mod refusal;
mod refusal_display;
mod seat;
mod seq;
mod text;
mod writing;

pub use copying::TryCopy;
pub use decimal::{are_digits, read_decimal, read_digits, write_decimal};
pub use history::History;
pub use id::BatchId;
pub use id_text::{read_id, write_id};
pub use memory::{NoMemory, OrMemory};
pub use name::{Label, Name, Named, Tag, Tagged};
pub use node::{JobLine, NodeLine, NodeNo, NodeState, Placed, Waiter};
pub use owner::Owner;
pub use refusal::{FaultWord, OwnerLimit, Refusal};
pub use refusal_display::refusal_text;
pub use seat::{JobId, Role, Seat};
pub use seq::Seq;
pub use text::Text;
pub use writing::append;
