//! The model that a text spells, or the first place at which the text stops to be a model's.
//!
//! [`parse`] reads a text in one pass, token by token with one in view, and gives the model or the fault that the reading
//! of `lp_defs` gives. Its [`Stage`](stage::Stage) and what it has [`Told`](told::Told) together stand for a stage of that
//! reading (`specs/Meaning.antt`). What holds of the draft's tables and counts stands in `specs/Draft.antt`. A name is
//! found by a table, once for a term, and the coefficients of the open row stand by variable (`specs/Terms.antt`), so no
//! token takes time in the number of variables or rows; the end of a row takes time in the number of its terms.
#![tactic(auto)]

mod draft;
mod names;
mod objective;
mod parser;
mod quantity;
mod rows;
mod sections;
mod stage;
mod symbol;
mod terms;
mod told;

pub use base_names::FaultWord;
pub use lp_defs::ModelFault;
pub use parser::parse;
