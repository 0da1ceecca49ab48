//! A model under changes that are queued first and applied together.
//!
//! A [`LazyModel`] shows the model of the changes up to the last [`update`](LazyModel::update), and judges each further change
//! by the model of all changes that it has accepted. What one change does, and when it is refused, is said in `model_core`;
//! `specs/Lazy.antt` says what a `LazyModel` is seen as.
//!
//! From the first change on it keeps two models with their tables, and so needs twice the memory of one. A model that is only
//! loaded and read is not copied. A change is made on the second of them at once and kept in a log; an update exchanges the
//! two, in constant time and without memory. The first change after an update is preceded by the changes of the log, which the
//! second model lacks then. So each change is made twice, and a list of changes takes time in its length.
#![tactic(auto)]

mod laws;
mod lazy;
mod replay;

pub use laws::an_update_moves_the_mark;
pub use lazy::{LazyModel, LoadDone};
