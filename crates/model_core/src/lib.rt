//! One change of a model, and one parameter.
//!
//! [`Change`] is what a session asks for. What a change makes of a model is said field by field in `specs/Effect.antt`, and when it
//! is refused in `specs/One.antt`, where a list of changes is folded too. [`apply`] makes one change of a model; an
//! [`IndexedModel`] keeps tables of the names and tags beside its model, so that a list of changes takes no time in the
//! number of variables and rows for each, and it answers questions by name (`specs/Look.antt`). What has to hold of a change
//! stands in `specs/Asked.antt`. The laws are that an accepted change keeps a lawful model lawful and its numbers kept, that a
//! tag is given to one variable, and what a deletion leaves.
//!
//! [`set`] and [`get`] set and tell one parameter by its name (`specs/Parameter.antt`).
#![tactic(auto)]

mod addition;
mod applying;
mod change;
mod changing;
mod coefficients;
mod deletion;
mod fields;
mod indexed;
mod kept;
mod laws;
mod new_rows;
mod ordered;
mod parameters;
mod tables;
mod tagging;
mod take;
mod terms;
mod texts;
mod var_change;

pub use applying::apply;
pub use change::{Change, NamedTerm};
pub use indexed::IndexedModel;
pub use laws::{
    a_change_keeps_a_lawful_model, a_deleted_variable_is_gone, a_tag_is_given_to_one_variable,
};
pub use parameters::{get, set};
