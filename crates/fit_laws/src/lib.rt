//! What fits along a relaxation's path, and that its weights are never refused.
//!
//! The laws of `relaxation_laws` are over exact arithmetic. Here the numbers of a standard form, and each entry of a dictionary
//! that its pivots reach, are numbers that a program can keep (`specs/KeptEntries.antt`), since each is the result of an
//! operation that fits. Of the two rows of an equality one at most has a weight, so that their difference is a weight as it
//! stands, and fits: the weights that an end shows come back to the model without a refused operation. The cuts have to fit, as
//! those of each search by the plain solver do (`the_cuts_of_a_search_fit` in `search_laws`).
//! Code that holds a standard form alone shows by [`form_is_kept`] that its numbers can be kept.
#![tactic(auto)]

mod kept;
mod number_laws;
mod weight_laws;

pub use kept::form_is_kept;
pub use number_laws::numbers_on_the_path_fit;
pub use weight_laws::{
    a_relaxation_that_ends_has_its_weights, an_end_has_weights_to_bring_back,
    an_equality_weighs_once,
};
