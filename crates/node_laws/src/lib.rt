//! Limits on nodes and pivots that surely suffice, as contracts without code.
//!
//! Cuts of integer variables with both bounds leave a standard form as many columns and rows as the root's, so that each relaxation
//! takes fewer pivots than the root's bound (`pivot_laws`). Each split divides the whole numbers between the bounds, so that the
//! tree has few nodes (`search_laws`). How large both bounds are is in `specs/Limits.antt` of `limit_defs`, and what it means that
//! an outcome keeps them in `specs/Bounds.antt`. The law asks for nothing but a sound model. What it says of the plain solver
//! holds of each search that is one with it; code that holds a model calls [`solves_keep_their_bounds`], and code that keeps a
//! `SoundModel` calls nothing.
#![tactic(auto)]

mod bound_laws;

pub use bound_laws::{
    a_solve_keeps_its_bounds, cuts_add_no_column_and_no_row, solves_keep_their_bounds,
};
