//! What the plain solver answers is so, as contracts without code.
//!
//! `relaxation_laws` says what one relaxation shows at its end, and `search_laws` what a search shows where each relaxation does.
//! Here they are joined, so that what is said of a solve asks for nothing but its model: a lawful one, with numbers in lowest
//! terms. What an outcome says stands in `Answers` of `solve_defs`, and what a certificate shows in its `Certificates`. Code that
//! holds a model calls [`solves_are_right`]; one that keeps a `SoundModel` has both facts in its type, and calls nothing.
#![tactic(auto)]

mod answers;

pub use answers::{a_solve_is_right, a_solve_of_a_sound_model_is_right, solves_are_right};
