//! Bland's rule meets no basis twice within a phase, as contracts without code.
//!
//! The pivots are those over exact fractions, of `specs/ExactPath.antt` of `dictionary`, so that nothing depends on what fits. What the
//! rule chooses is in `specs/Choices.antt`: of all that may enter or leave it takes the smallest index. Each such pivot keeps
//! what a dictionary says (`specs/Bases.antt`), and so the basis alone tells where the path stands. Were a basis met
//! again, the path between would leave the own point where it is; and of the variables that move on it, the one with
//! the greatest index would have to leave at one dictionary and to enter at another. The rule lets no two dictionaries
//! with the same solutions do that.
#![tactic(auto)]

mod basis_laws;
mod choice_laws;

pub use basis_laws::{an_exact_step_keeps_what_a_pivot_keeps, the_rule_meets_no_basis_twice};
pub use choice_laws::the_rule_takes_the_smallest_index;
