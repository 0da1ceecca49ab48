//! What the solver and the certificate checker are proved against: definitions, and the types that they speak of.
//!
//! What is right: the bounds of a variable (`specs/Bounds.antt`); points, best points, models without a point and
//! unbounded ones (`specs/Points.antt`); and certificates, with what is looked at in one (`specs/Looks.antt`,
//! `specs/Certificates.antt`). None of it mentions a solver.
//!
//! Which of several right answers comes: the standard form and the ways back (`specs/StandardForm.antt`), the pivots of
//! a relaxation (`specs/Path.antt`), what is read off its last dictionary (`specs/Ends.antt`), and the tree with its
//! turns, limits and events (`specs/Plain.antt`).
//!
//! The laws say that a standard form keeps the points of a model (`specs/Columns.antt`), what a certificate's weights prove
//! (`specs/LeafWeights.antt`), and what a valid certificate proves; the cases of its tree are in `specs/Cases.antt`. What
//! dictionaries have to do with solutions is said in `dictionary`. The rule in plain words, with a model carried through
//! by hand, is `docs/SOLVER.md`; worked models are evaluated in `proofs/`.
#![tactic(auto)]

mod certificate_laws;
mod cut;
mod form_laws;
mod solving;
mod status;
mod verdict;
mod weight_laws;

pub use certificate_laws::{
    a_check_that_finds_nothing_is_right, a_relaxation_has_the_points_within_its_cuts,
    a_valid_certificate_shows_the_outcome,
};
pub use cut::Cut;
pub use form_laws::{a_standard_form_ends_as_its_relaxation, a_standard_form_keeps_the_points};
pub use solving::{Duals, Events, LpEnd, StdRay};
pub use status::{
    INF_OR_UNBD, INFEASIBLE, INTERRUPTED, ITERATION_LIMIT, NODE_LIMIT, NUMERIC, OPTIMAL, UNBOUNDED,
    WORK_LIMIT,
};
pub use verdict::{Place, Verdict};
pub use weight_laws::{formed_sums_are_exact, weights_bound_a_leaf, weights_empty_a_leaf};
