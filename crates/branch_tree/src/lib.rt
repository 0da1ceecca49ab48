//! Branch and bound on a linear model, a turn at a time.
//!
//! A [`Solving`] goes on by [`Solving::advance`], each time by one pivot or by one node that is finished, until a turn ends it;
//! [`Solving::cut`] ends it before. Contracts see it as its model, its parameters and how far the plain solver of `solve_defs`
//! is (`specs/Plain.antt` there): each call is one clause, `advance` is `turn`, and `cut` is `cut_off`. So after any number
//! of turns the events, the outcome and the certificate are the plain solver's, as [`turns_are_the_plain_solvers`] says.
//!
//! A solve stays within the bounds of its model (`specs/Bounded.antt`): limits on nodes and pivots that are at least those of
//! `limit_defs` never end it.
//!
//! A turn takes memory only where a node is finished or the root begins, and all of it before it changes anything: after want of memory the
//! solve is as before. Of the nodes that wait a depth and a cut are kept, so that memory is linear in the depth of the tree,
//! and no call goes down it, dropping neither.
//!
//! - `solving.rt`: the public calls; what they mean is `specs/Solves.antt`.
//! - `search.rt`: a search as long as it goes on, and its turns; its fields mean what `specs/Under.antt` says.
//! - `finishing.rt`: how a node is finished and the next one begins, for want of memory without a change.
//! - `ends.rt`: what the end of a relaxation makes of its node, without any change (`specs/Findings.antt`).
//! - `cases.rt`: the cuts of the node under way and of those that wait; `counts.rt`: counts and limits.
#![tactic(auto)]

mod cases;
mod counts;
mod done;
mod ends;
mod finding;
mod finishing;
mod readings;
mod search;
mod solving;
mod step;
mod turns;

pub use done::Done;
pub use solving::{Solving, Turn};
pub use turns::turns_are_the_plain_solvers;
