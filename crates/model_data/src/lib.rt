//! The types of a model, of what a solve finds, and of batches.
//!
//! They are plain data that other crates read, change, solve and keep. What a lawful model is stands in
//! `specs/Lawful.antt`, which texts name a variable or a row and which tag one ([`is_name`], [`is_tag`]) in
//! `specs/Names.antt`, the ranges of parameters in `specs/Params.antt`, and the count of [`size`] in `specs/Size.antt`.
//! The numbers of each model in memory are in lowest terms and fit (`specs/Kept.antt`), as [`kept_numbers`] says. A
//! [`SoundModel`] is lawful too, and laws speak of it.
//! Each type that is not `Copy` has a call `copy`, which gives an equal value.
#![tactic(auto)]

mod batch;
mod kept;
mod limits;
mod model;
mod names;
mod params;
mod sizes;
mod solution;
mod sound_model;

pub use batch::{AttemptOf, BatchBody, BatchLine, BatchRecord, BatchResult, BatchRow};
pub use kept::kept_numbers;
pub use limits::{
    BOUND_SIZE, MAX_DETAIL, MAX_ITERATIONS, MAX_NAME_LEN, MAX_NODES, MAX_PRIORITY, MAX_ROWS,
    MAX_SIZE, MAX_TAG_LEN, MAX_TERMS, MAX_VARS, MAX_WORK,
};
pub use model::{Direction, Model, Row, Sense, Term, Var, VarKind};
pub use names::{is_name, is_tag};
pub use params::Params;
pub use sizes::size;
pub use solution::{Cert, CertNode, NodeEvent, Outcome, Point, SolEvent, Weight, Weights, WideAt};
pub use sound_model::SoundModel;
