//! Tests of `frac128`, `frac_text` and `model_data`. They stand here, since a crate with tests of its own is proved twice.
#![tactic(auto)]

#[cfg(test)]
mod fractions;
#[cfg(test)]
mod models;
#[cfg(test)]
mod texts;
