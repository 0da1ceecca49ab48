//! Tests of `dictionary`, `std_form`, `simplex_rule` and `lp_certs`. They stand here, since a crate with tests of its own is proved twice.
#![tactic(auto)]

#[cfg(test)]
mod dictionaries;
#[cfg(test)]
mod relaxations;
#[cfg(test)]
mod standard_forms;
