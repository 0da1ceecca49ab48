//! Tests of `rec_format`: bytes that were spelled by hand, and others that spell no record. They stand here, since a crate with
//! tests of its own is proved twice.
#![tactic(auto)]

#[cfg(test)]
mod bytes;
