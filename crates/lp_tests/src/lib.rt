//! Tests of `lp_lex`, `lp_parse` and `lp_print`. They stand here, since a crate with tests of its own is proved twice.
#![tactic(auto)]

#[cfg(test)]
mod lexed;
#[cfg(test)]
mod limits;
#[cfg(test)]
mod parsed;
#[cfg(test)]
mod printed;
