//! A linear program in standard form.
use base_names::Seq;
use frac128::Frac;

/// A row of a standard form: the sum of each coefficient times its variable is at most `rhs`.
#[derive(Debug, Drop)]
pub struct StdRow {
    pub coefs: Seq<Frac>,
    pub rhs: Frac,
}

/// Maximize `constant` and the sum of each `obj` times its variable, where each row holds and no variable is below 0.
#[derive(Debug, Drop)]
pub struct Std {
    pub rows: Seq<StdRow>,
    pub obj: Seq<Frac>,
    pub constant: Frac,
}
