//! Values compared, and values at a point.
ghost use Rattle.std.specs.Prelude.{◌≡◌, ◌<◌, All, length};
ghost use Rattle.frac128.specs.Checked.{less_product, plus_product};
ghost use Rattle.frac128.specs.Fraction.{zero_value};
ghost use Rattle.solve_defs.specs.Certificates.{compares, is_negative_or_zero, is_positive_or_zero, row_steps};
ghost use Rattle.solve_defs.specs.Looks.{formed};
ghost use Rattle.solve_defs.specs.Values.{is_at_most, is_below, is_same, is_whole, turned};
ghost use Rattle.cert_check.specs.Sums.{terms_at};

use frac128::{Frac, Wide};
use model_data::{Direction, Sense, Term, Var};

pub(crate) fn is_at_most(x: &Frac, y: &Frac) -> bool
    ensures { result ≡ is_at_most x.now y.now }
{
    x.cmp(y).is_le()
}

pub(crate) fn is_below(x: &Frac, y: &Frac) -> bool
    ensures { result ≡ is_below x.now y.now }
{
    x.cmp(y).is_lt()
}

pub(crate) fn is_same(x: &Frac, y: &Frac) -> bool
    ensures { result ≡ is_same x.now y.now }
{
    x.kept();
    y.kept();
    x == y
}

pub(crate) fn is_negative_or_zero(x: &Frac) -> bool
    ensures { result ≡ is_negative_or_zero x.now }
{
    x.num() <= 0
}

pub(crate) fn is_positive_or_zero(x: &Frac) -> bool
    ensures { result ≡ is_positive_or_zero x.now }
{
    x.num() >= 0
}

pub(crate) fn is_whole(x: &Frac) -> bool
    ensures { result ≡ is_whole x.now }
{
    x.den() == 1
}

/// How a row compares a sum with its right side.
pub(crate) fn compares(sense: Sense, sum: &Frac, rhs: &Frac) -> bool
    ensures { result ≡ compares sense sum.now rhs.now }
{
    match sense {
        Sense::Less => is_at_most(sum, rhs),
        Sense::Greater => is_at_most(rhs, sum),
        Sense::Equal => is_same(sum, rhs),
    }
}

/// The value as it is to be maximized.
pub(crate) fn turned(direction: Direction, x: &Frac) -> Frac
    ensures { result ≡ turned direction x.now }
{
    match direction {
        Direction::Minimize => x.neg(),
        Direction::Maximize => *x,
    }
}

/// The total with a product, whose left factor is the first one.
pub(crate) fn plus_product(x: &Frac, total: &Frac, y: &Frac) -> Result<Frac, Wide>
    ensures { result ≡ plus_product x.now total.now y.now }
{
    total.checked_add(&x.checked_mul(y)?)
}

/// The total less a product, whose left factor is the first one.
pub(crate) fn less_product(x: &Frac, total: &Frac, y: &Frac) -> Result<Frac, Wide>
    ensures { result ≡ less_product x.now total.now y.now }
{
    total.checked_sub(&x.checked_mul(y)?)
}

/// What a row's terms come to at these values.
pub(crate) fn row_sum(terms: &[Term], xs: &[Frac]) -> Result<Frac, Wide>
    requires { All (λ t. t.var < length xs.now) terms.now }
    ensures { result ≡ formed zero_value (row_steps terms.now xs.now) }
{
    let mut sum = Frac::zero();
    for term in terms {
        sum = plus_product(&term.coef, &sum, &xs[term.var as usize])?;
    }
    Ok(sum)
}

/// What the objective's terms come to at these values, behind a constant.
pub(crate) fn objective_sum(vars: &[Var], constant: &Frac, xs: &[Frac]) -> Result<Frac, Wide>
    requires { length xs.now ≡ length vars.now }
    ensures { result ≡ formed constant.now (terms_at vars.now xs.now) }
{
    let mut sum = *constant;
    for (place, var) in vars.iter().enumerate() {
        sum = plus_product(&var.obj, &sum, &xs[place])?;
    }
    Ok(sum)
}
