//! How large a model is.
ghost use Rattle.std.specs.Prelude.{◌≡◌, ◌-◌, ◌^◌, ◌≤◌, min, sum_by};
ghost use Rattle.model_data.specs.Lawful.{IsLawful};
ghost use Rattle.model_data.specs.Size.{columns_of_var, row_count, rows_of_sense, rows_of_var, size_of};

use crate::model::{Model, Row, Sense, Var, VarKind};

/// The most entries of a tableau of the model, `(r + 2) * (c + 2)`, or 2^64 - 1 where they are more. Here r counts each
/// row, equalities twice, and each variable that is an integer one or has both bounds finite, and c counts each variable,
/// free ones twice.
pub fn size(m: &Model) -> u64
    ensures value { result ≡ min (size_of m.now) (2 ^ 64 - 1) }
    ensures lawful { IsLawful m.now → result ≡ size_of m.now }
{
    let rows = row_count(m) + 2;
    let columns = columns_of_vars(m.vars.as_slice()) + 2;
    u64::try_from(rows.saturating_mul(columns)).unwrap_or(u64::MAX)
}

fn row_count(m: &Model) -> u128
    ensures value { result ≡ row_count m.now }
    ensures bound { result ≤ 2 ^ 67 }
{
    rows_of_rows(m.rows.as_slice()) + rows_of_vars(m.vars.as_slice())
}

fn rows_of_rows(rows: &[Row]) -> u128
    ensures value { result ≡ sum_by (λ r. rows_of_sense r.sense) rows.now }
    ensures bound { result ≤ 2 ^ 65 }
{
    let mut count = 0;
    for row in rows {
        count += rows_of_sense(row.sense);
    }
    count
}

fn rows_of_vars(vars: &[Var]) -> u128
    ensures value { result ≡ sum_by rows_of_var vars.now }
    ensures bound { result ≤ 2 ^ 65 }
{
    let mut count = 0;
    for var in vars {
        count += rows_of_var(var);
    }
    count
}

fn columns_of_vars(vars: &[Var]) -> u128
    ensures value { result ≡ sum_by columns_of_var vars.now }
    ensures bound { result ≤ 2 ^ 65 }
{
    let mut count = 0;
    for var in vars {
        count += columns_of_var(var);
    }
    count
}

fn rows_of_sense(sense: Sense) -> u128
    ensures value { result ≡ rows_of_sense sense }
    ensures bound { result ≤ 2 }
{
    match sense {
        Sense::Less | Sense::Greater => 1,
        Sense::Equal => 2,
    }
}

fn rows_of_var(var: &Var) -> u128
    ensures value { result ≡ rows_of_var var.now }
    ensures bound { result ≤ 1 }
{
    let is_integer = match var.kind {
        VarKind::Continuous => false,
        VarKind::Integer | VarKind::Binary => true,
    };
    if is_integer || var.lower.is_some() && var.upper.is_some() {
        1
    } else {
        0
    }
}

fn columns_of_var(var: &Var) -> u128
    ensures value { result ≡ columns_of_var var.now }
    ensures bound { result ≤ 2 }
{
    if var.lower.is_some() || var.upper.is_some() {
        1
    } else {
        2
    }
}
