//! How large the root's standard form is.
ghost use Rattle.std.specs.Prelude.{◌≡◌, ◌*◌, ◌≤◌, length, sum_by};
ghost use Rattle.model_data.specs.Lawful.{IsLawful};
ghost use Rattle.model_data.specs.Size.{rows_of_sense};
ghost use Rattle.limit_defs.specs.Limits.{root_columns, root_rows};
ghost use Rattle.enough_limits.specs.Bounds.{columns_of_var, rows_of_var};
ghost use Rattle.model_data.specs.declared.limits.TheConstants.{MAX_ROWS, MAX_VARS};

use crate::variable::{columns, rows};
use model_data::{Model, Row, Sense, Var};

/// The columns of the root's standard form.
pub fn root_columns(m: &Model) -> u32
    requires { IsLawful m.now }
    ensures { result ≡ root_columns m.now }
{
    columns_of_vars(m.vars.as_slice())
}

fn columns_of_vars(vars: &[Var]) -> u32
    requires { length vars.now ≤ MAX_VARS }
    ensures value { result ≡ sum_by columns_of_var vars.now }
    ensures most { result ≤ 2 * MAX_VARS }
{
    let mut count = 0;
    for var in vars {
        count += columns(var);
    }
    count
}

/// The rows of the root's standard form.
pub fn root_rows(m: &Model) -> u32
    requires { IsLawful m.now }
    ensures { result ≡ root_rows m.now }
{
    rows_of_rows(m.rows.as_slice()) + rows_of_vars(m.vars.as_slice())
}

fn rows_of_rows(rows: &[Row]) -> u32
    requires { length rows.now ≤ MAX_ROWS }
    ensures value { result ≡ sum_by (λ r. rows_of_sense r.sense) rows.now }
    ensures most { result ≤ 2 * MAX_ROWS }
{
    let mut count = 0;
    for row in rows {
        count += rows_of_sense(row.sense);
    }
    count
}

fn rows_of_sense(sense: Sense) -> u32
    ensures value { result ≡ rows_of_sense sense }
    ensures most { result ≤ 2 }
{
    match sense {
        Sense::Less | Sense::Greater => 1,
        Sense::Equal => 2,
    }
}

fn rows_of_vars(vars: &[Var]) -> u32
    requires { length vars.now ≤ MAX_VARS }
    ensures value { result ≡ sum_by rows_of_var vars.now }
    ensures most { result ≤ MAX_VARS }
{
    let mut count = 0;
    for var in vars {
        count += rows(var);
    }
    count
}
