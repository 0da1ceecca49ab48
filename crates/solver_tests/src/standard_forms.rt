//! Standard forms and points worked out by hand, with ample memory, and operations that don't fit.
ghost use Rattle.std.specs.Prelude.{◌≡◌, All, IfOk, IfSome, IsTrue, length};
ghost use Rattle.solve_defs.specs.StandardForm.{column_count, shapes_of};
ghost use Rattle.std_form.specs.Cuts.{IsCutOf, IsSmall};

use base_names::OrMemory;
use dictionary::Std;
use frac128::{Frac, Op};
use model_data::{Direction, Model, Sense, VarKind};
use sample_models::{Ratio, RowOf, VarOf, frac, model};
use solve_defs::Cut;
use std::alloc::Global;
use std::process::Abort;
use std::test::Fail;
use std_form::{StdFault, point_back, to_std};

const ONE: Ratio = (1, 1);

const HALF: i128 = 1 << 126;

const TALL: i128 = 10_000_000_000_000_000_000;

const STEEP: i128 = 1_000_000_000_000_000_000_000_000_000_000;

/// `3 x + 2 y - z + w + 5`, where x is from 1 to 4, y at most 5, z free and w binary.
const SMALL_VARS: &[VarOf<'static>] = &[
    ("x", Some(ONE), Some((4, 1)), (3, 1), VarKind::Continuous),
    ("y", None, Some((5, 1)), (2, 1), VarKind::Integer),
    ("z", None, None, (-1, 1), VarKind::Continuous),
    ("w", None, None, ONE, VarKind::Binary),
];

/// One row of each sense.
const SMALL_ROWS: &[RowOf<'static>] = &[
    ("a", &[(0, (2, 1)), (1, ONE)], Sense::Less, (10, 1)),
    ("b", &[(0, ONE), (2, (-1, 1))], Sense::Greater, (3, 1)),
    ("c", &[(1, ONE), (3, ONE)], Sense::Equal, (4, 1)),
];

fn small_model(alloc: Global, direction: Direction) -> Result<Model, Fail> {
    model(alloc, direction, (5, 1), SMALL_VARS, SMALL_ROWS)
}

fn is_small(bound: Option<i128>) -> bool
    ensures { IsTrue result → IfSome bound IsSmall }
{
    bound.is_none_or(|n| n != i128::MIN)
}

fn is_cut_of(vars: usize, cut: &Cut) -> bool
    ensures { IsTrue result → IsCutOf vars cut.now }
{
    (cut.var as usize) < vars && is_small(cut.lower) && is_small(cut.upper)
}

/// `to_std`, where the cuts are those of the model.
fn form(
    rt: &impl Abort,
    alloc: Global,
    m: &Model,
    cuts: &Vec<Cut>,
) -> Result<Std, OrMemory<StdFault>>
    ensures cuts { All (IsCutOf (length m.now.vars)) cuts.now.items }
    ensures columns { IfOk result (λ form. length form.obj ≡ column_count (shapes_of m.now cuts.now.items)) }
{
    assert!(rt; cuts.iter().all(|cut| is_cut_of(m.vars.len(), cut)));
    to_std(alloc, m, cuts)
}

/// `point_back`, where there is a value for each column.
fn point(
    rt: &impl Abort,
    alloc: Global,
    m: &Model,
    cuts: &Vec<Cut>,
    xs: &Vec<Frac>,
) -> Result<Vec<Frac>, OrMemory<StdFault>> {
    let program = form(rt, alloc, m, cuts)?;
    assert!(rt; xs.len() == program.obj.len());
    point_back(alloc, m, cuts, xs)
}

fn is_whole(value: &Frac, number: i128) -> bool {
    value.num() == number && value.den() == 1
}

fn are_wholes(values: &[Frac], expected: &[i128]) -> bool {
    if values.len() != expected.len() {
        return false;
    }
    for (value, number) in values.iter().zip(expected) {
        if !is_whole(value, *number) {
            return false;
        }
    }
    true
}

/// Rows, each by its coefficients and its right side, an objective and its constant.
struct Wanted {
    rows: &'static [(&'static [i128], i128)],
    obj: &'static [i128],
    constant: i128,
}

fn has_rows(form: &Std, rows: &[(&[i128], i128)]) -> bool {
    if form.rows.len() != rows.len() {
        return false;
    }
    for (row, (coefs, rhs)) in form.rows.as_slice().iter().zip(rows) {
        if !are_wholes(row.coefs.as_slice(), coefs) || !is_whole(&row.rhs, *rhs) {
            return false;
        }
    }
    true
}

fn is_form(form: &Std, wanted: &Wanted) -> bool {
    has_rows(form, wanted.rows)
        && are_wholes(form.obj.as_slice(), wanted.obj)
        && is_whole(&form.constant, wanted.constant)
}

fn has_form(
    rt: &impl Abort,
    alloc: Global,
    m: &Model,
    cuts: &Vec<Cut>,
    wanted: &Wanted,
) -> Result<bool, OrMemory<StdFault>> {
    Ok(is_form(&form(rt, alloc, m, cuts)?, wanted))
}

fn fracs(alloc: Global, numbers: &[i128]) -> Result<Vec<Frac>, Fail> {
    let mut values = Vec::new(alloc);
    for number in numbers {
        values.push(frac((*number, 1))?)?;
    }
    Ok(values)
}

/// The point of the columns is this one of the variables.
fn has_point(
    rt: &impl Abort,
    alloc: Global,
    m: &Model,
    cuts: &Vec<Cut>,
    xs: &Vec<Frac>,
    wanted: &[i128],
) -> Result<bool, OrMemory<StdFault>> {
    Ok(are_wholes(point(rt, alloc, m, cuts, xs)?.as_slice(), wanted))
}

const SHAPES_ROWS: &[(&[i128], i128)] = &[
    (&[2, -1, 0, 0, 0], 3),
    (&[-1, 0, 1, -1, 0], -2),
    (&[0, -1, 0, 0, 1], -1),
    (&[0, 1, 0, 0, -1], 1),
    (&[1, 0, 0, 0, 0], 3),
    (&[0, 0, 0, 0, 1], 1),
];

const GREATEST: Wanted = Wanted {
    rows: SHAPES_ROWS,
    obj: &[3, -2, -1, 1, 1],
    constant: 18,
};

const LEAST: Wanted = Wanted {
    rows: SHAPES_ROWS,
    obj: &[-3, 2, 1, -1, -1],
    constant: -18,
};

#[test]
fn each_shape(rt: HostRuntime) -> Result<(), Fail> {
    let alloc = rt.alloc();
    let none: Vec<Cut> = Vec::new(alloc);
    let m = small_model(alloc, Direction::Maximize)?;
    assert!(rt; matches!(has_form(&rt, alloc, &m, &none, &GREATEST), Ok(true)));
    let turned = small_model(alloc, Direction::Minimize)?;
    assert!(rt; matches!(has_form(&rt, alloc, &turned, &none, &LEAST), Ok(true)));
    let xs = fracs(alloc, &[2, 1, 5, 2, 1])?;
    assert!(rt;
        matches!(
            has_point(&rt, alloc, &m, &none, &xs, &[3, 4, 3, 1]),
            Ok(true)
        )
    );
    Ok(())
}

/// Cuts by which y is shifted and z mirrored, and of which the tighter bound counts.
const CUTS: &[Cut] = &[
    Cut {
        var: 0,
        lower: Some(2),
        upper: None,
    },
    Cut {
        var: 2,
        lower: None,
        upper: Some(7),
    },
    Cut {
        var: 1,
        lower: Some(0),
        upper: Some(9),
    },
    Cut {
        var: 0,
        lower: Some(1),
        upper: Some(3),
    },
];

const CUT: Wanted = Wanted {
    rows: &[
        (&[2, 1, 0, 0], 6),
        (&[-1, 0, -1, 0], -8),
        (&[0, 1, 0, 1], 4),
        (&[0, -1, 0, -1], -4),
        (&[1, 0, 0, 0], 1),
        (&[0, 1, 0, 0], 5),
        (&[0, 0, 0, 1], 1),
    ],
    obj: &[3, 2, 1, 1],
    constant: 4,
};

#[test]
fn with_cuts(rt: HostRuntime) -> Result<(), Fail> {
    let alloc = rt.alloc();
    let cuts = CUTS.to_vec(alloc)?;
    let m = small_model(alloc, Direction::Maximize)?;
    assert!(rt; matches!(has_form(&rt, alloc, &m, &cuts, &CUT), Ok(true)));
    let xs = fracs(alloc, &[1, 4, 6, 0])?;
    assert!(rt;
        matches!(
            has_point(&rt, alloc, &m, &cuts, &xs, &[3, 4, 1, 0]),
            Ok(true)
        )
    );
    Ok(())
}

const UNLAWFUL_VARS: &[VarOf<'static>] = &[("x", Some(ONE), None, ONE, VarKind::Continuous)];

const UNLAWFUL_ROWS: &[RowOf<'static>] = &[(
    "a",
    &[(0, (2, 1)), (7, (5, 1)), (0, (3, 1))],
    Sense::Less,
    (10, 1),
)];

const UNLAWFUL: Wanted = Wanted {
    rows: &[(&[2], 5)],
    obj: &[1],
    constant: 1,
};

/// Of two terms of one variable both move to the right side, and the first one is the coefficient. A term of no variable is none.
#[test]
fn unlawful_terms(rt: HostRuntime) -> Result<(), Fail> {
    let alloc = rt.alloc();
    let m = model(
        alloc,
        Direction::Maximize,
        (0, 1),
        UNLAWFUL_VARS,
        UNLAWFUL_ROWS,
    )?;
    assert!(rt;
        matches!(
            has_form(&rt, alloc, &m, &Vec::new(alloc), &UNLAWFUL),
            Ok(true)
        )
    );
    Ok(())
}

/// An operation by its operator and its operands, which are whole.
type Told = (Op, i128, i128);

fn tells<T: Drop>(answer: Result<T, OrMemory<StdFault>>, (op, left, right): Told) -> bool {
    match &answer {
        Err(OrMemory::Fault(StdFault::Wide(wide))) => {
            wide.op == op && is_whole(&wide.left, left) && is_whole(&wide.right, right)
        }
        _ => false,
    }
}

/// A variable's bounds, its coefficient in the objective, the constant, and its coefficient in one row with its right side.
type OneRow = (i128, Option<i128>, i128, i128, i128, i128);

/// In a row of one variable, then in its span, then in the objective: the first operation that doesn't fit.
const REFUSED: &[(OneRow, Told)] = &[
    ((TALL, None, 0, 0, STEEP, 1), (Op::Mul, STEEP, TALL)),
    ((HALF, Some(-HALF), 4, 0, 1, -HALF), (Op::Sub, -HALF, HALF)),
    ((-HALF, Some(HALF), 4, 0, 0, 1), (Op::Sub, HALF, -HALF)),
    ((HALF, None, 4, 0, 0, 1), (Op::Mul, 4, HALF)),
    ((HALF, None, 1, HALF, 0, 1), (Op::Add, HALF, HALF)),
];

fn of_one_row(
    alloc: Global,
    (lower, upper, obj, constant, coef, rhs): OneRow,
) -> Result<Model, Fail> {
    let upper = upper.map(|n| (n, 1));
    let vars = [("x", Some((lower, 1)), upper, (obj, 1), VarKind::Continuous)];
    let terms = [(0, (coef, 1))];
    let rows = [("a", terms.as_slice(), Sense::Less, (rhs, 1))];
    model(alloc, Direction::Minimize, (constant, 1), &vars, &rows)
}

fn is_refused(rt: &impl Abort, alloc: Global, one: OneRow, told: Told) -> Result<bool, Fail> {
    let m = of_one_row(alloc, one)?;
    Ok(tells(form(rt, alloc, &m, &Vec::new(alloc)), told))
}

#[test]
fn refused_operations(rt: HostRuntime) -> Result<(), Fail> {
    for (one, told) in REFUSED {
        assert!(rt; is_refused(&rt, rt.alloc(), *one, *told)?);
    }
    Ok(())
}

/// The bounds of a variable, the values of its columns, and the operation that doesn't fit.
const REFUSED_VALUES: &[(Option<i128>, Option<i128>, &[i128], Told)] = &[
    (Some(HALF), None, &[HALF], (Op::Add, HALF, HALF)),
    (None, Some(-HALF), &[HALF], (Op::Sub, -HALF, HALF)),
    (None, None, &[HALF, -HALF], (Op::Sub, HALF, -HALF)),
];

fn of_one_var(alloc: Global, lower: Option<i128>, upper: Option<i128>) -> Result<Model, Fail> {
    let (lower, upper) = (lower.map(|n| (n, 1)), upper.map(|n| (n, 1)));
    let vars = [("x", lower, upper, (0, 1), VarKind::Continuous)];
    model(alloc, Direction::Maximize, (0, 1), &vars, &[])
}

fn is_value_refused(
    rt: &impl Abort,
    alloc: Global,
    m: &Model,
    xs: &[i128],
    told: Told,
) -> Result<bool, Fail> {
    let xs = fracs(alloc, xs)?;
    Ok(tells(point(rt, alloc, m, &Vec::new(alloc), &xs), told))
}

#[test]
fn refused_values(rt: HostRuntime) -> Result<(), Fail> {
    for (lower, upper, xs, told) in REFUSED_VALUES {
        let m = of_one_var(rt.alloc(), *lower, *upper)?;
        assert!(rt; is_value_refused(&rt, rt.alloc(), &m, xs, *told)?);
    }
    Ok(())
}
