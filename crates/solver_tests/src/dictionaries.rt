//! Two programs, pivot by pivot, with ample memory, and refused operations.
ghost use Rattle.std.specs.Prelude.{◌<◌, ◌≤◌, Contains, IsTrue};
ghost use Rattle.dictionary.specs.Dictionary.{line_count};

use base_names::{NoMemory, Seq};
use dictionary::{Dict, Std, StdRow, Tableau};
use frac128::{Frac, Op, Wide};
use sample_models::{Ratio, frac};
use std::alloc::Global;
use std::process::Abort;
use std::test::Fail;

const LARGE: i128 = 1 << 126;

/// Rows of two coefficients and a right side, and an objective of two coefficients and a constant.
pub(crate) struct Program {
    pub(crate) rows: &'static [[Ratio; 3]],
    pub(crate) obj: [Ratio; 3],
}

const TWO_PIVOTS: Program = Program {
    rows: &[[(2, 1), (1, 1), (4, 1)], [(1, 1), (3, 1), (6, 1)]],
    obj: [(1, 1), (1, 1), (0, 1)],
};

const TWO_PHASES: Program = Program {
    rows: &[
        [(-1, 1), (-1, 1), (-1, 1)],
        [(1, 1), (2, 1), (4, 1)],
        [(-2, 1), (1, 1), (-1, 1)],
    ],
    obj: [(1, 1), (1, 1), (3, 1)],
};

const REFUSED: Program = Program {
    rows: &[[(2, 1), (1, 1), (LARGE, 1)], [(1, 1), (3, 1), (-LARGE, 1)]],
    obj: [(1, 1), (1, 1), (0, 1)],
};

fn coefs(alloc: Global, line: &[Ratio; 3]) -> Result<Seq<Frac>, Fail> {
    let mut all = Vec::new(alloc);
    all.push(frac(line[0])?)?;
    all.push(frac(line[1])?)?;
    Ok(Seq::of(all))
}

fn std_rows(alloc: Global, rows: &[[Ratio; 3]]) -> Result<Seq<StdRow>, Fail> {
    let mut all = Vec::new(alloc);
    for row in rows {
        all.push(StdRow {
            coefs: coefs(alloc, row)?,
            rhs: frac(row[2])?,
        })?;
    }
    Ok(Seq::of(all))
}

pub(crate) fn std_of(alloc: Global, program: &Program) -> Result<Std, Fail> {
    Ok(Std {
        rows: std_rows(alloc, program.rows)?,
        obj: coefs(alloc, &program.obj)?,
        constant: frac(program.obj[2])?,
    })
}

fn opened(rt: &impl Abort, alloc: Global, s: &Std) -> Result<Dict, NoMemory> {
    let columns = s.obj.len();
    assert!(rt; columns < 9 && s.rows.len() < 9);
    assert!(rt;
        s.rows
            .as_slice()
            .iter()
            .all(|row| row.coefs.len() == columns)
    );
    Dict::new(alloc, s)
}

fn dict_of(rt: &impl Abort, alloc: Global, program: &Program) -> Result<Dict, Fail> {
    Ok(opened(rt, alloc, &std_of(alloc, program)?)?)
}

fn has_basic<T: Tableau>(tableau: &T, basic: &[u32]) -> bool {
    let rows = tableau.rows();
    if rows as usize != basic.len() {
        return false;
    }
    for place in 0..rows {
        if tableau.basic(place + 1) != basic[place as usize] {
            return false;
        }
    }
    true
}

fn has_nonbasic<T: Tableau>(tableau: &T, nonbasic: &[u32]) -> bool {
    let cols = tableau.cols();
    if cols as usize != nonbasic.len() {
        return false;
    }
    for place in 0..cols {
        if tableau.nonbasic(place + 1) != nonbasic[place as usize] {
            return false;
        }
    }
    true
}

pub(crate) fn is_ratio(entry: &Frac, ratio: Ratio) -> bool {
    (entry.num(), entry.den()) == ratio
}

/// The line of a row, or of an objective behind the rows, its constant first.
fn has_line<T: Tableau>(tableau: &T, place: u32, line: &[Ratio]) -> bool
    requires row_above { 0 < place }
    requires row_within { place ≤ line_count (T.meaning tableau.now) }
{
    let cols = tableau.cols();
    if line.len() != cols as usize + 1 {
        return false;
    }
    for col in 0..cols + 1 {
        if !is_ratio(&tableau.entry(place, col), line[col as usize]) {
            return false;
        }
    }
    true
}

fn has_lines<T: Tableau>(tableau: &T, lines: &[&[Ratio]]) -> bool {
    let count = tableau.rows() + if tableau.in_phase_one() { 2 } else { 1 };
    if lines.len() != count as usize {
        return false;
    }
    for place in 0..count {
        if !has_line(tableau, place + 1, lines[place as usize]) {
            return false;
        }
    }
    true
}

/// Compares each index and each entry.
fn shows<T: Tableau>(tableau: &T, basic: &[u32], nonbasic: &[u32], lines: &[&[Ratio]]) -> bool {
    has_basic(tableau, basic) && has_nonbasic(tableau, nonbasic) && has_lines(tableau, lines)
}

/// Whether the artificial variable is nonbasic.
fn has_artificial<T: Tableau>(tableau: &T) -> bool
    ensures { IsTrue result → Contains (T.meaning tableau.now).nonbasic 0 }
{
    let cols = tableau.cols();
    for place in 0..cols {
        if tableau.nonbasic(place + 1) == 0 {
            return true;
        }
    }
    false
}

fn ends_phase_one(dict: &mut Dict) -> bool {
    if !dict.in_phase_one() || !has_artificial(dict) {
        return false;
    }
    dict.end_phase_one();
    true
}

fn pivot(rt: &impl Abort, dict: &mut Dict, row: u32, col: u32) -> Result<(), Wide> {
    assert!(rt; 0 < row && row <= dict.rows());
    assert!(rt; 0 < col && col <= dict.cols());
    assert!(rt; !dict.entry(row, col).is_zero());
    dict.pivot(row, col)
}

#[test]
fn two_pivots(rt: HostRuntime) -> Result<(), Fail> {
    let mut dict = dict_of(&rt, rt.alloc(), &TWO_PIVOTS)?;
    assert!(rt; shows(&dict, &[3, 4], &[1, 2], OPENED));
    assert!(rt; pivot(&rt, &mut dict, 1, 1).is_ok());
    assert!(rt; shows(&dict, &[1, 4], &[3, 2], ONCE));
    assert!(rt; pivot(&rt, &mut dict, 2, 2).is_ok());
    assert!(rt; shows(&dict, &[1, 2], &[3, 4], TWICE));
    Ok(())
}

const OPENED: &[&[Ratio]] = &[
    &[(4, 1), (2, 1), (1, 1)],
    &[(6, 1), (1, 1), (3, 1)],
    &[(0, 1), (1, 1), (1, 1)],
];

const ONCE: &[&[Ratio]] = &[
    &[(2, 1), (1, 2), (1, 2)],
    &[(4, 1), (-1, 2), (5, 2)],
    &[(2, 1), (-1, 2), (1, 2)],
];

const TWICE: &[&[Ratio]] = &[
    &[(6, 5), (3, 5), (-1, 5)],
    &[(8, 5), (-1, 5), (2, 5)],
    &[(14, 5), (-2, 5), (-1, 5)],
];

#[test]
fn two_phases(rt: HostRuntime) -> Result<(), Fail> {
    let mut dict = dict_of(&rt, rt.alloc(), &TWO_PHASES)?;
    assert!(rt; shows(&dict, &[3, 4, 5], &[1, 2, 0], PHASE_ONE));
    assert!(rt; pivot(&rt, &mut dict, 1, 3).is_ok());
    assert!(rt; pivot(&rt, &mut dict, 1, 1).is_ok());
    assert!(rt; shows(&dict, &[1, 4, 5], &[0, 2, 3], PHASE_ONE_ENDED));
    assert!(rt; ends_phase_one(&mut dict));
    assert!(rt; shows(&dict, &[1, 4, 5], &[2, 3], PHASE_TWO));
    Ok(())
}

const PHASE_ONE: &[&[Ratio]] = &[
    &[(-1, 1), (-1, 1), (-1, 1), (-1, 1)],
    &[(4, 1), (1, 1), (2, 1), (-1, 1)],
    &[(-1, 1), (-2, 1), (1, 1), (-1, 1)],
    &[(3, 1), (1, 1), (1, 1), (0, 1)],
    &[(0, 1), (0, 1), (0, 1), (-1, 1)],
];

const PHASE_ONE_ENDED: &[&[Ratio]] = &[
    &[(1, 1), (1, 1), (1, 1), (-1, 1)],
    &[(3, 1), (-2, 1), (1, 1), (1, 1)],
    &[(1, 1), (1, 1), (3, 1), (-2, 1)],
    &[(4, 1), (-1, 1), (0, 1), (1, 1)],
    &[(0, 1), (-1, 1), (0, 1), (0, 1)],
];

const PHASE_TWO: &[&[Ratio]] = &[
    &[(1, 1), (1, 1), (-1, 1)],
    &[(3, 1), (1, 1), (1, 1)],
    &[(1, 1), (3, 1), (-2, 1)],
    &[(4, 1), (0, 1), (1, 1)],
];

/// The first operation that doesn't fit, and the sizes behind it.
#[test]
fn refused(rt: HostRuntime) -> Result<(), Fail> {
    let mut dict = dict_of(&rt, rt.alloc(), &REFUSED)?;
    let wide = Wide {
        op: Op::Sub,
        left: frac((LARGE, 1))?,
        right: frac((-LARGE, 1))?,
    };
    assert!(rt; pivot(&rt, &mut dict, 2, 3) == Err(wide));
    assert!(rt; dict.rows() == 2 && dict.cols() == 3 && dict.in_phase_one());
    Ok(())
}
