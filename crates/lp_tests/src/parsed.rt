//! Texts with the models that they spell, or with their faults, worked out by hand from `docs/FORMATS.md`.
use base_names::{NoMemory, OrMemory};
use lp_parse::{FaultWord, ModelFault, parse};
use model_data::{Direction, Model, Sense, VarKind};
use sample_models::{Ratio, RowOf, VarOf, model};
use std::alloc::Global;
use std::test::Fail;

/// A text, with the line and the column of its fault.
type FaultAt = (&'static str, u32, u32);

/// A variable of which only the coefficient in the objective is told.
type Plain = (&'static str, Ratio);

const ZERO: Ratio = (0, 1);

const ONE: Ratio = (1, 1);

pub(crate) fn read(alloc: Global, text: &str) -> Result<Model, OrMemory<ModelFault>> {
    if text.len() < 10_000_000 {
        parse(alloc, text.as_bytes())
    } else {
        Err(OrMemory::NoMemory)
    }
}

fn spells(alloc: Global, text: &str, wanted: &Model) -> Result<bool, OrMemory<ModelFault>> {
    Ok(read(alloc, text)? == *wanted)
}

/// The text is to be minimized, and has these variables and rows.
fn has(alloc: Global, text: &str, vars: &[VarOf], rows: &[RowOf]) -> Result<bool, Fail> {
    let wanted = model(alloc, Direction::Minimize, ZERO, vars, rows)?;
    Ok(spells(alloc, text, &wanted)?)
}

fn of_plain(alloc: Global, plain: &[Plain]) -> Result<Vec<VarOf<'static>>, NoMemory> {
    let mut vars = Vec::new(alloc);
    for (name, obj) in plain {
        vars.push((*name, Some(ZERO), None, *obj, VarKind::Continuous))?;
    }
    Ok(vars)
}

/// The text is to be minimized, and has these plain variables and these rows.
fn has_rows(alloc: Global, text: &str, plain: &[Plain], rows: &[RowOf]) -> Result<bool, Fail> {
    has(alloc, text, of_plain(alloc, plain)?.as_slice(), rows)
}

/// The text has such an objective, and no rows.
fn has_objective(
    alloc: Global,
    text: &str,
    direction: Direction,
    constant: Ratio,
    plain: &[Plain],
) -> Result<bool, Fail> {
    let vars = of_plain(alloc, plain)?;
    let wanted = model(alloc, direction, constant, vars.as_slice(), &[])?;
    Ok(spells(alloc, text, &wanted)?)
}

pub(crate) fn is_fault(
    alloc: Global,
    text: &str,
    line: u32,
    column: u32,
    fault: FaultWord,
) -> bool {
    let wanted = ModelFault {
        line,
        column,
        fault,
    };
    match read(alloc, text) {
        Err(OrMemory::Fault(found)) => found == wanted,
        _ => false,
    }
}

const PLAN: &str = "\\ Model plan
\\ LP format - for model browsing. Use MPS format to capture full model detail.
Maximize
  x + 2 y + 3 Constant
Subject To
 c0: x + y <= 4
Bounds
 -infinity <= y <= 5
 Constant = 1
Generals
 x
End
";

const PLAN_VARS: &[VarOf<'static>] = &[
    ("x", Some(ZERO), None, ONE, VarKind::Integer),
    ("y", None, Some((5, 1)), (2, 1), VarKind::Continuous),
    (
        "Constant",
        Some(ONE),
        Some(ONE),
        (3, 1),
        VarKind::Continuous,
    ),
];

const PLAN_ROWS: &[RowOf<'static>] = &[("c0", &[(0, ONE), (1, ONE)], Sense::Less, (4, 1))];

fn spells_the_plan(alloc: Global) -> Result<bool, Fail> {
    let wanted = model(alloc, Direction::Maximize, ZERO, PLAN_VARS, PLAN_ROWS)?;
    Ok(spells(alloc, PLAN, &wanted)?)
}

#[test]
fn a_whole_model(rt: HostRuntime) -> Result<(), Fail> {
    assert!(rt; spells_the_plan(rt.alloc())?);
    Ok(())
}

const OBJECTIVES: &[(&str, Direction, Ratio, &[Plain])] = &[
    ("max st end", Direction::Maximize, ZERO, &[]),
    // A sign multiplies a number, numbers alone are added to the constant, and coefficients of one name are added.
    (
        "max 3 x - 1/2 y + 4 - z + -2 x -1.5 st end",
        Direction::Maximize,
        (5, 2),
        &[("x", ONE), ("y", (-1, 2)), ("z", (-1, 1))],
    ),
    (
        "max 0 x + 2 y - 2 y s.t. end",
        Direction::Maximize,
        ZERO,
        &[("x", ZERO), ("y", ZERO)],
    ),
    // The label is dropped.
    (
        "min obj: 2 x st. end",
        Direction::Minimize,
        ZERO,
        &[("x", (2, 1))],
    ),
    (
        "minimum obj : - x - -3 x such that end",
        Direction::Minimize,
        ZERO,
        &[("x", (2, 1))],
    ),
    // A name behind a number is its term's, on the next line too. The constraints word may be on two lines.
    (
        "max 5\nx subject\n\\ a comment\nTO end",
        Direction::Maximize,
        ZERO,
        &[("x", (5, 1))],
    ),
];

#[test]
fn objectives(rt: HostRuntime) -> Result<(), Fail> {
    for (text, direction, constant, plain) in OBJECTIVES {
        assert!(rt;
            has_objective(rt.alloc(), text, *direction, *constant, plain)?,
            "{text}"
        );
    }
    Ok(())
}

/// Texts, with their variables and their rows.
const ROWS: &[(&str, &[Plain], &[RowOf<'static>])] = &[
    // White space alone parts tokens.
    (
        "Minimize\n x\nSubject To\n c: x+y >= 1\n d: 2 x > 1\nEnd\n",
        &[("x", ONE), ("x+y", ZERO)],
        &[
            ("c", &[(1, ONE)], Sense::Greater, ONE),
            ("d", &[(0, (2, 1))], Sense::Greater, ONE),
        ],
    ),
    // A row without a label is named by its place among all rows.
    (
        "min st a: x <= 1 x >= 0 b : x = 2 - x = -3 end",
        &[("x", ZERO)],
        &[
            ("a", &[(0, ONE)], Sense::Less, ONE),
            ("R1", &[(0, ONE)], Sense::Greater, ZERO),
            ("b", &[(0, ONE)], Sense::Equal, (2, 1)),
            ("R3", &[(0, (-1, 1))], Sense::Equal, (-3, 1)),
        ],
    ),
    // Terms may be none.
    (
        "min st <= 5 d: >= -1 end",
        &[],
        &[
            ("R0", &[], Sense::Less, (5, 1)),
            ("d", &[], Sense::Greater, (-1, 1)),
        ],
    ),
    // A sum of 0 is no term.
    (
        "min st x + x + y - y >= 1 0 z + x - x + x <= 2 end",
        &[("x", ZERO), ("y", ZERO), ("z", ZERO)],
        &[
            ("R0", &[(0, (2, 1))], Sense::Greater, ONE),
            ("R1", &[(0, ONE)], Sense::Less, (2, 1)),
        ],
    ),
    // Terms rise by variable, in whatever order they are written.
    (
        "min y + x st c: -2 x + 3 z + 1/3 y + 3 x <= - -5 d: z + x = - 2/6 end",
        &[("y", ONE), ("x", ONE), ("z", ZERO)],
        &[
            (
                "c",
                &[(0, (1, 3)), (1, ONE), (2, (3, 1))],
                Sense::Less,
                (5, 1),
            ),
            ("d", &[(1, ONE), (2, ONE)], Sense::Equal, (-1, 3)),
        ],
    ),
];

#[test]
fn rows(rt: HostRuntime) -> Result<(), Fail> {
    for (text, plain, rows) in ROWS {
        assert!(rt; has_rows(rt.alloc(), text, plain, rows)?, "{text}");
    }
    Ok(())
}

const FAR: i128 = 99_999_999_999_999_999_999;

/// Lines of a section of bounds, with the bounds of x behind them.
const BOUNDS: &[(&str, Option<Ratio>, Option<Ratio>)] = &[
    ("", Some(ZERO), None),
    ("x free", None, None),
    ("x >= -1", Some((-1, 1)), None),
    ("x <= 5", Some(ZERO), Some((5, 1))),
    ("x <= -5", Some(ZERO), Some((-5, 1))),
    ("x = 2/4", Some((1, 2)), Some((1, 2))),
    ("5 <= x", Some((5, 1)), None),
    ("5 >= x", Some(ZERO), Some((5, 1))),
    ("- 3 = x", Some((-3, 1)), Some((-3, 1))),
    ("1 <= x <= 2", Some(ONE), Some((2, 1))),
    ("2 >= x >= 1", Some(ONE), Some((2, 1))),
    ("- inf <= x <= + 7", None, Some((7, 1))),
    ("-infinity <= x <= inf", None, None),
    ("x <= 99999999999999999999", Some(ZERO), Some((FAR, 1))),
    ("x <= 1 x <= 1e20", Some(ZERO), None),
    ("x <= 1 x <= 1e39", Some(ZERO), None),
    ("x >= -1e20", None, None),
    ("x >= - -4", Some((4, 1)), None),
    // A later bound replaces an earlier one.
    ("x <= 1 x <= 2", Some(ZERO), Some((2, 1))),
    ("x = 3 x <= 9", Some((3, 1)), Some((9, 1))),
    ("x <= 1 x free", None, None),
    ("x free bounds x >= 1", Some(ONE), None),
];

fn has_bounds(
    alloc: Global,
    bound: &str,
    lower: Option<Ratio>,
    upper: Option<Ratio>,
) -> Result<bool, Fail> {
    let text = format!(in alloc; "min st bounds x >= 0 {bound} end")?;
    let var = ("x", lower, upper, ZERO, VarKind::Continuous);
    has(alloc, text.as_str(), &[var], &[])
}

#[test]
fn bounds(rt: HostRuntime) -> Result<(), Fail> {
    for (bound, lower, upper) in BOUNDS {
        assert!(rt; has_bounds(rt.alloc(), bound, *lower, *upper)?, "{bound}");
    }
    Ok(())
}

/// A later section replaces an earlier one's kind, and each section may mention a variable first.
const KINDS: &str = "min x st binary y general x y bounds w <= 1 z >= 2 bin x gen end";

const KINDS_VARS: &[VarOf<'static>] = &[
    ("x", Some(ZERO), None, ONE, VarKind::Binary),
    ("y", Some(ZERO), None, ZERO, VarKind::Integer),
    ("w", Some(ZERO), Some(ONE), ZERO, VarKind::Continuous),
    ("z", Some((2, 1)), None, ZERO, VarKind::Continuous),
];

#[test]
fn kinds(rt: HostRuntime) -> Result<(), Fail> {
    assert!(rt; has(rt.alloc(), KINDS, KINDS_VARS, &[])?);
    Ok(())
}

const NOTHING_FITS: &[FaultAt] = &[
    ("max x y st end", 1, 7),
    ("max 3 4 x st end", 1, 7),
    ("max x inf st end", 1, 7),
    ("max x + + y st end", 1, 9),
    ("max x + bounds", 1, 9),
    ("max 5 x : y", 1, 9),
    ("max x subject y end", 1, 15),
    ("max x such end", 1, 12),
    ("max x st free end", 1, 10),
    ("max x st st end", 1, 10),
    ("max x st + <= 5 end", 1, 12),
    ("max x st x + 3 <= 5 end", 1, 16),
    ("max x st c: 3 y - 2 = 4 end", 1, 21),
    ("max x st c: x = y end", 1, 17),
    ("max x st x <= - - 5 end", 1, 17),
    ("max x st bounds st end", 1, 17),
    ("max x st bounds <= 5", 1, 17),
    ("max x st bounds x 5", 1, 19),
    ("max x st bounds x : 1", 1, 19),
    ("max x st bounds inf x", 1, 21),
    ("max x st bounds 5 <= inf end", 1, 22),
    ("max x st bounds 1 <= x = 5", 1, 24),
    ("max x st bounds 1 <= x >= 5", 1, 24),
    ("max x st generals x: end", 1, 19),
    ("max x st generals inf end", 1, 19),
    // A byte that no token has is at fault itself.
    ("max 2x\u{1} st end", 1, 7),
    ("max x st end x\u{1}", 1, 15),
    // Lines end at their line feeds, those of comments too.
    ("max x\nst\n\\ c: y\n  c: x y <= 1\nend", 4, 8),
    ("max x\r\nst\r\n  y y\r\n", 3, 5),
];

#[test]
fn nothing_fits(rt: HostRuntime) {
    for (text, line, column) in NOTHING_FITS {
        assert!(rt;
            is_fault(rt.alloc(), text, *line, *column, FaultWord::Word),
            "{text}"
        );
    }
}

const NO_SECTION: &[FaultAt] = &[
    ("", 1, 1),
    ("\\ a comment\n ", 2, 2),
    ("x st end", 1, 1),
    ("inf", 1, 1),
    ("max x bounds x <= 1", 1, 7),
    ("max x free st end", 1, 7),
    ("max x end", 1, 7),
    ("max x +", 1, 8),
    ("max x subject", 1, 14),
    ("max x st x <=", 1, 14),
    ("max x\n", 2, 1),
    ("max x st x <= 1\n\n bounds 3 <=", 3, 13),
];

#[test]
fn no_section(rt: HostRuntime) {
    for (text, line, column) in NO_SECTION {
        assert!(rt;
            is_fault(rt.alloc(), text, *line, *column, FaultWord::NoSection),
            "{text}"
        );
    }
}

const UNSUPPORTED: &[FaultAt] = &[
    ("max x st x <= 5 <= 6 end", 1, 17),
    ("max x st 3 <= x end", 1, 12),
    ("max x st c: - 3 <= x end", 1, 17),
    ("max x st x <= 5 3 <= y end", 1, 19),
    ("[x]", 1, 1),
    ("max x -> y", 1, 7),
    ("max x st lazy constraints", 1, 10),
    ("max x st x <= 1\nsemis x", 2, 1),
    ("max x st end [", 1, 14),
];

#[test]
fn unsupported(rt: HostRuntime) {
    for (text, line, column) in UNSUPPORTED {
        assert!(rt;
            is_fault(rt.alloc(), text, *line, *column, FaultWord::Unsupported),
            "{text}"
        );
    }
}

const NUMBERS: &[FaultAt] = &[
    (
        "Minimize\n x\nSubject To\n c: x+y >= 1\n d: 2x >= 1\nEnd\n",
        5,
        5,
    ),
    ("2x st end", 1, 1),
    ("max x +inf y st end", 1, 7),
    ("max 1e39 x st end", 1, 5),
    ("max x st x <= inf end", 1, 15),
    ("max x st c: - 8e-39 x <= 1 end", 1, 15),
    ("max x st bounds inf <= 5", 1, 17),
    ("max x st bounds 8e-39 y end", 1, 17),
    ("max x st bounds - inf >= x", 1, 19),
    ("max x st bounds x = 1e20", 1, 21),
    ("max x st bounds x >= inf end", 1, 22),
    ("max x st bounds x <= -inf end", 1, 22),
    ("max x st bounds 0 <= x <= -1e20 end", 1, 27),
    // An addition that doesn't fit.
    (
        "max 170141183460469231731687303715884105727 x + x st end",
        1,
        49,
    ),
    (
        "max 170141183460469231731687303715884105727 + 1 st end",
        1,
        47,
    ),
    (
        "max x st c: 170141183460469231731687303715884105727 x + x <= 1 end",
        1,
        57,
    ),
    // The fault of what waits for the next token comes first.
    ("max 170141183460469231731687303715884105727 + 1 [", 1, 47),
    ("max 170141183460469231731687303715884105727 + 1", 1, 47),
];

#[test]
fn numbers_at_fault(rt: HostRuntime) {
    for (text, line, column) in NUMBERS {
        assert!(rt;
            is_fault(rt.alloc(), text, *line, *column, FaultWord::Number),
            "{text}"
        );
    }
}

const DOUBLED: &[FaultAt] = &[
    ("min st c: x = 1\nc: y = 1 end", 2, 1),
    ("max x st R1: x <= 1 y <= abc end", 1, 21),
    ("max x st R1: x <= 1 y", 1, 21),
    ("max x st R1: x <= 1 y [", 1, 21),
    ("max x st x <= 1 R0: x <= abc", 1, 17),
    ("max x st a : x <= 1 a : x", 1, 21),
];

const FURTHER: &[FaultAt] = &[
    ("max x st end x", 1, 14),
    ("max x st end inf", 1, 14),
    ("max x st\nend\n\\ end\n  end", 4, 3),
];

#[test]
fn doubled_names_and_further_tokens(rt: HostRuntime) {
    for (text, line, column) in DOUBLED {
        assert!(rt;
            is_fault(rt.alloc(), text, *line, *column, FaultWord::DoubledName),
            "{text}"
        );
    }
    for (text, line, column) in FURTHER {
        assert!(rt;
            is_fault(rt.alloc(), text, *line, *column, FaultWord::AfterEnd),
            "{text}"
        );
    }
}

fn name_of_255_bytes(alloc: Global) -> Result<String, NoMemory> {
    let mut long = String::new(alloc);
    for _ in 0..255 {
        long.push('a')?;
    }
    Ok(long)
}

fn is_a_name(alloc: Global, name: &str) -> Result<bool, Fail> {
    let text = format!(in alloc; "min {name} st end")?;
    let var = (name, Some(ZERO), None, ONE, VarKind::Continuous);
    has(alloc, text.as_str(), &[var], &[])
}

fn is_too_long(alloc: Global, name: &str) -> Result<bool, NoMemory> {
    let text = format!(in alloc; "min x +\n a{name} st end")?;
    Ok(is_fault(alloc, text.as_str(), 2, 2, FaultWord::NameLength))
}

#[test]
fn long_names(rt: HostRuntime) -> Result<(), Fail> {
    let long = name_of_255_bytes(rt.alloc())?;
    assert!(rt; is_a_name(rt.alloc(), long.as_str())?);
    assert!(rt; is_too_long(rt.alloc(), long.as_str())?);
    Ok(())
}
