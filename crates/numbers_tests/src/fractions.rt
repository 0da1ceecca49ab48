//! Operations on fractions at the limits of 128 bits, worked out by hand.
use base_names::NoMemory;
use frac128::{Frac, Op, Wide};
use std::alloc::Global;
use std::cmp::Ordering;
use std::process::Abort;

const MAX: i128 = i128::MAX;

const MIN: i128 = i128::MIN;

const HALF: i128 = 1 << 126;

type Parts = (i128, i128);

fn frac((num, den): Parts) -> Option<Frac> {
    Frac::make(num, den)
}

fn parts_of(f: &Frac) -> Parts {
    (f.num(), f.den())
}

const LOWEST_TERMS: &[(Parts, Option<Parts>)] = &[
    ((6, 4), Some((3, 2))),
    ((-6, 4), Some((-3, 2))),
    ((6, -4), Some((-3, 2))),
    ((-6, -4), Some((3, 2))),
    ((0, -5), Some((0, 1))),
    ((7, 0), None),
    ((0, 0), None),
    ((MAX, 1), Some((MAX, 1))),
    ((1, MAX), Some((1, MAX))),
    ((MIN + 1, 1), Some((MIN + 1, 1))),
    ((MIN, 1), None),
    ((MIN, -1), None),
    ((MIN, 2), Some((-HALF, 1))),
    ((1, MIN), None),
    ((2, MIN), Some((-1, HALF))),
    ((MIN, MIN), Some((1, 1))),
    ((MAX, MIN), None),
];

fn is_made(given: Parts, wanted: Option<Parts>) -> bool {
    frac(given).map(|f| parts_of(&f)) == wanted
}

#[test]
fn lowest_terms(rt: HostRuntime) {
    for ((num, den), wanted) in LOWEST_TERMS {
        assert!(rt; is_made((*num, *den), *wanted), "{num}/{den}");
    }
    assert!(rt; frac((0, 7)) == Some(Frac::zero()));
    assert!(rt; frac((7, 7)) == Some(Frac::one()));
}

fn result_of(rt: &impl Abort, op: Op, left: &Frac, right: &Frac) -> Option<Frac> {
    match op {
        Op::Add => left.add(right),
        Op::Sub => left.sub(right),
        Op::Mul => left.mul(right),
        Op::Div => {
            assert!(rt; !right.is_zero());
            left.div(right)
        }
    }
}

fn checked_of(rt: &impl Abort, op: Op, left: &Frac, right: &Frac) -> Result<Frac, Wide> {
    match op {
        Op::Add => left.checked_add(right),
        Op::Sub => left.checked_sub(right),
        Op::Mul => left.checked_mul(right),
        Op::Div => {
            assert!(rt; !right.is_zero());
            left.checked_div(right)
        }
    }
}

const OPERATIONS: &[(Op, Parts, Parts, Option<Parts>)] = &[
    (Op::Add, (1, 2), (1, 3), Some((5, 6))),
    (Op::Add, (1, 6), (1, 10), Some((4, 15))),
    (Op::Add, (-1, 6), (1, 6), Some((0, 1))),
    (Op::Add, (MAX, 1), (0, 1), Some((MAX, 1))),
    (Op::Add, (0, 1), (-MAX, 1), Some((-MAX, 1))),
    (Op::Add, (MAX, 1), (-MAX, 1), Some((0, 1))),
    (Op::Add, (MAX, 1), (1, 1), None),
    (Op::Add, (-MAX, 1), (-1, 1), None),
    // The parts stay below the limit only over the least common denominator.
    (Op::Add, (1, HALF), (1, HALF), Some((1, HALF / 2))),
    (Op::Add, (1, HALF), (1, HALF / 2), Some((3, HALF))),
    (Op::Add, (HALF, 1), (1, 2), None),
    (Op::Add, (1, HALF), (1, 3), None),
    (Op::Sub, (1, 2), (1, 3), Some((1, 6))),
    (Op::Sub, (0, 1), (MAX, 1), Some((-MAX, 1))),
    (Op::Sub, (-MAX, 1), (1, 1), None),
    (Op::Sub, (MAX, 2), (MAX, 2), Some((0, 1))),
    (Op::Mul, (2, 3), (-9, 4), Some((-3, 2))),
    (Op::Mul, (0, 1), (MAX, 2), Some((0, 1))),
    (Op::Mul, (MAX, 1), (1, 1), Some((MAX, 1))),
    // The parts stay below the limit only where factors go out across.
    (Op::Mul, (HALF, 3), (3, HALF), Some((1, 1))),
    (Op::Mul, (-MAX, 2), (2, MAX), Some((-1, 1))),
    (Op::Mul, (3 << 100, 7), (-35, 1 << 101), Some((-15, 2))),
    (Op::Mul, (15 << 90, 1), (1, 21 << 88), Some((20, 7))),
    (Op::Mul, (1 << 63, 1), (1 << 63, 1), Some((HALF, 1))),
    (Op::Mul, (-1 << 63, 1), (1 << 64, 1), None),
    (Op::Mul, (1, MAX), (1, 2), None),
    (Op::Div, (1, 2), (-3, 4), Some((-2, 3))),
    (Op::Div, (0, 1), (5, 1), Some((0, 1))),
    (Op::Div, (MAX, 1), (MAX, 1), Some((1, 1))),
    (Op::Div, (MAX, 1), (1, MAX), None),
    (Op::Div, (1, HALF), (HALF, 1), None),
];

/// Whether the answer has these parts, and tells the operation where there are none.
fn is_answer(answer: &Result<Frac, Wide>, wanted: Option<Parts>, wide: &Wide) -> bool {
    match answer {
        Ok(f) => Some(parts_of(f)) == wanted,
        Err(told) => wanted.is_none() && told == wide,
    }
}

fn comes_to(rt: &impl Abort, wide: &Wide, wanted: Option<Parts>) -> bool {
    let (op, left, right) = (wide.op, &wide.left, &wide.right);
    result_of(rt, op, left, right).map(|f| parts_of(&f)) == wanted
        && is_answer(&checked_of(rt, op, left, right), wanted, wide)
}

fn operation(op: Op, left: Parts, right: Parts) -> Option<Wide> {
    Some(Wide {
        op,
        left: frac(left)?,
        right: frac(right)?,
    })
}

fn is_operation(rt: &impl Abort, op: Op, left: Parts, right: Parts, wanted: Option<Parts>) -> bool {
    match &operation(op, left, right) {
        Some(wide) => comes_to(rt, wide, wanted),
        None => false,
    }
}

#[test]
fn operations(rt: HostRuntime) {
    for (op, left, right, wanted) in OPERATIONS {
        assert!(rt;
            is_operation(&rt, *op, *left, *right, *wanted),
            "{op:?} {left:?} {right:?}"
        );
    }
}

/// A fraction, the whole number at or below it, and the one at or above it.
const WHOLE_NUMBERS: &[(Parts, i128, i128)] = &[
    ((7, 2), 3, 4),
    ((-7, 2), -4, -3),
    ((6, 1), 6, 6),
    ((-6, 1), -6, -6),
    ((0, 1), 0, 0),
    ((1, MAX), 0, 1),
    ((-1, MAX), -1, 0),
    ((-MAX, 1), -MAX, -MAX),
    ((-MAX, 2), -HALF, 1 - HALF),
];

fn is_beside(given: Parts, floor: i128, ceil: i128) -> bool {
    match &frac(given) {
        Some(f) => f.floor() == floor && f.ceil() == ceil,
        None => false,
    }
}

#[test]
fn whole_numbers_beside(rt: HostRuntime) {
    for ((num, den), floor, ceil) in WHOLE_NUMBERS {
        assert!(rt; is_beside((*num, *den), *floor, *ceil), "{num}/{den}");
    }
}

const ORDER: &[(Parts, Parts, Ordering)] = &[
    ((1, 2), (1, 3), Ordering::Greater),
    ((-1, 2), (-1, 3), Ordering::Less),
    ((-1, 2), (1, 3), Ordering::Less),
    ((2, 6), (1, 3), Ordering::Equal),
    ((0, 1), (0, 5), Ordering::Equal),
    ((5, 2), (7, 3), Ordering::Greater),
    ((-5, 2), (-7, 3), Ordering::Less),
    ((MAX, 1), (-MAX, 1), Ordering::Greater),
    // Cross products that are far past 128 bits.
    ((MAX, MAX - 1), (MAX - 1, MAX - 2), Ordering::Less),
    ((-MAX, MAX - 1), (1 - MAX, MAX - 2), Ordering::Greater),
    ((MAX - 2, MAX - 1), (MAX - 1, MAX), Ordering::Less),
];

fn compare(left: &Frac, right: &Frac, wanted: Ordering) -> bool {
    left.cmp(right) == wanted
        && right.cmp(left) == wanted.reverse()
        && left.neg().cmp(&right.neg()) == wanted.reverse()
        && (left == right) == (wanted == Ordering::Equal)
}

fn are_ordered(left: Parts, right: Parts, wanted: Ordering) -> bool {
    match (&frac(left), &frac(right)) {
        (Some(left), Some(right)) => compare(left, right, wanted),
        _ => false,
    }
}

#[test]
fn order(rt: HostRuntime) {
    for (left, right, wanted) in ORDER {
        assert!(rt; are_ordered(*left, *right, *wanted), "{left:?} {right:?}");
    }
}

/// Operations, with the texts that tell that they don't fit.
const TEXTS: &[(Op, Parts, Parts, &str)] = &[
    (Op::Add, (1, 2), (-1, 3), "ADD 1/2 -1/3"),
    (Op::Sub, (-4, 2), (0, 5), "SUB -2 0"),
    (Op::Mul, (1000, 1), (1000, 1), "MUL 1000 1000"),
    (
        Op::Div,
        (MAX, 2),
        (1, MAX),
        "DIV 170141183460469231731687303715884105727/2 1/170141183460469231731687303715884105727",
    ),
];

fn has_text(alloc: Global, wide: &Wide, text: &str) -> Result<bool, NoMemory> {
    Ok(wide.to_string(alloc)?.as_str() == text)
}

fn is_told(alloc: Global, op: Op, left: Parts, right: Parts, text: &str) -> Result<bool, NoMemory> {
    match &operation(op, left, right) {
        Some(wide) => has_text(alloc, wide, text),
        None => Ok(false),
    }
}

#[test]
fn texts(rt: HostRuntime) {
    for (op, left, right, text) in TEXTS {
        assert!(rt;
            is_told(rt.alloc(), *op, *left, *right, text) == Ok(true),
            "{text}"
        );
    }
}
