//! Times the operations of `frac128` on operands of three sizes, for `bench/frac`.
//!
//! With no argument it prints a checksum of the results of each operation at each size, which is always the same. With
//! the argument `time` it prints the nanoseconds of processor time of one operation in place of the checksum.
#![tactic(auto)]

ghost use Rattle.std.specs.Prelude.{◌^◌, pos, ◌<ℤ◌, ◌≤ℤ◌};

use frac128::Frac;
use std::cmp::Ordering;
use std::time::CpuClock;
use std::{env, io};

const PAIRS: usize = 512;

const ROUNDS: u32 = 400;

const MOST: u128 = 1 << 126;

type Pairs = [(Frac, Frac); PAIRS];

#[derive(Clone, Copy)]
enum Op {
    Add,
    Mul,
    Cmp,
}

/// A linear congruential generator, of which the upper halves are used.
#[derive(Drop)]
struct Random {
    state: u64,
}

impl Random {
    fn next(&mut self) -> u128 {
        self.state = self
            .state
            .wrapping_mul(6_364_136_223_846_793_005)
            .wrapping_add(1_442_695_040_888_963_407);
        (self.state >> 32) as u128
    }

    fn below(&mut self, limit: u128) -> i128
        ensures at_least { pos 0 ≤ℤ result }
        ensures below { result <ℤ pos (2 ^ 126) }
    {
        let limit = limit.clamp(1, MOST);
        let mut drawn = 0;
        for _ in 0..4 {
            drawn = (drawn << 32) | self.next();
        }
        (drawn % limit) as i128
    }

    fn fraction(&mut self, limits: (u128, u128)) -> Frac {
        let size = self.below(limits.0);
        let num = if self.next() % 2 == 0 { size } else { -size };
        let den = self.below(limits.1);
        Frac::make(num, den + 1).unwrap_or(Frac::zero())
    }
}

/// Pairs of fractions whose numerators and denominators stay below these limits.
fn pairs_below(left: (u128, u128), right: (u128, u128)) -> Pairs {
    let mut random = Random { state: 1 };
    let mut pairs = [(Frac::zero(), Frac::zero()); PAIRS];
    for pair in pairs.iter_mut() {
        *pair = (random.fraction(left), random.fraction(right));
    }
    pairs
}

fn mixed(check: u128, made: Option<Frac>) -> u128 {
    match made {
        Some(f) => check.rotate_left(7) ^ f.num().unsigned_abs() ^ f.den().unsigned_abs(),
        None => check.rotate_left(1),
    }
}

fn add_all(pairs: &Pairs, check: u128) -> u128 {
    let mut check = check;
    for (left, right) in pairs {
        check = mixed(check, left.add(right));
    }
    check
}

fn mul_all(pairs: &Pairs, check: u128) -> u128 {
    let mut check = check;
    for (left, right) in pairs {
        check = mixed(check, left.mul(right));
    }
    check
}

fn cmp_all(pairs: &Pairs, check: u128) -> u128 {
    let mut check = check;
    for (left, right) in pairs {
        check = match left.cmp(right) {
            Ordering::Less => check.rotate_left(1),
            Ordering::Equal => check.rotate_left(3) ^ 1,
            Ordering::Greater => check.rotate_left(5) ^ 2,
        };
    }
    check
}

fn once(op: Op, pairs: &Pairs, check: u128) -> u128 {
    match op {
        Op::Add => add_all(pairs, check),
        Op::Mul => mul_all(pairs, check),
        Op::Cmp => cmp_all(pairs, check),
    }
}

/// One line: the name, and the checksum or the tenths of nanoseconds of one operation.
fn measured(
    rt: &(impl Print + CpuClock),
    is_timed: bool,
    name: &str,
    op: Op,
    pairs: &Pairs,
) -> io::Result<()> {
    let mut check = once(op, pairs, 0);
    if !is_timed {
        return println!(rt; "{name} {check:032x}");
    }
    let start = rt.process_cpu_time()?;
    for _ in 0..ROUNDS {
        check = once(op, pairs, check);
    }
    let nanos = rt.process_cpu_time()?.saturating_sub(start).as_nanos();
    let tenths = nanos / (ROUNDS as u128 * PAIRS as u128 / 10);
    println!(rt; "{name} {}.{} {check:032x}", tenths / 10, tenths % 10)
}

fn main(rt: HostRuntime) -> io::Result<()> {
    let is_timed = env::args(&rt)?.any(|word| word.as_str() == "time");
    let small = pairs_below((1 << 31, 1 << 31), (1 << 31, 1 << 31));
    measured(&rt, is_timed, "add small", Op::Add, &small)?;
    measured(&rt, is_timed, "mul small", Op::Mul, &small)?;
    measured(&rt, is_timed, "cmp small", Op::Cmp, &small)?;
    let middle = pairs_below((1 << 63, 1 << 63), (1 << 63, 1 << 63));
    measured(&rt, is_timed, "add middle", Op::Add, &middle)?;
    measured(&rt, is_timed, "mul middle", Op::Mul, &middle)?;
    measured(&rt, is_timed, "cmp middle", Op::Cmp, &middle)?;
    // Sizes at which sums and products still fit.
    let sums = pairs_below((1 << 96, 1 << 30), (1 << 96, 1 << 30));
    measured(&rt, is_timed, "add wide", Op::Add, &sums)?;
    let products = pairs_below((1 << 96, 1 << 30), (1 << 30, 1 << 96));
    measured(&rt, is_timed, "mul wide", Op::Mul, &products)?;
    let wide = pairs_below((MOST, MOST), (MOST, MOST));
    measured(&rt, is_timed, "cmp wide", Op::Cmp, &wide)
}
