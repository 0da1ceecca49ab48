//! Times pivots of the dense dictionary, for `bench/pivot`.
//!
//! With no argument it prints a checksum of a dictionary of each size after one pivot, which is always the same. With the
//! argument `time` it also prints the nanoseconds of processor time that a pivot takes for one entry.
#![tactic(auto)]

ghost use Rattle.std.specs.Prelude.{◌≤◌};

mod programs;

use base_names::NoMemory;
use dictionary::{Dict, Tableau};
use frac128::Frac;
use programs::{Entries, program};
use std::alloc::Global;
use std::process::ExitCode;
use std::time::CpuClock;
use std::{env, io};

/// About how many entries the timed pivots of one size go over.
const ENTRIES: u32 = 1_000_000;

const ROW: u32 = 1;

const COLUMN: u32 = 1;

/// Why no time was taken.
#[derive(Clone, Copy, Debug)]
enum Fault {
    NoMemory,
    Unfit,
    Output,
}

impl From<NoMemory> for Fault {
    fn from(_error: NoMemory) -> Fault {
        Fault::NoMemory
    }
}

impl From<io::Error> for Fault {
    fn from(_error: io::Error) -> Fault {
        Fault::Output
    }
}

/// A pivot on the first row and column. A second one leads back.
fn pivot(dict: &mut Dict) -> Result<(), Fault> {
    if dict.rows() < ROW || dict.cols() < COLUMN || dict.entry(ROW, COLUMN).is_zero() {
        return Err(Fault::Unfit);
    }
    match dict.pivot(ROW, COLUMN) {
        Ok(()) => Ok(()),
        Err(_) => Err(Fault::Unfit),
    }
}

fn mixed(check: u128, f: &Frac) -> u128 {
    check.rotate_left(7) ^ f.num().unsigned_abs() ^ f.den().unsigned_abs()
}

/// Of all entries, row by row, the objective's last.
fn checksum(dict: &Dict) -> u128 {
    let mut check = 0;
    for row in 1..=dict.rows() + 1 {
        for column in 0..=dict.cols() {
            check = mixed(check, &dict.entry(row, column));
        }
    }
    check
}

/// One line: the name, the size, the tenths of nanoseconds for one entry where they are wanted, and the checksum.
fn measured(
    rt: &(impl Print + CpuClock),
    alloc: Global,
    is_timed: bool,
    name: &str,
    size: u32,
    entries: Entries,
) -> Result<(), Fault>
    requires { size ≤ 1000 }
{
    let mut dict = Dict::new(alloc, &program(alloc, size, entries)?)?;
    pivot(&mut dict)?;
    let check = checksum(&dict);
    if !is_timed {
        println!(rt; "{name} {size} {check:032x}")?;
        return Ok(());
    }
    let cells = (size + 1) * (size + 1);
    let pivots = 2 * (ENTRIES / (2 * cells)).max(1);
    let start = rt.process_cpu_time()?;
    for _ in 0..pivots {
        pivot(&mut dict)?;
    }
    let nanos = rt.process_cpu_time()?.saturating_sub(start).as_nanos();
    let tenths = nanos * 10 / (u128::from(pivots) * u128::from(cells));
    println!(rt;
        "{name} {size} {}.{} {check:032x}",
        tenths / 10,
        tenths % 10
    )?;
    Ok(())
}

fn run(rt: &HostRuntime) -> Result<(), Fault> {
    let is_timed = env::args(rt)?.any(|word| word.as_str() == "time");
    let small = Entries {
        num: 20,
        den: 6,
        one_of: 1,
    };
    let wide = Entries {
        num: 1 << 30,
        den: 1 << 10,
        one_of: 1,
    };
    let sparse = Entries {
        one_of: 10,
        ..small
    };
    for size in [20, 60, 200] {
        measured(rt, rt.alloc(), is_timed, "small", size, small)?;
    }
    for size in [20, 60, 200] {
        measured(rt, rt.alloc(), is_timed, "wide", size, wide)?;
    }
    measured(rt, rt.alloc(), is_timed, "sparse", 200, sparse)?;
    Ok(())
}

fn main(rt: HostRuntime) -> ExitCode {
    match run(&rt) {
        Ok(()) => ExitCode::SUCCESS,
        Err(_) => ExitCode::FAILURE,
    }
}
