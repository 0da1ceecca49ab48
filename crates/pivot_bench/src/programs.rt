//! Linear programs of chance numbers.
ghost use Rattle.std.specs.Prelude.{◌≡◌, ◌<◌, ◌^◌, ◌≤ℤ◌, ◌<ℤ◌, IfOk, length, pos};
ghost use Rattle.dictionary.specs.Dictionary.{IsUniform};

use base_names::{NoMemory, Seq};
use dictionary::{Std, StdRow};
use frac128::Frac;
use std::alloc::Global;

const MOST: u128 = 1 << 126;

/// Which entries are drawn: their numerators and denominators are below these, and one of so many isn't 0.
#[derive(Clone, Copy)]
pub struct Entries {
    pub num: u128,
    pub den: u128,
    pub one_of: u128,
}

/// A linear congruential generator, of which the upper halves are used.
#[derive(Drop)]
struct Random {
    state: u64,
}

impl Random {
    fn next(&mut self) -> u128 {
        self.state = self
            .state
            .wrapping_mul(6_364_136_223_846_793_005)
            .wrapping_add(1_442_695_040_888_963_407);
        (self.state >> 32) as u128
    }

    fn below(&mut self, limit: u128) -> i128
        ensures at_least { pos 0 ≤ℤ result }
        ensures below { result <ℤ pos (2 ^ 126) }
    {
        let limit = limit.clamp(1, MOST);
        let mut drawn = 0;
        for _ in 0..4 {
            drawn = (drawn << 32) | self.next();
        }
        (drawn % limit) as i128
    }

    fn entry(&mut self, entries: Entries) -> Frac {
        if entries.one_of > 1 && self.next() % entries.one_of != 0 {
            return Frac::zero();
        }
        let size = self.below(entries.num);
        let num = if self.next() % 2 == 0 { size } else { -size };
        let den = self.below(entries.den);
        Frac::make(num, den + 1).unwrap_or(Frac::zero())
    }

    fn fractions(
        &mut self,
        alloc: Global,
        count: u32,
        entries: Entries,
    ) -> Result<Vec<Frac>, NoMemory>
        ensures { IfOk result (λ fractions. length fractions.items ≡ count) }
    {
        let mut fractions = Vec::new(alloc);
        for _ in 0..count {
            fractions.push(self.entry(entries))?;
        }
        Ok(fractions)
    }
}

fn absolute(x: Frac) -> Frac {
    if x.num() < 0 { x.neg() } else { x }
}

/// A row whose right side is at least 0.
fn row(alloc: Global, random: &mut Random, size: u32, entries: Entries) -> Result<StdRow, NoMemory>
    ensures { IfOk result (λ row. length row.coefs ≡ size) }
{
    let rhs = absolute(random.entry(entries));
    Ok(StdRow {
        coefs: Seq::of(random.fractions(alloc, size, entries)?),
        rhs,
    })
}

/// The same row with an entry of its own in the first column, which isn't 0.
fn with_first_entry(row: StdRow, entry: Frac) -> StdRow
    ensures { length result.coefs ≡ length row.coefs }
{
    let mut coefs = row.coefs.into_vec();
    if let Some(first) = coefs.first_mut() {
        *first = entry;
    }
    StdRow {
        coefs: Seq::of(coefs),
        rhs: row.rhs,
    }
}

/// As many rows as columns.
pub fn program(alloc: Global, size: u32, entries: Entries) -> Result<Std, NoMemory>
    requires { size < 2 ^ 31 }
    ensures { IfOk result IsUniform }
{
    let mut random = Random { state: 1 };
    let mut rows = Vec::new(alloc);
    for place in 0..size {
        let row = row(alloc, &mut random, size, entries)?;
        let entry = Frac::make(3, 2).unwrap_or(Frac::one());
        let row = if place == 0 {
            with_first_entry(row, entry)
        } else {
            row
        };
        rows.push(row)?;
    }
    let constant = random.entry(entries);
    Ok(Std {
        rows: Seq::of(rows),
        obj: Seq::of(random.fractions(alloc, size, entries)?),
        constant,
    })
}
