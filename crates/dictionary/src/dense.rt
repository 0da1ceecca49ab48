//! The dense representation.
ghost use Rattle.std.specs.Prelude.{◌≡◌, ◌+◌, ◌*◌, ◌^◌, ◌<◌, ◌==◌, Contains, IfOk, None, Some, length, position};
ghost use Rattle.std.specs.List.{position_or_len};
ghost use Rattle.frac128.specs.Fraction.{negation, one_value};
ghost use Rattle.dictionary.specs.Cells.{AreCellsOf};
ghost use Rattle.dictionary.specs.Dictionary.{IsUniform, opening, with_artificial, without_artificial};
ghost use Rattle.dictionary.specs.declared.standard.Std.{Std as StdDef};

use crate::elimination::{eliminate_auxiliary, eliminate_objective, pivot_rows};
use crate::openings::{
    auxiliary_row, cells_from, needs_phase_one, numbers_from, objective_row, opening_cells,
};
use crate::removal::remove_column;
use crate::standard::Std;
use crate::tableaus::Tableau;
use base_names::NoMemory;
use frac128::{Frac, Wide};
use std::alloc::Global;
use std::marker::Model;

/// A dictionary that keeps each entry.
#[derive(Debug, Drop)]
pub struct Dict {
    basic: Vec<u32>,
    nonbasic: Vec<u32>,
    /// The rows of the basic variables, one behind the other.
    cells: Vec<Frac>,
    objective: Vec<Frac>,
    auxiliary: Option<Vec<Frac>>,
}

impl Model for Dict {
    ghost use Rattle.dictionary.specs.Dictionary.{Dictionary};

    ghost Value = { Dictionary };

    ghost use Rattle.dictionary.specs.Dense.{IsFilled, dictionary_of};

    ghost view = { dictionary_of };

    ghost invariant = { IsFilled };
}

impl Dict {
    /// The dictionary that a standard form opens with, which is in phase one exactly where some right side is below 0.
    #[tactic(auto, unfolding(crate::specs::Dictionary::opening))]
    pub fn new(alloc: Global, s: &Std) -> Result<Dict, NoMemory>
        requires { IsUniform s.now }
        ensures { IfOk result (λ dict. dict ≡ opening s.now) }
    {
        let rows = s.rows.as_slice();
        let obj = s.obj.as_slice();
        if needs_phase_one(s) {
            let cells = opening_cells(alloc, rows, &Some(Frac::one().neg()), obj.len() + 2)?;
            Dict::with_artificial(alloc, cells, rows.len(), obj, s.constant)
        } else {
            let cells = opening_cells(alloc, rows, &None, obj.len() + 1)?;
            Dict::without_artificial(alloc, cells, rows.len(), obj, s.constant)
        }
    }

    /// The same of a form that nobody wants behind it: each of its rows is freed once its entries stand in the dictionary.
    #[tactic(auto, unfolding(crate::specs::Dictionary::opening))]
    pub fn from_std(alloc: Global, s: Std) -> Result<Dict, NoMemory>
        requires { IsUniform s }
        ensures { IfOk result (λ dict. dict ≡ opening s) }
    {
        let phase_one = needs_phase_one(&s);
        let count = s.rows.len();
        let columns = s.obj.len();
        if phase_one {
            let cells = cells_from(
                alloc,
                s.rows.into_vec(),
                &Some(Frac::one().neg()),
                columns + 2,
            )?;
            Dict::with_artificial(alloc, cells, count, s.obj.as_slice(), s.constant)
        } else {
            let cells = cells_from(alloc, s.rows.into_vec(), &None, columns + 1)?;
            Dict::without_artificial(alloc, cells, count, s.obj.as_slice(), s.constant)
        }
    }

    /// In phase two, with these cells of so many rows.
    #[tactic(auto, unfolding(crate::specs::Dictionary::without_artificial))]
    fn without_artificial(
        alloc: Global,
        cells: Vec<Frac>,
        rows: usize,
        obj: &[Frac],
        constant: Frac,
    ) -> Result<Dict, NoMemory>
        requires cells { length cells.items ≡ rows * (length obj.now + 1) }
        requires row_limit { rows < 2 ^ 31 }
        requires column_limit { length obj.now < 2 ^ 31 }
        ensures { IfOk result (λ dict. (s : StdDef) → AreCellsOf None s rows obj.now constant cells.items → dict ≡ without_artificial s) }
    {
        let columns = obj.len();
        let objective = objective_row(alloc, constant, obj, &None)?;
        let nonbasic = numbers_from(alloc, 1, columns as u32)?;
        let basic = numbers_from(alloc, columns as u32 + 1, rows as u32)?;
        Ok(Dict {
            basic,
            nonbasic,
            cells,
            objective,
            auxiliary: None,
        })
    }

    /// In phase one, with these cells of so many rows.
    #[tactic(auto, unfolding(crate::specs::Dictionary::with_artificial, crate::specs::Dictionary::without_artificial))]
    fn with_artificial(
        alloc: Global,
        cells: Vec<Frac>,
        rows: usize,
        obj: &[Frac],
        constant: Frac,
    ) -> Result<Dict, NoMemory>
        requires cells { length cells.items ≡ rows * (length obj.now + 2) }
        requires row_limit { rows < 2 ^ 31 }
        requires column_limit { length obj.now < 2 ^ 31 }
        ensures { IfOk result (λ dict. (s : StdDef) → AreCellsOf (Some (negation one_value)) s rows obj.now constant cells.items
            → dict ≡ with_artificial (without_artificial s)) }
    {
        let columns = obj.len();
        let objective = objective_row(alloc, constant, obj, &Some(Frac::zero()))?;
        let auxiliary = auxiliary_row(alloc, columns)?;
        let mut nonbasic = numbers_from(alloc, 1, columns as u32)?;
        nonbasic.push(0)?;
        let basic = numbers_from(alloc, columns as u32 + 1, rows as u32)?;
        Ok(Dict {
            basic,
            nonbasic,
            cells,
            objective,
            auxiliary: Some(auxiliary),
        })
    }
}

impl Tableau for Dict {
    ghost meaning = { λ dict. dict };

    ghost ready = { λ _ _ _. Unit {0} };

    fn rows(&self) -> u32 {
        self.basic.len() as u32
    }

    fn cols(&self) -> u32 {
        self.nonbasic.len() as u32
    }

    fn entry(&self, row: u32, col: u32) -> Frac {
        let place = row as usize - 1;
        let column = col as usize;
        let rows = self.basic.len();
        if place < rows {
            return self.cells[place * (self.nonbasic.len() + 1) + column];
        }
        match &self.auxiliary {
            Some(auxiliary) if place > rows => auxiliary[column],
            _ => self.objective[column],
        }
    }

    fn basic(&self, row: u32) -> u32 {
        self.basic[row as usize - 1]
    }

    fn nonbasic(&self, col: u32) -> u32 {
        self.nonbasic[col as usize - 1]
    }

    fn in_phase_one(&self) -> bool {
        self.auxiliary.is_some()
    }

    fn end_phase_one(&mut self) {
        let place = place_of_artificial(self.nonbasic.as_slice()).unwrap();
        let width = self.nonbasic.len() + 1;
        remove_column(&mut self.cells, self.basic.len(), width, place + 1);
        self.objective.remove(place + 1);
        self.nonbasic.remove(place);
        self.auxiliary = None;
    }

    fn pivot(&mut self, row: u32, col: u32) -> Result<(), Wide> {
        let place = row as usize - 1;
        let column = col as usize;
        let width = self.nonbasic.len() + 1;
        pivot_rows(
            self.cells.as_mut_slice(),
            self.basic.len(),
            width,
            row as usize,
            column,
        )?;
        let solved = &self.cells[place * width..place * width + width];
        eliminate_objective(self.objective.as_mut_slice(), solved, column)?;
        eliminate_auxiliary(&mut self.auxiliary, solved, column)?;
        let entering = self.nonbasic[column - 1];
        self.nonbasic[column - 1] = self.basic[place];
        self.basic[place] = entering;
        Ok(())
    }
}

/// The place of the artificial variable among the nonbasic ones.
fn place_of_artificial(nonbasic: &[u32]) -> Option<usize>
    ensures { result ≡ position (λ index. index == 0) nonbasic.now }
{
    nonbasic.iter().position(|index| *index == 0)
}
