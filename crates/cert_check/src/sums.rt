//! The sums of all variables in a leaf's combination.
//!
//! They are formed row by row, so that a leaf takes time in its weights and the terms of their rows. Each variable's operations come
//! in the order of the weights all the same. One that doesn't fit is kept until its variable is looked at.
ghost use Rattle.std.specs.Prelude.{◌≡◌, ◌<◌, All, IfOk, length, replicate, slice_set};
ghost use Rattle.solve_defs.specs.Looks.{minus, plus, plus_times};
ghost use Rattle.model_data.specs.Lawful.{IsLawful};
ghost use Rattle.cert_check.specs.Leaves.{Fit};
ghost use Rattle.cert_check.specs.Sums.{AreNumbered, leaf_sums, no_sum, stepped, sum_at, with_bounds, with_rows, with_terms};

use crate::items::item;
use crate::values::plus_product;
use base_names::NoMemory;
use frac128::{Frac, Wide};
use model_data::{Model as LinearModel, Row, Term, Weight, Weights};
use std::alloc::Global;
use std::marker::Model;

/// A sum, or the first of its operations that doesn't fit, for each variable.
#[derive(Debug, Drop)]
pub(crate) struct Sums {
    sums: Vec<Result<Frac, Wide>>,
}

impl Model for Sums {
    ghost use Rattle.std.specs.Prelude.{List};
    ghost use Rattle.cert_check.specs.Sums.{Sum};

    ghost Value = { List Sum };

    ghost view = { λ s. s.sums.items };
}

impl Sums {
    /// A 0 for each variable.
    pub(crate) fn zeros(alloc: Global, count: usize) -> Result<Sums, NoMemory>
        ensures { IfOk result (λ sums. sums ≡ replicate count no_sum) }
    {
        Ok(Sums {
            sums: vec![in alloc; Ok(Frac::zero()); count]?,
        })
    }

    /// Adds all that a leaf's weights make of the rows and the bounds.
    pub(crate) fn add(&mut self, m: &LinearModel, weights: &Weights)
        requires lawful { IsLawful m.now }
        requires weights { Fit m.now weights.now }
        requires sums { self.old ≡ replicate (length m.now.vars) no_sum }
        ensures { self.new ≡ leaf_sums m.now weights.now }
    {
        self.add_rows(m.rows.as_slice(), weights.rows.as_slice());
        self.take_lows(weights.lows.as_slice());
        self.add_ups(weights.ups.as_slice());
    }

    /// Adds the terms of each row that has a weight.
    fn add_rows(&mut self, rows: &[Row], weights: &[Weight])
        requires places { All (λ row. All (λ t. t.var < length self.old) row.terms) rows.now }
        requires numbers { AreNumbered (length rows.now) weights.now }
        ensures { self.new ≡ with_rows rows.now weights.now self.old }
    {
        for w in weights {
            self.add_row(&w.weight, item(rows, w.place).terms.as_slice());
        }
    }

    fn add_row(&mut self, weight: &Frac, terms: &[Term])
        requires { All (λ t. t.var < length self.old) terms.now }
        ensures { self.new ≡ with_terms weight.now terms.now self.old }
    {
        for term in terms {
            let place = term.var as usize;
            self.sums[place] = with_product(&self.sums[place], weight, &term.coef);
        }
    }

    /// Takes the weights of lower bounds off the sums of their variables.
    fn take_lows(&mut self, lows: &[Weight])
        requires { AreNumbered (length self.old) lows.now }
        ensures { self.new ≡ with_bounds minus lows.now self.old }
    {
        for w in lows {
            let place = w.place as usize - 1;
            self.sums[place] = less(&self.sums[place], &w.weight);
        }
    }

    /// Adds the weights of upper bounds to the sums of their variables.
    fn add_ups(&mut self, ups: &[Weight])
        requires { AreNumbered (length self.old) ups.now }
        ensures { self.new ≡ with_bounds plus ups.now self.old }
    {
        for w in ups {
            let place = w.place as usize - 1;
            self.sums[place] = with(&self.sums[place], &w.weight);
        }
    }

    /// The sum of the variable of this place, which is 0 from now on.
    pub(crate) fn take(&mut self, place: usize) -> Result<Frac, Wide>
        requires { place < length self.old }
        ensures sum { result ≡ sum_at self.old place }
        ensures rest { self.new ≡ slice_set self.old place no_sum }
    {
        let sum = self.sums[place];
        self.sums[place] = Ok(Frac::zero());
        sum
    }
}

fn with_product(sum: &Result<Frac, Wide>, x: &Frac, y: &Frac) -> Result<Frac, Wide>
    ensures { result ≡ stepped sum.now (plus_times x.now y.now) }
{
    match sum {
        Ok(total) => plus_product(x, total, y),
        Err(wide) => Err(*wide),
    }
}

fn with(sum: &Result<Frac, Wide>, x: &Frac) -> Result<Frac, Wide>
    ensures { result ≡ stepped sum.now (plus x.now) }
{
    match sum {
        Ok(total) => total.checked_add(x),
        Err(wide) => Err(*wide),
    }
}

fn less(sum: &Result<Frac, Wide>, x: &Frac) -> Result<Frac, Wide>
    ensures { result ≡ stepped sum.now (minus x.now) }
{
    match sum {
        Ok(total) => total.checked_sub(x),
        Err(wide) => Err(*wide),
    }
}
