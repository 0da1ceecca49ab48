//! Between which values variables stand.
ghost use Rattle.std.specs.Prelude.{◌≡◌, All, IfOk, IfSome, length, map, option_map};
ghost use Rattle.solve_defs.specs.Bounds.{bounds_from, both, cut_bounds, greater_bound, kind_bounds, lesser_bound, own_bounds};
ghost use Rattle.solve_defs.specs.Values.{whole};
ghost use Rattle.std_form.specs.Cuts.{HasFractions, IsCutOf, IsSmall};

use base_names::NoMemory;
use frac128::Frac;
use model_data::{Var, VarKind};
use solve_defs::Cut;
use std::alloc::Global;
use std::marker::Model;

/// Between which values a variable stands. A side of `None` is not limited.
#[derive(Clone, Copy, Debug)]
pub(crate) struct Bounds {
    lower: Option<Frac>,
    upper: Option<Frac>,
}

impl Model for Bounds {
    ghost use Rattle.solve_defs.specs.Bounds.{Bounds};

    ghost Value = { Bounds };

    ghost view = { λ b. record { lower = b.lower; upper = b.upper } };

    ghost inverse = { λ v. record { lower = v.lower; upper = v.upper } };
}

impl Bounds {
    pub(crate) fn lower(&self) -> Option<Frac>
        ensures { result ≡ self.now.lower }
    {
        self.lower
    }

    pub(crate) fn upper(&self) -> Option<Frac>
        ensures { result ≡ self.now.upper }
    {
        self.upper
    }

    /// The variable's own bounds, with those that its kind adds.
    fn of_var(var: &Var) -> Bounds
        ensures { result ≡ own_bounds var.now }
    {
        let own = Bounds {
            lower: var.lower,
            upper: var.upper,
        };
        own.both(&Bounds::of_kind(var.kind))
    }

    fn of_kind(kind: VarKind) -> Bounds
        ensures { result ≡ kind_bounds kind }
    {
        match kind {
            VarKind::Continuous | VarKind::Integer => Bounds {
                lower: None,
                upper: None,
            },
            VarKind::Binary => Bounds {
                lower: Some(Frac::zero()),
                upper: Some(Frac::one()),
            },
        }
    }

    fn of_cut(cut: &Cut) -> Bounds
        requires { HasFractions cut.now }
        ensures { result ≡ cut_bounds cut.now }
    {
        Bounds {
            lower: cut.lower.map(whole),
            upper: cut.upper.map(whole),
        }
    }

    /// On each side the tighter bound.
    fn both(&self, other: &Bounds) -> Bounds
        ensures { result ≡ both self.now other.now }
    {
        Bounds {
            lower: greater_bound(self.lower, other.lower),
            upper: lesser_bound(self.upper, other.upper),
        }
    }
}

fn whole(n: i128) -> Frac
    requires { IsSmall n }
    ensures { result ≡ whole n }
{
    Frac::make(n, 1).unwrap()
}

fn greater_bound(x: Option<Frac>, y: Option<Frac>) -> Option<Frac>
    ensures { result ≡ greater_bound x y }
{
    match (x, y) {
        (Some(x), Some(y)) => Some(if y.cmp(&x).is_le() { x } else { y }),
        (Some(x), None) => Some(x),
        (None, y) => y,
    }
}

fn lesser_bound(x: Option<Frac>, y: Option<Frac>) -> Option<Frac>
    ensures { result ≡ lesser_bound x y }
{
    match (x, y) {
        (Some(x), Some(y)) => Some(if x.cmp(&y).is_le() { x } else { y }),
        (Some(x), None) => Some(x),
        (None, y) => y,
    }
}

/// The bounds of each variable where these cuts hold.
pub(crate) fn effective_bounds(
    alloc: Global,
    vars: &[Var],
    cuts: &[Cut],
) -> Result<Vec<Bounds>, NoMemory>
    requires { All (IsCutOf (length vars.now)) cuts.now }
    ensures { IfOk result (λ bounds. bounds.items ≡ bounds_from 0 vars.now cuts.now) }
{
    let mut bounds = own_bounds(alloc, vars)?;
    for cut in cuts {
        let own = &mut bounds[cut.var as usize];
        *own = own.both(&Bounds::of_cut(cut));
    }
    Ok(bounds)
}

fn own_bounds(alloc: Global, vars: &[Var]) -> Result<Vec<Bounds>, NoMemory>
    ensures { IfOk result (λ bounds. bounds.items ≡ map own_bounds vars.now) }
{
    Ok(vars.iter().map(|var| Bounds::of_var(var)).collect(alloc)?)
}
