//! What is read of a model, of a value and of a point where a node's relaxation has come to its end.
ghost use Rattle.std.specs.Prelude.{◌≡◌, ◌<◌, ◌^◌, IfSome, length, option_map, unsigned_abs};
ghost use Rattle.model_data.specs.Lawful.{IsLawful};
ghost use Rattle.model_data.specs.Size.{is_integer};
ghost use Rattle.solve_defs.specs.Kinds.{are_continuous, is_continuous};
ghost use Rattle.solve_defs.specs.Plain.{first_fractional, improves};
ghost use Rattle.solve_defs.specs.Values.{floor_of, is_better, is_whole, turned};
ghost use Rattle.std_form.specs.Cuts.{IsSmall};
ghost use Rattle.branch_tree.specs.Findings.{placed_of};

use frac128::Frac;
use model_data::{Direction, Model, Point, VarKind};

/// A variable by its place, with its value.
#[derive(Clone, Copy, Debug)]
pub(crate) struct Fractional {
    pub(crate) place: u32,
    pub(crate) value: Frac,
}

/// Whether each variable is continuous.
pub(crate) fn are_continuous(m: &Model) -> bool
    ensures { result ≡ are_continuous m.now.vars }
{
    m.vars.as_slice().iter().all(|var| is_continuous(var.kind))
}

fn is_continuous(kind: VarKind) -> bool
    ensures { result ≡ is_continuous kind }
{
    match kind {
        VarKind::Continuous => true,
        VarKind::Integer | VarKind::Binary => false,
    }
}

fn is_integer(kind: VarKind) -> bool
    ensures { result ≡ is_integer kind }
{
    match kind {
        VarKind::Continuous => false,
        VarKind::Integer | VarKind::Binary => true,
    }
}

/// The first integer variable whose value isn't whole.
pub(crate) fn first_fractional(m: &Model, xs: &[Frac]) -> Option<Fractional>
    requires { IsLawful m.now }
    ensures first { option_map placed_of result ≡ first_fractional 0 m.now.vars xs.now }
    ensures within { IfSome result (λ f. f.place < length m.now.vars) }
{
    for (place, var) in m.vars.as_slice().iter().enumerate() {
        let Some(value) = xs.get(place) else {
            return None;
        };
        if is_integer(var.kind) && !is_whole(value) {
            return Some(Fractional {
                place: place as u32,
                value: *value,
            });
        }
    }
    None
}

fn is_whole(value: &Frac) -> bool
    ensures { result ≡ is_whole value.now }
{
    value.den() == 1
}

/// The greatest whole number that is at most the value.
pub(crate) fn floor(value: &Frac) -> i128
    ensures value { result ≡ floor_of value.now }
    ensures small { IsSmall result }
{
    value.num().div_euclid(value.den())
}

/// The value as the model has it, where z is what is maximized.
pub(crate) fn turned(direction: Direction, z: &Frac) -> Frac
    ensures { result ≡ turned direction z.now }
{
    match direction {
        Direction::Minimize => z.neg(),
        Direction::Maximize => *z,
    }
}

/// Whether the value is better than that of the best point so far.
pub(crate) fn improves(m: &Model, value: &Frac, best: &Option<Point>) -> bool
    ensures { result ≡ improves m.now value.now best.now }
{
    match best {
        Some(point) => is_better(m.direction, value, &point.value),
        None => true,
    }
}

fn is_better(direction: Direction, x: &Frac, y: &Frac) -> bool
    ensures { result ≡ is_better direction x.now y.now }
{
    match direction {
        Direction::Minimize => x.cmp(y).is_lt(),
        Direction::Maximize => y.cmp(x).is_lt(),
    }
}
