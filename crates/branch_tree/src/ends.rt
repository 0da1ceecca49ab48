//! What is found where a node's relaxation has come to its end.
//!
//! Nothing is changed here: all that a turn needs memory for is made first.
ghost use Rattle.std.specs.Prelude.{◌≡◌, ◌<◌, ℕ, All, IfOk, length};
ghost use Rattle.frac128.specs.Fraction.{one_value};
ghost use Rattle.frac128.specs.Checked.{checked_sum};
ghost use Rattle.model_data.specs.declared.model.Model.{Model};
ghost use Rattle.model_data.specs.declared.params.Params.{Params};
ghost use Rattle.solve_defs.specs.Path.{an_end, coming};
ghost use Rattle.solve_defs.specs.Plain.{Node, Search, at_fractional, best_turn, bound_turn, bound_weights, farkas_weights, first_fractional, pointless_turn, split_turn, unbounded_turn};
ghost use Rattle.solve_defs.specs.Ends.{structural_count};
ghost use Rattle.solve_defs.specs.StandardForm.{column_count, shapes_of};
ghost use Rattle.solve_defs.specs.Values.{floor_of, whole};
ghost use Rattle.solve_defs.specs.declared.solving.LpEnd.TheVariants.{NoPoint, Unbounded};
ghost use Rattle.std_form.specs.Cuts.{IsCutOf, IsSmall};
ghost use Rattle.branch_tree.specs.Findings.{HasCutsOf, answer_of, placed_of, sol_of, turn_by, with_point};

use crate::finding::{Finding, Halves};
use crate::readings::{Fractional, are_continuous, first_fractional, floor, improves, turned};
use base_names::{NoMemory, OrMemory, Seq};
use dictionary::{Dict, Tableau};
use frac128::{Frac, Wide};
use lp_certs::{dual_of, farkas_of, point_of, ray_of};
use model_data::{CertNode, Point, SoundModel};
use solve_defs::Cut;
use std::alloc::Global;
use std_form::{StdFault, dual_back, point_back, ray_back};

/// The relaxation has no point: its weights close the node.
pub(crate) fn pointless(
    alloc: Global,
    m: &SoundModel,
    cuts: &Vec<Cut>,
    t: &Dict,
) -> Result<Finding, NoMemory>
    requires cuts { All (IsCutOf (length m.now.model.vars)) cuts.now.items }
    requires end { coming t.now ≡ an_end NoPoint }
    ensures turn { IfOk result (λ found. (p : Params) (s : Search) → turn_by m.now.model p s cuts.now.items found
        ≡ pointless_turn m.now.model p s (farkas_weights m.now.model record { cuts = cuts.now.items; dictionary = t.now })) }
    ensures cuts { IfOk result (HasCutsOf (length m.now.model.vars)) }
{
    let duals = farkas_of(alloc, t)?;
    let weights = dual_back(
        alloc,
        &m.model,
        cuts,
        duals.ys.as_vec(),
        duals.reduced.as_vec(),
    );
    match apart(weights)? {
        Ok(weights) => Ok(Finding::Closed(CertNode::Farkas(weights), None)),
        Err(wide) => Ok(Finding::TooWide(wide, None)),
    }
}

/// The relaxation has no bound, which is the root's: a ray, where each variable is continuous.
#[tactic(auto, using(crate::proofs::Relaxing::ray_point_long, crate::proofs::Relaxing::ray_long))]
pub(crate) fn unbounded(
    alloc: Global,
    m: &SoundModel,
    cuts: &Vec<Cut>,
    t: &Dict,
) -> Result<Finding, NoMemory>
    requires cuts { All (IsCutOf (length m.now.model.vars)) cuts.now.items }
    requires columns { structural_count t.now ≡ column_count (shapes_of m.now.model cuts.now.items) }
    requires end { coming t.now ≡ an_end Unbounded }
    ensures turn { IfOk result (λ found. (p : Params) (s : Search) → turn_by m.now.model p s cuts.now.items found
        ≡ unbounded_turn m.now.model s record { cuts = cuts.now.items; dictionary = t.now }) }
    ensures cuts { IfOk result (HasCutsOf (length m.now.model.vars)) }
{
    if !are_continuous(&m.model) {
        return Ok(Finding::RisingRelaxed);
    }
    let columns = ray_of(alloc, t)?;
    let point = match apart(point_back(alloc, &m.model, cuts, columns.point.as_vec()))? {
        Ok(point) => point,
        Err(wide) => return Ok(Finding::TooWide(wide, None)),
    };
    match apart(ray_back(alloc, &m.model, cuts, columns.ray.as_vec()))? {
        Ok(ray) => Ok(Finding::Rising(Seq::of(point), Seq::of(ray))),
        Err(wide) => Ok(Finding::TooWide(wide, None)),
    }
}

/// The relaxation is at its best point. Only a value that is better than the best so far is carried back.
#[tactic(auto, using(crate::proofs::Relaxing::point_long))]
pub(crate) fn best(
    alloc: Global,
    m: &SoundModel,
    cuts: &Vec<Cut>,
    t: &Dict,
    incumbent: &Option<Point>,
) -> Result<Finding, NoMemory>
    requires cuts { All (IsCutOf (length m.now.model.vars)) cuts.now.items }
    requires columns { structural_count t.now ≡ column_count (shapes_of m.now.model cuts.now.items) }
    ensures turn { IfOk result (λ found. (p : Params) (s : Search) → s.incumbent ≡ incumbent.now → turn_by m.now.model p s cuts.now.items found
        ≡ best_turn m.now.model p s record { cuts = cuts.now.items; dictionary = t.now }) }
    ensures cuts { IfOk result (HasCutsOf (length m.now.model.vars)) }
{
    let value = turned(m.model.direction, &t.entry(t.rows() + 1, 0));
    if !improves(&m.model, &value, incumbent) {
        return bounded(alloc, m, cuts, t, None);
    }
    let columns = point_of(alloc, t)?;
    match apart(point_back(alloc, &m.model, cuts, &columns))? {
        Ok(xs) => {
            let xs = Seq::of(xs);
            carried_back(alloc, m, cuts, t, Point { xs, value })
        }
        Err(wide) => Ok(Finding::TooWide(wide, None)),
    }
}

/// The best point of the relaxation, carried back, closes the node where its integer variables are whole, else the first that isn't
/// splits it.
fn carried_back(
    alloc: Global,
    m: &SoundModel,
    cuts: &Vec<Cut>,
    t: &Dict,
    point: Point,
) -> Result<Finding, NoMemory>
    requires cuts { All (IsCutOf (length m.now.model.vars)) cuts.now.items }
    ensures turn { IfOk result (λ found. (p : Params) (s : Search) → turn_by m.now.model p s cuts.now.items found
        ≡ at_fractional m.now.model p s record { cuts = cuts.now.items; dictionary = t.now } point (first_fractional 0 m.now.model.vars point.xs)) }
    ensures cuts { IfOk result (HasCutsOf (length m.now.model.vars)) }
{
    match first_fractional(&m.model, point.xs.as_slice()) {
        Some(at) => Ok(halved(at)),
        None => bounded(alloc, m, cuts, t, Some(point)),
    }
}

/// The node is closed by the weights of the relaxation's best value, with this best point where there is one.
fn bounded(
    alloc: Global,
    m: &SoundModel,
    cuts: &Vec<Cut>,
    t: &Dict,
    point: Option<Point>,
) -> Result<Finding, NoMemory>
    requires cuts { All (IsCutOf (length m.now.model.vars)) cuts.now.items }
    ensures turn { IfOk result (λ found. (p : Params) (s : Search) → turn_by m.now.model p s cuts.now.items found
        ≡ bound_turn m.now.model p (with_point s point) (sol_of m.now.model s point) (bound_weights m.now.model record { cuts = cuts.now.items; dictionary = t.now })) }
    ensures cuts { IfOk result (HasCutsOf (length m.now.model.vars)) }
{
    let duals = dual_of(alloc, t)?;
    let weights = dual_back(
        alloc,
        &m.model,
        cuts,
        duals.ys.as_vec(),
        duals.reduced.as_vec(),
    );
    match apart(weights)? {
        Ok(weights) => Ok(Finding::Closed(CertNode::Bound(weights), point)),
        Err(wide) => Ok(Finding::TooWide(wide, point)),
    }
}

/// The variable is at most the floor of its value, or at least the next whole number.
fn halved(at: Fractional) -> Finding
    ensures turn { (m : Model) (p : Params) (s : Search) (node : Node) → turn_by m p s node.cuts result
        ≡ split_turn m p s node at.place (floor_of at.value) (checked_sum (whole (floor_of at.value)) one_value) }
    ensures cuts { (n : ℕ) → at.place < n → HasCutsOf n result }
{
    let most = floor(&at.value);
    match whole(most).checked_add(&Frac::one()) {
        Ok(next) => Finding::Halved(Halves {
            place: at.place,
            most,
            least: next.num(),
        }),
        Err(wide) => Finding::TooWide(wide, None),
    }
}

fn whole(n: i128) -> Frac
    requires { IsSmall n }
    ensures { result ≡ whole n }
{
    Frac::make(n, 1).unwrap()
}

/// Want of memory, apart from an operation that doesn't fit.
fn apart<T>(answer: Result<T, OrMemory<StdFault>>) -> Result<Result<T, Wide>, NoMemory>
    ensures { IfOk result (λ told. answer ≡ answer_of told) }
{
    match answer {
        Ok(value) => Ok(Ok(value)),
        Err(OrMemory::Fault(StdFault::Wide(wide))) => Ok(Err(wide)),
        Err(OrMemory::NoMemory) => Err(NoMemory),
    }
}
