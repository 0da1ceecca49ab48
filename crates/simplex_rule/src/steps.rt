//! One pivot by the rule.
ghost use Rattle.std.specs.Prelude.{◌≡◌, Contains, IfOk, OnErr, OnOk, true, ℕ};
ghost use Rattle.dictionary.specs.Dictionary.{HasSameSizes, artificial_column, with_value};
ghost use Rattle.solve_defs.specs.Path.{a_pivot, coming, is_basic, is_phase_one_over, next, settled};
ghost use Rattle.bland_rule.specs.Comes.{entering_of};
ghost use Rattle.simplex_rule.specs.OnPath.{IsOnPath, IsPivotPlace, place_of};

use bland_rule::{Entering, awaits_artificial, entering_column, least_row, leaving_row};
use dictionary::Tableau;
use frac128::Wide;

/// A row and a column by number.
#[derive(Clone, Copy, Debug)]
pub(crate) struct Place {
    pub(crate) row: u32,
    pub(crate) column: u32,
}

/// The pivot by which this variable enters, as comes next, and the end of phase one where it is over behind it.
///
/// It ends at the first operation that doesn't fit. Nothing is known of the entries then, but the sizes are kept.
pub fn pivot_by<T: Tableau>(t: &mut T, entering: Entering) -> Result<(), Wide>
    requires comes { coming (T.meaning t.old) ≡ a_pivot (entering_of entering) }
    requires path { IsOnPath (T.meaning t.old) }
    requires ready { (row column : ℕ) → T.ready t.old row column }
    ensures value { with_value result (T.meaning t.new) ≡ next (entering_of entering) (T.meaning t.old) }
    ensures path { OnOk result (IsOnPath (T.meaning t.new)) }
    ensures sizes { OnErr result (HasSameSizes (T.meaning t.old) (T.meaning t.new)) }
{
    let place = place_of(t, entering)?;
    t.pivot(place.row, place.column)?;
    settle(t);
    Ok(())
}

/// Where this variable enters, or the first ratio that doesn't fit.
fn place_of<T: Tableau>(t: &T, entering: Entering) -> Result<Place, Wide>
    requires comes { coming (T.meaning t.now) ≡ a_pivot (entering_of entering) }
    requires path { IsOnPath (T.meaning t.now) }
    ensures value { result ≡ place_of (entering_of entering) (T.meaning t.now) }
    ensures fits { IfOk result (λ place. IsPivotPlace place.row place.column (T.meaning t.now)) }
{
    match entering {
        Entering::Artificial => Ok(Place {
            row: least_row(t).unwrap_or(0),
            column: artificial_column(t),
        }),
        Entering::ByRule(column) => {
            let row = leaving_row(t, column)?.unwrap_or(0);
            Ok(Place { row, column })
        }
    }
}

/// The column of the artificial variable.
fn artificial_column<T: Tableau>(t: &T) -> u32
    requires { Contains (T.meaning t.now).nonbasic 0 }
    ensures { result ≡ artificial_column (T.meaning t.now) }
{
    for place in 0..t.cols() {
        if t.nonbasic(place + 1) == 0 {
            return place + 1;
        }
    }
    t.cols() + 1
}

/// Ends phase one where it is over.
#[tactic(auto, using(crate::proofs::Pivots::settled_over, crate::proofs::Pivots::settled_not))]
fn settle<T: Tableau>(t: &mut T)
    requires { is_phase_one_over (T.meaning t.old) ≡ true → Contains (T.meaning t.old).nonbasic 0 }
    ensures { T.meaning t.new ≡ settled (T.meaning t.old) }
{
    if is_phase_one_over(t) {
        t.end_phase_one();
    }
}

fn is_phase_one_over<T: Tableau>(t: &T) -> bool
    ensures { result ≡ is_phase_one_over (T.meaning t.now) }
{
    t.in_phase_one()
        && !awaits_artificial(t)
        && entering_column(t).is_none()
        && !is_artificial_basic(t)
}

#[tactic(auto, using(bland_rule::proofs::Passes::any_on, bland_rule::proofs::Passes::any_found, bland_rule::proofs::Passes::any_end))]
fn is_artificial_basic<T: Tableau>(t: &T) -> bool
    ensures { result ≡ is_basic 0 (T.meaning t.now) }
{
    for place in 0..t.rows() {
        if t.basic(place + 1) == 0 {
            return true;
        }
    }
    false
}
