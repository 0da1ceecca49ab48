//! What holds of the dictionaries of `specs/` and of what they say of points, as contracts without code.
ghost use Rattle.std.specs.Prelude.{◌≡◌, ◌≢◌, ◌↔◌, ◌^◌, ◌-◌, ◌<◌, ◌≤◌, Contains, ℕ, ℤ, List, None, Ok, Some, false, length, slice_index, true};
ghost use Rattle.frac128.specs.Fraction.{Fraction, exact_product, exact_sum, fraction, zero_value};
ghost use Rattle.frac128.specs.Order.{IsAtMost, IsBelow};
ghost use Rattle.dictionary.specs.declared.standard.Std.{Std};
ghost use Rattle.dictionary.specs.Dictionary.{Dictionary, IsInShape, IsUniform, artificial_column, end_phase_one, entry, needs_phase_one, opening, pivot, row_at, with_artificial, without_artificial};
ghost use Rattle.dictionary.specs.Rule.{Ratio, entering_column, leaving_row, least_row, maximized_row, ratios};
ghost use Rattle.dictionary.specs.Solutions.{HasFeasibleConstants, HasNoArtificial, HasNoRise, HasReducedNumbers, IsFeasible, IsLawful, IsPhaseOne, Pivots, PivotsByRule, Point, RisesFreely, Solves, auxiliary_at, objective_at, own_point, total_at, without_artificial_value};
ghost use Rattle.frac128.specs.Lowest.{IsInLowestTerms};

/// A pivot keeps the solutions, and at each of them the objectives.
pub fn a_pivot_keeps_solutions()
    ensures solutions { (r c : ℕ) (d e : Dictionary) (x : Point) → IsLawful d → Pivots r c d e → Solves d x ↔ Solves e x }
    ensures objective { (r c : ℕ) (d e : Dictionary) (x : Point) → IsLawful d → Pivots r c d e → Solves d x
        → objective_at d x ≡ objective_at e x }
    ensures auxiliary { (r c : ℕ) (d e : Dictionary) (x : Point) → IsLawful d → Pivots r c d e → Solves d x
        → auxiliary_at d x ≡ auxiliary_at e x }
    ensures lawful { (r c : ℕ) (d e : Dictionary) → IsLawful d → Pivots r c d e → IsLawful e }
{}

/// The own point, where a basic variable is its row's constant and the others are 0, is a solution, and z there is its constant.
/// It is feasible where no row's constant is below 0.
pub fn the_own_point_is_a_solution()
    ensures solution { (d : Dictionary) → IsLawful d → Solves d (own_point d) }
    ensures feasible { (d : Dictionary) → IsLawful d → HasFeasibleConstants d → IsFeasible d (own_point d) }
    ensures objective { (d : Dictionary) → IsLawful d → objective_at d (own_point d) ≡ entry d.objective 0 }
    ensures basic { (d : Dictionary) (r : ℕ) → IsLawful d → 0 < r → r ≤ length d.basic
        → own_point d (slice_index d.basic (r - 1)) ≡ entry (row_at d.rows r) 0 }
    ensures nonbasic { (d : Dictionary) (c : ℕ) → IsLawful d → 0 < c → c ≤ length d.nonbasic
        → own_point d (slice_index d.nonbasic (c - 1)) ≡ zero_value }
{}

/// Where no coefficient of z is above 0, no feasible solution has more than z's constant, which is what the own point has.
pub fn without_a_rise_the_own_point_is_best()
    ensures bound { (d : Dictionary) (x : Point) → IsLawful d → HasNoRise d.objective → IsFeasible d x
        → IsAtMost (objective_at d x) (entry d.objective 0) }
    ensures best { (d : Dictionary) (x : Point) → IsLawful d → HasNoRise d.objective → IsFeasible d x
        → IsAtMost (objective_at d x) (objective_at d (own_point d)) }
{}

/// Where a column rises freely, z rises along it without end: with each value that is at least 0 of the column's variable there
/// is a feasible solution, and some are above each number. The artificial variable is 0 there, where the dictionary has none.
pub fn a_free_rise_is_unbounded()
    ensures along { (c : ℕ) (d : Dictionary) (t : Fraction) → IsLawful d → HasFeasibleConstants d → RisesFreely c d → IsInLowestTerms t
        → IsAtMost zero_value t
        → (x : Point) × IsFeasible d x × (objective_at d x ≡ exact_sum (entry d.objective 0) (exact_product (entry d.objective c) t))
        × (HasNoArtificial d → x 0 ≡ zero_value) }
    ensures above { (c : ℕ) (d : Dictionary) (y : Fraction) → IsLawful d → HasFeasibleConstants d → RisesFreely c d → IsInLowestTerms y
        → (x : Point) × IsFeasible d x × IsBelow y (objective_at d x) × (HasNoArtificial d → x 0 ≡ zero_value) }
    ensures above_whole { (c : ℕ) (d : Dictionary) (n : ℤ) → IsLawful d → HasFeasibleConstants d → RisesFreely c d
        → (x : Point) × IsFeasible d x × IsBelow (fraction n 1) (objective_at d x) × (HasNoArtificial d → x 0 ≡ zero_value) }
{}

/// Where w is minus the artificial variable, and no coefficient of w is above 0 but its constant below 0, no feasible solution
/// has an artificial variable of 0. Where w's constant is 0, the own point has. Pivots keep what w is.
pub fn a_best_w_below_zero_leaves_no_point()
    ensures bound { (d : Dictionary) (w : List Fraction) (x : Point) → IsLawful d → d.auxiliary ≡ Some w → HasNoRise w → IsFeasible d x
        → IsAtMost (total_at d x w) (entry w 0) }
    ensures none { (d : Dictionary) (w : List Fraction) (x : Point) → IsLawful d → IsPhaseOne d → d.auxiliary ≡ Some w → HasNoRise w
        → IsBelow (entry w 0) zero_value → IsFeasible d x → x 0 ≢ zero_value }
    ensures zero { (d : Dictionary) (w : List Fraction) → IsLawful d → IsPhaseOne d → d.auxiliary ≡ Some w → entry w 0 ≡ zero_value
        → own_point d 0 ≡ zero_value }
    ensures kept { (r c : ℕ) (d e : Dictionary) → IsLawful d → Pivots r c d e → IsPhaseOne d → IsPhaseOne e }
{}

/// With an artificial variable w is its negation, and the solutions where it is 0 are those without it, with the same z.
pub fn an_artificial_variable_of_zero_changes_nothing()
    ensures phase_one { (d : Dictionary) → IsInShape d → IsPhaseOne (with_artificial d) }
    ensures solutions { (d : Dictionary) (x : Point) → IsInShape d → x 0 ≡ zero_value → Solves (with_artificial d) x ↔ Solves d x }
    ensures objective { (d : Dictionary) (x : Point) → IsInShape d → x 0 ≡ zero_value → objective_at (with_artificial d) x ≡ objective_at d x }
    ensures lawful { (d : Dictionary) → IsLawful d → HasNoArtificial d → length d.nonbasic < 2 ^ 31 → IsLawful (with_artificial d) }
    ensures free { (d : Dictionary) (x : Point) → IsInShape d → HasNoArtificial d → IsFeasible d x → IsFeasible d (without_artificial_value x) }
{}

/// A dictionary at the start is lawful; it has a feasible own point or is in phase one, and names no artificial variable
/// before one is added.
pub fn an_opening_is_lawful()
    ensures lawful { (s : Std) → IsUniform s → HasReducedNumbers s → IsLawful (opening s) }
    ensures without_artificial { (s : Std) → IsUniform s → HasReducedNumbers s → IsLawful (without_artificial s) }
    ensures feasible { (s : Std) → needs_phase_one s ≡ false → HasFeasibleConstants (opening s) }
    ensures phase_one { (s : Std) → IsUniform s → needs_phase_one s ≡ true → IsPhaseOne (opening s) }
    ensures no_artificial { (s : Std) → HasNoArtificial (without_artificial s) }
{}

/// Where the rule finds no entering column, no coefficient of the row that is maximized is above 0. Where it finds no leaving row,
/// the entering column rises freely; in phase one it finds one.
pub fn the_rule_tells_where_it_stops()
    ensures best { (d : Dictionary) → IsInShape d → (entering_column d ≡ None) ↔ HasNoRise (maximized_row d) }
    ensures unbounded { (d : Dictionary) (c : ℕ) (rs : List Ratio) → IsInShape d → d.auxiliary ≡ None → entering_column d ≡ Some c
        → ratios d c ≡ Ok rs → leaving_row rs ≡ None → RisesFreely c d }
    ensures phase_one { (d : Dictionary) (w : List Fraction) (c : ℕ) (rs : List Ratio) → IsLawful d → IsPhaseOne d → HasFeasibleConstants d
        → d.auxiliary ≡ Some w → entering_column d ≡ Some c → ratios d c ≡ Ok rs → leaving_row rs ≢ None }
{}

/// A pivot by the rule keeps the own point feasible, and makes z, or w in phase one, no less there.
pub fn the_rule_keeps_a_feasible_point()
    ensures pivots { (r c : ℕ) (d e : Dictionary) → IsLawful d → PivotsByRule r c d e → Pivots r c d e }
    ensures feasible { (r c : ℕ) (d e : Dictionary) → IsLawful d → HasFeasibleConstants d → PivotsByRule r c d e → HasFeasibleConstants e }
    ensures rises { (r c : ℕ) (d e : Dictionary) → IsLawful d → HasFeasibleConstants d → PivotsByRule r c d e
        → IsAtMost (entry (maximized_row d) 0) (entry (maximized_row e) 0) }
{}

/// A pivot on a row whose constant is 0 keeps the own point feasible, whatever its entry.
pub fn a_row_of_zero_keeps_a_feasible_point()
    ensures { (r c : ℕ) (d e : Dictionary) → IsLawful d → HasFeasibleConstants d → Pivots r c d e → entry (row_at d.rows r) 0 ≡ zero_value
        → HasFeasibleConstants e }
{}

/// The first pivot of phase one, where the artificial variable enters at the row with the least constant, makes the own point
/// feasible.
pub fn the_first_pivot_of_phase_one_is_feasible()
    ensures pivots { (s : Std) (r : ℕ) (e : Dictionary) → IsUniform s → HasReducedNumbers s → needs_phase_one s ≡ true
        → least_row (opening s) ≡ Some r → pivot r (artificial_column (opening s)) (opening s) ≡ Ok e
        → Pivots r (artificial_column (opening s)) (opening s) e }
    ensures feasible { (s : Std) (r : ℕ) (e : Dictionary) → IsUniform s → HasReducedNumbers s → needs_phase_one s ≡ true
        → least_row (opening s) ≡ Some r → pivot r (artificial_column (opening s)) (opening s) ≡ Ok e → HasFeasibleConstants e }
{}

/// The end of phase one leaves the solutions where the artificial variable, which is nonbasic then, is 0, with the same z.
pub fn the_end_of_phase_one_keeps_solutions()
    ensures solutions { (d : Dictionary) (x : Point) → IsLawful d → Contains d.nonbasic 0 → x 0 ≡ zero_value
        → Solves (end_phase_one d) x ↔ Solves d x }
    ensures objective { (d : Dictionary) (x : Point) → IsLawful d → Contains d.nonbasic 0 → x 0 ≡ zero_value
        → objective_at (end_phase_one d) x ≡ objective_at d x }
    ensures lawful { (d : Dictionary) → IsLawful d → Contains d.nonbasic 0 → IsLawful (end_phase_one d) }
    ensures no_artificial { (d : Dictionary) → IsLawful d → Contains d.nonbasic 0 → HasNoArtificial (end_phase_one d) }
    ensures feasible { (d : Dictionary) → IsLawful d → HasFeasibleConstants d → HasFeasibleConstants (end_phase_one d) }
{}
