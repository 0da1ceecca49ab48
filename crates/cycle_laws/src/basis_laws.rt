//! The path of exact pivots by the rule within a phase.
ghost use Rattle.std.specs.Prelude.{◌≡◌, ◌↔◌, ◌<◌, ℕ};
ghost use Rattle.frac128.specs.Order.{IsAtMost};
ghost use Rattle.dictionary.specs.Dictionary.{Dictionary, entry};
ghost use Rattle.dictionary.specs.ExactPath.{ExactPath, ExactStep};
ghost use Rattle.dictionary.specs.Rule.{maximized_row};
ghost use Rattle.dictionary.specs.Solutions.{HasFeasibleConstants, IsLawful, Point, Solves, own_point};
ghost use Rattle.cycle_laws.specs.Bases.{HasSameBasis, maximized_at};

/// An exact pivot by the rule keeps a dictionary lawful and its own point feasible. It keeps the solutions, and at each of them
/// the row that is maximized, whose constant never falls. Where this constant stays, the own point stays.
pub fn an_exact_step_keeps_what_a_pivot_keeps()
    ensures lawful { (d e : Dictionary) → IsLawful d → ExactStep d e → IsLawful e }
    ensures feasible { (d e : Dictionary) → IsLawful d → HasFeasibleConstants d → ExactStep d e → HasFeasibleConstants e }
    ensures solutions { (d e : Dictionary) (x : Point) → IsLawful d → ExactStep d e → Solves d x ↔ Solves e x }
    ensures values { (d e : Dictionary) (x : Point) → IsLawful d → ExactStep d e → Solves d x → maximized_at d x ≡ maximized_at e x }
    ensures rises { (d e : Dictionary) → IsLawful d → HasFeasibleConstants d → ExactStep d e
        → IsAtMost (entry (maximized_row d) 0) (entry (maximized_row e) 0) }
    ensures stays { (d e : Dictionary) → IsLawful d → ExactStep d e → entry (maximized_row d) 0 ≡ entry (maximized_row e) 0
        → (v : ℕ) → own_point d v ≡ own_point e v }
{}

/// No basis is met twice on a path by the rule, all in one phase: behind each dictionary that it reaches comes none with the same basis.
pub fn the_rule_meets_no_basis_twice()
    ensures { (d e f : Dictionary) (n k : ℕ) → IsLawful d → HasFeasibleConstants d → ExactPath d n e → ExactPath e k f → 0 < k
        → HasSameBasis e f → ⊥ }
{}
