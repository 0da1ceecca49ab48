//! What the rule chooses.
ghost use Rattle.std.specs.Prelude.{◌≡◌, ℕ, Some};
ghost use Rattle.dictionary.specs.Dictionary.{Dictionary, IsInShape};
ghost use Rattle.dictionary.specs.ExactPath.{exact_ratios};
ghost use Rattle.dictionary.specs.Rule.{entering_column, leaving_row};
ghost use Rattle.cycle_laws.specs.Choices.{EntersFirst, LeavesFirst};

/// Of the columns whose variable makes the maximized row greater, the one with the smallest index enters. Of the rows that let it
/// rise least, the one with the smallest index leaves.
pub fn the_rule_takes_the_smallest_index()
    ensures enters { (d : Dictionary) (c : ℕ) → IsInShape d → entering_column d ≡ Some c → EntersFirst d c }
    ensures leaves { (d : Dictionary) (c r : ℕ) → IsInShape d → leaving_row (exact_ratios d c) ≡ Some r → LeavesFirst d c r }
{}
