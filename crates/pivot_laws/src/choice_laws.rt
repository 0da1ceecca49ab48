//! How many ways there are to choose.
ghost use Rattle.std.specs.Prelude.{◌≢◌, ◌≤◌, ℕ, All, AllPairs, List, length};
ghost use Rattle.limit_defs.specs.Counts.{choose};
ghost use Rattle.pivot_laws.specs.Choices.{IsChoice};

/// Different lists of m numbers below n, each list rising, are at most as many as there are ways to choose m of n.
pub fn different_choices_are_few()
    ensures { (n m : ℕ) (lists : List (List ℕ)) → All (IsChoice n m) lists → AllPairs (λ xs ys. xs ≢ ys) lists → length lists ≤ choose n m }
{}
