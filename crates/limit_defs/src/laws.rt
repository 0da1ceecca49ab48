//! What open variables have to do with bounds, and what numbers that are told are good for, as contracts without code.
ghost use Rattle.std.specs.Prelude.{◌≡◌, ◌↔◌, ◌^◌, ◌<◌, ◌≤◌, ℕ, decimal, false};
ghost use Rattle.model_data.specs.declared.model.Model.{Model};
ghost use Rattle.model_data.specs.declared.params.Params.{Params};
ghost use Rattle.search_laws.specs.Counts.{IsClosed};
ghost use Rattle.limit_defs.specs.Limits.{HasEnoughNodes, HasEnoughPivots, has_open};
ghost use Rattle.limit_defs.specs.Text.{limits_text, lines_of};

/// No variable is open exactly where each one that takes whole numbers alone has both bounds.
pub fn a_model_is_closed_where_no_variable_is_open()
    ensures { (m : Model) → (has_open m ≡ false) ↔ IsClosed m }
{}

/// Where the text of a model's limits tells two numbers, parameters that are at least these allow all that there may be.
pub fn limits_that_are_told_are_enough()
    ensures { (m : Model) (p : Params) (iterations nodes : ℕ) → iterations < 2 ^ 64 → nodes < 2 ^ 64
        → limits_text m ≡ lines_of (decimal iterations) (decimal nodes) → iterations ≤ p.iterations → nodes ≤ p.nodes
        → HasEnoughPivots m p × HasEnoughNodes m p }
{}
