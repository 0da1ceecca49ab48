//! What holds of placing, as contracts without code.
ghost use Rattle.std.specs.Prelude.{◌≡◌, List, ◌++◌};
ghost use Rattle.base_names.specs.declared.node.NodeLine.{NodeLine};
ghost use Rattle.base_names.specs.declared.node.Placed.{Placed};
ghost use Rattle.cluster_defs.specs.Cluster.{Running, Waiting};
ghost use Rattle.cluster_defs.specs.Placement.{all_dequeued, all_placed_attempts, by_choice, choice, places};
ghost use Rattle.cluster_laws.specs.Places.{AreAllowed, CannotRun, Every, lines_behind, new_attempts};

/// Placing is the rule for one place, repeated until none may run.
pub fn placing_repeats_the_rule()
    ensures { (ws : List Waiting) (ns : List NodeLine) → places ws ns ≡ by_choice (choice ws ns) ns }
{}

/// Each place is one of a job that waits, on a node on which it may run at that moment, and there is none with more left
/// below its limit, nor an earlier one with as much. Behind all places none of those that still wait may run. An attempt that
/// ran runs where it ran.
pub fn each_place_is_the_best()
    ensures allowed { (ws : List Waiting) (ns : List NodeLine) → AreAllowed ws ns (places ws ns) }
    ensures none_left { (ws : List Waiting) (ns : List NodeLine) → Every (CannotRun (lines_behind (places ws ns) ns)) (all_dequeued (places ws ns) ws) }
    ensures stays { (ps : List Placed) (placed : List Running) → all_placed_attempts ps placed ≡ placed ++ new_attempts ps }
{}
