//! What holds of one step, as contracts without code.
ghost use Rattle.std.specs.Prelude.{◌≡◌};
ghost use Rattle.base_names.specs.declared.seat.Seat.{Seat};
ghost use Rattle.cluster_defs.specs.Asks.{asked_today};
ghost use Rattle.cluster_defs.specs.Cluster.{Cluster};
ghost use Rattle.cluster_defs.specs.Deeds.{Asked, Faults};
ghost use Rattle.cluster_defs.specs.Entries.{Reply};
ghost use Rattle.cluster_defs.specs.Site.{Site};
ghost use Rattle.cluster_defs.specs.Step.{step};
ghost use Rattle.cluster_defs.specs.Store.{store_of, store_step};
ghost use Rattle.cluster_defs.specs.declared.ask.Ask.{Ask};

/// Creating a batch and asking for its status are answered by the table, the counts and the journal's end alone, and change
/// these by themselves: a hub without nodes and jobs does the same.
pub fn batches_are_kept_without_nodes()
    ensures next { (k : Site) (c : Cluster) (seat : Seat) (ask : Ask) (f : Faults) → store_of (step k c (Asked seat (asked_today ask)) f).next ≡ (store_step k (store_of c) seat ask f).next }
    ensures reply { (k : Site) (c : Cluster) (seat : Seat) (ask : Ask) (f : Faults) → (step k c (Asked seat (asked_today ask)) f).reply ≡ Reply (store_step k (store_of c) seat ask f).reply }
{}
