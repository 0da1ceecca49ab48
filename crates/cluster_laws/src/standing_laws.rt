//! What holds of a cluster behind every step and every history, as contracts without code.
ghost use Rattle.std.specs.Prelude.{◌≡◌, ◌≤◌, ℕ, ℤ, Bool, List, [], ◌∷◌, false, filter, is_some, length, map, not, true};
ghost use Rattle.base_names.specs.declared.node.NodeLine.{NodeLine};
ghost use Rattle.base_names.specs.declared.node.Placed.{Placed};
ghost use Rattle.base_names.specs.declared.seat.Seat.{Seat};
ghost use Rattle.model_data.specs.declared.batch.BatchRecord.{BatchRecord};
ghost use Rattle.model_data.specs.declared.batch.BatchRow.{BatchRow};
ghost use Rattle.table_defs.specs.Names.{Owner};
ghost use Rattle.table_defs.specs.Outcomes.{IsRisingFrom};
ghost use Rattle.table_defs.specs.Owned.{rows_of};
ghost use Rattle.table_defs.specs.Table.{Table, after, no_rows};
ghost use Rattle.table_defs.specs.Taken.{AreTaken};
ghost use Rattle.cluster_defs.specs.Cluster.{Cluster, Job, Running, lines, numbers_of, usage_of};
ghost use Rattle.cluster_defs.specs.Deeds.{Deed, Faults};
ghost use Rattle.cluster_defs.specs.Entries.{Entry};
ghost use Rattle.cluster_defs.specs.Legal.{GivenBack, IsLegal, cluster_behind};
ghost use Rattle.cluster_defs.specs.Listing.{AreInOrder, IsInOrder, by_id, listed_jobs};
ghost use Rattle.cluster_defs.specs.Opened.{opened};
ghost use Rattle.cluster_defs.specs.Placement.{place, settled};
ghost use Rattle.cluster_laws.specs.Places.{HasNoMore, IsBest, IsIn, MayRun, line_numbers, lines_behind};
ghost use Rattle.cluster_laws.specs.Seated.{IsSeated, IsSettled, jobs_for};
ghost use Rattle.cluster_defs.specs.Site.{Site};
ghost use Rattle.cluster_laws.specs.Sound.{IsSound};
ghost use Rattle.cluster_laws.specs.Staying.{RunsOn, ends_attempt, ends_job};
ghost use Rattle.cluster_defs.specs.Step.{step};
ghost use Rattle.cluster_defs.specs.Waiters.{is_seat};

/// Each submitted batch waits or runs, once, and no other does: in the cluster that is opened from records that are all
/// taken, behind each of its histories, and behind each step from where it holds.
pub fn each_batch_waits_or_runs_once()
    ensures opened { (k : Site) (rs : List BatchRecord) (end : ℕ) → AreTaken rs no_rows → IsSound (opened k (after rs no_rows) end) }
    ensures behind { (k : Site) (rs : List BatchRecord) (end : ℕ) (history : List Entry) (returned : List GivenBack) → AreTaken rs no_rows → IsSound (cluster_behind k (after rs no_rows) end history returned) }
    ensures step { (k : Site) (c : Cluster) (d : Deed) (f : Faults) → IsSound c → IsSound (step k c d f).next }
{}

/// Behind every history each seat's job waits exactly while it has no node, and none that waits may run. Placing leaves a job
/// that has a node where it is, and what is listed of the nodes is what the places make of it.
pub fn none_that_waits_may_run()
    ensures behind { (k : Site) (t : Table) (end : ℕ) (history : List Entry) (returned : List GivenBack) → IsSettled (cluster_behind k t end history returned) }
    ensures step { (k : Site) (c : Cluster) (d : Deed) (f : Faults) → IsSettled c → IsSettled (step k c d f).next }
    ensures lines { (c : Cluster) → IsSeated c → lines (settled (place c) c) ≡ lines_behind (place c) (lines c) }
    ensures stays { (c : Cluster) (s : Seat) (j : Job) → IsSeated c → jobs_for s c.jobs ≡ j ∷ [] → is_some j.node ≡ true → jobs_for s (settled (place c) c).jobs ≡ j ∷ [] }
{}

/// What has a place keeps it over a whole step: a job that has a node, and an attempt that runs, run on there unless the deed
/// ends them.
pub fn what_runs_stays()
    ensures job { (k : Site) (c : Cluster) (d : Deed) (f : Faults) (s : Seat) (j : Job) → IsSeated c → jobs_for s c.jobs ≡ j ∷ [] → is_some j.node ≡ true → ends_job j d (step k c d f).reply ≡ false → RunsOn j (jobs_for s (step k c d f).next.jobs) }
    ensures attempt { (k : Site) (c : Cluster) (d : Deed) (f : Faults) (r : Running) → IsIn r c.placed → ends_attempt r d (step k c d f).reply ≡ false → IsIn r (step k c d f).next.placed }
{}

/// The jobs that are listed are those that are not lost, each once, by seat number, then by owner, then by role. A batch that
/// has one row is there once, and batches are by owner, then by number. What is listed of one owner's batches is by number,
/// behind every history.
pub fn jobs_are_listed_in_order()
    ensures once { (s : Seat) (jobs : List Job) → filter (λ job. is_seat s job.seat) (listed_jobs jobs) ≡ filter (λ job. is_seat s job.seat) (filter (λ job. not job.lost) jobs) }
    ensures ordered { (jobs : List Job) → IsInOrder (listed_jobs jobs) }
    ensures batches { (p : BatchRow → Bool) (rows : List BatchRow) → length (filter p rows) ≤ 1 → filter p (by_id rows) ≡ filter p rows }
    ensures batches_ordered { (rows : List BatchRow) → AreInOrder (by_id rows) }
    ensures own { (u : Owner) (k : Site) (rs : List BatchRecord) (end : ℕ) (history : List Entry) (returned : List GivenBack) → AreTaken rs no_rows
        → IsRisingFrom 0 (map (λ row. row.id.number) (rows_of u (cluster_behind k (after rs no_rows) end history returned).table.rows)) }
{}

/// The nodes of an opened cluster are in the order of their numbers, and behind every history they are those, also while places
/// are given. So of several nodes on which a job may run with as much room as the best, none has a lesser number.
pub fn nodes_keep_their_numbers()
    ensures rising { (k : Site) (t : Table) (end : ℕ) → IsRisingFrom 0 (numbers_of (opened k t end).nodes) }
    ensures behind { (k : Site) (t : Table) (end : ℕ) (history : List Entry) (returned : List GivenBack) → numbers_of (cluster_behind k t end history returned).nodes ≡ numbers_of (opened k t end).nodes }
    ensures step { (k : Site) (c : Cluster) (d : Deed) (f : Faults) → numbers_of (step k c d f).next.nodes ≡ numbers_of c.nodes }
    ensures placing { (c : Cluster) (ps : List Placed) → line_numbers (lines_behind ps (lines c)) ≡ numbers_of c.nodes }
    ensures least { (priority : ℤ) (ns : List NodeLine) (best other : NodeLine) → IsBest priority ns best → IsRisingFrom 0 (line_numbers ns) → IsIn other ns → MayRun priority other → HasNoMore best other → best.node.0 ≤ other.node.0 }
{}

/// Over a legal history no owner has more counted entries than the limit on commands.
pub fn counted_entries_stay_within_their_limit()
    ensures { (k : Site) (t : Table) (end faults : ℕ) (history : List Entry) (returned : List GivenBack) → IsLegal k t end faults history returned
        → (u : Owner) → (usage_of u (cluster_behind k t end history returned).usage).entries ≤ k.setup.limits.commands }
{}
