//! What the table has to do with a cluster's jobs, as a contract without code.

ghost use Rattle.std.specs.Prelude.{◌≡◌, ◌++◌, Bool, List, [], ◌∷◌, None, map};
ghost use Rattle.base_names.specs.declared.seat.Seat.{Seat};
ghost use Rattle.cluster_defs.specs.Cluster.{Job, job_of};
ghost use Rattle.cluster_defs.specs.Effects.{without_job};
ghost use Rattle.cluster_defs.specs.Listing.{by_seat, job_line, listed_jobs, seated_in};
ghost use Rattle.job_table.specs.Jobs.{lines};
ghost use Rattle.table_defs.specs.Lists.{changed};

/// Where the table has the jobs of a cluster by seat, it has them so behind each call: what is found, added, removed, changed
/// and listed is what the cluster finds, adds, removes, changes and lists.
pub fn the_table_has_a_clusters_jobs()
    ensures found { (seat : Seat) (jobs : List Job) → job_of seat (by_seat jobs) ≡ job_of seat jobs }
    ensures added { (job : Job) (jobs : List Job) → job_of job.seat jobs ≡ None → seated_in job (by_seat jobs) ≡ by_seat (jobs ++ job ∷ []) }
    ensures removed { (seat : Seat) (jobs : List Job) → without_job seat (by_seat jobs) ≡ by_seat (without_job seat jobs) }
    ensures changed { (test : Job → Bool) (f : Job → Job) → ((job : Job) → (f job).seat ≡ job.seat) → (jobs : List Job) → changed test f (by_seat jobs) ≡ by_seat (changed test f jobs) }
    ensures listed { (jobs : List Job) → lines (by_seat jobs) ≡ map job_line (listed_jobs jobs) }
{}
