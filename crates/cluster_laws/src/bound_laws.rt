//! What bounds the sums of a legal history, as contracts without code.
ghost use Rattle.std.specs.Prelude.{◌<◌, ◌≤◌, ◌^◌, ℕ, List, length};
ghost use Rattle.model_data.specs.declared.batch.BatchRecord.{BatchRecord};
ghost use Rattle.table_defs.specs.Names.{Owner};
ghost use Rattle.table_defs.specs.Table.{Table, after, no_rows};
ghost use Rattle.table_defs.specs.Taken.{AreTaken};
ghost use Rattle.cluster_defs.specs.Ends.{end_of};
ghost use Rattle.cluster_defs.specs.Entries.{Entry};
ghost use Rattle.cluster_defs.specs.Journal.{Event, Journal};
ghost use Rattle.cluster_defs.specs.Legal.{GivenBack, IsLegal, cluster_behind};
ghost use Rattle.cluster_defs.specs.Life.{Life, events_from};
ghost use Rattle.cluster_defs.specs.Opened.{opened};
ghost use Rattle.cluster_defs.specs.Room.{AreShort, Fits};
ghost use Rattle.cluster_defs.specs.Site.{Site};
ghost use Rattle.cluster_laws.specs.Bounds.{AreAmong, AreBounded, AreWritable, IsLawful, IsSmall, IsWritten, all_bounds, jobs_asked, most_jobs, most_owners};
ghost use Rattle.cluster_laws.specs.Places.{Every};

/// Where the limits are lawful, no sum of a legal history passes its bound: from a journal that fits, whose records have small
/// numbers, whatever was asked, as long as each batch that was asked for can be written as a record, outcomes are short, and a
/// job was asked for at most `most_jobs` times. That is so where whoever asks is among `most_owners` owners, since each such
/// command is counted, and where there are no more entries than that. Each bound is within 64 bits, with one more of what is
/// counted up. Through openings and stops all numbers in a journal stay small.
pub fn no_sum_passes_64_bits()
    ensures bounded { (k : Site) (rs : List BatchRecord) (faults : ℕ) (history : List Entry) (returned : List GivenBack) → IsLawful k.setup → IsWritten k → AreTaken rs no_rows → Every IsSmall rs
        → IsLegal k (after rs no_rows) (end_of k rs) faults history returned → Fits k (opened k (after rs no_rows) (end_of k rs)) → AreShort k (events_from k 0 (opened k (after rs no_rows) (end_of k rs)) returned history)
        → AreWritable k history → jobs_asked history ≤ most_jobs → AreBounded k (cluster_behind k (after rs no_rows) (end_of k rs) history returned) }
    ensures owners { (k : Site) (t : Table) (end faults : ℕ) (history : List Entry) (returned : List GivenBack) (owners : List Owner) → IsLawful k.setup → IsLegal k t end faults history returned
        → AreAmong owners history → length owners ≤ most_owners → jobs_asked history ≤ most_jobs }
    ensures entries { (history : List Entry) → jobs_asked history ≤ length history }
    ensures fit { Every (λ (bound : ℕ). bound < 2 ^ 64) all_bounds }
    ensures numbers { (k : Site) (events : List Event) (j : Journal) → Life k events j → Every IsSmall j.records }
{}
