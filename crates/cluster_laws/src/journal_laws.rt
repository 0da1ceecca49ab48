//! What the journal of a store holds through openings and stops, as contracts without code.
ghost use Rattle.std.specs.Prelude.{◌≡◌, ◌≤◌, ◌+◌, ℕ, List, None, Some};
ghost use Rattle.model_data.specs.declared.batch.BatchRecord.{BatchRecord};
ghost use Rattle.table_defs.specs.Names.{Owner};
ghost use Rattle.table_defs.specs.Owned.{records_of, table_of};
ghost use Rattle.table_defs.specs.Table.{Table, after, no_rows};
ghost use Rattle.table_defs.specs.Taken.{AreTaken, refusal};
ghost use Rattle.cluster_defs.specs.Cluster.{Cluster};
ghost use Rattle.cluster_defs.specs.Counted.{AreCounted, AreLegal, AreOfOneDisk, faults_behind, histories};
ghost use Rattle.cluster_defs.specs.Deeds.{Deed, Faults};
ghost use Rattle.cluster_defs.specs.Ends.{end_of};
ghost use Rattle.cluster_defs.specs.Entries.{Entry};
ghost use Rattle.cluster_defs.specs.Journal.{AreAllTaken, AreThere, Becomes, Event, Journal, Reaches, own_events, table_behind, was_kept, was_opened};
ghost use Rattle.cluster_defs.specs.Legal.{GivenBack, IsLegal, cluster_behind};
ghost use Rattle.cluster_defs.specs.Life.{Brings, Life, Opening, cluster_at, event_in, events_from, events_of};
ghost use Rattle.cluster_defs.specs.Opened.{opened};
ghost use Rattle.cluster_defs.specs.Plain.{ArePlain};
ghost use Rattle.cluster_defs.specs.Refusals.{need};
ghost use Rattle.cluster_defs.specs.Room.{AreShort, Fits, IsOutcome, IsShort};
ghost use Rattle.cluster_defs.specs.Site.{Site};
ghost use Rattle.cluster_defs.specs.Step.{step};
ghost use Rattle.cluster_laws.specs.OwnRoom.{HasRoom, IsShortEvent};
ghost use Rattle.cluster_laws.specs.Places.{Every};
ghost use Rattle.cluster_laws.specs.Sound.{IsSound};

/// The journal of a store is what its events tell: each kept record, in order, and nothing else, but that an opening may have
/// found one more at the end, which was in doubt. So it is of an owner's part. Each record is taken, and so would the one in
/// doubt be.
pub fn a_journal_is_what_its_events_tell()
    ensures reached { (k : Site) (events : List Event) (j : Journal) → Life k events j → Reaches events j }
    ensures there { (k : Site) (events : List Event) (j : Journal) → Life k events j → AreThere events j.records }
    ensures own { (u : Owner) (k : Site) (events : List Event) (j : Journal) → Life k events j → AreThere (own_events u events) (records_of u j.records) }
    ensures taken { (k : Site) (events : List Event) (j : Journal) → Life k events j → AreAllTaken j }
{}

/// In each opening the cluster's table is that of the journal, and an owner's table that of its part of the journal.
pub fn a_clusters_table_is_its_journals()
    ensures table { (k : Site) (events : List Event) (j first last : Journal) (o : Opening) → Life k events j → Becomes was_opened j first
        → IsLegal k (table_behind first) o.end o.faults o.history o.returned → Brings (events_of k (table_behind first) o) first last → (cluster_at k (table_behind first) o).table ≡ table_behind last }
    ensures own { (u : Owner) (k : Site) (events : List Event) (j first last : Journal) (o : Opening) → Life k events j → Becomes was_opened j first
        → IsLegal k (table_behind first) o.end o.faults o.history o.returned → Brings (events_of k (table_behind first) o) first last → table_of u (cluster_at k (table_behind first) o).table ≡ after (records_of u last.records) no_rows }
{}

/// An opening begins where its journal ends, behind 8 bytes and, for each record, 5 and its body. From there each kept record
/// raises the end by as much, and nothing else does: so behind each opening the end is again that of its journal.
pub fn an_openings_end_is_its_journals()
    ensures behind { (k : Site) (events : List Event) (j first last : Journal) (o : Opening) → Life k events j → Becomes was_opened j first → o.end ≡ end_of k first.records
        → IsLegal k (table_behind first) o.end o.faults o.history o.returned → Brings (events_of k (table_behind first) o) first last → (cluster_at k (table_behind first) o).journal ≡ end_of k last.records }
    ensures kept { (k : Site) (c : Cluster) (d : Deed) (f : Faults) (r : BatchRecord) → IsSound c → event_in c d (step k c d f).reply ≡ Some (was_kept r) → (step k c d f).next.journal ≡ c.journal + 5 + k.record_bytes r }
    ensures nothing { (k : Site) (c : Cluster) (d : Deed) (f : Faults) → IsSound c → event_in c d (step k c d f).reply ≡ None → (step k c d f).next.journal ≡ c.journal }
{}

/// From the empty disk on a store's journal has room for the outcomes of all that goes on, also with the record in doubt, where
/// the records of outcomes are short. So it has at each opening, and what is said of a journal that fits then is said of it.
pub fn a_journal_has_room_for_outcomes()
    ensures always { (k : Site) (events : List Event) (j : Journal) → Life k events j → 8 ≤ k.setup.limits.journal → Every (IsShortEvent k) events → HasRoom k j }
    ensures opened { (k : Site) (events : List Event) (j first : Journal) (end : ℕ) → Life k events j → 8 ≤ k.setup.limits.journal → Every (IsShortEvent k) events → Becomes was_opened j first → end ≡ end_of k first.records → Fits k (opened k (table_behind first) end) }
{}

/// Through openings of one disk, one after the other, its faults are counted up over all entries: each begins with at least
/// the count that the one before it ended with, in whichever opening, and the count rises in it exactly where it is answered
/// that the disk failed.
pub fn faults_are_counted_through_openings()
    ensures counted { (k : Site) (faults : ℕ) (openings : List Opening) → AreLegal k openings → AreOfOneDisk faults openings → AreCounted faults (histories openings) }
    ensures each { (faults : ℕ) (entries : List Entry) → AreCounted faults entries → Every (λ (e : Entry). e.before ≤ e.after) entries }
    ensures rises { (faults : ℕ) (entries : List Entry) → AreCounted faults entries → faults ≤ faults_behind faults entries }
{}

/// Each result that the journal of a store holds is the plain one of its batch's body.
pub fn a_journal_holds_plain_results()
    ensures { (k : Site) (events : List Event) (j : Journal) → Life k events j → ArePlain k j.records no_rows }
{}

/// Where the records of outcomes are short, the end and the reserve stay within the journal's limit, and so an abort, a
/// result and the loss of a node always fit. The end never falls.
pub fn an_outcome_always_fits()
    ensures stays { (k : Site) (rs : List BatchRecord) (end faults : ℕ) (history : List Entry) (returned : List GivenBack) → AreTaken rs no_rows
        → IsLegal k (after rs no_rows) end faults history returned → Fits k (opened k (after rs no_rows) end) → AreShort k (events_from k 0 (opened k (after rs no_rows) end) returned history)
        → Fits k (cluster_behind k (after rs no_rows) end history returned) }
    ensures fits { (k : Site) (rs : List BatchRecord) (end : ℕ) (history : List Entry) (returned : List GivenBack) (r : BatchRecord) (n : ℕ) → AreTaken rs no_rows
        → Fits k (cluster_behind k (after rs no_rows) end history returned) → IsOutcome r n → IsShort k r → refusal r (cluster_behind k (after rs no_rows) end history returned).table ≡ None
        → need k (cluster_behind k (after rs no_rows) end history returned).journal (cluster_behind k (after rs no_rows) end history returned).table r ≤ k.setup.limits.journal }
    ensures rises { (k : Site) (rs : List BatchRecord) (end faults : ℕ) (history : List Entry) (returned : List GivenBack) → AreTaken rs no_rows
        → IsLegal k (after rs no_rows) end faults history returned → end ≤ (cluster_behind k (after rs no_rows) end history returned).journal }
{}
