//! What holds of a journal's images through openings and stops, as contracts without code of their own.

ghost use Rattle.std.specs.Prelude.{◌≡◌, ◌⊎◌, ◌<◌, ◌≤◌, ℕ, List, [], ◌∷◌, ◌++◌, Some, option_to_list};
ghost use Rattle.std.specs.Option.{IsSomeAnd};
ghost use Rattle.cluster_defs.specs.Journal.{Becomes, Journal, was_opened};
ghost use Rattle.disk_model.specs.Moments.{LeavesOnly};
ghost use Rattle.hub_core.specs.Keeping.{Keeps, Recovers, RecoversWith, WhileKeeping};
ghost use Rattle.hub_core.specs.Mounting.{IsFileFault, Mounted, NotMounted, sum_of};
ghost use Rattle.hub_core.specs.State.{journal_of, state_of};
ghost use Rattle.hub_core.specs.declared.hub.Hub.{Hub};
ghost use Rattle.hub_core.specs.declared.mounting.NoHub.{NoHub};
ghost use Rattle.hub_core.specs.declared.setup.Setup.{Setup};
ghost use Rattle.hub_core.specs.declared.fault.HubFault.TheVariants.{BadRecord, NotAJournal, TooFull};
ghost use Rattle.journal.specs.Mounting.{Mends, WhileMounting};
ghost use Rattle.model_data.specs.declared.batch.BatchRecord.{BatchRecord};

use disk_model::Disk;
use journal::an_image_is_read_as_its_bodies;
use rec_format::laws::lawful_records_are_told_apart;

/// An image that keeps a journal recovers to its records, or to these with the one in doubt behind; while one more is kept, to the
/// records, or to these with one behind, that was in doubt or is the new one. An opening that is cut short leaves an image that
/// keeps the same journal: so does any number of them.
pub fn an_image_recovers_to_its_records()
    ensures recovers { (limit : ℕ) (j : Journal) (image : List ℕ) → Keeps limit j image → RecoversWith j image }
    ensures keeping { (limit : ℕ) (j : Journal) (r : BatchRecord) (image : List ℕ) → WhileKeeping limit j (Some r) image → Recovers j.records image ⊎ (IsSomeAnd j.doubt (λ d. Recovers (j.records ++ d ∷ []) image) ⊎ Recovers (j.records ++ r ∷ []) image) }
    ensures mends { (limit : ℕ) (j : Journal) (file image : List ℕ) → Keeps limit j file → Mends file image → Keeps limit j image }
{
    an_image_is_read_as_its_bodies();
}

/// A mounting leaves only images that keep the journal which those before it kept, wherever it is cut short.
pub fn a_mounting_keeps_the_journal<D: Disk>()
    ensures { (old new : D) (limit : ℕ) (j : Journal) → ((image : List ℕ) → D.left old (D.moment old) image → Keeps limit j image) → LeavesOnly D.moment D.left old new (WhileMounting (D.left old (D.moment old))) → LeavesOnly D.moment D.left old new (Keeps limit j) }
{
    an_image_is_read_as_its_bodies();
}

/// An opening finds in a file that keeps a journal its records, or these with the one in doubt behind. It never answers that the file
/// is no journal, nor that a record is bad. With the journal's limit or a greater one it never answers that the file is too full, and
/// with a smaller one only where the end and the reserve of these records pass it.
pub fn an_opening_finds_its_records()
    ensures finds { (most : ℕ) (j : Journal) (found : List BatchRecord) (file : List ℕ) → Keeps most j file → Recovers found file → (found ≡ j.records) ⊎ (found ≡ j.records ++ option_to_list j.doubt) }
    ensures no_other_file { (most : ℕ) (j : Journal) (file head : List ℕ) (limit : ℕ) → Keeps most j file → IsFileFault limit (NotAJournal head) file → ⊥ }
    ensures no_bad_record { (most : ℕ) (j : Journal) (file : List ℕ) (limit number : ℕ) → Keeps most j file → IsFileFault limit (BadRecord number) file → ⊥ }
    ensures never_too_full { (most : ℕ) (j : Journal) (file : List ℕ) (limit sum : ℕ) → Keeps most j file → most ≤ limit → IsFileFault limit (TooFull sum) file → ⊥ }
    ensures too_full { (most : ℕ) (j : Journal) (file : List ℕ) (limit sum : ℕ) → Keeps most j file → IsFileFault limit (TooFull sum) file → (limit < sum) × ((sum ≡ sum_of j.records) ⊎ (sum ≡ sum_of (j.records ++ option_to_list j.doubt))) }
{
    an_image_is_read_as_its_bodies();
    lawful_records_are_told_apart();
}

/// An opening follows the journal that its file keeps: the hub has the journal's records, or these with the one in doubt behind, and
/// none in doubt. Where there is no hub, the file was a journal, no record of it bad, and the limit, where it is no smaller than the
/// journal's, not passed.
pub fn an_opening_follows_the_journal<D: Disk>()
    ensures opened { (disk : D) (setup : Setup) (h : Hub D) (most : ℕ) (j : Journal) (file : List ℕ) → D.seen disk ≡ Some file → Keeps most j file → Mounted D.name D.seen D.moment D.left D.calls D.makes D.faults disk setup h → Becomes was_opened j (journal_of (state_of h)) }
    ensures no_other_file { (disk : D) (setup : Setup) (refused : NoHub D) (most : ℕ) (j : Journal) (file head : List ℕ) → D.seen disk ≡ Some file → Keeps most j file → NotMounted D.name D.seen D.moment D.left D.calls D.makes D.faults disk setup refused → refused.fault ≡ NotAJournal head → ⊥ }
    ensures no_bad_record { (disk : D) (setup : Setup) (refused : NoHub D) (most : ℕ) (j : Journal) (file : List ℕ) (number : ℕ) → D.seen disk ≡ Some file → Keeps most j file → NotMounted D.name D.seen D.moment D.left D.calls D.makes D.faults disk setup refused → refused.fault ≡ BadRecord number → ⊥ }
    ensures never_too_full { (disk : D) (setup : Setup) (refused : NoHub D) (most : ℕ) (j : Journal) (file : List ℕ) (sum : ℕ) → D.seen disk ≡ Some file → Keeps most j file → most ≤ setup.limits.journal → NotMounted D.name D.seen D.moment D.left D.calls D.makes D.faults disk setup refused → refused.fault ≡ TooFull sum → ⊥ }
{
    an_image_is_read_as_its_bodies();
    lawful_records_are_told_apart();
}
