//! What holds of tables of batches, as contracts without code.
ghost use Rattle.std.specs.Prelude.{◌≡◌, ◌≤◌, List, [], ◌∷◌, ◌++◌, length};
ghost use Rattle.base_names.specs.declared.id.BatchId.{BatchId};
ghost use Rattle.model_data.specs.declared.batch.AttemptOf.{AttemptOf};
ghost use Rattle.model_data.specs.declared.batch.BatchRecord.{BatchRecord};
ghost use Rattle.table_defs.specs.Keyed.{IsKeyed};
ghost use Rattle.table_defs.specs.Names.{Owner};
ghost use Rattle.table_defs.specs.Outcomes.{End, IsRising, IsRisingFrom, attempts_begun, numbers_given, outcomes};
ghost use Rattle.table_defs.specs.Owned.{records_of, table_of};
ghost use Rattle.table_defs.specs.Table.{Table, after, no_rows};
ghost use Rattle.table_defs.specs.Taken.{AreTaken};

/// Where each record is taken, an attempt has at most one outcome, and in every longer list it is the only one still.
pub fn an_attempt_ends_once()
    ensures one { (a : AttemptOf) (rs : List BatchRecord) → AreTaken rs no_rows → length (outcomes a rs) ≤ 1 }
    ensures stays { (a : AttemptOf) (e : End) (rs more : List BatchRecord) → AreTaken (rs ++ more) no_rows → outcomes a rs ≡ e ∷ [] → outcomes a (rs ++ more) ≡ e ∷ [] }
{}

/// Where each record is taken, the numbers of an owner's batches rise, the first one above 0, and so do the numbers of
/// the attempts at a batch.
pub fn numbers_are_never_used_twice()
    ensures numbers { (u : Owner) (rs : List BatchRecord) → AreTaken rs no_rows → IsRisingFrom 0 (numbers_given u rs) }
    ensures attempts { (id : BatchId) (rs : List BatchRecord) → AreTaken rs no_rows → IsRising (attempts_begun id rs) }
{}

/// The table of a list of records, restricted to an owner, is the table of that owner's part of the list; and where each
/// record is taken, so is each one of the part.
pub fn an_owners_table_is_that_of_its_records()
    ensures table { (u : Owner) (rs : List BatchRecord) (t : Table) → table_of u (after rs t) ≡ after (records_of u rs) (table_of u t) }
    ensures taken { (u : Owner) (rs : List BatchRecord) (t : Table) → AreTaken rs t → AreTaken (records_of u rs) (table_of u t) }
{}

/// Where each record is taken, no batch is there twice, and the number of each one that is there is given.
pub fn each_batch_is_there_once()
    ensures { (rs : List BatchRecord) → AreTaken rs no_rows → IsKeyed (after rs no_rows) }
{}
