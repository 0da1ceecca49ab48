//! What holds of the spellings, whatever code reads and writes them.
ghost use Rattle.std.specs.Prelude.{◌≡◌};
ghost use Rattle.model_data.specs.declared.batch.BatchRecord.{BatchRecord};
ghost use Rattle.rec_format.specs.Format.{OneSpelling};
ghost use Rattle.rec_format.specs.Lawful.{IsLawfulRecord};
ghost use Rattle.rec_format.specs.Models.{model};
ghost use Rattle.rec_format.specs.Parameters.{params};
ghost use Rattle.rec_format.specs.Records.{batch_record, record_write, RecordFits};

/// Parameters in their ranges have one spelling.
#[tactic(auto, using(crate::proofs::PartsSpelled::params_spelling))]
pub fn params_are_spelled_once()
    ensures { OneSpelling params }
{}

/// A model has one spelling.
#[tactic(auto, using(crate::proofs::PartsSpelled::model_spelling))]
pub fn models_are_spelled_once()
    ensures { OneSpelling model }
{}

/// A record has one spelling.
#[tactic(auto, using(crate::proofs::RecordSpelled::record_spelling))]
pub fn records_are_spelled_once()
    ensures { OneSpelling batch_record }
{}

/// A lawful record has a spelling, which no other lawful record has.
#[tactic(auto, using(crate::proofs::LawfulSpelled::record_fits, crate::proofs::LawfulSpelled::lawful_apart))]
pub fn lawful_records_are_told_apart()
    ensures fits { (r : BatchRecord) → IsLawfulRecord r → RecordFits r }
    ensures apart { (r s : BatchRecord) → IsLawfulRecord r → IsLawfulRecord s → record_write r ≡ record_write s → r ≡ s }
{}
