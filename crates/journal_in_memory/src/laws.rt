//! What a journal's calls make of a disk in memory, as contracts without code.

ghost use Rattle.std.specs.Prelude.{◌≡◌, ℕ, Bool, true, List, Option, None};
ghost use Rattle.disk_model.specs.Memory.{CallMade, DiskState, calls_of};
ghost use Rattle.journal.specs.Plans.{FailedAdding, RanOn, Step, append_plan};
ghost use Rattle.journal_in_memory.specs.Adding.{added};
ghost use Rattle.journal_in_memory.specs.Running.{ran};

/// Where no growth was refused, a plan that ran was made up to its end or up to the first call that fails, and the disk is what
/// these calls make of it.
pub fn a_run_in_memory_is_determined()
    ensures { (plan : List Step) (old new : DiskState) (all : Bool) → RanOn calls_of CallMade plan old new all → new.refused ≡ 0 → ran plan old ≡ record { disk = new; all = all } }
{}

/// So it is of an append, and of what is in doubt behind it.
pub fn an_append_in_memory_is_determined()
    ensures added { (doubt : Option (List ℕ)) (end : ℕ) (body : List ℕ) (old new : DiskState) → RanOn calls_of CallMade (append_plan doubt end body) old new true → new.refused ≡ 0 → added doubt end body old ≡ record { disk = new; doubt = None } }
    ensures failed { (doubt : Option (List ℕ)) (end : ℕ) (body : List ℕ) (after : Option (List ℕ)) (old new : DiskState) → FailedAdding calls_of CallMade doubt end body after old new → new.refused ≡ 0 → added doubt end body old ≡ record { disk = new; doubt = after } }
{}
