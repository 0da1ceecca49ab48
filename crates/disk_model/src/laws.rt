//! What torn writes are, as a contract without code.

ghost use Rattle.std.specs.Prelude.{ℕ, List, length};
ghost use Rattle.disk_model.specs.Images.{IsTornBy};
ghost use Rattle.disk_model.specs.Spoiled.{AreInside, IsSpoiled};

/// Writes that are torn, one after the other, leave what the disk model says place by place; and each file that it says is left by
/// writes that begin in the file.
pub fn torn_writes_are_the_disk_model()
    ensures so { (written : List (ℕ × ℕ)) (synced image : List ℕ) → IsTornBy written synced image → IsSpoiled synced written image }
    ensures each { (written : List (ℕ × ℕ)) (synced image : List ℕ) → AreInside (length synced) written → IsSpoiled synced written image → IsTornBy written synced image }
{}
