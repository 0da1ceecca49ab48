//! Which owners and batches are the same.

ghost use Rattle.std.specs.Prelude.{◌≡◌};
ghost use Rattle.table_defs.specs.Names.{is_id, is_owner};

use base_names::{BatchId, Owner};

/// Whether these are one owner.
#[tactic(auto, unfolding(table_defs::specs::Names::is_owner))]
pub fn is_same_owner(a: &Owner, b: &Owner) -> bool
    ensures { result ≡ is_owner a.now b.now }
{
    a == b
}

/// Whether these are one batch.
#[tactic(auto, unfolding(table_defs::specs::Names::is_id, table_defs::specs::Names::is_owner))]
pub fn is_same_batch(a: &BatchId, b: &BatchId) -> bool
    ensures { result ≡ is_id a.now b.now }
{
    a.owner == b.owner && a.number == b.number
}
