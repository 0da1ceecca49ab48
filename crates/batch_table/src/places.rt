//! Where a batch and an owner stand.

ghost use Rattle.std.specs.Prelude.{◌≡◌, ◌<◌, IfSome, length, position};
ghost use Rattle.batch_table.specs.Lookups.{StandsAt};
ghost use Rattle.table_defs.specs.Names.{is_id, is_owner};

use crate::names::{is_same_batch, is_same_owner};
use base_names::{BatchId, Owner};
use model_data::BatchRow;

/// The place of a batch's row. The last row is looked at first, since a batch that is taken back at once is the last one.
pub(crate) fn place_of(rows: &[BatchRow], id: &BatchId) -> Option<usize>
    ensures { StandsAt (λ row. is_id id.now row.id) rows.now result }
{
    let mut left = rows.len();
    while left > 0 {
        left -= 1;
        if is_same_batch(id, &rows[left].id) {
            return Some(left);
        }
    }
    None
}

/// The place of an owner's last ID.
pub(crate) fn place_of_owner(lasts: &[BatchId], owner: &Owner) -> Option<usize>
    ensures place { result ≡ position (λ last. is_owner owner.now last.owner) lasts.now }
    ensures within { IfSome result (λ place. place < length lasts.now) }
{
    lasts
        .iter()
        .position(|last| is_same_owner(owner, &last.owner))
}
