//! The last number that each owner was given.

ghost use Rattle.std.specs.Prelude.{◌≡◌, ◌<◌, map, vec_len, vec_capacity};
ghost use Rattle.batch_table.specs.Contents.{mark_of};
ghost use Rattle.table_defs.specs.Table.{with_mark};

use crate::names::is_same_owner;
use base_names::BatchId;

/// Puts an owner's last ID in place of the one before it.
pub(crate) fn set_last(lasts: &mut Vec<BatchId>, id: &BatchId)
    requires room { vec_len lasts.old < vec_capacity lasts.old }
    ensures { map mark_of lasts.new.items ≡ with_mark id.now (map mark_of lasts.old.items) }
{
    lasts.retain(|last| !is_same_owner(&id.owner, &last.owner));
    lasts.push_reserved(*id);
}
