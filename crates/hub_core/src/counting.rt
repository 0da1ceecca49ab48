//! What owners have asked since mounting.

ghost use Rattle.std.specs.Prelude.{◌≡◌, ◌<◌, false, IfSome, length, position, vec_len, vec_capacity};
ghost use Rattle.cluster_defs.specs.Charges.{counted};
ghost use Rattle.cluster_defs.specs.Cluster.{usage_of};
ghost use Rattle.table_defs.specs.Names.{is_owner};
ghost use Rattle.hub_core.specs.Counting.{usage_in, usages_in};

use base_names::Owner;
use batch_table::is_same_owner;

/// The most bytes that an owner's commands may be charged with.
pub(crate) const MOST_CHARGES: u64 = 33_554_432;

/// An owner's counted commands, and the bytes that they were charged with.
#[derive(Clone, Copy, Debug, PartialEq, Eq)]
pub struct Usage {
    pub owner: Owner,
    pub entries: u64,
    pub charges: u64,
}

/// What an owner has used: nothing where it isn't in the list.
pub(crate) fn usage_of(usages: &[Usage], owner: &Owner) -> Usage
    ensures { usage_in result ≡ usage_of owner.now (usages_in usages.now) }
{
    match place_of(usages, owner) {
        Some(place) => usages[place],
        None => Usage {
            owner: *owner,
            entries: 0,
            charges: 0,
        },
    }
}

/// The place of an owner.
fn place_of(usages: &[Usage], owner: &Owner) -> Option<usize>
    ensures place { result ≡ position (λ usage. is_owner owner.now usage.owner) usages.now }
    ensures within { IfSome result (λ place. place < length usages.now) }
{
    usages
        .iter()
        .position(|usage| is_same_owner(owner, &usage.owner))
}

/// Counts one command more of an owner that may ask, and charges it.
pub(crate) fn count(usages: &mut Vec<Usage>, owner: &Owner, limit: u32, bytes: u32)
    requires room { vec_len usages.old < vec_capacity usages.old }
    requires entries { (usage_of owner.now (usages_in usages.old.items)).entries < limit }
    requires charges { (usage_of owner.now (usages_in usages.old.items)).charges < 33554432 }
    ensures { usages_in usages.new.items ≡ counted owner.now false bytes (usages_in usages.old.items) }
{
    let usage = usage_of(usages, owner);
    usages.retain(|other| !is_same_owner(owner, &other.owner));
    usages.push_reserved(Usage {
        owner: *owner,
        entries: usage.entries + 1,
        charges: usage.charges + u64::from(bytes),
    });
}
