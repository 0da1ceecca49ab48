//! That each owner is alone, as contracts without code.
ghost use Rattle.std.specs.Prelude.{◌≡◌, ◌++◌, ℕ, List, true};
ghost use Rattle.base_names.specs.declared.node.Waiter.{Waiter};
ghost use Rattle.table_defs.specs.Names.{Owner, is_owner};
ghost use Rattle.table_defs.specs.Owned.{table_of};
ghost use Rattle.table_defs.specs.Table.{Table};
ghost use Rattle.cluster_defs.specs.Cluster.{Cluster};
ghost use Rattle.cluster_defs.specs.Deeds.{Deed, Faults};
ghost use Rattle.cluster_defs.specs.Entries.{Entry};
ghost use Rattle.cluster_defs.specs.Legal.{GivenBack, IsLegal, cluster_behind};
ghost use Rattle.cluster_defs.specs.Looks.{cut};
ghost use Rattle.cluster_defs.specs.Own.{own_step};
ghost use Rattle.cluster_defs.specs.OwnHistory.{own_cut, own_history, own_replies, replies_to};
ghost use Rattle.cluster_defs.specs.Part.{part_of};
ghost use Rattle.cluster_defs.specs.Reading.{nothing_read, reading, reply_for};
ghost use Rattle.cluster_defs.specs.Site.{Site};
ghost use Rattle.cluster_defs.specs.Step.{step};
ghost use Rattle.cluster_defs.specs.Waiters.{owner_of};

/// One step changes an owner's part just as an own step does by what is read of the deed for that owner, and the reply to a
/// seat of the owner is the same by both. Where nothing is read, the part stays.
pub fn one_step_is_an_own_step()
    ensures step { (u : Owner) (k : Site) (c : Cluster) (d : Deed) (f : Faults)
        → own_step k (part_of u c) (reading u c d (step k c d f)) ≡ record { next = part_of u (step k c d f).next; reply = reply_for u d (step k c d f).reply } }
    ensures nothing { (u : Owner) (k : Site) (c : Cluster) (d : Deed) (f : Faults)
        → reading u c d (step k c d f) ≡ nothing_read → part_of u (step k c d f).next ≡ part_of u c }
{}

/// Over each legal history the replies to an owner's seats are those that are told by that owner's table and its part of the
/// history alone.
pub fn replies_are_own_replies()
    ensures { (u : Owner) (k : Site) (t : Table) (end faults : ℕ) (history : List Entry) (returned : List GivenBack)
        → IsLegal k t end faults history returned → replies_to u history ≡ own_replies k (table_of u t) (own_history u k t end history returned) }
{}

/// A look at any point of a legal history is answered by what was read for the owner until then.
pub fn a_look_is_an_own_look()
    ensures { (u : Owner) (k : Site) (t : Table) (end faults : ℕ) (before later : List Entry) (returned : List GivenBack) (w : Waiter)
        → IsLegal k t end faults (before ++ later) returned → is_owner u (owner_of w) ≡ true
        → cut (cluster_behind k t end before returned).table (cluster_behind k t end before returned).jobs w ≡ own_cut k (table_of u t) (own_history u k t end before returned) w }
{}
