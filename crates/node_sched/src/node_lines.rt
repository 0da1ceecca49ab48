//! Changes of one node among the lines, which stand by number.

ghost use Rattle.std.specs.Prelude.{◌≡◌, ◌≤◌, ◌<◌, ◌+◌, ◌-◌, ◌^◌, ℕ, length};
ghost use Rattle.node_sched.specs.Counts.{IsNumber, IsNumbered, IsBusyAt, IsFitAt};
ghost use Rattle.cluster_defs.specs.Waiters.{is_node};
ghost use Rattle.cluster_defs.specs.Placement.{occupied};
ghost use Rattle.table_defs.specs.Lists.{changed};

use base_names::{NodeLine, NodeNo, NodeState};

/// One more runs there.
pub fn add_one(lines: &mut Vec<NodeLine>, node: NodeNo)
    requires numbered { IsNumbered 0 lines.old.items }
    requires node { IsNumber (length lines.old.items) node }
    requires fits { IsFitAt node lines.old.items }
    ensures { lines.new.items ≡ occupied node lines.old.items }
{
    let line = &mut lines[node.0 as usize - 1];
    line.running += 1;
}

/// One less runs there.
pub fn take_one(lines: &mut Vec<NodeLine>, node: NodeNo)
    requires numbered { IsNumbered 0 lines.old.items }
    requires node { IsNumber (length lines.old.items) node }
    requires busy { IsBusyAt node lines.old.items }
    ensures { lines.new.items ≡ changed (λ l. is_node node l.node) (λ l. record l { running = l.running - 1 }) lines.old.items }
{
    let line = &mut lines[node.0 as usize - 1];
    line.running -= 1;
}

pub fn set_state(lines: &mut Vec<NodeLine>, node: NodeNo, state: NodeState)
    requires numbered { IsNumbered 0 lines.old.items }
    requires node { IsNumber (length lines.old.items) node }
    ensures { lines.new.items ≡ changed (λ l. is_node node l.node) (λ l. record l { state = state }) lines.old.items }
{
    let line = &mut lines[node.0 as usize - 1];
    line.state = state;
}

pub fn set_limits(lines: &mut Vec<NodeLine>, node: NodeNo, limit: u32, hard: u32)
    requires numbered { IsNumbered 0 lines.old.items }
    requires node { IsNumber (length lines.old.items) node }
    ensures { lines.new.items ≡ changed (λ l. is_node node l.node) (λ l. record l { limit = limit; hard = hard }) lines.old.items }
{
    let line = &mut lines[node.0 as usize - 1];
    line.limit = limit;
    line.hard = hard;
}

/// Nothing runs there, and nothing comes.
pub fn set_failed(lines: &mut Vec<NodeLine>, node: NodeNo)
    requires numbered { IsNumbered 0 lines.old.items }
    requires node { IsNumber (length lines.old.items) node }
    ensures { lines.new.items ≡ changed (λ l. is_node node l.node) (λ l. record l { state = NodeState.Failed; running = 0 }) lines.old.items }
{
    let line = &mut lines[node.0 as usize - 1];
    line.state = NodeState::Failed;
    line.running = 0;
}
