//! On which node a job runs.

ghost use Rattle.std.specs.Prelude.{◌≡◌, Some, if◌then◌else◌};
ghost use Rattle.cluster_defs.specs.Placement.{best_node, has_room, may_run, roomier};
ghost use Rattle.node_sched.specs.Schedule.{best_of};

use base_names::{NodeLine, NodeState};

/// The best node for a job of priority 100, or for any other.
pub fn best_of(lines: &Vec<NodeLine>, urgent: bool) -> Option<NodeLine>
    ensures { result ≡ best_of urgent lines.now.items }
{
    if urgent {
        best_node(lines, 100)
    } else {
        best_node(lines, 0)
    }
}

/// The node with most room below its limit among those on which a job of this priority may run, and the first of these.
fn best_node(lines: &Vec<NodeLine>, priority: i8) -> Option<NodeLine>
    ensures { result ≡ best_node priority lines.now.items }
{
    let mut best = None;
    let mut index = lines.len();
    while index > 0 {
        index -= 1;
        best = better(&lines[index], best, priority);
    }
    best
}

fn better(line: &NodeLine, best: Option<NodeLine>, priority: i8) -> Option<NodeLine>
    ensures { result ≡ (if may_run priority line.now then Some (roomier line.now best) else best) }
{
    if may_run(line, priority) {
        Some(roomier(line, best))
    } else {
        best
    }
}

fn may_run(line: &NodeLine, priority: i8) -> bool
    ensures { result ≡ may_run priority line.now }
{
    match line.state {
        NodeState::Alive => has_room(line, priority),
        NodeState::Draining => false,
        NodeState::Failed => false,
    }
}

fn has_room(line: &NodeLine, priority: i8) -> bool
    ensures { result ≡ has_room priority line.now }
{
    if priority == 100 {
        line.hard == 0 || line.running < u64::from(line.hard)
    } else {
        line.running < u64::from(line.limit)
    }
}

fn roomier(line: &NodeLine, best: Option<NodeLine>) -> NodeLine
    ensures { result ≡ roomier line.now best }
{
    match best {
        Some(other) => {
            let taken = u128::from(line.limit) + u128::from(other.running);
            if taken < u128::from(other.limit) + u128::from(line.running) {
                other
            } else {
                *line
            }
        }
        None => *line,
    }
}
