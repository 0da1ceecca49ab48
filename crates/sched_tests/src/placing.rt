//! Nodes and what waits for them, step by step: what is done, and which places are given then.

use base_names::{
    BatchId, JobId, NodeLine, NodeNo, NodeState, Owner, Placed, Refusal, Role, Seat, Waiter,
};
use node_sched::Nodes;
use std::alloc::Global;
use std::test::Fail;

/// One step. Who waits or leaves is told by a number: a seat's first job, or an attempt at a batch.
#[derive(Clone, Copy, Debug)]
enum Act {
    Job(u32, i8),
    Batch(u32, i8),
    LeaveJob(u32),
    LeaveBatch(u32),
    /// A node's limit and its hard one.
    Limits(u32, u32, u32),
    Drain(u32),
    Resume(u32),
    Fail(u32),
}

/// A step, and the numbers of who is placed, each with its node.
type Step = (Act, &'static [(u32, u32)]);

/// Two nodes with one place each, and two for priority 100.
const QUEUES: &[Step] = &[
    (Act::Job(1, 0), &[(1, 1)]),
    (Act::Job(2, 0), &[(2, 2)]),
    (Act::Job(3, 5), &[]),
    (Act::Job(4, 100), &[(4, 1)]),
    (Act::Job(5, 100), &[(5, 2)]),
    (Act::Job(6, 100), &[]),
    (Act::LeaveJob(1), &[(6, 1)]),
    (Act::LeaveJob(4), &[]),
    (Act::LeaveJob(6), &[(3, 1)]),
    (Act::LeaveJob(9), &[]),
];

/// Two nodes with one place each, and no hard limit: draining and failed ones take nothing.
const DRAINED: &[Step] = &[
    (Act::Drain(1), &[]),
    (Act::Drain(2), &[]),
    (Act::Batch(1, 0), &[]),
    (Act::Resume(1), &[(1, 1)]),
    (Act::Job(2, 0), &[]),
    (Act::Job(3, 100), &[(3, 1)]),
    (Act::Fail(1), &[]),
    (Act::Resume(2), &[(2, 2)]),
    (Act::Job(4, -100), &[]),
    (Act::Job(5, 100), &[(5, 2)]),
    (Act::Resume(1), &[(4, 1)]),
];

/// Three nodes with two places each: most room first, then the least number; all places that are free in one go.
const ROOM: &[Step] = &[
    (Act::Limits(3, 3, 3), &[]),
    (Act::Job(1, 0), &[(1, 3)]),
    (Act::Job(2, 0), &[(2, 1)]),
    (Act::Job(3, 0), &[(3, 2)]),
    (Act::Limits(3, 1, 1), &[]),
    (Act::Limits(1, 1, 0), &[]),
    (Act::Limits(2, 1, 0), &[]),
    (Act::Batch(4, 0), &[]),
    (Act::Batch(5, 1), &[]),
    (Act::Batch(6, 0), &[]),
    (Act::LeaveBatch(6), &[]),
    (Act::Limits(2, 3, 0), &[(5, 2), (4, 2)]),
];

fn job(owner: Owner, number: u32) -> Waiter {
    Waiter::Seat(JobId {
        seat: Seat {
            number,
            owner,
            role: Role::Standard,
        },
        number: 1,
    })
}

fn batch(owner: Owner, number: u32) -> Waiter {
    Waiter::Batch(BatchId { owner, number }, 1)
}

fn number_of(waiter: &Waiter) -> u32 {
    match waiter {
        Waiter::Seat(job) => job.seat.number,
        Waiter::Batch(id, _) => id.number,
    }
}

fn wait(nodes: &mut Nodes, waiter: &Waiter, priority: i8) -> Result<bool, Fail> {
    if nodes.contains(waiter) || !(-100..=100).contains(&priority) {
        return Ok(false);
    }
    nodes.wait(waiter, priority)?;
    Ok(true)
}

/// Does a step, and tells whether that was done.
fn is_done(nodes: &mut Nodes, owner: Owner, act: Act) -> Result<bool, Fail> {
    Ok(match act {
        Act::Job(number, priority) => wait(nodes, &job(owner, number), priority)?,
        Act::Batch(number, priority) => wait(nodes, &batch(owner, number), priority)?,
        Act::LeaveJob(number) => nodes.leave(&job(owner, number)) == (number != 9),
        Act::LeaveBatch(number) => nodes.leave(&batch(owner, number)),
        Act::Limits(node, limit, hard) => nodes.set_limits(NodeNo(node), limit, hard).is_ok(),
        Act::Drain(node) => nodes.drain(NodeNo(node)).is_ok(),
        Act::Resume(node) => nodes.resume(NodeNo(node)).is_ok(),
        Act::Fail(node) => nodes.fail(NodeNo(node)).is_ok(),
    })
}

fn are_placed(placed: &Vec<Placed>, expected: &[(u32, u32)]) -> bool {
    placed.len() == expected.len()
        && placed.iter().zip(expected.iter()).all(|(one, pair)| number_of(&one.waiter) == pair.0
            && one.node.0 == pair.1)
}

/// Whether each step is done and gives these places.
fn runs(alloc: Global, nodes: &mut Nodes, steps: &[Step]) -> Result<bool, Fail> {
    let owner = Owner::read(b"ada").ok_or("an owner")?;
    let mut out = Vec::new(alloc);
    for (step, expected) in steps {
        if !is_done(nodes, owner, *step)? {
            return Ok(false);
        }
        out.clear();
        out.try_reserve(nodes.waiting())?;
        nodes.dispatch(&mut out);
        if !are_placed(&out, expected) {
            return Ok(false);
        }
    }
    Ok(true)
}

#[test]
fn priority_100_passes_the_limit_and_not_the_hard_one(rt: HostRuntime) -> Result<(), Fail> {
    let alloc = rt.alloc();
    let mut nodes = Nodes::new(alloc, 2, 1, 2)?;
    assert!(rt; runs(alloc, &mut nodes, QUEUES)?);
    Ok(())
}

#[test]
fn draining_and_failed_nodes_take_nothing(rt: HostRuntime) -> Result<(), Fail> {
    let alloc = rt.alloc();
    let mut nodes = Nodes::new(alloc, 2, 1, 0)?;
    assert!(rt; runs(alloc, &mut nodes, DRAINED)?);
    Ok(())
}

#[test]
fn the_roomiest_node_is_first(rt: HostRuntime) -> Result<(), Fail> {
    let alloc = rt.alloc();
    let mut nodes = Nodes::new(alloc, 3, 2, 0)?;
    assert!(rt; runs(alloc, &mut nodes, ROOM)?);
    let running = nodes.running(alloc, NodeNo(2))?;
    assert!(rt; running.iter().map(number_of).eq([3, 5, 4]));
    assert!(rt; is_second(&nodes.lines(alloc)?));
    Ok(())
}

/// Whether the second line tells what [`ROOM`] leaves on the second node.
fn is_second(lines: &Vec<NodeLine>) -> bool {
    match lines.get(1) {
        Some(line) => {
            line.node == NodeNo(2)
                && line.state == NodeState::Alive
                && (line.limit, line.hard, line.running) == (3, 0, 3)
        }
        None => false,
    }
}

fn are_no_nodes(nodes: &mut Nodes) -> bool {
    nodes.drain(NodeNo(3)) == Err(Refusal::NODE)
        && nodes.resume(NodeNo(0)) == Err(Refusal::NODE)
        && nodes.fail(NodeNo(4294967295)) == Err(Refusal::NODE)
        && nodes.set_limits(NodeNo(99), 1001, 0) == Err(Refusal::NODE)
}

fn is_out_of_range(nodes: &mut Nodes, limit: u32, hard: u32) -> bool {
    nodes.set_limits(NodeNo(1), limit, hard) == Err(Refusal::RANGE)
}

fn are_out_of_range(nodes: &mut Nodes) -> bool {
    is_out_of_range(nodes, 1001, 0)
        && is_out_of_range(nodes, 0, 0)
        && is_out_of_range(nodes, 3, 2)
        && is_out_of_range(nodes, 1000, 1001)
}

#[test]
fn nodes_and_limits_are_refused(rt: HostRuntime) -> Result<(), Fail> {
    let mut nodes = Nodes::new(rt.alloc(), 2, 1, 0)?;
    assert!(rt; are_no_nodes(&mut nodes));
    assert!(rt; are_out_of_range(&mut nodes));
    assert!(rt; nodes.set_limits(NodeNo(1), 1000, 1000).is_ok());
    assert!(rt; nodes.running(rt.alloc(), NodeNo(3)).is_err());
    Ok(())
}
