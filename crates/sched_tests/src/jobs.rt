//! The table of jobs.

use base_names::{JobId, JobLine, NodeNo, Owner, Role, Seat, Waiter};
use job_table::JobTable;
use std::test::Fail;

/// The seats that get a job, in the order of coming: number, owner, whether for an administrator.
const SEATS: &[(u32, &[u8], bool)] = &[
    (2, b"ada", false),
    (1, b"bob", false),
    (1, b"ada", true),
    (1, b"ada", false),
    (10, b"ada", false),
];

/// The places of these in the order in which jobs are listed.
const LISTED: &[usize] = &[3, 2, 1, 0, 4];

fn seat_at(index: usize) -> Result<Seat, Fail> {
    let (number, owner, admin) = *SEATS.get(index).ok_or("a seat")?;
    Ok(Seat {
        number,
        owner: Owner::read(owner).ok_or("an owner")?,
        role: if admin { Role::Admin } else { Role::Standard },
    })
}

/// The number of the job that the seat is given, or 0 where it may have none.
fn add(table: &mut JobTable, seat: &Seat, priority: i8) -> Result<u32, Fail> {
    let may = table.of_seat(seat).is_none() && table.given_to(seat) < u32::MAX;
    if !may || !(-100..=100).contains(&priority) {
        return Ok(0);
    }
    Ok(table.add(seat, priority)?.number)
}

fn is_line(line: &JobLine, seat: &Seat, number: u32) -> bool {
    line.waiter
        == Waiter::Seat(JobId {
            seat: *seat,
            number,
        })
        && line.owner == seat.owner
}

#[test]
fn jobs_are_listed_by_seat(rt: HostRuntime) -> Result<(), Fail> {
    let alloc = rt.alloc();
    let mut table = JobTable::empty(alloc);
    for index in 0..SEATS.len() {
        assert!(rt; add(&mut table, &seat_at(index)?, 5)? == 1);
    }
    let listed = table.list(alloc)?;
    assert!(rt; listed.len() == LISTED.len());
    for (line, index) in listed.iter().zip(LISTED.iter()) {
        assert!(rt; is_line(line, &seat_at(*index)?, 1));
    }
    Ok(())
}

fn is_marked(table: &mut JobTable, first: &JobId, second: &JobId) -> bool {
    table.set_place(first, Some(NodeNo(7))) && table.mark_cut(first) && !table.mark_cut(second)
}

fn stands_marked(table: &JobTable, seat: &Seat) -> bool {
    match table.of_seat(seat) {
        Some(job) => job.node == Some(NodeNo(7)) && job.marked && !job.lost && job.priority == -100,
        None => false,
    }
}

fn is_lost(table: &mut JobTable, first: &JobId, second: &JobId) -> bool {
    table.mark_lost(first) && !table.mark_lost(second)
}

fn is_left(table: &mut JobTable, first: &JobId, second: &JobId) -> bool {
    !table.remove(second) && table.remove(first) && !table.set_place(first, None)
}

#[test]
fn a_job_is_marked_lost_and_left(rt: HostRuntime) -> Result<(), Fail> {
    let alloc = rt.alloc();
    let mut table = JobTable::empty(alloc);
    let seat = seat_at(0)?;
    let first = JobId { seat, number: 1 };
    let second = JobId { seat, number: 2 };
    assert!(rt; add(&mut table, &seat, -100)? == 1);
    assert!(rt; is_marked(&mut table, &first, &second));
    assert!(rt; stands_marked(&table, &seat));
    assert!(rt; is_lost(&mut table, &first, &second));
    assert!(rt; table.list(alloc)?.is_empty());
    assert!(rt; is_left(&mut table, &first, &second));
    assert!(rt; add(&mut table, &seat, 100)? == 2);
    Ok(())
}
