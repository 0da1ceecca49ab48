//! The jobs by seat.

ghost use Rattle.std.specs.Prelude.{◌≡◌, ◌+◌, ◌<◌, ◌^◌, negsuc, pos, ◌≤ℤ◌, false, true, [], IfOk, OnOk, OnErr, None, is_some, option_map, if◌then◌else◌};
ghost use Rattle.base_names.specs.declared.seat.Seat.{Seat};
ghost use Rattle.cluster_defs.specs.Asks as asks;
ghost use Rattle.cluster_defs.specs.Cluster.{id_of, job_of, jobs_given};
ghost use Rattle.cluster_defs.specs.Effects.{given_after, new_job, without_job};
ghost use Rattle.cluster_defs.specs.Listing.{seated_in};
ghost use Rattle.job_table.specs.Jobs.{IsOnce, found, job_at, known, lines, set_job, with_job};

use crate::job::{Job, Row, push_line};
use base_names::{JobId, JobLine, NoMemory, NodeNo, Seat};
use std::alloc::Global;
use std::collections::{BTreeMap, HashMap};
use std::marker::Model;

/// Each seat's job, and how many jobs it was given. Contracts see the `Jobs` of `specs/Jobs.antt`.
#[derive(Drop)]
pub struct JobTable {
    /// In the order in which they are listed.
    rows: BTreeMap<Seat, Row>,
    given: HashMap<Seat, u32>,
}

impl Model for JobTable {
    ghost use Rattle.std.specs.BTreeMap.{IsOrdered};
    ghost use Rattle.base_names.specs.contracts.seat.SeatOrd.TheImpl as seats;
    ghost use Rattle.job_table.specs.Jobs.{Jobs, all_given, jobs_in};

    ghost Value = { Jobs };

    ghost view = { λ table. record { jobs = jobs_in table.rows.entries; given = all_given table.given.entries } };

    ghost invariant = { λ table. IsOrdered seats.ghosts.cmp table.rows };
}

impl JobTable {
    /// No job, and none was given.
    pub fn empty(alloc: Global) -> JobTable
        ensures { result ≡ record { jobs = []; given = [] } }
    {
        JobTable {
            rows: BTreeMap::new(alloc),
            given: HashMap::new(alloc),
        }
    }

    /// The seat is given its next job, which waits. After an error all is as before.
    pub fn add(&mut self, seat: &Seat, priority: i8) -> Result<JobId, NoMemory>
        requires holds_none { job_of seat.now self.old.jobs ≡ None }
        requires numbers { jobs_given seat.now self.old.given + 1 < 2 ^ 32 }
        requires lowest { negsuc 99 ≤ℤ priority }
        requires highest { priority ≤ℤ pos 100 }
        ensures id { IfOk result (λ id. id ≡ id_of (new_job self.old.given seat.now priority)) }
        ensures jobs { OnOk result (self.new.jobs ≡ seated_in (new_job self.old.given seat.now priority) self.old.jobs) }
        ensures given { OnOk result ((s : Seat) → jobs_given s self.new.given ≡ jobs_given s (given_after seat.now (asks.Job priority) self.old.given)) }
        ensures err { OnErr result ((self.new.jobs ≡ self.old.jobs) × ((s : Seat) → jobs_given s self.new.given ≡ jobs_given s self.old.given)) }
    {
        let number = self.given_to(seat) + 1;
        self.given.reserve(1)?;
        let row = Row {
            number,
            priority,
            node: None,
            lost: false,
            marked: false,
        };
        self.rows.insert(*seat, row)?;
        let put: Result<_, _> = self.given.insert(*seat, number);
        let _before = put.unwrap();
        Ok(JobId {
            seat: *seat,
            number,
        })
    }

    /// How many jobs the seat was given.
    pub fn given_to(&self, seat: &Seat) -> u32
        ensures { result ≡ jobs_given seat.now self.now.given }
    {
        match self.given.get(seat) {
            Some(count) => *count,
            None => 0,
        }
    }

    /// The seat's job.
    pub fn of_seat(&self, seat: &Seat) -> Option<Job>
        ensures { option_map known result ≡ job_of seat.now self.now.jobs }
    {
        match self.rows.get(seat) {
            Some(row) => Some(row.of_seat(seat)),
            None => None,
        }
    }

    /// What is kept of the job of this name.
    fn row(&self, id: &JobId) -> Option<Row>
        ensures found { option_map (job_at id.now.seat) result ≡ found id.now self.now.jobs }
        ensures once { IsOnce id.now.seat self.now.jobs }
    {
        match self.rows.get(&id.seat) {
            Some(row) => {
                if row.number == id.number {
                    Some(*row)
                } else {
                    None
                }
            }
            None => None,
        }
    }

    /// The job is there no more. False where no such job is there.
    pub fn remove(&mut self, id: &JobId) -> bool
        ensures there { result ≡ is_some (found id.now self.old.jobs) }
        ensures table { self.new ≡ (if is_some (found id.now self.old.jobs) then record self.old { jobs = without_job id.now.seat self.old.jobs } else self.old) }
    {
        match self.row(id) {
            Some(_row) => {
                self.rows.remove(&id.seat);
                true
            }
            None => false,
        }
    }

    /// An administrator has aborted the job. False where no such job is there.
    pub fn mark_cut(&mut self, id: &JobId) -> bool
        ensures there { result ≡ is_some (found id.now self.old.jobs) }
        ensures table { self.new ≡ with_job id.now (λ job. record job { marked = true }) self.old }
    {
        match self.row(id) {
            Some(mut row) => {
                row.marked = true;
                self.put(&id.seat, row);
                true
            }
            None => false,
        }
    }

    /// The job's node has failed. False where no such job is there.
    pub fn mark_lost(&mut self, id: &JobId) -> bool
        ensures there { result ≡ is_some (found id.now self.old.jobs) }
        ensures table { self.new ≡ with_job id.now (λ job. record job { lost = true }) self.old }
    {
        match self.row(id) {
            Some(mut row) => {
                row.lost = true;
                self.put(&id.seat, row);
                true
            }
            None => false,
        }
    }

    /// The job runs on this node, or waits. False where no such job is there.
    pub fn set_place(&mut self, id: &JobId, node: Option<NodeNo>) -> bool
        ensures there { result ≡ is_some (found id.now self.old.jobs) }
        ensures table { self.new ≡ with_job id.now (λ job. record job { node = node }) self.old }
    {
        match self.row(id) {
            Some(mut row) => {
                row.node = node;
                self.put(&id.seat, row);
                true
            }
            None => false,
        }
    }

    /// The seat's job, which is there, stands so.
    fn put(&mut self, seat: &Seat, row: Row)
        requires there { is_some (job_of seat.now self.old.jobs) ≡ true }
        ensures jobs { self.new.jobs ≡ set_job seat.now (job_at seat.now row) self.old.jobs }
        ensures given { self.new.given ≡ self.old.given }
    {
        let put: Result<_, _> = self.rows.insert(*seat, row);
        let _before = put.unwrap();
    }

    /// The jobs by seat, without those that are lost.
    pub fn list(&self, alloc: Global) -> Result<Vec<JobLine>, NoMemory>
        ensures { IfOk result (λ listed. listed.items ≡ lines self.now.jobs) }
    {
        let mut listed = Vec::new(alloc);
        for (seat, row) in &self.rows {
            push_line(&mut listed, seat, row)?;
        }
        Ok(listed)
    }
}
