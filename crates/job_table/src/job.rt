//! One job.

ghost use Rattle.std.specs.Prelude.{◌≡◌, ◌++◌, [], ◌∷◌, OnOk};
ghost use Rattle.job_table.specs.Jobs.{job_at, known, lines};

use base_names::{JobId, JobLine, NoMemory, NodeNo, Seat, Waiter};

/// A seat's job. It waits where it has no node.
#[derive(Clone, Copy, Debug, PartialEq, Eq)]
pub struct Job {
    pub id: JobId,
    /// From -100 to 100.
    pub priority: i8,
    pub node: Option<NodeNo>,
    /// Its node has failed.
    pub lost: bool,
    /// An administrator has aborted it.
    pub marked: bool,
}

/// What is kept of a job beside its seat.
#[derive(Clone, Copy, Debug)]
pub struct Row {
    pub number: u32,
    pub priority: i8,
    pub node: Option<NodeNo>,
    pub lost: bool,
    pub marked: bool,
}

impl Row {
    pub fn of_seat(&self, seat: &Seat) -> Job
        ensures { known result ≡ job_at seat.now self.now }
    {
        Job {
            id: JobId {
                seat: *seat,
                number: self.number,
            },
            priority: self.priority,
            node: self.node,
            lost: self.lost,
            marked: self.marked,
        }
    }
}

/// The job's line is appended, where it isn't lost.
pub fn push_line(listed: &mut Vec<JobLine>, seat: &Seat, row: &Row) -> Result<(), NoMemory>
    ensures { OnOk result (listed.new.items ≡ listed.old.items ++ lines (job_at seat.now row.now ∷ [])) }
{
    if row.lost {
        return Ok(());
    }
    listed.push(JobLine {
        waiter: Waiter::Seat(JobId {
            seat: *seat,
            number: row.number,
        }),
        owner: seat.owner,
        priority: row.priority,
        node: row.node,
    })?;
    Ok(())
}
