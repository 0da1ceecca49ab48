//! Opens hubs and creates batches in them, for `bench/hub_journal`.
//!
//! - `mount FILE` opens the hub in a file and prints how many batches it has.
//! - `create FILE COUNT` opens the hub in a file, creates so many batches, and prints how many it has then.
//! - Without a word it creates some over a file in memory, and opens that.
#![tactic(auto)]

ghost use Rattle.std.specs.Prelude.{◌≤◌, ◌^◌, IfOk};
ghost use Rattle.hub_core.specs.Standing.{IsStanding};
ghost use Rattle.rec_format.specs.Lawful.{IsLawfulBody};

use base_names::{NoMemory, Owner, Role, Seat};
use disk_model::{Disk, MemDisk};
use file_disk::FileDisk;
use hub_core::{Hub, Limits, Setup};
use hub_words::{Ask, BatchBody, Reply};
use model_data::BatchRecord;
use rec_format::decode;
use std::alloc::{AllocError, Global};
use std::process::ExitCode;
use std::{env, io};

/// Creates a batch with a model of two variables and two rows.
static CREATE: &[u8] =
    b"\x01\x03ada\0\0\x01\x02\0\0\0\x01\0\0\0\0\0\0\0\x05\0\0\0\0\0\0\0\x07\0\0\0\0\0\0\0\x0B\xFD\x01\
      \x01\0\0\0\0\0\0\0\0\0\0\0\0\0\0\0\x03\0\0\0\0\0\0\0\0\0\0\0\0\0\0\0\x04\0\0\0\x02\x01x\x01\xFF\
      \xFF\xFF\xFF\xFF\xFF\xFF\xFF\xFF\xFF\xFF\xFF\xFF\xFF\xFF\xFF\0\0\0\0\0\0\0\0\0\0\0\0\0\0\0\x03\0\
      \0\0\0\0\0\0\0\0\0\0\0\0\0\0\0\x02\0\0\0\0\0\0\0\0\0\0\0\0\0\0\0\x01\x01\x01\x02t0\x01y\x01\0\0\
      \0\0\0\0\0\0\0\0\0\0\0\0\0\0\0\0\0\0\0\0\0\0\0\0\0\0\0\0\0\x01\x01\0\0\0\0\0\0\0\0\0\0\0\0\0\0\0\
      \x05\0\0\0\0\0\0\0\0\0\0\0\0\0\0\0\x02\0\0\0\0\0\0\0\0\0\0\0\0\0\0\0\0\0\0\0\0\0\0\0\0\0\0\0\0\0\
      \0\0\x01\x02\x01\x02t1\0\0\0\x02\x01c\x01\xFF\xFF\xFF\xFF\xFF\xFF\xFF\xFF\xFF\xFF\xFF\xFF\xFF\
      \xFF\xFF\xF9\0\0\0\0\0\0\0\0\0\0\0\0\0\0\0\x02\0\0\0\x02\0\0\0\0\0\0\0\0\0\0\0\0\0\0\0\0\0\0\0\
      \x01\0\0\0\0\0\0\0\0\0\0\0\0\0\0\0\x01\0\0\0\x01\xFF\xFF\xFF\xFF\xFF\xFF\xFF\xFF\xFF\xFF\xFF\xFF\
      \xFF\xFF\xFF\xFE\0\0\0\0\0\0\0\0\0\0\0\0\0\0\0\x09\x01d\x02\0\0\0\0\0\0\0\0\0\0\0\0\0\0\0\0\0\0\
      \0\0\0\0\0\0\0\0\0\0\0\0\0\x01\0\0\0\0";

const IN_MEMORY: u32 = 100;

/// Why the work ended.
#[derive(Clone, Copy, Debug)]
enum Fault {
    NoMemory,
    Unread,
    Mount,
    Create,
    Output,
    Words,
}

impl From<NoMemory> for Fault {
    fn from(_error: NoMemory) -> Fault {
        Fault::NoMemory
    }
}

impl From<AllocError> for Fault {
    fn from(_error: AllocError) -> Fault {
        Fault::NoMemory
    }
}

impl From<io::Error> for Fault {
    fn from(_error: io::Error) -> Fault {
        Fault::Output
    }
}

/// Limits that a bench doesn't meet: in the journal there is room for the outcomes of 833,333 batches.
fn setup() -> Setup
    ensures { result.limits.journal ≤ 10 ^ 12 }
{
    Setup {
        nodes: 1,
        limit: 2,
        hard: 0,
        limits: Limits {
            commands: 1_000_000,
            bytes: 1_000_000_000_000,
            journal: 1_000_000_000_000,
        },
    }
}

/// The hub of a disk.
fn opened<D: Disk + Drop>(alloc: Global, disk: D) -> Result<Hub<D>, Fault>
    ensures { IfOk result (IsStanding D.moment D.left D.faults) }
{
    match Hub::mount(alloc, disk, setup()) {
        Ok(hub) => Ok(hub),
        Err(refused) => {
            let _disk = refused.into_disk();
            Err(Fault::Mount)
        }
    }
}

/// What each batch solves.
fn body(alloc: Global) -> Result<BatchBody, Fault>
    ensures { IfOk result IsLawfulBody }
{
    let Some(record) = decode(alloc, CREATE)? else {
        return Err(Fault::Unread);
    };
    match record {
        BatchRecord::Create(_, _, body) => Ok(body),
        _ => Err(Fault::Unread),
    }
}

/// Creates so many batches in the hub of a disk; the disk back.
fn create<D: Disk + Drop>(rt: &impl Print, alloc: Global, disk: D, count: u32) -> Result<D, Fault> {
    let Some(owner) = Owner::read(b"ada") else {
        return Err(Fault::Words);
    };
    let seat = Seat {
        number: 1,
        owner,
        role: Role::Standard,
    };
    let mut hub = opened(alloc, disk)?;
    for _ in 0..count {
        match hub.ask(alloc, &seat, Ask::Create(body(alloc)?)) {
            Reply::Made(_) => {}
            _ => return Err(Fault::Create),
        }
    }
    println!(rt; "batches {}", hub.rows())?;
    Ok(hub.into_disk())
}

/// Opens the hub of a disk; the disk back.
fn mount<D: Disk + Drop>(rt: &impl Print, alloc: Global, disk: D) -> Result<D, Fault> {
    let hub = opened(alloc, disk)?;
    println!(rt; "batches {}", hub.rows())?;
    Ok(hub.into_disk())
}

fn run(rt: &HostRuntime) -> Result<(), Fault> {
    let alloc = rt.alloc();
    let mut words = env::args(rt)?;
    words.next();
    let Some(task) = words.next() else {
        let disk = create(rt, alloc, MemDisk::new(alloc), IN_MEMORY)?;
        let _disk = mount(rt, alloc, disk)?;
        return Ok(());
    };
    let Some(path) = words.next() else {
        return Err(Fault::Words);
    };
    let disk = FileDisk::new(rt.clone()?, path);
    match (task.as_str(), words.next()) {
        ("create", Some(count)) => {
            let count = count.as_str().parse().map_err(|_| Fault::Words)?;
            let _disk = create(rt, alloc, disk, count)?;
        }
        ("mount", None) => {
            let _disk = mount(rt, alloc, disk)?;
        }
        _ => return Err(Fault::Words),
    }
    Ok(())
}

fn main(rt: HostRuntime) -> ExitCode {
    match run(&rt) {
        Ok(()) => ExitCode::SUCCESS,
        Err(_) => ExitCode::FAILURE,
    }
}
