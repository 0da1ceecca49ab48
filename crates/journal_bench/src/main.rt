//! Appends to a journal and opens it, for `bench/journal`.
//!
//! - `append FILE COUNT` opens the journal in a file, adds so many bodies of 200 bytes, and prints where its end is then.
//! - `mount FILE` opens the journal in a file and prints how many bodies it has, the bytes of all of them, and where its end is.
//! - Without a word it does both over a file in memory.
#![tactic(auto)]

ghost use Rattle.std.specs.Prelude.{◌≡◌, IfOk};
ghost use Rattle.journal.specs.Standing.{Stands};

use base_names::{NoMemory, Text};
use disk_model::{Disk, MemDisk};
use file_disk::FileDisk;
use journal::{AppendFault, Journal, MountFault};
use std::alloc::{AllocError, Global};
use std::process::ExitCode;
use std::{env, io};

/// The bytes of each body.
const BODY: u32 = 200;

/// Of a journal, in bytes.
const LIMIT: u64 = 1_000_000_000_000;

const IN_MEMORY: u32 = 100;

/// Why the work ended.
#[derive(Clone, Copy, Debug)]
enum Fault {
    NoMemory,
    Mount,
    Append,
    Output,
    Words,
}

impl From<NoMemory> for Fault {
    fn from(_error: NoMemory) -> Fault {
        Fault::NoMemory
    }
}

impl From<AllocError> for Fault {
    fn from(_error: AllocError) -> Fault {
        Fault::NoMemory
    }
}

impl From<AppendFault> for Fault {
    fn from(_fault: AppendFault) -> Fault {
        Fault::Append
    }
}

impl From<io::Error> for Fault {
    fn from(_error: io::Error) -> Fault {
        Fault::Output
    }
}

/// The journal of a disk, with its bodies.
fn opened<D: Disk + Drop>(alloc: Global, disk: D) -> Result<(Journal<D>, Vec<Text>), Fault>
    ensures { IfOk result (λ p. Stands D.moment D.left p.0) }
{
    match Journal::mount(alloc, disk, LIMIT) {
        Ok(opened) => Ok(opened),
        Err(unmounted) => {
            let _disk = unmounted.into_disk();
            Err(Fault::Mount)
        }
    }
}

/// Adds so many bodies to the journal of a disk; where its end is then, and the disk back.
fn append<D: Disk + Drop>(rt: &impl Print, alloc: Global, disk: D, count: u32) -> Result<D, Fault> {
    let body = [b'x'; BODY as usize];
    let (mut journal, _) = opened(alloc, disk)?;
    journal.reserve(alloc, BODY)?;
    for _ in 0..count {
        journal.append(&body)?;
    }
    println!(rt; "end {}", journal.end())?;
    Ok(journal.into_disk())
}

fn mount<D: Disk + Drop>(rt: &impl Print, alloc: Global, disk: D) -> Result<D, Fault> {
    let (journal, bodies) = opened(alloc, disk)?;
    println!(rt; "bodies {} end {}", bodies.len(), journal.end())?;
    Ok(journal.into_disk())
}

fn run(rt: &HostRuntime) -> Result<(), Fault> {
    let alloc = rt.alloc();
    let mut words = env::args(rt)?;
    words.next();
    let Some(task) = words.next() else {
        let disk = append(rt, alloc, MemDisk::new(alloc), IN_MEMORY)?;
        let _disk = mount(rt, alloc, disk)?;
        return Ok(());
    };
    let Some(path) = words.next() else {
        return Err(Fault::Words);
    };
    let disk = FileDisk::new(rt.clone()?, path);
    match (task.as_str(), words.next()) {
        ("append", Some(count)) => {
            let count = count.as_str().parse().map_err(|_| Fault::Words)?;
            let _disk = append(rt, alloc, disk, count)?;
        }
        ("mount", None) => {
            let _disk = mount(rt, alloc, disk)?;
        }
        _ => return Err(Fault::Words),
    }
    Ok(())
}

fn main(rt: HostRuntime) -> ExitCode {
    match run(&rt) {
        Ok(()) => ExitCode::SUCCESS,
        Err(_) => ExitCode::FAILURE,
    }
}
