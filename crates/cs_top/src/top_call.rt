//! The top call.

ghost use Rattle.std.specs.Prelude.{◌≡◌, ◌≢◌, ◌⊎◌, false, IfSome, None, map, string_bytes};
ghost use Rattle.base_names.specs.Outside.{Rose};
ghost use Rattle.cs_top.specs.Run.{Ends, IsStatus, RunsAs, uses_disk};
ghost use Rattle.cs_top.specs.Task.{task_asked};

use crate::status::Status;
use crate::task::{Task, task_of};
use base_io::{Sink, Source};
use base_names::OrMemory;
use command_words::{WordsFault, read_words};
use disk_model::Disk;
use limits_command::limits;
use replay_command::replay;
use session_command::hold_session;
use solve_command::solve;
use std::alloc::Global;
use verify_command::verify;

/// Does what the words ask for, and gives the status: 0 where all was done, 1 where the text is no model's,
/// 2 where the words are refused, 3 and 4 where the source or the sink failed, 5 where the disk failed at the opening of its file, 6 for want of memory, and 7 where the input, or a
/// line of a session or a script, is too long. A certificate that isn't valid is 8, a line that is refused 9, and a check with an operation that
/// doesn't fit 11. A file that is no journal is 10.
///
/// `words` begins with the program's name; `session NAME`, `solve` with its limits, `limits`, `verify` and `replay` are what is known. What goes wrong is told
/// in one line on `errs`; a failing write there changes nothing. A session keeps its batches on the disk, and finds there
/// what earlier ones kept; nothing else touches the disk.
pub fn run<S: Source, K: Sink, E: Sink, D: Disk>(
    alloc: Global,
    words: &Vec<String>,
    source: &mut S,
    sink: &mut K,
    errs: &mut E,
    disk: &mut D,
) -> u8
    ensures same_source { S.name source.new ≡ S.name source.old }
    ensures same_sink { K.name sink.new ≡ K.name sink.old }
    ensures same_errs { E.name errs.new ≡ E.name errs.old }
    ensures statuses { IsStatus result }

    // What was taken and written, by the status, and the line that tells why.
    ensures ends { Ends (map string_bytes words.now.items) result (record { seen = D.seen disk.old; before = D.faults disk.old; after = D.faults disk.new }) (S.left source.old) (S.left source.new) (K.contents sink.old) (K.contents sink.new)
        (E.faults errs.old) (E.faults errs.new) (E.contents errs.old) (E.contents errs.new) }
    ensures refused { result ≡ 2 → task_asked (map string_bytes words.now.items) ≡ None }
    ensures unknown { task_asked (map string_bytes words.now.items) ≡ None → (result ≡ 2) ⊎ (result ≡ 6) }
    ensures untouched { task_asked (map string_bytes words.now.items) ≡ None → (S.left source.new ≡ S.left source.old) × (K.contents sink.new ≡ K.contents sink.old) }

    // A session alone touches the disk.
    ensures disk { IfSome (task_asked (map string_bytes words.now.items)) (λ task. uses_disk task ≡ false → disk.new ≡ disk.old) }
    ensures no_disk { task_asked (map string_bytes words.now.items) ≡ None → disk.new ≡ disk.old }

    // A fault is told only where one came.
    ensures read_fault { result ≡ 3 → Rose (S.faults source.old) (S.faults source.new) }
    ensures write_fault { result ≡ 4 → Rose (K.faults sink.old) (K.faults sink.new) }
    ensures disk_fault { result ≡ 5 → Rose (D.faults disk.old) (D.faults disk.new) }
{
    let status = obey_words(alloc, words, source, sink, disk);
    status.report(alloc, errs).code()
}

/// Does what the words ask for.
fn obey_words<S: Source, K: Sink, D: Disk>(
    alloc: Global,
    words: &Vec<String>,
    source: &mut S,
    sink: &mut K,
    disk: &mut D,
) -> Status
    ensures same_source { S.name source.new ≡ S.name source.old }
    ensures same_sink { K.name sink.new ≡ K.name sink.old }
    ensures disk { IfSome (task_asked (map string_bytes words.now.items)) (λ task. uses_disk task ≡ false → disk.new ≡ disk.old) }
    ensures no_disk { task_asked (map string_bytes words.now.items) ≡ None → disk.new ≡ disk.old }
    ensures disk_fault { result ≡ Status.DiskFault → Rose (D.faults disk.old) (D.faults disk.new) }
    ensures runs { IfSome (task_asked (map string_bytes words.now.items)) (λ task.
        RunsAs task (record { seen = D.seen disk.old; before = D.faults disk.old; after = D.faults disk.new }) result (S.left source.old) (S.left source.new) (K.contents sink.old) (K.contents sink.new)) }
    ensures refused { result ≡ Status.WordsRefused → task_asked (map string_bytes words.now.items) ≡ None }
    ensures unknown { task_asked (map string_bytes words.now.items) ≡ None → (result ≡ Status.WordsRefused) ⊎ (result ≡ Status.NoMemory) }
    ensures untouched { task_asked (map string_bytes words.now.items) ≡ None → (S.left source.new ≡ S.left source.old) × (K.contents sink.new ≡ K.contents sink.old) }
    ensures read_fault { result ≡ Status.ReadFault → Rose (S.faults source.old) (S.faults source.new) }
    ensures write_fault { result ≡ Status.WriteFault → Rose (K.faults sink.old) (K.faults sink.new) }
{
    match &read_words(alloc, words) {
        Ok(asked) => match task_of(asked) {
            Some(task) => obey(alloc, &task, source, sink, disk),
            None => Status::WordsRefused,
        },
        Err(OrMemory::Fault(WordsFault::Refused)) => Status::WordsRefused,
        Err(OrMemory::NoMemory) => Status::NoMemory,
    }
}

/// Does what was asked for.
fn obey<S: Source, K: Sink, D: Disk>(
    alloc: Global,
    task: &Task,
    source: &mut S,
    sink: &mut K,
    disk: &mut D,
) -> Status
    ensures same_source { S.name source.new ≡ S.name source.old }
    ensures same_sink { K.name sink.new ≡ K.name sink.old }
    ensures disk { uses_disk task.now ≡ false → disk.new ≡ disk.old }
    ensures disk_fault { result ≡ Status.DiskFault → Rose (D.faults disk.old) (D.faults disk.new) }
    ensures runs { RunsAs task.now (record { seen = D.seen disk.old; before = D.faults disk.old; after = D.faults disk.new }) result (S.left source.old) (S.left source.new) (K.contents sink.old) (K.contents sink.new) }
    ensures read_fault { result ≡ Status.ReadFault → Rose (S.faults source.old) (S.faults source.new) }
    ensures write_fault { result ≡ Status.WriteFault → Rose (K.faults sink.old) (K.faults sink.new) }
    ensures known { result ≢ Status.WordsRefused }
{
    match task {
        Task::Session(owner, role) => {
            Status::from(hold_session(alloc, *owner, *role, source, sink, disk))
        }
        Task::Solve(params) => Status::from(solve(alloc, params, source, sink)),
        Task::Limits => Status::from(limits(alloc, source, sink)),
        Task::Verify => Status::from(verify(alloc, source, sink)),
        Task::Replay => Status::from(replay(alloc, source, sink)),
    }
}
