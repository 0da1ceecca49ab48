//! The program: it hands the words and the real source, sinks and disk to the top call.
#![tactic(auto)]

use base_io::{Sink, StdSink, StdSource, put};
use base_names::NoMemory;
use cs_top::{Words, read_words, run};
use file_disk::FileDisk;
use std::process::ExitCode;
use std::{env, io};

/// The status for want of memory before the words are known.
const NO_MEMORY: u8 = 6;

/// The journal where none is named.
const USUAL_JOURNAL: &str = "cluster.journal";

/// The words of the command line, the program's name first. None where there is no memory for them. A
/// word that is no text makes the whole line one that is refused, as no words are.
fn words(rt: &HostRuntime) -> Option<Vec<String>> {
    match env::args(rt) {
        Ok(args) => args.collect(rt.alloc()).ok(),
        Err(error) if error.kind() == io::ErrorKind::OutOfMemory => None,
        Err(_) => Some(Vec::new(rt.alloc())),
    }
}

/// The file that the words name for a journal, or the usual one. It isn't touched before its first call.
fn journal_file(rt: &HostRuntime, words: &Vec<String>) -> Result<FileDisk<HostRuntime>, NoMemory> {
    let path = match &read_words(rt.alloc(), words) {
        Ok(Words::Session(_, _, path)) => path.clone()?,
        _ => String::from_str(rt.alloc(), USUAL_JOURNAL)?,
    };
    Ok(FileDisk::new(rt.clone()?, path))
}

/// Tells that there is no memory.
fn no_memory<K: Sink>(errs: &mut K) -> ExitCode {
    let _ = put(errs, b"out of memory\n");
    ExitCode::from(NO_MEMORY)
}

fn main(rt: HostRuntime) -> ExitCode {
    let mut errs = StdSink::new(rt.stderr());
    let Some(words) = words(&rt) else {
        return no_memory(&mut errs);
    };
    let Ok(mut disk) = journal_file(&rt, &words) else {
        return no_memory(&mut errs);
    };
    let mut source = StdSource::new(rt.stdin());
    let mut sink = StdSink::new(rt.stdout());
    let status = run(
        rt.alloc(),
        &words,
        &mut source,
        &mut sink,
        &mut errs,
        &mut disk,
    );
    ExitCode::from(status)
}
