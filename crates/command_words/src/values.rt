//! What the values of a command line mean.

ghost use Rattle.std.specs.Prelude.{◌≡◌, ◌^◌, ◌-◌, ◌≤◌, IfOk, IfSome, None, codes, option_map, option_and_then, string_bytes};
ghost use Rattle.std.specs.Option.{option_copied};
ghost use Rattle.command_words.specs.Asked.{Answers, count, count_or, file, file_or, load_asked, owner, role_of, hard_asked, is_file, serve_asked, session_asked, sizes_asked, solve, solve_asked, usual_journal, work_asked};
ghost use Rattle.command_words.specs.declared.limits.TheConstants.{MAX_JOB_LIMIT};

use crate::asked::{ServeWords, Words, WordsFault};
use crate::limits::{
    MAX_CLUSTER_NODES, MAX_DIGITS, MAX_JOB_LIMIT, MAX_PORT, MAX_WORKERS, NO_HARD_LIMIT,
    USUAL_CLUSTER_NODES, USUAL_JOB_LIMIT, USUAL_PORT, USUAL_WORKERS,
};
use base_names::{NoMemory, OrMemory, Owner, Role, read_digits};
use model_data::{MAX_ITERATIONS, MAX_NODES, MAX_WORK, Params};
use std::alloc::Global;

/// Whether a word names a file.
fn is_file(word: &str) -> bool
    ensures { result ≡ is_file word.now }
{
    match word.as_bytes() {
        [] => false,
        [first, ..] => *first != b'-',
    }
}

/// A file's name, or the usual journal's where there is none. `None` where the word names no file.
fn journal(alloc: Global, word: Option<&str>) -> Result<Option<String>, NoMemory>
    ensures { IfOk result (λ o. option_map string_bytes o ≡ file_or usual_journal (option_copied word.entry)) }
{
    match word {
        None => Ok(Some(String::from_str(alloc, "cluster.journal")?)),
        Some(word) => {
            if is_file(word) {
                Ok(Some(String::from_str(alloc, word)?))
            } else {
                Ok(None)
            }
        }
    }
}

/// A number of at least one digit and not too many, between two limits.
fn count(word: &str, low: u64, high: u64) -> Option<u64>
    ensures value { result ≡ count low high word.now }
    ensures most { IfSome result (λ n. n ≤ high) }
{
    if word.len() > MAX_DIGITS {
        return None;
    }
    let n = read_digits(word.as_bytes())?;
    if low <= n && n <= high { Some(n) } else { None }
}

fn count_or(word: Option<&str>, usual: u64, low: u64, high: u64) -> Option<u64>
    requires { usual ≤ high }
    ensures value { result ≡ count_or usual low high (option_copied word.entry) }
    ensures most { IfSome result (λ n. n ≤ high) }
{
    match word {
        None => Some(usual),
        Some(word) => count(word, low, high),
    }
}

fn owner(word: &str) -> Option<Owner>
    ensures { result ≡ owner word.now }
{
    Owner::read(word.as_bytes())
}

pub fn session_words(
    alloc: Global,
    name: Option<&str>,
    admin: bool,
    file: Option<&str>,
) -> Result<Words, OrMemory<WordsFault>>
    ensures { Answers result (session_asked (option_copied name.entry) admin (option_copied file.entry)) }
{
    let Some(name) = name else {
        return Err(OrMemory::Fault(WordsFault::Refused));
    };
    let Some(owner) = owner(name) else {
        return Err(OrMemory::Fault(WordsFault::Refused));
    };
    match journal(alloc, file)? {
        Some(file) => Ok(Words::Session(owner, role(admin), file)),
        None => Err(OrMemory::Fault(WordsFault::Refused)),
    }
}

fn role(admin: bool) -> Role
    ensures { result ≡ role_of admin }
{
    if admin { Role::Admin } else { Role::Standard }
}

pub fn work_words(alloc: Global, file: Option<&str>) -> Result<Words, OrMemory<WordsFault>>
    ensures { Answers result (work_asked (option_copied file.entry)) }
{
    match journal(alloc, file)? {
        Some(file) => Ok(Words::Work(file)),
        None => Err(OrMemory::Fault(WordsFault::Refused)),
    }
}

fn params(iterations: Option<&str>, nodes: Option<&str>, work: Option<&str>) -> Option<Params>
    ensures { option_map solve result ≡ solve_asked (option_copied iterations.entry) (option_copied nodes.entry) (option_copied work.entry) }
{
    let usual = Params::usual();
    let iterations = count_or(iterations, usual.iterations, 0, MAX_ITERATIONS)?;
    let nodes = count_or(nodes, usual.nodes, 0, MAX_NODES)?;
    let work = count_or(work, usual.work, 0, MAX_WORK)?;
    Some(Params {
        iterations,
        nodes,
        work,
        ..usual
    })
}

pub fn solve_words(
    iterations: Option<&str>,
    nodes: Option<&str>,
    work: Option<&str>,
) -> Result<Words, OrMemory<WordsFault>>
    ensures { Answers result (solve_asked (option_copied iterations.entry) (option_copied nodes.entry) (option_copied work.entry)) }
{
    match params(iterations, nodes, work) {
        Some(params) => Ok(Words::Solve(params)),
        None => Err(OrMemory::Fault(WordsFault::Refused)),
    }
}

pub fn load_words(seed: Option<&str>) -> Result<Words, OrMemory<WordsFault>>
    ensures { Answers result (load_asked (option_copied seed.entry)) }
{
    let Some(seed) = seed else {
        return Err(OrMemory::Fault(WordsFault::Refused));
    };
    match count(seed, 0, u64::MAX) {
        Some(seed) => Ok(Words::Load(seed)),
        None => Err(OrMemory::Fault(WordsFault::Refused)),
    }
}

/// The numbers of a server.
#[derive(Clone, Copy, Debug, PartialEq, Eq)]
pub struct Sizes {
    pub port: u16,
    pub nodes: u32,
    pub limit: u32,
    pub hard: u32,
    pub workers: u32,
}

/// The numbers that the values give, and the usual ones. `None`: one of them is out of its range.
pub fn sizes_given(
    port: Option<&str>,
    nodes: Option<&str>,
    limit: Option<&str>,
    hard: Option<&str>,
    workers: Option<&str>,
) -> Option<Sizes>
    ensures { result ≡ sizes_asked (option_copied port.entry) (option_copied nodes.entry) (option_copied limit.entry) (option_copied hard.entry) (option_copied workers.entry) }
{
    let port = count_or(port, USUAL_PORT, 1, MAX_PORT)?;
    let nodes = count_or(nodes, USUAL_CLUSTER_NODES, 1, MAX_CLUSTER_NODES)?;
    let limit = count_or(limit, USUAL_JOB_LIMIT, 1, MAX_JOB_LIMIT)?;
    let hard = hard_limit(limit, hard)?;
    let workers = count_or(workers, USUAL_WORKERS, 1, MAX_WORKERS)?;
    Some(Sizes {
        port: port as u16,
        nodes: nodes as u32,
        limit: limit as u32,
        hard: hard as u32,
        workers: workers as u32,
    })
}

/// No hard limit, or one that isn't below the limit.
fn hard_limit(limit: u64, hard: Option<&str>) -> Option<u64>
    ensures value { result ≡ hard_asked limit (option_copied hard.entry) }
    ensures most { IfSome result (λ n. n ≤ MAX_JOB_LIMIT) }
{
    let hard = count_or(hard, NO_HARD_LIMIT, 0, MAX_JOB_LIMIT)?;
    if hard == NO_HARD_LIMIT || limit <= hard {
        Some(hard)
    } else {
        None
    }
}

pub fn serve_words(
    alloc: Global,
    keys: Option<&str>,
    journal_file: Option<&str>,
    sizes: Option<Sizes>,
) -> Result<Words, OrMemory<WordsFault>>
    ensures { Answers result (serve_asked (option_copied keys.entry) (option_copied journal_file.entry) sizes) }
{
    let Some(keys) = keys_file(alloc, keys)? else {
        return Err(OrMemory::Fault(WordsFault::Refused));
    };
    let Some(journal) = journal(alloc, journal_file)? else {
        return Err(OrMemory::Fault(WordsFault::Refused));
    };
    let Some(sizes) = sizes else {
        return Err(OrMemory::Fault(WordsFault::Refused));
    };
    Ok(Words::Serve(ServeWords {
        keys,
        port: sizes.port,
        journal,
        nodes: sizes.nodes,
        limit: sizes.limit,
        hard: sizes.hard,
        workers: sizes.workers,
    }))
}

/// The name of the file of the keys, which has to be given. `None` where it isn't, or where the word names no file.
fn keys_file(alloc: Global, word: Option<&str>) -> Result<Option<String>, NoMemory>
    ensures { IfOk result (λ o. option_map string_bytes o ≡ option_and_then file (option_copied word.entry)) }
{
    let Some(word) = word else {
        return Ok(None);
    };
    if is_file(word) {
        Ok(Some(String::from_str(alloc, word)?))
    } else {
        Ok(None)
    }
}
