//! The statuses of the program, and the lines that tell why.

ghost use Rattle.std.specs.Prelude.{◌≡◌, IfOk};
ghost use Rattle.cs_top.specs.Run.{IsReportOf, Reports, code_of, error_line, held_status, hub_status, model_status, replay_status, verify_status};

use base_io::{Sink, put};
use base_names::{NoMemory, append};
use frac128::Wide;
use hub_core::HubFault;
use lp_defs::ModelFault;
use model_command::ModelEnd;
use replay_command::ReplayEnd;
use session::End;
use session_command::SessionEnd;
use std::alloc::Global;
use verify_command::VerifyEnd;

/// The line for want of memory.
const NO_MEMORY_LINE: &[u8] = b"out of memory\n";

/// How a run ended.
#[derive(Clone, Copy, Debug, PartialEq, Eq)]
pub enum Status {
    Done,
    /// The text is no model's, or its model is too large.
    NoModel(ModelFault),
    WordsRefused,
    ReadFault,
    WriteFault,
    /// A call of the disk failed.
    DiskFault,
    NoMemory,
    TooLong,
    /// The certificate isn't valid.
    Invalid,
    /// The line of this number is refused.
    Refused(u64),
    /// The file has another header, which begins so.
    NotAJournal([u8; 8]),
    /// The record of this number is none, or isn't taken.
    BadRecord(u64),
    /// The file has no room for the outcomes of all that goes on.
    TooFull,
    /// The first operation of a check that doesn't fit.
    TooWide(Wide),
}

impl Status {
    /// The status that the process ends with.
    pub fn code(self) -> u8
        ensures { result ≡ code_of self }
    {
        match self {
            Status::Done => 0,
            Status::NoModel(_) => 1,
            Status::WordsRefused => 2,
            Status::ReadFault => 3,
            Status::WriteFault => 4,
            Status::DiskFault => 5,
            Status::NoMemory => 6,
            Status::TooLong => 7,
            Status::Invalid => 8,
            Status::Refused(_) => 9,
            Status::NotAJournal(_) | Status::BadRecord(_) | Status::TooFull => 10,
            Status::TooWide(_) => 11,
        }
    }

    /// Writes the line that tells why, and gives the status that holds then: want of memory, where the line finds none.
    pub fn report<E: Sink>(self, alloc: Global, errs: &mut E) -> Status
        ensures same { E.name errs.new ≡ E.name errs.old }
        ensures status { IsReportOf self result }
        ensures reports { Reports (error_line result) (E.faults errs.old) (E.faults errs.new) (E.contents errs.old) (E.contents errs.new) }
    {
        match &self {
            Status::Done => reported(self, b"", errs),
            Status::NoModel(fault) => report_fault(alloc, *fault, errs),
            Status::WordsRefused => reported(self, b"words refused\n", errs),
            Status::ReadFault => reported(self, b"read fault\n", errs),
            Status::WriteFault => reported(self, b"write fault\n", errs),
            Status::DiskFault => reported(self, b"disk fault\n", errs),
            Status::NoMemory => reported(self, NO_MEMORY_LINE, errs),
            Status::TooLong => reported(self, b"input too long\n", errs),
            Status::Invalid => reported(self, b"certificate invalid\n", errs),
            Status::Refused(line) => report_refused(alloc, *line, errs),
            Status::NotAJournal(head) => report_header(alloc, *head, errs),
            Status::BadRecord(number) => report_record(alloc, *number, errs),
            Status::TooFull => reported(self, b"not a journal: full\n", errs),
            Status::TooWide(wide) => report_wide(alloc, wide, errs),
        }
    }
}

/// Writes the status's line, and gives the status.
fn reported<E: Sink>(status: Status, line: &[u8], errs: &mut E) -> Status
    requires { line.now ≡ error_line status }
    ensures same { E.name errs.new ≡ E.name errs.old }
    ensures status { result ≡ status }
    ensures reports { Reports (error_line status) (E.faults errs.old) (E.faults errs.new) (E.contents errs.old) (E.contents errs.new) }
{
    let _ = put(errs, line);
    status
}

/// Tells the first place at which a text stops to be a model's.
fn report_fault<E: Sink>(alloc: Global, fault: ModelFault, errs: &mut E) -> Status
    ensures same { E.name errs.new ≡ E.name errs.old }
    ensures status { IsReportOf (Status.NoModel fault) result }
    ensures reports { Reports (error_line result) (E.faults errs.old) (E.faults errs.new) (E.contents errs.old) (E.contents errs.new) }
{
    match fault_line(alloc, fault) {
        Ok(line) => reported(Status::NoModel(fault), line.as_slice(), errs),
        Err(_) => reported(Status::NoMemory, NO_MEMORY_LINE, errs),
    }
}

fn fault_line(alloc: Global, fault: ModelFault) -> Result<Vec<u8>, NoMemory>
    ensures { IfOk result (λ line. line.items ≡ error_line (Status.NoModel fault)) }
{
    let mut line = Vec::new(alloc);
    append(&mut line, format_args!("model: {fault}\n"))?;
    Ok(line)
}

/// Tells the line that is refused.
fn report_refused<E: Sink>(alloc: Global, number: u64, errs: &mut E) -> Status
    ensures same { E.name errs.new ≡ E.name errs.old }
    ensures status { IsReportOf (Status.Refused number) result }
    ensures reports { Reports (error_line result) (E.faults errs.old) (E.faults errs.new) (E.contents errs.old) (E.contents errs.new) }
{
    match refused_line(alloc, number) {
        Ok(line) => reported(Status::Refused(number), line.as_slice(), errs),
        Err(_) => reported(Status::NoMemory, NO_MEMORY_LINE, errs),
    }
}

fn refused_line(alloc: Global, number: u64) -> Result<Vec<u8>, NoMemory>
    ensures { IfOk result (λ line. line.items ≡ error_line (Status.Refused number)) }
{
    let mut line = Vec::new(alloc);
    append(&mut line, format_args!("line {number} refused\n"))?;
    Ok(line)
}

/// Tells the header that the file has.
fn report_header<E: Sink>(alloc: Global, head: [u8; 8], errs: &mut E) -> Status
    ensures same { E.name errs.new ≡ E.name errs.old }
    ensures status { IsReportOf (Status.NotAJournal head) result }
    ensures reports { Reports (error_line result) (E.faults errs.old) (E.faults errs.new) (E.contents errs.old) (E.contents errs.new) }
{
    match header_line(alloc, head) {
        Ok(line) => reported(Status::NotAJournal(head), line.as_slice(), errs),
        Err(_) => reported(Status::NoMemory, NO_MEMORY_LINE, errs),
    }
}

fn header_line(alloc: Global, head: [u8; 8]) -> Result<Vec<u8>, NoMemory>
    ensures { IfOk result (λ line. line.items ≡ error_line (Status.NotAJournal head)) }
{
    let digits = hex::encode(alloc, head.as_slice())?;
    let mut line = Vec::new(alloc);
    append(
        &mut line,
        format_args!("not a journal: {}\n", digits.as_str()),
    )?;
    Ok(line)
}

/// Tells the record that isn't taken.
fn report_record<E: Sink>(alloc: Global, number: u64, errs: &mut E) -> Status
    ensures same { E.name errs.new ≡ E.name errs.old }
    ensures status { IsReportOf (Status.BadRecord number) result }
    ensures reports { Reports (error_line result) (E.faults errs.old) (E.faults errs.new) (E.contents errs.old) (E.contents errs.new) }
{
    match record_line(alloc, number) {
        Ok(line) => reported(Status::BadRecord(number), line.as_slice(), errs),
        Err(_) => reported(Status::NoMemory, NO_MEMORY_LINE, errs),
    }
}

fn record_line(alloc: Global, number: u64) -> Result<Vec<u8>, NoMemory>
    ensures { IfOk result (λ line. line.items ≡ error_line (Status.BadRecord number)) }
{
    let mut line = Vec::new(alloc);
    append(&mut line, format_args!("not a journal: record {number}\n"))?;
    Ok(line)
}

/// Tells the operation that doesn't fit.
fn report_wide<E: Sink>(alloc: Global, wide: &Wide, errs: &mut E) -> Status
    ensures same { E.name errs.new ≡ E.name errs.old }
    ensures status { IsReportOf (Status.TooWide wide.now) result }
    ensures reports { Reports (error_line result) (E.faults errs.old) (E.faults errs.new) (E.contents errs.old) (E.contents errs.new) }
{
    match wide_line(alloc, wide) {
        Ok(line) => reported(Status::TooWide(*wide), line.as_slice(), errs),
        Err(_) => reported(Status::NoMemory, NO_MEMORY_LINE, errs),
    }
}

fn wide_line(alloc: Global, wide: &Wide) -> Result<Vec<u8>, NoMemory>
    ensures { IfOk result (λ line. line.items ≡ error_line (Status.TooWide wide.now)) }
{
    let mut line = Vec::new(alloc);
    append(&mut line, format_args!("certificate too wide: {wide}\n"))?;
    Ok(line)
}

impl From<SessionEnd> for Status {
    ghost from_gives = { λ end status. status ≡ held_status end };

    fn from(end: SessionEnd) -> Status {
        match end {
            SessionEnd::Ended(End::Bye | End::Closed) => Status::Done,
            SessionEnd::Ended(End::ReadFault) => Status::ReadFault,
            SessionEnd::Ended(End::WriteFault) => Status::WriteFault,
            SessionEnd::Ended(End::NoMemory) => Status::NoMemory,
            SessionEnd::Ended(End::TooLong) => Status::TooLong,
            SessionEnd::Unopened(fault) => Status::from(fault),
        }
    }
}

impl From<HubFault> for Status {
    ghost from_gives = { λ fault status. status ≡ hub_status fault };

    fn from(fault: HubFault) -> Status {
        match fault {
            HubFault::DiskFailed => Status::DiskFault,
            HubFault::NotAJournal(head) => Status::NotAJournal(head),
            HubFault::BadRecord(number) => Status::BadRecord(number),
            HubFault::TooFull(_) => Status::TooFull,
            HubFault::NoMemory => Status::NoMemory,
        }
    }
}

impl From<ModelEnd> for Status {
    ghost from_gives = { λ end status. status ≡ model_status end };

    fn from(end: ModelEnd) -> Status {
        match end {
            ModelEnd::Done => Status::Done,
            ModelEnd::NoModel(fault) => Status::NoModel(fault),
            ModelEnd::ReadFault => Status::ReadFault,
            ModelEnd::WriteFault => Status::WriteFault,
            ModelEnd::NoMemory => Status::NoMemory,
            ModelEnd::TooLong => Status::TooLong,
        }
    }
}

impl From<ReplayEnd> for Status {
    ghost from_gives = { λ end status. status ≡ replay_status end };

    fn from(end: ReplayEnd) -> Status {
        match end {
            ReplayEnd::Done => Status::Done,
            ReplayEnd::Refused(line) => Status::Refused(line),
            ReplayEnd::ReadFault => Status::ReadFault,
            ReplayEnd::WriteFault => Status::WriteFault,
            ReplayEnd::NoMemory => Status::NoMemory,
            ReplayEnd::TooLong => Status::TooLong,
        }
    }
}

impl From<VerifyEnd> for Status {
    ghost from_gives = { λ end status. status ≡ verify_status end };

    fn from(end: VerifyEnd) -> Status {
        match &end {
            VerifyEnd::Valid => Status::Done,
            VerifyEnd::Invalid => Status::Invalid,
            VerifyEnd::TooWide(wide) => Status::TooWide(*wide),
            VerifyEnd::NoModel(fault) => Status::NoModel(*fault),
            VerifyEnd::Refused(line) => Status::Refused(u64::from(*line)),
            VerifyEnd::ReadFault => Status::ReadFault,
            VerifyEnd::WriteFault => Status::WriteFault,
            VerifyEnd::NoMemory => Status::NoMemory,
            VerifyEnd::TooLong => Status::TooLong,
        }
    }
}
