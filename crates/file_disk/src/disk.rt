//! The disk over a file.

ghost use Rattle.std.specs.Prelude.{◌≡◌, ◌≤◌, ◌∷◌, ◌++◌, [], length, if◌then◌else◌};
ghost use Rattle.base_names.specs.Outside.{one_more};
ghost use Rattle.disk_model.specs.Made.{call_of, has_failed};

use crate::file::open;
use disk_model::{CallLog, Disk, DiskDone, DiskLen, Made};
use std::fs::{File, Files};
use std::io;
use std::os::unix::fs::FileExt;

/// A file of the operating system, which is opened at the first call, and made where it isn't there. Reads and writes go on until
/// they are whole; a sync flushes the file's data with its length.
#[derive(Drop)]
pub struct FileDisk<R: Files<File = File>> {
    rt: R,
    path: String,
    file: Option<File>,
    failed: u64,
    log: CallLog,
}

impl<R: Files<File = File>> FileDisk<R> {
    /// The file isn't touched.
    pub fn new(rt: R, path: String) -> FileDisk<R>
        ensures failed { result.failed ≡ 0 }
        ensures calls { result.log.calls ≡ [] }
    {
        FileDisk {
            rt,
            path,
            file: None,
            failed: 0,
            log: CallLog::new(),
        }
    }

    /// The file, which is opened where it isn't yet.
    fn opened(&mut self) -> io::Result<()>
        ensures { (self.new.failed ≡ self.old.failed) × (self.new.log ≡ self.old.log) }
    {
        if self.file.is_none() {
            self.file = Some(open(&self.rt, self.path.as_str())?);
        }
        Ok(())
    }

    fn measure(&mut self) -> io::Result<u64>
        ensures { (self.new.failed ≡ self.old.failed) × (self.new.log ≡ self.old.log) }
    {
        self.opened()?;
        match &self.file {
            Some(file) => Ok(file.metadata()?.len()),
            None => Err(io::ErrorKind::NotFound.into()),
        }
    }

    fn fill(&mut self, at: u64, buf: &mut [u8]) -> io::Result<()>
        ensures kept { (self.new.failed ≡ self.old.failed) × (self.new.log ≡ self.old.log) }
        ensures len { length buf.new ≡ length buf.old }
    {
        self.opened()?;
        match &self.file {
            Some(file) => file.read_exact_at(buf, at),
            None => Err(io::ErrorKind::NotFound.into()),
        }
    }

    fn put(&mut self, at: u64, bytes: &[u8]) -> io::Result<()>
        ensures { (self.new.failed ≡ self.old.failed) × (self.new.log ≡ self.old.log) }
    {
        self.opened()?;
        match &self.file {
            Some(file) => file.write_all_at(bytes, at),
            None => Err(io::ErrorKind::NotFound.into()),
        }
    }

    fn flush(&mut self) -> io::Result<()>
        ensures { (self.new.failed ≡ self.old.failed) × (self.new.log ≡ self.old.log) }
    {
        self.opened()?;
        match &self.file {
            Some(file) => file.sync_data(),
            None => Err(io::ErrorKind::NotFound.into()),
        }
    }

    /// A call ends. The bytes are those of a write.
    fn finish(&mut self, made: Made, bytes: &[u8])
        ensures calls { self.new.log.calls ≡ self.old.log.calls ++ call_of made bytes.now ∷ [] }
        ensures failed { self.new.failed ≡ (if has_failed (call_of made bytes.now) then one_more self.old.failed else self.old.failed) }
        ensures later { self.old.failed ≤ self.new.failed }
    {
        self.log.note(&made, bytes);
        if made.has_failed() {
            self.failed = self.failed.saturating_add(1);
        }
    }
}

/// How a call ended.
fn answer(ended: io::Result<()>) -> DiskDone {
    match ended {
        Ok(()) => DiskDone::Done,
        Err(_) => DiskDone::Failed,
    }
}

impl<R: Files<File = File>> Disk for FileDisk<R> {
    ghost use Rattle.std.specs.Prelude.{Some, None, length};
    ghost use Rattle.file_disk.specs.Told.{not_told};

    ghost name = { λ _. 0 };

    ghost seen = { λ _. None };

    ghost moment = { λ d. length d.log.calls };

    ghost left = { λ _ _ _. ⊥ };

    ghost calls = { λ d. Some d.log.calls };

    ghost makes = { λ _ _ _. Unit {0} };

    ghost faults = { λ d. d.failed };

    ghost reads_an_image = { λ _ image seen. not_told image seen };

    ghost tells_seen = { λ _ image left. absurd left };

    fn len(&mut self) -> DiskLen {
        let answer = match self.measure() {
            Ok(len) => DiskLen::Len(len),
            Err(_) => DiskLen::Failed,
        };
        self.finish(Made::Len(answer), &[]);
        answer
    }

    fn read(&mut self, at: u64, buf: &mut [u8]) -> DiskDone {
        let len = buf.len() as u64;
        let answer = answer(self.fill(at, buf));
        self.finish(Made::Read(at, len, answer), &[]);
        answer
    }

    fn write_at(&mut self, at: u64, bytes: &[u8]) -> DiskDone {
        let answer = answer(self.put(at, bytes));
        self.finish(Made::Write(at, answer), bytes);
        answer
    }

    fn sync(&mut self) -> DiskDone {
        let answer = answer(self.flush());
        self.finish(Made::Sync(answer), &[]);
        answer
    }

    fn fault_count(&self) -> u64 {
        self.failed
    }
}
