//! A disk in memory.

ghost use Rattle.std.specs.Prelude.{◌≡◌, ◌≤◌, ◌+◌, true, is_some, OnOk, OnErr, length, take, drop};
ghost use Rattle.disk_model.specs.Disk.{Only};
ghost use Rattle.disk_model.specs.Images.{stop_image};
ghost use Rattle.disk_model.specs.declared.image.Image.{Image as stop_kind};
ghost use Rattle.disk_model.specs.Memory.{CallMade, answered, begun_of, entered, left_of, moment_of, new_disk, restarted, with_fail, with_stop, with_stopped};
ghost use Rattle.disk_model.specs.Calls.{LenCall, ReadCall, WriteCall, SyncCall};
ghost use Rattle.disk_model.specs.Made.{call_of};

use crate::answer::{DiskDone, DiskLen};
use crate::arming::{Begun, Stop, fails_in, stop_due};
use crate::arms::Arms;
use crate::call_log::{CallLog, Made};
use crate::disk::Disk;
use crate::image::{Arm, Armed, Image, Restarted};
use crate::undo::{Undo, fill_all, undo_all, write_over};
use base_names::{History, NoMemory};
use std::alloc::Global;
use std::marker::Model;

/// A file in memory. It tells what a read gives, all images, and its calls until a growth finds no memory. A call fails exactly
/// where a failure is armed for it, where a stop has come, or where a growth finds no memory. A call that fails changes no byte,
/// but a write in which a stop comes counts as written.
#[derive(Drop)]
pub struct MemDisk {
    alloc: Global,
    bytes: Vec<u8>,
    /// What the writes since the last sync covered.
    undo: Vec<Undo>,
    faults: u64,
    refused: u64,
    count: u64,
    fails: Vec<u128>,
    stop: Option<Stop>,
    stopped: Option<Image>,
    past: History<Vec<u8>, Vec<Undo>>,
    log: CallLog,
}

impl Model for MemDisk {
    ghost use Rattle.std.specs.Prelude.{map};
    ghost use Rattle.disk_model.specs.Memory.{DiskState};
    ghost use Rattle.disk_model.specs.Undoing.{AreUndos, stored_as};

    ghost Value = { DiskState };

    ghost view = { λ d. record { stored = stored_as d.bytes.items d.undo.items; past = map (λ p. stored_as p.0.items p.1.items) d.past.items; calls = d.log.calls; faults = d.faults; refused = d.refused; count = d.count; fails = d.fails.items; stop = d.stop; stopped = d.stopped } };

    ghost invariant = { λ d. AreUndos d.undo.items d.bytes.items };
}

impl MemDisk {
    /// An empty file without faults. Nothing is allocated.
    pub fn new(alloc: Global) -> MemDisk
        ensures { result ≡ new_disk }
    {
        MemDisk {
            alloc,
            bytes: Vec::new(alloc),
            undo: Vec::new(alloc),
            faults: 0,
            refused: 0,
            count: 0,
            fails: Vec::new(alloc),
            stop: None,
            stopped: None,
            past: History::new(),
            log: CallLog::new(),
        }
    }

    /// Makes the k-th call from now fail, once.
    pub fn fail_at(&mut self, _alloc: Global, k: u64) -> Result<Armed, NoMemory>
        requires { 1 ≤ k }
        ensures ok { OnOk result (self.new ≡ with_fail k self.old) }
        ensures err { OnErr result (self.new ≡ self.old) }
    {
        self.fails.push(u128::from(self.count) + u128::from(k))?;
        Ok(Armed)
    }

    /// Stops the machine in the k-th call from now, or at once where k is 0.
    pub fn stop_at(&mut self, k: u64, image: Image)
        ensures { self.new ≡ with_stop k image self.old }
    {
        if k > 0 {
            self.stop = Some(Stop {
                at: u128::from(self.count) + u128::from(k),
                image,
            });
        } else if self.stopped.is_none() {
            self.halt(image);
        }
    }

    /// Whether a stop has come.
    pub fn stopped(&self) -> bool
        ensures { result ≡ is_some self.now.stopped }
    {
        self.stopped.is_some()
    }

    /// How many calls failed because a growth found no memory.
    pub fn refused(&self) -> u64
        ensures { result ≡ self.now.refused }
    {
        self.refused
    }

    /// Starts the machine again: the disk is what the stop left, which is an image that a crash then might have left. Nothing
    /// changes where no stop has come. What was armed since the stop counts the calls from now on. Today it takes no memory.
    pub fn after_stop(&mut self, _alloc: Global) -> Result<Restarted, NoMemory>
        ensures ok { OnOk result (self.new ≡ restarted self.old) }
        ensures err { OnErr result (self.new ≡ self.old) }
        ensures left { OnOk result (left_of self.old (moment_of self.old) self.new.stored.bytes) }
        ensures only { is_some self.old.stopped ≡ true → OnOk result (Only self.new.stored.bytes (left_of self.new (moment_of self.new))) }
    {
        self.leaves_images();
        self.restart();
        Ok(Restarted)
    }

    /// What a stop leaves is an image that a crash might leave.
    fn leaves_images(&self)
        ensures { (image : stop_kind) → left_of self.now (moment_of self.now) (stop_image image self.now.stored) }
    {
        let _ = &self.undo;
    }

    fn restart(&mut self)
        ensures { self.new ≡ restarted self.old }
    {
        if let Some(image) = self.stopped {
            match image {
                Image::Old => undo_all(&mut self.bytes, &self.undo),
                Image::New => {}
                Image::Fill(byte) => fill_all(&mut self.bytes, &self.undo, byte),
            }
            self.undo.clear();
            self.stopped = None;
        }
    }

    /// A stop comes: it removes all that is armed.
    fn halt(&mut self, image: Image)
        ensures { self.new ≡ with_stopped image self.old }
    {
        self.fails.clear();
        self.stop = None;
        self.stopped = Some(image);
    }

    /// A call begins: what was there is noted, and what is armed for it comes.
    fn begin(&mut self) -> Begun
        ensures begun { result ≡ begun_of self.old }
        ensures state { self.new ≡ entered self.old }
    {
        self.past = self.past.and(&self.bytes, &self.undo);
        if self.stopped.is_some() {
            return Begun::Fails;
        }
        self.count = self.count.saturating_add(1);
        if let Some(image) = stop_due(self.stop, self.count) {
            self.halt(image);
            return Begun::Stops;
        }
        if fails_in(&self.fails, self.count) {
            return Begun::Fails;
        }
        Begun::Runs
    }

    /// A call ends. The bytes are those of a write.
    fn finish(&mut self, made: Made, bytes: &[u8])
        ensures state { self.new ≡ answered (call_of made bytes.now) self.old }
        ensures later { self.old.faults ≤ self.new.faults }
    {
        self.log.note(&made, bytes);
        if made.has_failed() {
            self.faults = self.faults.saturating_add(1);
        }
    }

    fn len_now(&mut self) -> DiskLen
        ensures made { CallMade self.old (LenCall result) self.new }
        ensures later { self.old.faults ≤ self.new.faults }
    {
        if self.begin() != Begun::Runs {
            self.finish(Made::Len(DiskLen::Failed), &[]);
            return DiskLen::Failed;
        }
        let len = self.bytes.len() as u64;
        self.finish(Made::Len(DiskLen::Len(len)), &[]);
        DiskLen::Len(len)
    }

    fn read_now(&mut self, at: u64, buf: &mut [u8]) -> DiskDone
        requires { at + length buf.old ≤ length self.old.stored.bytes }
        ensures made { CallMade self.old (ReadCall at (length buf.old) result) self.new }
        ensures bytes { result ≡ DiskDone.Done → buf.new ≡ take (length buf.old) (drop at self.old.stored.bytes) }
        ensures failed { result ≡ DiskDone.Failed → buf.new ≡ buf.old }
        ensures later { self.old.faults ≤ self.new.faults }
    {
        let len = buf.len();
        if self.begin() != Begun::Runs {
            self.finish(Made::Read(at, len as u64, DiskDone::Failed), &[]);
            return DiskDone::Failed;
        }
        let start = at as usize;
        buf.copy_from_slice(&self.bytes[start..start + len]);
        self.finish(Made::Read(at, len as u64, DiskDone::Done), &[]);
        DiskDone::Done
    }

    fn write_now(&mut self, at: u64, bytes: &[u8]) -> DiskDone
        requires { at ≤ length self.old.stored.bytes }
        ensures made { CallMade self.old (WriteCall at bytes.now result) self.new }
        ensures later { self.old.faults ≤ self.new.faults }
    {
        let begun = self.begin();
        if begun == Begun::Fails {
            self.finish(Made::Write(at, DiskDone::Failed), bytes);
            return DiskDone::Failed;
        }
        match write_over(
            self.alloc,
            &mut self.bytes,
            &mut self.undo,
            at as usize,
            bytes,
        ) {
            Ok(()) => {}
            Err(NoMemory) => {
                self.refused = self.refused.saturating_add(1);
                self.finish(Made::Write(at, DiskDone::Failed), bytes);
                return DiskDone::Failed;
            }
        }
        if begun == Begun::Stops {
            self.finish(Made::Write(at, DiskDone::Failed), bytes);
            return DiskDone::Failed;
        }
        self.finish(Made::Write(at, DiskDone::Done), bytes);
        DiskDone::Done
    }

    fn sync_now(&mut self) -> DiskDone
        ensures made { CallMade self.old (SyncCall result) self.new }
        ensures later { self.old.faults ≤ self.new.faults }
    {
        if self.begin() != Begun::Runs {
            self.finish(Made::Sync(DiskDone::Failed), &[]);
            return DiskDone::Failed;
        }
        self.undo.clear();
        self.finish(Made::Sync(DiskDone::Done), &[]);
        DiskDone::Done
    }
}

impl Disk for MemDisk {
    ghost use Rattle.std.specs.Prelude.{Some};
    ghost use Rattle.disk_model.specs.ImageLaws.{left_seen};
    ghost use Rattle.disk_model.specs.Memory.{calls_of};

    ghost name = { λ _. 0 };

    ghost seen = { λ d. Some d.stored.bytes };

    ghost moment = { moment_of };

    ghost left = { left_of };

    ghost calls = { calls_of };

    ghost makes = { CallMade };

    ghost faults = { λ d. d.faults };

    ghost reads_an_image = { λ d image seen. left_seen d.past d.stored image seen };

    ghost tells_seen = { λ d image left. tt };

    fn len(&mut self) -> DiskLen {
        self.len_now()
    }

    fn read(&mut self, at: u64, buf: &mut [u8]) -> DiskDone {
        self.read_now(at, buf)
    }

    fn write_at(&mut self, at: u64, bytes: &[u8]) -> DiskDone {
        self.write_now(at, bytes)
    }

    fn sync(&mut self) -> DiskDone {
        self.sync_now()
    }

    fn fault_count(&self) -> u64 {
        self.faults
    }
}

impl Arms for MemDisk {
    ghost use Rattle.disk_model.specs.Memory.{armed};

    ghost arms = { λ old arm new. new ≡ armed arm old };

    ghost is_stopped = { λ d. is_some d.stopped };

    ghost refusals = { λ d. d.refused };

    fn arm(&mut self, alloc: Global, arm: Arm) -> Result<Armed, NoMemory> {
        match arm {
            Arm::Fail(k) => self.fail_at(alloc, k),
            Arm::Stop(k, image) => {
                self.stop_at(k, image);
                Ok(Armed)
            }
        }
    }

    fn stopped(&self) -> bool {
        MemDisk::stopped(self)
    }

    fn refused(&self) -> u64 {
        MemDisk::refused(self)
    }
}
