//! The logs that connections write.

ghost use Rattle.std.specs.Prelude.{◌≡◌, ◌≤◌, false, Some, None, OnOk, IfErr, IfSome, IfNone};
ghost use Rattle.std.specs.Bool.{OnTrue};
ghost use Rattle.lsv_iolog.specs.Represents.{Represents};
ghost use Rattle.lsv_iolog.specs.Value.{LogValue, is_complete};
ghost use Rattle.lsv_record.specs.Records.{IsValid};
ghost use Rattle.lsv_keeper.specs.Logs.{Appends, Covers, IsAt, MakesRoom, RefusesRecord, TakesOut, TakesRecord, log_refusal, open_logs, spare_logs, with_open};
ghost use Rattle.lsv_keeper.specs.declared.logs.Appended.{Appended};
ghost use Rattle.lsv_keeper.specs.declared.logs.OpenLog.{OpenLog};
ghost use Rattle.lsv_keeper.specs.Calls.{FlushesOpen};

use indexmap::IndexMap;
use lsv_base::{Bytes, List, LogNo, NoMem, Point};
use lsv_disk::Disk;
use lsv_iolog::{IoLog, LogFault};
use lsv_mask::{Mask, Prompt, Search};
use lsv_record::Record;
use lsv_request::Refusal;
use std::alloc::{AllocError, Global};

/// A log that a connection writes, and the mask after its records.
#[derive(Drop)]
pub struct OpenLog {
    pub log: IoLog,
    pub mask: Mask,
}

/// What came of a record.
#[derive(Clone, Copy, Debug)]
pub enum Appended {
    /// It is staged.
    Staged,
    /// The log refused it, and is to be taken out, since its mask has moved on.
    Refused(LogFault),
    /// No log is open there that isn't complete.
    NotOpen,
}

/// Open logs, by number. A look-up takes the same time however many there are.
#[derive(Drop)]
pub struct OpenLogs {
    map: IndexMap<u32, OpenLog>,
    /// Where the log of the last record stood: mostly the next one is of the same log.
    last: usize,
}

/// How a connection is refused for a fault of its log.
pub(crate) fn log_refusal(fault: LogFault) -> Refusal
    ensures { result ≡ log_refusal fault }
{
    match fault {
        LogFault::TooLong(_) | LogFault::Full(_) => Refusal::LogFull,
        LogFault::NoMem => Refusal::OutOfMemory,
        _ => Refusal::DeviceFault,
    }
}

impl OpenLogs {
    /// No log is open. It takes no memory yet.
    pub fn new(alloc: Global) -> Self
        ensures { open_logs result ≡ (λ n. None) }
    {
        OpenLogs {
            map: IndexMap::new(alloc),
            last: 0,
        }
    }

    /// Room for one log more.
    pub fn reserve(&mut self) -> Result<(), NoMem>
        ensures { MakesRoom result self.old self.new }
    {
        self.map.reserve(1)?;
        Ok(())
    }

    /// A log is open under its number. There is room for one more.
    pub fn put(&mut self, log: LogNo, its: OpenLog)
        requires room { 1 ≤ spare_logs self.old }
        ensures { open_logs self.new ≡ with_open log (Some its) (open_logs self.old) }
    {
        let _ = self.map.insert(log.get(), its);
    }

    /// Takes out the log of a number.
    pub fn take(&mut self, log: LogNo) -> Option<OpenLog>
        ensures { TakesOut log result self.old self.new }
    {
        self.map.swap_remove(&log.get())
    }

    /// Where the log of a number stands. The place of the last record's is looked at first, which takes no hash.
    fn place(&self, log: LogNo) -> Option<usize>
        ensures found { IfSome result (λ at. IsAt log at self.now) }
        ensures none { IfNone result (open_logs self.now log ≡ None) }
    {
        if self.is_at(self.last, log) {
            return Some(self.last);
        }
        self.find(log)
    }

    /// The same by the hash, apart from the other way, so that nothing is cleared for it there.
    #[inline(never)]
    fn find(&self, log: LogNo) -> Option<usize>
        ensures found { IfSome result (λ at. IsAt log at self.now) }
        ensures none { IfNone result (open_logs self.now log ≡ None) }
    {
        self.map.get_index_of(&log.get())
    }

    /// Whether the log of a number stands there.
    fn is_at(&self, at: usize, log: LogNo) -> bool
        ensures { OnTrue result (IsAt log at self.now) }
    {
        match self.map.get_index(at) {
            Some((number, _)) => *number == log.get(),
            None => false,
        }
    }

    /// Covers a valid record where it stands, as the log's mask of these texts says, and stages it.
    pub fn append<H: Search>(
        &mut self,
        log: LogNo,
        prompt: &Prompt<H>,
        texts: &List<Bytes>,
        r: &mut Record,
    ) -> Appended
        requires valid { IsValid r.old }
        ensures { Appends log texts.now r.old result (open_logs self.old) (open_logs self.new) }
    {
        let Some(at) = self.place(log) else {
            return Appended::NotOpen;
        };
        self.last = at;
        let Some(its) = self.map.get_index_mut(at) else {
            return Appended::NotOpen;
        };
        if its.log.is_complete() {
            return Appended::NotOpen;
        }
        match its.append(prompt, texts, r) {
            Ok(()) => Appended::Staged,
            Err(fault) => Appended::Refused(fault),
        }
    }

    /// Flushes the log of a number, and answers the point that it ends at. None where it isn't open; or where it failed, and
    /// then it isn't open any more.
    pub fn flush<D: Disk>(&mut self, disk: &mut D, log: LogNo) -> Option<Point>
        requires represents { D.tells → (its : OpenLog) → open_logs self.old log ≡ Some its → its.log.is_broken ≡ false → (value : LogValue) × Represents its.log value (D.view disk.old) }
        ensures { FlushesOpen D.tells log result (open_logs self.old) (open_logs self.new) (D.view disk.old) (D.view disk.new) }
    {
        let its = self.map.get_mut(&log.get())?;
        match its.log.flush(disk) {
            Ok(point) => Some(point),
            Err(_) => {
                let _ = self.take(log);
                None
            }
        }
    }
}

impl OpenLog {
    /// Covers a valid record where it stands, as the mask of these texts says, and stages it in a log that isn't complete. Where the log
    /// refuses it, its mask alone has moved on.
    fn append<H: Search>(
        &mut self,
        prompt: &Prompt<H>,
        texts: &List<Bytes>,
        r: &mut Record,
    ) -> Result<(), LogFault>
        requires valid { IsValid r.old }
        requires going { is_complete self.old.log ≡ false }
        ensures staged { OnOk result (TakesRecord texts.now self.old r.old self.new) }
        ensures refused { IfErr result (λ fault. RefusesRecord texts.now self.old r.old fault self.new) }
    {
        self.cover(prompt, texts, r);
        match self.log.append(r) {
            Ok(_) => Ok(()),
            Err(fault) => Err(fault),
        }
    }

    /// Covers a record as the mask of these texts says. Without texts it stays as it is, and the mask looks at nothing.
    fn cover<H: Search>(&mut self, prompt: &Prompt<H>, texts: &List<Bytes>, r: &mut Record)
        ensures covers { Covers texts.now self.old.mask r.old r.new self.new.mask }
        ensures log { self.new.log ≡ self.old.log }
    {
        if texts.as_slice().is_empty() {
            return;
        }
        self.mask.cover(prompt, r);
    }
}
