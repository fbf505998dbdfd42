ghost use Rattle.std.specs.Prelude.{◌≡◌, ℕ, ◌+◌, ◌-◌, ◌≤◌, ◌<◌, ◌^◌, ◌↔◌, min, IsTrue, [], ◌∷◌, ◌++◌, List, Option, Some, None, length, drop, option_map, IfOk, OnOk, OnErr, IsErr, ◌⊎◌, ◌≢◌, if◌then◌else◌};
ghost use Rattle.std.proofs.Props.{props};
ghost use Rattle.lsv_defs.specs.Causes.{HasRisen};
ghost use Rattle.lsv_defs.specs.Pieces.{piece};
ghost use Rattle.lsv_disk.specs.declared.file.FileId.{FileId};
ghost use Rattle.lsv_disk.specs.declared.memory.call.Effect.{Effect};
ghost use Rattle.lsv_disk.specs.declared.memory.call.Effect.TheVariants.{Made, NotMade, NotRead, NotWritten, Synced, NotSynced};
ghost use Rattle.lsv_disk.specs.Bytes.{bytes_of, Reaches};
ghost use Rattle.lsv_disk.specs.View.{Only};
ghost use Rattle.lsv_disk.specs.Memory.Calls.{past_of, reads_after, is_legal, AreLegal, reads_of, view_of, Noted, NotedWrite, Failed};
ghost use Rattle.lsv_disk.specs.Memory.Stored.{IsResult, content_of, places_of};
ghost use Rattle.lsv_disk.specs.Memory.Laws.{MayLeave-absent, view-reads_itself, view-is_now, view-only_now};

mod call;
mod change;
mod create;
mod fill;
mod image;
mod places;
mod stored;

use crate::memory::call::{Call, Effect};
use crate::memory::change::{hold, make, write};
use crate::memory::image::left;
use crate::memory::places::StorePlaces;
use crate::memory::stored::{Files, content, copy_piece};
use crate::{Disk, DiskFault, FileId, NoMem, Owner, Part};
pub use fill::Fill;
use std::alloc::Global;
use std::collections::HashMap;

/// A disk in memory, which tells its files. It keeps the calls that changed it or failed, so what a crash may
/// leave is told for each moment.
#[derive(Drop)]
pub struct MemDisk {
    alloc: Global,
    listed: Vec<u64>,
    asked: u64,
    refused: u64,
    places: Option<StorePlaces>,
    calls: Vec<Call>,
    files: Files,
    ghost tied: { IsResult files calls.items } by { Prim.hlevel props },
    ghost legal: { AreLegal calls.items },
}

impl MemDisk {
    ghost use Rattle.lsv_disk.specs.Memory.Value.{refusals, failing, asked, next_number, AskedOnce, AskedNone, SameBesideNumber, SameCalls, SameBesideCalls, NextFails, image_by, IsLeftOf};
    ghost use Rattle.lsv_disk.specs.View.{IsCrashImage};
    ghost use Rattle.lsv_disk.specs.Memory.Images.{IsTakenOver, AreHeld};

    /// No call was made.
    fn empty(alloc: Global, listed: Vec<u64>) -> MemDisk
        ensures calls { result.calls.items ≡ [] }
        ensures refused { refusals result ≡ 0 }
        ensures failing { failing result ≡ listed.items }
        ensures asked { asked result ≡ 0 }
    {
        MemDisk {
            alloc,
            listed,
            asked: 0,
            refused: 0,
            places: None,
            calls: Vec::new(alloc),
            files: HashMap::new(alloc),
        }
    }

    /// No file is there. The calls with the listed numbers fail, counted from 1 over the calls of `create`,
    /// `read_at`, `write_at` and `sync`.
    pub fn new(alloc: Global, fail: &[u64]) -> Result<MemDisk, NoMem>
        ensures absent { IfOk result (λ d. (f : FileId) → (⟦<MemDisk as Disk>⟧.view d).reads f ≡ None) }
        ensures durable { IfOk result (λ d. (f : FileId) → Only None ((⟦<MemDisk as Disk>⟧.view d).crash_states f)) }
        ensures moment { IfOk result (λ d. (⟦<MemDisk as Disk>⟧.view d).moment ≡ 0) }
        ensures faults { IfOk result (λ d. (f : FileId) → (⟦<MemDisk as Disk>⟧.view d).faults f ≡ 0) }
        ensures writes { IfOk result (λ d. (f : FileId) → (⟦<MemDisk as Disk>⟧.view d).writes f ≡ 0) }
        ensures syncs { IfOk result (λ d. (f : FileId) → (⟦<MemDisk as Disk>⟧.view d).syncs f ≡ 0) }
        ensures refused { IfOk result (λ d. refusals d ≡ 0) }
        ensures failing { IfOk result (λ d. failing d ≡ fail.now) }
        ensures asked { IfOk result (λ d. asked d ≡ 0) }
    {
        Ok(MemDisk::empty(alloc, fail.to_vec(alloc)?))
    }

    /// Takes over what is left of the call's file, where the file may be there by the call and isn't here yet.
    fn take_over(&mut self, alloc: Global, left: &Files, call: &Call) -> Result<(), NoMem>
        requires held { AreHeld self.old.calls.items }
        ensures held { OnOk result (AreHeld self.new.calls.items) }
        ensures taken { OnOk result (IsTakenOver (content_of left.now) call.now (reads_of self.old.calls.items) (reads_of self.new.calls.items)) }
        ensures same { SameBesideCalls self.old self.new }
    {
        if !call.effect.may_make() || content(&self.files, call.file).is_some() {
            return Ok(());
        }
        match content(left, call.file) {
            None => Ok(()),
            Some(bytes) => hold(alloc, &mut self.files, &mut self.calls, call.file, bytes),
        }
    }

    /// A disk that reads as one that a crash may leave of this one, wholly synced. None of its calls
    /// fails, and none is counted.
    pub fn image(&self, alloc: Global, fill: Fill) -> Result<MemDisk, NoMem>
        ensures image { IfOk result (λ d. IsCrashImage (⟦<MemDisk as Disk>⟧.view self.now) (⟦<MemDisk as Disk>⟧.view d).reads) }
        ensures content { IfOk result (λ d. (f : FileId) → (⟦<MemDisk as Disk>⟧.view d).reads f ≡ image_by fill self.now f) }
        ensures durable { IfOk result (λ d. (f : FileId) → Only ((⟦<MemDisk as Disk>⟧.view d).reads f) ((⟦<MemDisk as Disk>⟧.view d).crash_states f)) }
        ensures faults { IfOk result (λ d. (f : FileId) → (⟦<MemDisk as Disk>⟧.view d).faults f ≡ 0) }
        ensures writes { IfOk result (λ d. (f : FileId) → (⟦<MemDisk as Disk>⟧.view d).writes f ≡ 0) }
        ensures syncs { IfOk result (λ d. (f : FileId) → (⟦<MemDisk as Disk>⟧.view d).syncs f ≡ 0) }
        ensures refused { IfOk result (λ d. refusals d ≡ 0) }
        ensures failing { IfOk result (λ d. failing d ≡ []) }
        ensures asked { IfOk result (λ d. asked d ≡ 0) }
    {
        let left = left(alloc, &self.calls, fill)?;
        let mut image = MemDisk::empty(alloc, Vec::new(alloc));
        for call in &self.calls {
            image.take_over(alloc, &left, call)?;
        }
        Ok(image)
    }

    /// A crash may leave a file in exactly these ways: at any length from the one at its last good
    /// sync to the greatest since, with the bytes of that sync wherever no write since had its range, good or not,
    /// and with any bytes elsewhere. A file whose making failed is there, empty, or it is not.
    pub fn what_a_crash_may_leave(&self)
        ensures { (f : FileId) (c : Option (List ℕ)) → (⟦<MemDisk as Disk>⟧.view self.now).crash_states f c ↔ IsLeftOf self.now f c }
    {}

    /// What a read of the whole file gives.
    pub fn bytes(&self, f: FileId) -> Option<&[u8]>
        ensures { option_map (λ b. b.now) result ≡ (⟦<MemDisk as Disk>⟧.view self.now).reads f }
    {
        content(&self.files, f)
    }

    /// How often a call failed for lack of memory.
    pub fn refused(&self) -> u64
        ensures { result ≡ refusals self.now }
    {
        self.refused
    }

    /// How often a call on the file failed, as far as a number of 64 bits can tell.
    pub fn failures(&self, f: FileId) -> u64
        ensures { result ≡ min ((⟦<MemDisk as Disk>⟧.view self.now).faults f) (2 ^ 64 - 1) }
    {
        let mut count: u64 = 0;
        for call in &self.calls {
            if call.failed_on(f) {
                count = count.saturating_add(1);
            }
        }
        count.saturating_add(self.refused)
    }

    /// Whether the next call of those that count is a listed one.
    fn next_fails(&mut self) -> bool
        ensures listed { IsTrue result ↔ NextFails self.old }
        ensures number { asked self.new ≡ next_number self.old }
        ensures same { SameBesideNumber self.old self.new }
    {
        self.asked = self.asked.saturating_add(1);
        self.listed.contains(&self.asked)
    }

    /// Memory ran out for a call.
    fn refuse(&mut self) -> DiskFault
        ensures risen { self.old.refused ≤ self.new.refused }
        ensures rose { HasRisen self.old.refused self.new.refused }
        ensures same { SameCalls self.old self.new }
    {
        self.refused = self.refused.saturating_add(1);
        DiskFault
    }

    /// Keeps a call that changes nothing of what a read gives.
    fn note(&mut self, file: FileId, effect: Effect) -> Result<(), DiskFault>
        requires quiet { (past : List Effect) → reads_after (effect ∷ past) ≡ reads_after past }
        requires legal { is_legal (effect ∷ past_of self.old.calls.items file) ≡ is_legal (past_of self.old.calls.items file) }
        ensures ok { OnOk result (Noted self.old.calls.items self.new.calls.items file effect × (self.new.refused ≡ self.old.refused)) }
        ensures err { OnErr result ((self.new.calls.items ≡ self.old.calls.items) × (self.old.refused ≤ self.new.refused) × HasRisen self.old.refused self.new.refused) }
        ensures same { AskedNone self.old self.new }
    {
        match self.calls.push(Call { file, effect }) {
            Ok(()) => Ok(()),
            Err(_) => Err(self.refuse()),
        }
    }

    /// Keeps a call that failed.
    fn fail(&mut self, file: FileId, effect: Effect) -> DiskFault
        requires quiet { (past : List Effect) → reads_after (effect ∷ past) ≡ reads_after past }
        requires legal { is_legal (effect ∷ past_of self.old.calls.items file) ≡ is_legal (past_of self.old.calls.items file) }
        ensures failed { Failed self.old.calls.items self.new.calls.items file effect self.old.refused self.new.refused }
        ensures same { AskedNone self.old self.new }
    {
        let _ = self.note(file, effect);
        DiskFault
    }

    pub(crate) fn try_create(&mut self, f: FileId) -> Result<(), DiskFault>
        requires absent { reads_of self.old.calls.items f ≡ None }
        ensures ok { OnOk result (Noted self.old.calls.items self.new.calls.items f Made × (self.new.refused ≡ self.old.refused)) }
        ensures err { OnErr result (Failed self.old.calls.items self.new.calls.items f NotMade self.old.refused self.new.refused) }
        ensures listed { NextFails self.old → IsErr result }
        ensures wanting { OnErr result (NextFails self.old ⊎ HasRisen (refusals self.old) (refusals self.new)) }
        ensures asked { AskedOnce self.old self.new }
    {
        if self.next_fails() {
            return Err(self.fail(f, Effect::NotMade));
        }
        match make(self.alloc, &mut self.files, &mut self.calls, f) {
            Ok(()) => Ok(()),
            Err(_) => Err(self.refuse()),
        }
    }

    fn try_read(&mut self, f: FileId, at: u64, buf: &mut [u8]) -> Result<usize, DiskFault>
        ensures count { IfOk result (λ n. n ≡ length (piece (bytes_of (reads_of self.old.calls.items f)) at (length buf.old))) }
        ensures bytes { IfOk result (λ n. buf.new ≡ piece (bytes_of (reads_of self.old.calls.items f)) at (length buf.old) ++ drop n buf.old) }
        ensures ok { OnOk result ((self.new.calls.items ≡ self.old.calls.items) × (self.new.refused ≡ self.old.refused)) }
        ensures err { OnErr result (Failed self.old.calls.items self.new.calls.items f NotRead self.old.refused self.new.refused) }
        ensures listed { NextFails self.old → IsErr result }
        ensures listed_alone { OnErr result (NextFails self.old) }
        ensures asked { AskedOnce self.old self.new }
    {
        if self.next_fails() {
            return Err(self.fail(f, Effect::NotRead));
        }
        match content(&self.files, f) {
            Some(bytes) => Ok(copy_piece(bytes, at, buf)),
            None => Ok(0),
        }
    }

    fn try_write(&mut self, f: FileId, at: u64, bytes: &[u8]) -> Result<(), DiskFault>
        requires place { Reaches (reads_of self.old.calls.items f) at }
        ensures ok { OnOk result (NotedWrite self.old.calls.items self.new.calls.items f at bytes.now × (self.new.refused ≡ self.old.refused)) }
        ensures err { OnErr result (Failed self.old.calls.items self.new.calls.items f (NotWritten at (length bytes.now)) self.old.refused self.new.refused) }
        ensures listed { NextFails self.old → IsErr result }
        ensures wanting { OnErr result (NextFails self.old ⊎ HasRisen (refusals self.old) (refusals self.new)) }
        ensures asked { AskedOnce self.old self.new }
    {
        if self.next_fails() {
            return Err(self.fail(f, Effect::NotWritten(at, bytes.len())));
        }
        match write(self.alloc, &mut self.files, &mut self.calls, f, at, bytes) {
            Ok(()) => Ok(()),
            Err(_) => Err(self.refuse()),
        }
    }

    fn try_sync(&mut self, f: FileId) -> Result<(), DiskFault>
        ensures ok { OnOk result (Noted self.old.calls.items self.new.calls.items f Synced × (self.new.refused ≡ self.old.refused)) }
        ensures err { OnErr result (Failed self.old.calls.items self.new.calls.items f NotSynced self.old.refused self.new.refused) }
        ensures listed { NextFails self.old → IsErr result }
        ensures wanting { OnErr result (NextFails self.old ⊎ HasRisen (refusals self.old) (refusals self.new)) }
        ensures asked { AskedOnce self.old self.new }
    {
        if self.next_fails() {
            return Err(self.fail(f, Effect::NotSynced));
        }
        self.note(f, Effect::Synced)
    }
}

impl Disk for MemDisk {
    ghost tells = { Unit {0} };

    ghost view = { λ d. view_of d.calls.items d.refused (places_of d.places) };

    ghost reads_itself = { λ told d. view-reads_itself d.calls.items d.refused (places_of d.places) };

    ghost absent_or_empty = { λ told d f c absent left. MayLeave-absent (past_of d.calls.items f) (d.legal f) absent c left };

    ghost is_now = { λ told d. view-is_now d.calls.items d.refused (places_of d.places) };

    ghost only_now = { λ told d. view-only_now d.calls.items d.refused (places_of d.places) };

    fn root(&mut self, dir: &str, events: &str) {
        self.places = StorePlaces::new(self.alloc, dir, events).ok();
    }

    fn create(&mut self, f: FileId) -> Result<(), DiskFault> {
        self.make_file(f)
    }

    fn create_all(&mut self, owner: Owner, parts: &[Part]) -> Result<(), DiskFault> {
        self.make_each(owner, parts)
    }

    fn length(&mut self, f: FileId) -> Result<Option<u64>, DiskFault> {
        Ok(content(&self.files, f).map(|bytes| bytes.len() as u64))
    }

    fn read_at(&mut self, f: FileId, at: u64, buf: &mut [u8]) -> Result<usize, DiskFault> {
        self.try_read(f, at, buf)
    }

    fn write_at(&mut self, f: FileId, at: u64, bytes: &[u8]) -> Result<(), DiskFault> {
        self.try_write(f, at, bytes)
    }

    fn sync(&mut self, f: FileId) -> Result<(), DiskFault> {
        self.try_sync(f)
    }
}
