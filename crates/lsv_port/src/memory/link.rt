ghost use Rattle.std.specs.Prelude.{◌≡◌, ◌⊎◌, ◌&&◌, ℕ, ◌<◌, ◌≤◌, ◌∷◌, [], ◌++◌, not, true, false, length, take, min, ◌+◌, ◌^◌, OnOk, OnErr, IfOk};
ghost use Rattle.lsv_base.specs.Outside.{HasCause};
ghost use Rattle.lsv_base.specs.Script.{one_more};
ghost use Rattle.lsv_port.specs.Port.{TakesWithin, MayTake, GivesWithin, after_read, after_write};
ghost use Rattle.lsv_port.specs.Memory.Link.{view_of, IsFresh, IsSound, IsSameSent, took_of, waiting_of, taken_of, gave_of, with_bytes, with_last, with_room};

use crate::{Gave, Took};
use lsv_base::{Bytes, List, NoMem};
use std::alloc::Global;

/// One link in memory.
#[derive(Drop)]
pub(crate) struct MemLink {
    pub(crate) is_open: bool,
    /// All bytes that have arrived, and how many of them were read.
    pub(crate) arrived: Bytes,
    pub(crate) taken: usize,
    /// No more bytes arrive.
    pub(crate) last: bool,
    pub(crate) ended: bool,
    pub(crate) owed: bool,
    pub(crate) reads: List<usize>,
    pub(crate) output: Bytes,
    /// How many bytes it takes, where it doesn't take all.
    pub(crate) room: Option<usize>,
    pub(crate) full: bool,
    /// The next read or write fails.
    pub(crate) breaks: bool,
    pub(crate) failed: bool,
    /// Its port had told Stop, or had failed, when it was closed.
    pub(crate) late: bool,
    pub(crate) faults: u64,
    pub(crate) beside: List<u32>,
}

/// Copies as many of the bytes as the buffer takes to its front.
fn copy_prefix(bytes: &[u8], buf: &mut [u8]) -> usize
    ensures count { result ≡ min (length bytes.now) (length buf.old) }
    ensures copied { take result buf.new ≡ take result bytes.now }
{
    let count = bytes.len().min(buf.len());
    buf[..count].copy_from_slice(&bytes[..count]);
    count
}

impl MemLink {
    /// A link that was just opened, beside these.
    pub(crate) fn new(alloc: Global, beside: List<u32>) -> Self
        ensures fresh { IsFresh beside result }
        ensures sound { IsSound result }
    {
        MemLink {
            is_open: true,
            arrived: Bytes::new(alloc),
            taken: 0,
            last: false,
            ended: false,
            owed: true,
            reads: List::new(alloc),
            output: Bytes::new(alloc),
            room: None,
            full: false,
            breaks: false,
            failed: false,
            late: false,
            faults: 0,
            beside,
        }
    }

    /// The bytes that were read.
    pub(crate) fn input(&self) -> &[u8]
        ensures { result.now ≡ (view_of self.now).input }
    {
        let arrived = self.arrived.as_slice();
        &arrived[..self.taken.min(arrived.len())]
    }

    /// Counts a read that failed.
    fn fail_read(&mut self) -> Took
        ensures failed { result ≡ Took.Failed }
        ensures cause { HasCause (result ≡ Took.Failed) self.old.faults self.new.faults }
        ensures counted { self.new ≡ record self.old { owed = false; failed = true; breaks = false; faults = one_more self.old.faults } }
    {
        self.owed = false;
        self.failed = true;
        self.breaks = false;
        self.faults = self.faults.saturating_add(1);
        Took::Failed
    }

    /// Counts a write that failed.
    fn fail_write(&mut self) -> Gave
        ensures failed { result ≡ Gave.Failed }
        ensures cause { HasCause (result ≡ Gave.Failed) self.old.faults self.new.faults }
        ensures counted { self.new ≡ record self.old { full = false; failed = true; breaks = false; faults = one_more self.old.faults } }
    {
        self.full = false;
        self.failed = true;
        self.breaks = false;
        self.faults = self.faults.saturating_add(1);
        Gave::Failed
    }

    /// Copies what fits of the bytes that wait to the buffer's front.
    fn copy_waiting(&self, buf: &mut [u8]) -> usize
        requires { self.now.taken ≤ length self.now.arrived }
        ensures count { result ≡ min (waiting_of self.now) (length buf.old) }
        ensures fits { self.now.taken + result < 2 ^ 64 }
        ensures copied { take (self.now.taken + result) self.now.arrived ≡ take self.now.taken self.now.arrived ++ take result buf.new }
    {
        copy_prefix(&self.arrived.as_slice()[self.taken..], buf)
    }

    /// Gives what fits of the bytes that wait, or says that there are none.
    fn pass_on(&mut self, buf: &mut [u8]) -> Took
        requires room { 0 < length buf.old }
        requires sound { IsSound self.old }
        requires whole { self.old.breaks ≡ false }
        ensures answer { result ≡ took_of self.old (length buf.old) }
        ensures view { record (view_of self.new) { reads = (view_of self.old).reads ++ length buf.new ∷ [] } ≡ after_read result buf.new (view_of self.old) }
        ensures within { TakesWithin result (length buf.old) }
        ensures not_after_end { MayTake result (view_of self.old) }
        ensures sound { IsSound self.new }
        ensures sent { IsSameSent self.old self.new }
        ensures faults { self.new.faults ≡ self.old.faults }
        ensures reads { self.new.reads ≡ self.old.reads }
    {
        let count = self.copy_waiting(buf);
        if count > 0 {
            self.taken += count;
            return Took::Bytes(count);
        }
        self.owed = false;
        if self.last {
            self.ended = true;
            return Took::End;
        }
        Took::NotYet
    }

    /// A read of an open link. Where memory is refused it fails, and that is counted too.
    pub(crate) fn read(&mut self, buf: &mut [u8], refused: &mut u64) -> Took
        requires room { 0 < length buf.old }
        requires sound { IsSound self.old }
        ensures answer { ((result ≡ took_of self.old (length buf.old)) × (refused.new ≡ refused.old)) ⊎ ((result ≡ Took.Failed) × (refused.new ≡ one_more refused.old)) }
        ensures view { view_of self.new ≡ after_read result buf.new (view_of self.old) }
        ensures within { TakesWithin result (length buf.old) }
        ensures not_after_end { MayTake result (view_of self.old) }
        ensures sound { IsSound self.new }
        ensures sent { IsSameSent self.old self.new }
        ensures cause { HasCause (result ≡ Took.Failed) self.old.faults self.new.faults }
    {
        if self.breaks {
            return self.fail_read();
        }
        if self.reads.push(buf.len()).is_err() {
            *refused = refused.saturating_add(1);
            return self.fail_read();
        }
        self.pass_on(buf)
    }

    /// How many of this many bytes the link takes.
    fn takes(&self, count: usize) -> usize
        ensures { result ≡ taken_of self.now count }
    {
        match self.room {
            Some(room) => room.min(count),
            None => count,
        }
    }

    /// Counts bytes that the link took.
    fn took(&mut self, count: usize)
        ensures full { self.new.full ≡ false }
        ensures view { record (view_of self.old) { full = false } ≡ view_of self.new }
        ensures sound { IsSound self.old → IsSound self.new }
        ensures sent { IsSameSent self.old self.new }
        ensures faults { self.new.faults ≡ self.old.faults }
    {
        self.full = false;
        if let Some(room) = self.room {
            self.room = Some(room.saturating_sub(count));
        }
    }

    /// A write to an open link. Where memory is refused it fails, and that is counted too.
    pub(crate) fn write(&mut self, bytes: &[u8], refused: &mut u64) -> Gave
        requires some { 0 < length bytes.now }
        requires sound { IsSound self.old }
        ensures answer { ((result ≡ gave_of self.old (length bytes.now)) × (refused.new ≡ refused.old)) ⊎ ((result ≡ Gave.Failed) × (refused.new ≡ one_more refused.old)) }
        ensures view { view_of self.new ≡ after_write result bytes.now (view_of self.old) }
        ensures within { GivesWithin result (length bytes.now) }
        ensures sound { IsSound self.new }
        ensures sent { IsSameSent self.old self.new }
        ensures cause { HasCause (result ≡ Gave.Failed) self.old.faults self.new.faults }
    {
        if self.breaks {
            return self.fail_write();
        }
        let count = self.takes(bytes.len());
        if count == 0 {
            self.full = true;
            return Gave::NotYet;
        }
        if self.output.add(&bytes[..count]).is_err() {
            *refused = refused.saturating_add(1);
            return self.fail_write();
        }
        self.took(count);
        Gave::Bytes(count)
    }

    /// Bytes arrive. Says whether the link is to be read.
    pub(crate) fn arrive(&mut self, bytes: &[u8]) -> Result<bool, NoMem>
        ensures link { OnOk result (self.new ≡ with_bytes bytes.now self.old) }
        ensures told { IfOk result (λ told. told ≡ (self.old.is_open && not self.old.last)) }
        ensures err { OnErr result (self.new ≡ self.old) }
    {
        if self.last {
            return Ok(false);
        }
        self.arrived.add(bytes)?;
        self.owed |= self.is_open;
        Ok(self.is_open)
    }

    /// No more bytes arrive. Says whether the link is to be read.
    pub(crate) fn end(&mut self) -> bool
        ensures link { self.new ≡ with_last self.old }
        ensures told { result ≡ (self.old.is_open && not self.old.last) }
    {
        if self.last {
            return false;
        }
        self.last = true;
        self.owed |= self.is_open;
        self.is_open
    }

    /// The link takes this many bytes more. Says whether it may be written.
    pub(crate) fn make_room(&mut self, count: usize) -> bool
        ensures link { self.new ≡ with_room count self.old }
        ensures told { result ≡ self.old.is_open }
    {
        let room = self.room.unwrap_or(0);
        self.room = Some(room.saturating_add(count));
        self.full &= !self.is_open;
        self.is_open
    }
}
