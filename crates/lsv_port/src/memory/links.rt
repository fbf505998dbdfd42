ghost use Rattle.std.specs.Prelude.{◌≡◌, ◌&&◌, ◌==◌, ◌<◌, ℕ, [], Some, None, not, true, length, IfOk, OnOk, OnErr};
ghost use Rattle.lsv_port.specs.declared.step.Step.TheVariants as steps;
ghost use Rattle.lsv_port.specs.declared.memory.link.MemLink.{MemLink};
ghost use Rattle.lsv_port.specs.Port.{TakesWithin, GivesWithin};
ghost use Rattle.lsv_port.specs.Memory.Numbers.{has};
ghost use Rattle.lsv_port.specs.Memory.Script.{unsent};
ghost use Rattle.lsv_port.specs.Memory.Link.{with_bytes, with_last, with_room, breaking, shut, IsRead, IsWritten, AnswersRead, AnswersWrite};
ghost use Rattle.lsv_port.specs.Memory.Links.{links_of, AreSentBy, AreSound, UsesOne, AreOpen, AreSame, ChangesOne, OpensOne, Takes, told_if, is_hearing, is_open_in, changed_at};

use crate::memory::link::MemLink;
use crate::{Gave, Ready, Step, Took};
use lsv_base::{List, NoMem};
use std::alloc::Global;
use std::collections::HashMap;

/// The greatest number of a link.
const MOST: u32 = 1_000_000;

/// The links of a port in memory, by their numbers.
#[derive(Drop)]
pub(crate) struct Links {
    pub(crate) by_number: HashMap<u32, MemLink>,
    /// Those that were opened, in order.
    pub(crate) opened: Vec<u32>,
    /// Those that are open.
    pub(crate) open_now: Vec<u32>,
}

/// Takes a number out of a list.
fn take_out(numbers: &mut Vec<u32>, number: u32)
    ensures { (m : ℕ) → has numbers.new.items m ≡ (has numbers.old.items m && not (m == number)) }
{
    numbers.retain(|other| *other != number);
}

impl Links {
    /// No link was opened.
    pub(crate) fn new(alloc: Global) -> Self
        ensures sent { AreSentBy (λ _. unsent) (links_of result) }
        ensures opened { result.opened.items ≡ [] }
        ensures open_now { result.open_now.items ≡ [] }
    {
        Links {
            by_number: HashMap::new(alloc),
            opened: Vec::new(alloc),
            open_now: Vec::new(alloc),
        }
    }

    /// Keeps a new link.
    fn keep(&mut self, alloc: Global, number: u32) -> Result<(), NoMem>
        requires absent { links_of self.old number ≡ None }
        ensures ok { OnOk result (OpensOne number self.old self.new) }
        ensures err { OnErr result (AreSame self.old self.new) }
    {
        let beside = List::from_vec(self.open_now.to_vec(alloc)?);
        self.opened.reserve(1)?;
        self.open_now.reserve(1)?;
        self.by_number.insert(number, MemLink::new(alloc, beside))?;
        self.opened.push(number)?;
        self.open_now.push(number)?;
        Ok(())
    }

    /// A link of this number is opened, where it is new and not too great.
    fn open(&mut self, alloc: Global, number: u32) -> Result<Ready, NoMem>
        ensures ok { IfOk result (λ ready. Takes (steps.Open number) ready self.old self.new) }
        ensures err { OnErr result (AreSame self.old self.new) }
    {
        if number > MOST || self.by_number.contains_key(&number) {
            return Ok(Ready::Woken);
        }
        self.keep(alloc, number)?;
        Ok(Ready::Opened(number))
    }

    /// Bytes arrive on a link.
    fn give(&mut self, number: u32, bytes: &[u8]) -> Result<Ready, NoMem>
        ensures answer { IfOk result (λ ready. ready ≡ told_if (is_hearing (links_of self.old number)) (Ready.Readable number)) }
        ensures ok { OnOk result (ChangesOne number (with_bytes bytes.now) self.old self.new) }
        ensures err { OnErr result (AreSame self.old self.new) }
    {
        let Some(link) = self.by_number.get_mut(&number) else {
            return Ok(Ready::Woken);
        };
        if link.arrive(bytes)? {
            return Ok(Ready::Readable(number));
        }
        Ok(Ready::Woken)
    }

    /// A link's input ends.
    fn end(&mut self, number: u32) -> Ready
        ensures answer { result ≡ told_if (is_hearing (links_of self.old number)) (Ready.Readable number) }
        ensures change { ChangesOne number with_last self.old self.new }
    {
        let Some(link) = self.by_number.get_mut(&number) else {
            return Ready::Woken;
        };
        if link.end() {
            return Ready::Readable(number);
        }
        Ready::Woken
    }

    /// A link takes this many bytes more.
    fn make_room(&mut self, number: u32, count: u32) -> Ready
        ensures answer { result ≡ told_if (is_open_in (links_of self.old number)) (Ready.Writable number) }
        ensures change { ChangesOne number (with_room count) self.old self.new }
    {
        let Some(link) = self.by_number.get_mut(&number) else {
            return Ready::Woken;
        };
        if link.make_room(count as usize) {
            return Ready::Writable(number);
        }
        Ready::Woken
    }

    /// A link's next read or write fails.
    fn break_one(&mut self, number: u32)
        ensures { ChangesOne number breaking self.old self.new }
    {
        if let Some(link) = self.by_number.get_mut(&number) {
            link.breaks = true;
        }
    }

    /// Takes a step of a script.
    pub(crate) fn take(&mut self, alloc: Global, step: &Step) -> Result<Ready, NoMem>
        ensures ok { IfOk result (λ ready. Takes step.now ready self.old self.new) }
        ensures err { OnErr result (AreSame self.old self.new) }
    {
        match step {
            Step::Open(number) => self.open(alloc, *number),
            Step::Give(number, bytes) => self.give(*number, bytes.as_slice()),
            Step::Room(number, count) => Ok(self.make_room(*number, *count)),
            Step::Last(number) => Ok(self.end(*number)),
            Step::Break(number) => {
                self.break_one(*number);
                Ok(Ready::Woken)
            }
            Step::BreakTurn | Step::Wake | Step::Stop => Ok(Ready::Woken),
        }
    }

    /// A link is no longer open. over: whether the port had told Stop, or had failed.
    pub(crate) fn close(&mut self, number: u32, over: bool)
        ensures links { links_of self.new ≡ changed_at number (shut over) (links_of self.old) }
        ensures opened { self.new.opened.items ≡ self.old.opened.items }
        ensures open_now { AreOpen self.old.open_now.items (links_of self.old) → AreOpen self.new.open_now.items (links_of self.new) }
    {
        if let Some(link) = self.by_number.get_mut(&number) {
            link.is_open = false;
            link.late = over;
        }
        take_out(&mut self.open_now, number);
    }

    /// A read of an open link.
    pub(crate) fn read(&mut self, number: u32, buf: &mut [u8], refused: &mut u64) -> Took
        requires is_open { is_open_in (links_of self.old number) ≡ true }
        requires room { 0 < length buf.old }
        requires sound { AreSound (links_of self.old) }
        ensures within { TakesWithin result (length buf.old) }
        ensures used { UsesOne number (IsRead result buf.new) self.old self.new }
        ensures answer { (v : MemLink) → links_of self.old number ≡ Some v → AnswersRead result (length buf.old) v refused.old refused.new }
    {
        match self.by_number.get_mut(&number) {
            Some(link) => link.read(buf, refused),
            None => unreachable!(),
        }
    }

    /// A write to an open link.
    pub(crate) fn write(&mut self, number: u32, bytes: &[u8], refused: &mut u64) -> Gave
        requires is_open { is_open_in (links_of self.old number) ≡ true }
        requires some { 0 < length bytes.now }
        requires sound { AreSound (links_of self.old) }
        ensures within { GivesWithin result (length bytes.now) }
        ensures used { UsesOne number (IsWritten result bytes.now) self.old self.new }
        ensures answer { (v : MemLink) → links_of self.old number ≡ Some v → AnswersWrite result (length bytes.now) v refused.old refused.new }
    {
        match self.by_number.get_mut(&number) {
            Some(link) => link.write(bytes, refused),
            None => unreachable!(),
        }
    }
}
