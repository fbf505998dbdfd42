ghost use Rattle.std.specs.Prelude.{◌≡◌, ◌⊎◌, ◌<◌, ◌∷◌, ◌++◌, ◌||◌, ℕ, length, map, true, false, [], IfOk, OnOk, OnErr, IsErr, Some};
ghost use Rattle.std.specs.Result.{result_ok};
ghost use Rattle.std.specs.Option.{option_copied};
ghost use Rattle.std.specs.List.{slice_get};
ghost use Rattle.lsv_defs.specs.Causes.{HasRisen};
ghost use Rattle.lsv_port.specs.declared.memory.link.MemLink.{MemLink};
ghost use Rattle.lsv_port.specs.Port.{IsSame, Changes, Told, TellsFault, TakesWithin, MayTake, GivesWithin, after_read, after_write, closed, is_over};
ghost use Rattle.lsv_port.specs.Ledger.{Continues, HasListenCause, HasTurnCause, HasLinkCause, WasAsked};
ghost use Rattle.lsv_port.specs.Memory.Link.{AnswersRead, AnswersWrite};
ghost use Rattle.lsv_port.specs.Memory.Links.{links_of, is_open_in};
ghost use Rattle.lsv_port.specs.Memory.Value.{told_by, ledger_of, value_of, noted_of, HasNoted, IsRun, IsTurn, IsRefusedTurn};

use crate::memory::asked::Asked;
use crate::memory::links::Links;
use crate::{Gave, PortFault, Ready, Step, Took};
use lsv_base::NoMem;
use std::alloc::Global;

/// A script that is being told, and what its steps have made so far.
#[derive(Drop)]
pub(crate) struct Run {
    pub(crate) script: Vec<Step>,
    /// How many steps were taken.
    pub(crate) done: usize,
    pub(crate) links: Links,
    pub(crate) stopped: bool,
    /// It couldn't listen, or a turn failed.
    pub(crate) failed: bool,
    /// What it was asked to listen on, in order.
    pub(crate) listens: Vec<Asked>,
    /// A turn was asked for.
    pub(crate) turned: bool,
    /// How often listening failed.
    pub(crate) deaf: u64,
    /// How often listening and turns failed.
    pub(crate) turns: u64,
    pub(crate) refused: u64,
}

/// The step of this index.
fn step_at(script: &[Step], index: usize) -> Option<&Step>
    ensures { option_copied result ≡ slice_get script.now index }
{
    script.get(index)
}

impl Run {
    /// No step was taken.
    pub(crate) fn new(alloc: Global, script: Vec<Step>) -> Self
        ensures run { IsRun result }
        ensures script { result.script ≡ script }
        ensures done { result.done ≡ 0 }
        ensures opened { result.links.opened.items ≡ [] }
        ensures stopped { result.stopped ≡ false }
        ensures failed { result.failed ≡ false }
        ensures listens { result.listens.items ≡ [] }
        ensures turned { result.turned ≡ false }
        ensures deaf { result.deaf ≡ 0 }
        ensures turns { result.turns ≡ 0 }
        ensures refused { result.refused ≡ 0 }
    {
        Run {
            script,
            done: 0,
            links: Links::new(alloc),
            stopped: false,
            failed: false,
            listens: Vec::new(alloc),
            turned: false,
            deaf: 0,
            turns: 0,
            refused: 0,
        }
    }

    /// Adds what it is asked to listen on to what it was asked before.
    fn note(&mut self, alloc: Global, address: &str, stop_after: Option<u32>) -> Result<(), NoMem>
        ensures same { self.new ≡ record self.old { listens = self.new.listens } }
        ensures ok { OnOk result (map noted_of self.new.listens.items ≡ map noted_of self.old.listens.items ++ record { asked = record { address = address.now; stop_after = stop_after }; turned = self.old.turned } ∷ []) }
        ensures err { OnErr result (self.new.listens.items ≡ self.old.listens.items) }
    {
        let asked = Asked::new(alloc, address, stop_after, self.turned)?;
        self.listens.push(asked)?;
        Ok(())
    }

    /// Notes what it is asked to listen on. If memory is refused for that, it fails.
    pub(crate) fn listen(
        &mut self,
        alloc: Global,
        address: &str,
        stop_after: Option<u32>,
    ) -> Result<(), PortFault>
        requires run { IsRun self.old }
        ensures run { IsRun self.new }
        ensures same { OnOk result (IsSame (told_by self.old) (told_by self.new)) }
        ensures failed { OnErr result (TellsFault (told_by self.old) (told_by self.new)) }
        ensures asked { WasAsked (record { address = address.now; stop_after = stop_after }) (IsErr result) (ledger_of self.old) (ledger_of self.new) }
        ensures deaf { OnErr result (HasRisen self.old.deaf self.new.deaf) }
        ensures cause { HasListenCause (IsErr result) (ledger_of self.old) (ledger_of self.new) }
        ensures noted { HasNoted (IsErr result) (value_of self.old) (value_of self.new) }
    {
        match self.note(alloc, address, stop_after) {
            Ok(()) => {
                return Ok(());
            }
            Err(NoMem) => {
                self.failed = true;
                self.deaf = self.deaf.saturating_add(1);
                self.turns = self.turns.saturating_add(1);
                self.refused = self.refused.saturating_add(1);
                return Err(PortFault);
            }
        }
    }

    /// Takes the next step. After the last one Stop is told.
    pub(crate) fn turn(&mut self, alloc: Global) -> Result<Ready, PortFault>
        requires run { IsRun self.old }
        ensures run { IsRun self.new }
        ensures told { IfOk result (λ ready. Told ready (told_by self.old) (told_by self.new)) }
        ensures failed { OnErr result (TellsFault (told_by self.old) (told_by self.new)) }
        ensures turned { self.new.turned ≡ true }
        ensures cause { HasTurnCause (IsErr result) (ledger_of self.old) (ledger_of self.new) }
        ensures answer { IsTurn (result_ok result) (value_of self.old) (value_of self.new) ⊎ IsRefusedTurn (result_ok result) (value_of self.old) (value_of self.new) }
    {
        self.turned = true;
        let Some(step) = step_at(&self.script, self.done) else {
            self.stopped = true;
            return Ok(Ready::Stop);
        };
        if step.fails_turn() {
            self.done += 1;
            self.failed = true;
            self.turns = self.turns.saturating_add(1);
            return Err(PortFault);
        }
        if step.is_stop() {
            self.done += 1;
            self.stopped = true;
            return Ok(Ready::Stop);
        }
        match self.links.take(alloc, step) {
            Ok(ready) => {
                self.done += 1;
                return Ok(ready);
            }
            Err(NoMem) => {
                self.failed = true;
                self.turns = self.turns.saturating_add(1);
                self.refused = self.refused.saturating_add(1);
                return Err(PortFault);
            }
        }
    }

    /// A read of an open link.
    pub(crate) fn read(&mut self, link: u32, buf: &mut [u8]) -> Took
        requires run { IsRun self.old }
        requires is_open { is_open_in (links_of self.old.links link) ≡ true }
        requires room { 0 < length buf.old }
        ensures run { IsRun self.new }
        ensures within { TakesWithin result (length buf.old) }
        ensures change { Changes link (after_read result buf.new ((told_by self.old).link link)) (told_by self.old) (told_by self.new) }
        ensures not_after_end { MayTake result ((told_by self.old).link link) }
        ensures cause { HasLinkCause link (result ≡ Took.Failed) (ledger_of self.old) (ledger_of self.new) }
        ensures answer { (v : MemLink) → links_of self.old.links link ≡ Some v → AnswersRead result (length buf.old) v self.old.refused self.new.refused }
    {
        self.links.read(link, buf, &mut self.refused)
    }

    /// A write to an open link.
    pub(crate) fn write(&mut self, link: u32, bytes: &[u8]) -> Gave
        requires run { IsRun self.old }
        requires is_open { is_open_in (links_of self.old.links link) ≡ true }
        requires some { 0 < length bytes.now }
        ensures run { IsRun self.new }
        ensures within { GivesWithin result (length bytes.now) }
        ensures change { Changes link (after_write result bytes.now ((told_by self.old).link link)) (told_by self.old) (told_by self.new) }
        ensures cause { HasLinkCause link (result ≡ Gave.Failed) (ledger_of self.old) (ledger_of self.new) }
        ensures answer { (v : MemLink) → links_of self.old.links link ≡ Some v → AnswersWrite result (length bytes.now) v self.old.refused self.new.refused }
    {
        self.links.write(link, bytes, &mut self.refused)
    }

    /// Whether Stop was told, or it failed as a whole.
    fn is_over(&self) -> bool
        ensures { result ≡ (self.now.stopped || self.now.failed) }
    {
        self.stopped || self.failed
    }

    /// A link is no longer open.
    pub(crate) fn close(&mut self, link: u32)
        requires run { IsRun self.old }
        requires is_open { is_open_in (links_of self.old.links link) ≡ true }
        ensures run { IsRun self.new }
        ensures change { Changes link (closed (is_over (told_by self.old)) ((told_by self.old).link link)) (told_by self.old) (told_by self.new) }
        ensures continues { Continues (ledger_of self.old) (ledger_of self.new) }
    {
        let over = self.is_over();
        self.links.close(link, over);
    }
}
