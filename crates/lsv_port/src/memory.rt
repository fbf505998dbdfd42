ghost use Rattle.std.specs.Prelude.{◌≡◌, ◌⊎◌, ◌<◌, ℕ, true, false, [], Some, length, map, IfOk, OnOk, OnErr, IsErr};
ghost use Rattle.std.specs.Result.{result_ok};
ghost use Rattle.lsv_defs.specs.Causes.{HasRisen};
ghost use Rattle.lsv_port.specs.declared.memory.link.MemLink.{MemLink};
ghost use Rattle.lsv_port.specs.Ledger.{Continues, HasListenCause, HasTurnCause, HasLinkCause, WasAsked};
ghost use Rattle.lsv_port.specs.Port.{IsOpen, IsSame, Changes, Told, TellsFault, TakesWithin, MayTake, GivesWithin, after_read, after_write, closed, is_over};
ghost use Rattle.lsv_port.specs.Memory.Link.{AnswersRead, AnswersWrite};
ghost use Rattle.lsv_port.specs.Memory.Laws.{opened_where_open};
ghost use Rattle.lsv_port.specs.Memory.Value.{port_state, port_ledger, link_map, noted_of, HasNoted, IsTurn, IsRefusedTurn, TellsScript};

mod asked;
mod link;
mod links;
mod run;

pub use crate::memory::asked::Asked;
use crate::memory::link::MemLink;
use crate::memory::run::Run;
use crate::{Gave, Port, PortFault, Ready, Step, Took};
use std::alloc::Global;
use std::marker::Model;

/// A port in memory, which tells what a script says: each turn takes its next step. Contracts see the script, how many
/// of its steps were taken, and what they have made of each link.
#[derive(Drop)]
pub struct MemPort {
    alloc: Global,
    run: Run,
}

impl Model for MemPort {
    ghost use Rattle.lsv_port.specs.Memory.Value.{PortValue, value_of, IsRun};

    ghost Value = { PortValue };

    ghost view = { λ p. value_of p.run };

    ghost invariant = { λ p. IsRun p.run };
}

impl MemPort {
    /// A port that is to tell this script. Its links are kept in memory of `alloc`.
    pub fn new(alloc: Global, script: Vec<Step>) -> Self
        ensures script { result.script ≡ script.items }
        ensures done { result.done ≡ 0 }
        ensures opened { (port_state result).opened ≡ [] }
        ensures stopped { (port_state result).stopped ≡ false }
        ensures failed { (port_state result).failed ≡ false }
        ensures listens { (port_ledger result).listens ≡ [] }
        ensures turned { (port_ledger result).turned ≡ false }
        ensures deaf { (port_ledger result).deaf ≡ 0 }
        ensures turns { (port_ledger result).turns ≡ 0 }
        ensures refused { result.refused ≡ 0 }
    {
        MemPort {
            alloc,
            run: Run::new(alloc, script),
        }
    }

    /// How often a call failed because memory was refused.
    pub fn refused(&self) -> u64
        ensures { result ≡ self.now.refused }
    {
        self.run.refused
    }

    /// What it was asked to listen on, in order, each with whether it had made a turn by then.
    pub fn listens(&self) -> &[Asked]
        ensures { map noted_of result.now ≡ (port_ledger self.now).listens }
    {
        &self.run.listens
    }

    /// The numbers of the links that were opened, in order.
    pub fn opened(&self) -> &[u32]
        ensures { result.now ≡ (port_state self.now).opened }
    {
        &self.run.links.opened
    }

    /// Whether a link is open.
    pub fn is_open(&self, link: u32) -> bool
        ensures { result ≡ ((port_state self.now).link link).is_open }
    {
        match self.run.links.by_number.get(&link) {
            Some(its) => its.is_open,
            None => false,
        }
    }

    /// The bytes that were read from a link.
    pub fn input(&self, link: u32) -> &[u8]
        ensures { result.now ≡ ((port_state self.now).link link).input }
    {
        match self.run.links.by_number.get(&link) {
            Some(its) => its.input(),
            None => &[],
        }
    }

    /// The bytes that were put on a link.
    pub fn output(&self, link: u32) -> &[u8]
        ensures { result.now ≡ ((port_state self.now).link link).output }
    {
        match self.run.links.by_number.get(&link) {
            Some(its) => its.output.as_slice(),
            None => &[],
        }
    }

    /// What it has told so far is what its script says: each link was opened where a step taken so far opened it, what
    /// was read from it is a prefix of what those steps sent on it, and all of it where the link is open, isn't owed a
    /// read, and no call on it failed. Where Stop was told, the steps up to a Stop were taken, or all.
    pub fn tells_its_script(&self)
        ensures { TellsScript self.now.script (port_state self.now) }
    {
        let _ = &self.run;
    }
}

impl Port for MemPort {
    ghost tells = { Unit {0} };

    ghost state = { port_state };

    ghost ledger = { port_ledger };

    ghost open_was_opened = { λ told port link here. opened_where_open port link here };

    /// Notes what it is asked to listen on. Its links are those of its script, whatever the address; and it tells Stop where
    /// the script does. It fails only if memory is refused.
    fn listen(&mut self, address: &str, stop_after: Option<u32>) -> Result<(), PortFault>
        ensures same { OnOk result (IsSame (port_state self.old) (port_state self.new)) }
        ensures failed { OnErr result (TellsFault (port_state self.old) (port_state self.new)) }
        ensures asked { WasAsked (record { address = address.now; stop_after = stop_after }) (IsErr result) (port_ledger self.old) (port_ledger self.new) }
        ensures deaf { OnErr result (HasRisen (port_ledger self.old).deaf (port_ledger self.new).deaf) }
        ensures cause { HasListenCause (IsErr result) (port_ledger self.old) (port_ledger self.new) }
        ensures noted { HasNoted (IsErr result) self.old self.new }
    {
        self.run.listen(self.alloc, address, stop_after)
    }

    /// Takes the next step of the script, and tells what it made; after the last one it tells Stop. It fails at a
    /// BreakTurn; and where memory is refused, without a step.
    fn turn(&mut self, _held: &[u32]) -> Result<Ready, PortFault>
        ensures told { IfOk result (λ ready. Told ready (port_state self.old) (port_state self.new)) }
        ensures failed { OnErr result (TellsFault (port_state self.old) (port_state self.new)) }
        ensures turned { (port_ledger self.new).turned ≡ true }
        ensures cause { HasTurnCause (IsErr result) (port_ledger self.old) (port_ledger self.new) }
        ensures answer { IsTurn (result_ok result) self.old self.new ⊎ IsRefusedTurn (result_ok result) self.old self.new }
    {
        self.run.turn(self.alloc)
    }

    /// Gives what has arrived. It fails where a Break of the link came since the last call on it that failed; and where
    /// memory is refused.
    fn read(&mut self, link: u32, buf: &mut [u8]) -> Took
        requires is_open { IsOpen (port_state self.old) link }
        requires room { 0 < length buf.old }
        ensures within { TakesWithin result (length buf.old) }
        ensures change { Changes link (after_read result buf.new ((port_state self.old).link link)) (port_state self.old) (port_state self.new) }
        ensures not_after_end { MayTake result ((port_state self.old).link link) }
        ensures cause { HasLinkCause link (result ≡ Took.Failed) (port_ledger self.old) (port_ledger self.new) }
        ensures answer { (v : MemLink) → link_map self.old link ≡ Some v → AnswersRead result (length buf.old) v self.old.refused self.new.refused }
    {
        self.run.read(link, buf)
    }

    /// Takes as many bytes as there is room for. It fails where a Break of the link came since the last call on it that
    /// failed; and where memory is refused.
    fn write(&mut self, link: u32, bytes: &[u8]) -> Gave
        requires is_open { IsOpen (port_state self.old) link }
        requires some { 0 < length bytes.now }
        ensures within { GivesWithin result (length bytes.now) }
        ensures change { Changes link (after_write result bytes.now ((port_state self.old).link link)) (port_state self.old) (port_state self.new) }
        ensures cause { HasLinkCause link (result ≡ Gave.Failed) (port_ledger self.old) (port_ledger self.new) }
        ensures answer { (v : MemLink) → link_map self.old link ≡ Some v → AnswersWrite result (length bytes.now) v self.old.refused self.new.refused }
    {
        self.run.write(link, bytes)
    }

    fn close(&mut self, link: u32)
        requires is_open { IsOpen (port_state self.old) link }
        ensures change { Changes link (closed (is_over (port_state self.old)) ((port_state self.old).link link)) (port_state self.old) (port_state self.new) }
        ensures continues { Continues (port_ledger self.old) (port_ledger self.new) }
    {
        self.run.close(link);
    }
}
