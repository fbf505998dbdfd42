ghost use Rattle.std.specs.Prelude.{◌≡◌, ◌≢◌, ◌↔◌, ◌==◌, ◌+◌, ◌≤◌, ◌<◌, ℕ, if◌then◌else◌, Some, None, IsOk, OnOk, OnErr, IsErrOf};
ghost use Rattle.lsv_session.specs.Connections.{same};
ghost use Rattle.lsv_session.specs.Table.{sessions, spare, spare_owners, room_for, unless};
ghost use Rattle.lsv_session.specs.declared.connection.ConnId.{ConnId};
ghost use Rattle.lsv_session.specs.declared.connection.ConnState.TheVariants as states;

use crate::{ConnId, ConnState};
use indexmap::IndexMap;
use lsv_base::{LogNo, NoMem};
use std::alloc::{AllocError, AllocFailed, Global};
use std::collections::HashMap;
use thiserror::Error;

/// What each connection of a lane is doing, and which one writes a log. A look-up takes the same time however many there
/// are.
#[derive(Debug, Drop)]
pub struct Table {
    states: IndexMap<ConnId, ConnState>,
    owners: HashMap<u32, ConnId>,
    /// Where the connection stood whose state was set last: while one session runs, each message is of that one.
    last: usize,
}

/// Why a log isn't claimed.
#[derive(Clone, Copy, Debug, PartialEq, Eq, Error)]
pub enum ClaimFault {
    /// This connection writes the log.
    #[error("another session writes the log")]
    InUse(ConnId),
    #[error("out of memory")]
    NoMem,
}

impl Table {
    /// No connection is known, and no log is owned. It takes no memory yet.
    pub fn new(alloc: Global) -> Self
        ensures { sessions result ≡ record { states = λ _. states.Fresh; owner = λ _. None } }
    {
        Table {
            states: IndexMap::new(alloc),
            owners: HashMap::new(alloc),
            last: 0,
        }
    }

    /// What a connection is doing: `Fresh` where it isn't known. The one whose state was set last is looked at first,
    /// which takes no hash.
    pub fn state(&self, conn: ConnId) -> ConnState
        ensures { result ≡ (sessions self.now).states conn }
    {
        match self.states.get_index(self.last) {
            Some((known, state)) if *known == conn => *state,
            _ => self.look_up(conn),
        }
    }

    /// The same by the hash, apart from the other way, so that nothing is cleared for it there.
    #[inline(never)]
    fn look_up(&self, conn: ConnId) -> ConnState
        ensures { result ≡ (sessions self.now).states conn }
    {
        match self.states.get(&conn) {
            Some(state) => *state,
            None => ConnState::Fresh,
        }
    }

    /// The connection that writes a log.
    pub fn owner(&self, log: LogNo) -> Option<ConnId>
        ensures { result ≡ (sessions self.now).owner log }
    {
        self.owners.get(&log.get()).copied()
    }

    /// Room for this many connections that aren't known yet.
    pub fn reserve(&mut self, more: usize) -> Result<(), NoMem>
        ensures same { sessions self.new ≡ sessions self.old }
        ensures ok { OnOk result (more ≤ spare self.new) }
        ensures enough { more ≤ spare self.old → IsOk result }
        ensures kept { spare self.old ≤ spare self.new }
        ensures owners { spare_owners self.new ≡ spare_owners self.old }
    {
        self.states.reserve(more)?;
        Ok(())
    }

    /// Room for this many further owners.
    pub fn reserve_owners(&mut self, more: usize) -> Result<(), NoMem>
        ensures same { sessions self.new ≡ sessions self.old }
        ensures ok { OnOk result (more ≤ spare_owners self.new) }
        ensures enough { more ≤ spare_owners self.old → IsOk result }
        ensures kept { spare_owners self.old ≤ spare_owners self.new }
        ensures states { spare self.new ≡ spare self.old }
    {
        self.owners.reserve(more)?;
        Ok(())
    }

    /// A connection is to write a log. `InUse`, with the owner, comes exactly where the log has one; `NoMem` never where
    /// there is room for one more owner.
    pub fn claim(&mut self, log: LogNo, conn: ConnId) -> Result<(), ClaimFault>
        ensures ok { OnOk result (sessions self.new ≡ record (sessions self.old) { owner = λ n. if n == log then Some conn else (sessions self.old).owner n }) }
        ensures err { OnErr result (sessions self.new ≡ sessions self.old) }
        ensures in_use { (k : ConnId) → IsErrOf result (ClaimFault.InUse k) ↔ ((sessions self.old).owner log ≡ Some k) }
        ensures room { IsErrOf result ClaimFault.NoMem → spare_owners self.old ≡ 0 }
        ensures owners { spare_owners self.old ≤ spare_owners self.new + 1 }
        ensures states { spare self.new ≡ spare self.old }
    {
        if let Some(owner) = self.owner(log) {
            return Err(ClaimFault::InUse(owner));
        }
        match self.owners.insert(log.get(), conn) {
            Ok(_) => Ok(()),
            Err(_) => Err(ClaimFault::NoMem),
        }
    }

    /// A connection is doing this now. It takes memory only for one that isn't known, and none where there is room for one
    /// more; to be `Fresh` takes none.
    pub fn set(&mut self, conn: ConnId, state: ConnState) -> Result<(), NoMem>
        ensures ok { OnOk result (sessions self.new ≡ record (sessions self.old) { states = λ k. if same k conn then state else (sessions self.old).states k }) }
        ensures err { OnErr result (sessions self.new ≡ sessions self.old) }
        ensures room { room_for ((sessions self.old).states conn) state ≤ spare self.old → IsOk result }
        ensures spare { spare self.old ≤ spare self.new + room_for ((sessions self.old).states conn) state }
        ensures owners { spare_owners self.new ≡ spare_owners self.old }
    {
        if state == ConnState::Fresh {
            self.forget(conn);
            return Ok(());
        }
        if let Some(known) = self.states.get_mut(&conn) {
            *known = state;
            self.expect(conn);
            return Ok(());
        }
        self.states.insert(conn, state)?;
        self.expect(conn);
        Ok(())
    }

    /// A connection is looked at first from now on.
    fn expect(&mut self, conn: ConnId)
        ensures same { sessions self.new ≡ sessions self.old }
        ensures spare { spare self.new ≡ spare self.old }
        ensures owners { spare_owners self.new ≡ spare_owners self.old }
    {
        if let Some(at) = self.states.get_index_of(&conn) {
            self.last = at;
        }
    }

    /// A connection isn't known any more. What it owns stays.
    fn forget(&mut self, conn: ConnId)
        ensures same { sessions self.new ≡ record (sessions self.old) { states = λ k. if same k conn then states.Fresh else (sessions self.old).states k } }
        ensures spare { spare self.old ≤ spare self.new }
        ensures owners { spare_owners self.new ≡ spare_owners self.old }
    {
        self.states.swap_remove(&conn);
    }

    /// Nobody writes a log any more.
    pub fn release_log(&mut self, log: LogNo)
        ensures free { sessions self.new ≡ record (sessions self.old) { owner = λ n. if n == log then None else (sessions self.old).owner n } }
        ensures states { spare self.new ≡ spare self.old }
        ensures owners { spare_owners self.old ≤ spare_owners self.new }
    {
        self.owners.remove(&log.get());
    }

    /// A connection owns nothing any more. It looks at each owner.
    pub fn release(&mut self, conn: ConnId)
        ensures free { sessions self.new ≡ record (sessions self.old) { owner = λ n. unless conn ((sessions self.old).owner n) } }
        ensures states { spare self.new ≡ spare self.old }
        ensures owners { spare_owners self.old ≤ spare_owners self.new }
    {
        self.owners.retain(|_, owner| *owner != conn);
    }

    /// A connection isn't known any more and owns nothing. It looks at each owner.
    pub fn drop_conn(&mut self, conn: ConnId)
        ensures gone { sessions self.new ≡ record { states = λ k. if same k conn then states.Fresh else (sessions self.old).states k; owner = λ n. unless conn ((sessions self.old).owner n) } }
        ensures states { spare self.old ≤ spare self.new }
        ensures owners { spare_owners self.old ≤ spare_owners self.new }
    {
        self.forget(conn);
        self.release(conn);
    }
}
