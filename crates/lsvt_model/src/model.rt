ghost use Rattle.std.specs.Prelude.{◌≡◌, OnOk};
ghost use Rattle.lsv_machine.specs.Machine.{forgets, leaves, let_go, with_state};
ghost use Rattle.lsvt_model.specs.Starting.{begins, empty_machine};
ghost use Rattle.lsvt_model.specs.Views.{logs_in, machine_of};
ghost use Rattle.lsv_session.specs.declared.connection.ConnState.TheVariants.{Fresh};

use crate::connections::{Connection, put_state, state_of};
use crate::logs::{Log, free};
use lsv_base::{Bytes, List, LogNo, NoMem};
use lsv_machine::{forget, log_of, remove};
use lsv_session::{ConnId, ConnState};
use std::alloc::Global;

/// The session machine of a lane, in memory.
#[derive(Debug, Drop)]
pub struct Model {
    pub(crate) alloc: Global,
    pub(crate) texts: List<Bytes>,
    pub(crate) logs: Vec<Log>,
    pub(crate) connections: Vec<Connection>,
    pub(crate) last: Option<LogNo>,
    pub(crate) waiting: Vec<LogNo>,
    pub(crate) lines: Bytes,
    pub(crate) fresh: Bytes,
    pub(crate) noting: Vec<ConnId>,
}

impl Model {
    /// The machine at the start of a run over an empty store, with these texts of prompts.
    pub fn new(alloc: Global, texts: List<Bytes>) -> Self
        ensures { machine_of result ≡ empty_machine texts }
    {
        Model {
            alloc,
            texts,
            logs: Vec::new(alloc),
            connections: Vec::new(alloc),
            last: None,
            waiting: Vec::new(alloc),
            lines: Bytes::new(alloc),
            fresh: Bytes::new(alloc),
            noting: Vec::new(alloc),
        }
    }

    /// The run ends, and another with these texts begins over what is stored: no connection is known, and all records are
    /// promised.
    pub fn stop(&mut self, texts: List<Bytes>)
        ensures { machine_of self.new ≡ begins texts (machine_of self.old) }
    {
        for log in self.logs.iter_mut() {
            log.promised = log.records.as_slice().len();
            log.owner = None;
        }
        self.texts = texts;
        self.connections.clear();
        self.waiting.clear();
        self.fresh.truncate(0);
        self.noting.clear();
    }

    /// The logs, in the order in which they were made.
    pub fn logs(&self) -> &[Log]
        ensures { logs_in result.now ≡ (machine_of self.now).logs }
    {
        &self.logs
    }

    /// The text of the event log.
    pub fn lines(&self) -> &[u8]
        ensures { result.now ≡ (machine_of self.now).lines }
    {
        self.lines.as_slice()
    }

    /// What a connection is doing: `Fresh` where nothing is known of it.
    pub fn state(&self, conn: ConnId) -> ConnState
        ensures { result ≡ (machine_of self.now).states conn }
    {
        state_of(&self.connections, conn)
    }

    /// The connection comes into this state.
    pub(crate) fn set_state(&mut self, conn: ConnId, state: ConnState) -> Result<(), NoMem>
        ensures { OnOk result (machine_of self.new ≡ with_state conn state (machine_of self.old)) }
    {
        put_state(&mut self.connections, conn, state)
    }

    /// The connection comes into this state and writes no log.
    pub(crate) fn leave(&mut self, conn: ConnId, state: ConnState) -> Result<(), NoMem>
        ensures { OnOk result (machine_of self.new ≡ leaves conn state (machine_of self.old)) }
    {
        let log = log_of(self.state(conn));
        self.let_go(log);
        self.set_state(conn, state)
    }

    /// Nobody writes this log, if there is one.
    fn let_go(&mut self, log: Option<LogNo>)
        ensures { machine_of self.new ≡ let_go log (machine_of self.old) }
    {
        if let Some(log) = log {
            remove(&mut self.waiting, log);
            free(&mut self.logs, log);
        }
    }

    /// The connection has gone, and nothing is known of it.
    pub(crate) fn forget(&mut self, conn: ConnId) -> Result<(), NoMem>
        ensures { OnOk result (machine_of self.new ≡ forgets conn (machine_of self.old)) }
    {
        forget(&mut self.noting, conn);
        self.leave(conn, ConnState::Fresh)
    }
}
