//! Copies of messages: each equals what it is a copy of.

ghost use Rattle.std.specs.Prelude.{◌≡◌, IfOk};

use crate::{
    AcceptMessage, AlertMessage, Boxed, ChangeWindowSize, ClientHello, ClientMessage,
    CommandSuspend, ExitMessage, IoBuffer, RejectMessage, RestartMessage, ServerHello,
    ServerMessage,
};
use lsv_base::{NoMem, copy_texts};
use std::alloc::Global;

impl ClientMessage {
    /// A copy of its own.
    pub fn copy(&self, alloc: Global) -> Result<Self, NoMem>
        ensures { IfOk result (λ copy. copy ≡ self.now) }
    {
        Ok(match self {
            ClientMessage::Accept(m) => {
                ClientMessage::Accept(Boxed::new(alloc, m.get().copy(alloc)?)?)
            }
            ClientMessage::Reject(m) => {
                ClientMessage::Reject(Boxed::new(alloc, m.get().copy(alloc)?)?)
            }
            ClientMessage::Exit(m) => ClientMessage::Exit(Boxed::new(alloc, m.get().copy(alloc)?)?),
            ClientMessage::Restart(m) => ClientMessage::Restart(m.copy(alloc)?),
            ClientMessage::Alert(m) => {
                ClientMessage::Alert(Boxed::new(alloc, m.get().copy(alloc)?)?)
            }
            ClientMessage::Ttyin(m) => ClientMessage::Ttyin(m.copy(alloc)?),
            ClientMessage::Ttyout(m) => ClientMessage::Ttyout(m.copy(alloc)?),
            ClientMessage::Stdin(m) => ClientMessage::Stdin(m.copy(alloc)?),
            ClientMessage::Stdout(m) => ClientMessage::Stdout(m.copy(alloc)?),
            ClientMessage::Stderr(m) => ClientMessage::Stderr(m.copy(alloc)?),
            ClientMessage::Winsize(m) => ClientMessage::Winsize(m.copy()),
            ClientMessage::Suspend(m) => ClientMessage::Suspend(m.copy(alloc)?),
            ClientMessage::Hello(m) => ClientMessage::Hello(m.copy(alloc)?),
        })
    }
}

impl ServerMessage {
    /// A copy of its own.
    pub fn copy(&self, alloc: Global) -> Result<Self, NoMem>
        ensures { IfOk result (λ copy. copy ≡ self.now) }
    {
        Ok(match self {
            ServerMessage::Hello(m) => {
                ServerMessage::Hello(Boxed::new(alloc, m.get().copy(alloc)?)?)
            }
            ServerMessage::CommitPoint(point) => ServerMessage::CommitPoint(*point),
            ServerMessage::LogId(id) => ServerMessage::LogId(id.copy(alloc)?),
            ServerMessage::Error(text) => ServerMessage::Error(text.copy(alloc)?),
            ServerMessage::Abort(text) => ServerMessage::Abort(text.copy(alloc)?),
        })
    }
}

impl IoBuffer {
    /// A copy of its own.
    pub fn copy(&self, alloc: Global) -> Result<Self, NoMem>
        ensures { IfOk result (λ copy. copy ≡ self.now) }
    {
        Ok(IoBuffer {
            delay: self.delay,
            bytes: self.bytes.copy(alloc)?,
        })
    }
}

impl ChangeWindowSize {
    /// A copy of its own. It takes no memory.
    pub fn copy(&self) -> Self
        ensures { result ≡ self.now }
    {
        ChangeWindowSize {
            delay: self.delay,
            rows: self.rows,
            cols: self.cols,
        }
    }
}

impl CommandSuspend {
    /// A copy of its own.
    pub fn copy(&self, alloc: Global) -> Result<Self, NoMem>
        ensures { IfOk result (λ copy. copy ≡ self.now) }
    {
        Ok(CommandSuspend {
            delay: self.delay,
            signal: self.signal.copy(alloc)?,
        })
    }
}

impl AcceptMessage {
    /// A copy of its own.
    pub fn copy(&self, alloc: Global) -> Result<Self, NoMem>
        ensures { IfOk result (λ copy. copy ≡ self.now) }
    {
        Ok(AcceptMessage {
            submit_time: self.submit_time,
            info_msgs: self.info_msgs.copy(alloc)?,
            expect_iobufs: self.expect_iobufs,
        })
    }
}

impl RejectMessage {
    /// A copy of its own.
    pub fn copy(&self, alloc: Global) -> Result<Self, NoMem>
        ensures { IfOk result (λ copy. copy ≡ self.now) }
    {
        Ok(RejectMessage {
            submit_time: self.submit_time,
            reason: self.reason.copy(alloc)?,
            info_msgs: self.info_msgs.copy(alloc)?,
        })
    }
}

impl AlertMessage {
    /// A copy of its own.
    pub fn copy(&self, alloc: Global) -> Result<Self, NoMem>
        ensures { IfOk result (λ copy. copy ≡ self.now) }
    {
        Ok(AlertMessage {
            alert_time: self.alert_time,
            reason: self.reason.copy(alloc)?,
            info_msgs: self.info_msgs.copy(alloc)?,
        })
    }
}

impl ExitMessage {
    /// A copy of its own.
    pub fn copy(&self, alloc: Global) -> Result<Self, NoMem>
        ensures { IfOk result (λ copy. copy ≡ self.now) }
    {
        Ok(ExitMessage {
            run_time: self.run_time,
            exit_value: self.exit_value,
            dumped_core: self.dumped_core,
            signal: self.signal.copy(alloc)?,
            error: self.error.copy(alloc)?,
        })
    }
}

impl RestartMessage {
    /// A copy of its own.
    pub fn copy(&self, alloc: Global) -> Result<Self, NoMem>
        ensures { IfOk result (λ copy. copy ≡ self.now) }
    {
        Ok(RestartMessage {
            log_id: self.log_id.copy(alloc)?,
            resume_point: self.resume_point,
        })
    }
}

impl ClientHello {
    /// A copy of its own.
    pub fn copy(&self, alloc: Global) -> Result<Self, NoMem>
        ensures { IfOk result (λ copy. copy ≡ self.now) }
    {
        Ok(ClientHello {
            client_id: self.client_id.copy(alloc)?,
        })
    }
}

impl ServerHello {
    /// A copy of its own.
    pub fn copy(&self, alloc: Global) -> Result<Self, NoMem>
        ensures { IfOk result (λ copy. copy ≡ self.now) }
    {
        Ok(ServerHello {
            server_id: self.server_id.copy(alloc)?,
            redirect: self.redirect.copy(alloc)?,
            servers: copy_texts(alloc, self.servers.as_slice())?,
            subcommands: self.subcommands,
        })
    }
}
