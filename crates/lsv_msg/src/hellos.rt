//! The start of a conversation.

ghost use Rattle.std.specs.Prelude.{◌≡◌};
ghost use Rattle.lsv_msg.specs.Format.{Gives, read};
ghost use Rattle.lsv_msg.specs.Messages.{restart_message, client_hello, server_hello};

use crate::fields::{Fields, take_all};
use crate::rows::{push_text, set_flag, set_text, set_time, text_or_empty};
use crate::{ClientHello, MsgFault, RestartMessage, ServerHello};
use lsv_base::{Bytes, List, TimeSpec};
use lsv_wire::Field;
use std::alloc::Global;

#[derive(Drop)]
struct RestartFields {
    log_id: Option<Bytes>,
    resume_point: Option<TimeSpec>,
}

impl Fields for RestartFields {
    ghost use Rattle.std.specs.Prelude.{Option, List, ℕ};
    ghost use Rattle.lsv_base.specs.declared.time.TimeSpec.{TimeSpec};
    ghost use Rattle.lsv_msg.specs.declared.messages.RestartMessage.{RestartMessage};
    ghost use Rattle.lsv_msg.specs.Messages.{restart_message};

    ghost State = { Option (List ℕ) × Option TimeSpec };

    ghost Whole = { RestartMessage };

    ghost format = { restart_message };

    ghost state = { λ f. (f.log_id, f.resume_point) };

    fn take(
        &mut self,
        alloc: Global,
        bytes: &[u8],
        _key: usize,
        field: Field,
    ) -> Result<(), MsgFault> {
        match field.number {
            1 => set_text(alloc, &mut self.log_id, bytes, field),
            2 => set_time(alloc, &mut self.resume_point, bytes, field),
            _ => Ok(()),
        }
    }
}

/// The restart that these bytes are.
#[tactic(auto, unfolding(crate::specs::Format::read))]
pub fn read_restart(alloc: Global, bytes: &[u8]) -> Result<RestartMessage, MsgFault>
    ensures { Gives (λ m. m) result (read restart_message bytes.now) }
{
    let mut fields = RestartFields {
        log_id: None,
        resume_point: None,
    };
    take_all(alloc, bytes, &mut fields)?;
    Ok(RestartMessage {
        log_id: text_or_empty(alloc, fields.log_id),
        resume_point: fields.resume_point,
    })
}

#[derive(Drop)]
struct ClientHelloFields {
    client_id: Option<Bytes>,
}

impl Fields for ClientHelloFields {
    ghost use Rattle.std.specs.Prelude.{Option, List, ℕ};
    ghost use Rattle.lsv_msg.specs.declared.messages.ClientHello.{ClientHello};
    ghost use Rattle.lsv_msg.specs.Messages.{client_hello};

    ghost State = { Option (List ℕ) };

    ghost Whole = { ClientHello };

    ghost format = { client_hello };

    ghost state = { λ f. f.client_id };

    fn take(
        &mut self,
        alloc: Global,
        bytes: &[u8],
        _key: usize,
        field: Field,
    ) -> Result<(), MsgFault> {
        match field.number {
            1 => set_text(alloc, &mut self.client_id, bytes, field),
            _ => Ok(()),
        }
    }
}

/// The hello of a client that these bytes are.
#[tactic(auto, unfolding(crate::specs::Format::read))]
pub fn read_client_hello(alloc: Global, bytes: &[u8]) -> Result<ClientHello, MsgFault>
    ensures { Gives (λ m. m) result (read client_hello bytes.now) }
{
    let mut fields = ClientHelloFields { client_id: None };
    take_all(alloc, bytes, &mut fields)?;
    Ok(ClientHello {
        client_id: text_or_empty(alloc, fields.client_id),
    })
}

#[derive(Drop)]
struct ServerHelloFields {
    server_id: Option<Bytes>,
    redirect: Option<Bytes>,
    servers: List<Bytes>,
    subcommands: Option<bool>,
}

impl Fields for ServerHelloFields {
    ghost use Rattle.std.specs.Prelude.{Option, List, ℕ, Bool};
    ghost use Rattle.lsv_msg.specs.declared.messages.ServerHello.{ServerHello};
    ghost use Rattle.lsv_msg.specs.Messages.{server_hello};

    ghost State = { Option (List ℕ) × (Option (List ℕ) × (List (List ℕ) × Option Bool)) };

    ghost Whole = { ServerHello };

    ghost format = { server_hello };

    ghost state = { λ f. (f.server_id, (f.redirect, (f.servers, f.subcommands))) };

    fn take(
        &mut self,
        alloc: Global,
        bytes: &[u8],
        _key: usize,
        field: Field,
    ) -> Result<(), MsgFault> {
        match field.number {
            1 => set_text(alloc, &mut self.server_id, bytes, field),
            2 => set_text(alloc, &mut self.redirect, bytes, field),
            3 => push_text(alloc, &mut self.servers, bytes, field),
            4 => set_flag(&mut self.subcommands, field),
            _ => Ok(()),
        }
    }
}

/// The hello of a server that these bytes are.
#[tactic(auto, unfolding(crate::specs::Format::read))]
pub fn read_server_hello(alloc: Global, bytes: &[u8]) -> Result<ServerHello, MsgFault>
    ensures { Gives (λ m. m) result (read server_hello bytes.now) }
{
    let mut fields = ServerHelloFields {
        server_id: None,
        redirect: None,
        servers: List::new(alloc),
        subcommands: None,
    };
    take_all(alloc, bytes, &mut fields)?;
    Ok(ServerHello {
        server_id: text_or_empty(alloc, fields.server_id),
        redirect: text_or_empty(alloc, fields.redirect),
        servers: fields.servers,
        subcommands: fields.subcommands.unwrap_or(false),
    })
}
