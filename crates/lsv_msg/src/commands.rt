//! The start and the end of a command.

ghost use Rattle.std.specs.Prelude.{◌≡◌};
ghost use Rattle.lsv_msg.specs.Format.{Gives, read};
ghost use Rattle.lsv_msg.specs.Messages.{accept_message, reject_message, alert_message, exit_message};

use crate::entry::push_entry;
use crate::fields::{Fields, take_all};
use crate::rows::{set_flag, set_int32, set_text, set_time, text_or_empty};
use crate::{AcceptMessage, AlertMessage, ExitMessage, MsgFault, RejectMessage};
use lsv_base::{Bytes, List, TimeSpec};
use lsv_info::{Entry, Info};
use lsv_wire::Field;
use std::alloc::Global;

#[derive(Drop)]
struct AcceptFields {
    submit_time: Option<TimeSpec>,
    info_msgs: List<Entry>,
    expect_iobufs: Option<bool>,
}

impl Fields for AcceptFields {
    ghost use Rattle.std.specs.Prelude.{Option, List, Bool};
    ghost use Rattle.lsv_base.specs.declared.time.TimeSpec.{TimeSpec};
    ghost use Rattle.lsv_info.specs.declared.info.Entry.{Entry};
    ghost use Rattle.lsv_msg.specs.declared.messages.AcceptMessage.{AcceptMessage};
    ghost use Rattle.lsv_msg.specs.Messages.{accept_message};

    ghost State = { Option TimeSpec × (List Entry × Option Bool) };

    ghost Whole = { AcceptMessage };

    ghost format = { accept_message };

    ghost state = { λ f. (f.submit_time, (f.info_msgs, f.expect_iobufs)) };

    fn take(
        &mut self,
        alloc: Global,
        bytes: &[u8],
        _key: usize,
        field: Field,
    ) -> Result<(), MsgFault> {
        match field.number {
            1 => set_time(alloc, &mut self.submit_time, bytes, field),
            2 => push_entry(alloc, &mut self.info_msgs, bytes, field),
            3 => set_flag(&mut self.expect_iobufs, field),
            _ => Ok(()),
        }
    }
}

/// The accepted command that these bytes are.
#[tactic(auto, unfolding(crate::specs::Format::read))]
pub fn read_accept(alloc: Global, bytes: &[u8]) -> Result<AcceptMessage, MsgFault>
    ensures { Gives (λ m. m) result (read accept_message bytes.now) }
{
    let mut fields = AcceptFields {
        submit_time: None,
        info_msgs: List::new(alloc),
        expect_iobufs: None,
    };
    take_all(alloc, bytes, &mut fields)?;
    Ok(AcceptMessage {
        submit_time: fields.submit_time,
        info_msgs: Info {
            entries: fields.info_msgs,
        },
        expect_iobufs: fields.expect_iobufs.unwrap_or(false),
    })
}

#[derive(Drop)]
struct RejectFields {
    submit_time: Option<TimeSpec>,
    reason: Option<Bytes>,
    info_msgs: List<Entry>,
}

impl Fields for RejectFields {
    ghost use Rattle.std.specs.Prelude.{Option, List, ℕ};
    ghost use Rattle.lsv_base.specs.declared.time.TimeSpec.{TimeSpec};
    ghost use Rattle.lsv_info.specs.declared.info.Entry.{Entry};
    ghost use Rattle.lsv_msg.specs.declared.messages.RejectMessage.{RejectMessage};
    ghost use Rattle.lsv_msg.specs.Messages.{reject_message};

    ghost State = { Option TimeSpec × (Option (List ℕ) × List Entry) };

    ghost Whole = { RejectMessage };

    ghost format = { reject_message };

    ghost state = { λ f. (f.submit_time, (f.reason, f.info_msgs)) };

    fn take(
        &mut self,
        alloc: Global,
        bytes: &[u8],
        _key: usize,
        field: Field,
    ) -> Result<(), MsgFault> {
        match field.number {
            1 => set_time(alloc, &mut self.submit_time, bytes, field),
            2 => set_text(alloc, &mut self.reason, bytes, field),
            3 => push_entry(alloc, &mut self.info_msgs, bytes, field),
            _ => Ok(()),
        }
    }
}

/// The rejected command that these bytes are.
#[tactic(auto, unfolding(crate::specs::Format::read))]
pub fn read_reject(alloc: Global, bytes: &[u8]) -> Result<RejectMessage, MsgFault>
    ensures { Gives (λ m. m) result (read reject_message bytes.now) }
{
    let mut fields = RejectFields {
        submit_time: None,
        reason: None,
        info_msgs: List::new(alloc),
    };
    take_all(alloc, bytes, &mut fields)?;
    Ok(RejectMessage {
        submit_time: fields.submit_time,
        reason: text_or_empty(alloc, fields.reason),
        info_msgs: Info {
            entries: fields.info_msgs,
        },
    })
}

#[derive(Drop)]
struct AlertFields {
    alert_time: Option<TimeSpec>,
    reason: Option<Bytes>,
    info_msgs: List<Entry>,
}

impl Fields for AlertFields {
    ghost use Rattle.std.specs.Prelude.{Option, List, ℕ};
    ghost use Rattle.lsv_base.specs.declared.time.TimeSpec.{TimeSpec};
    ghost use Rattle.lsv_info.specs.declared.info.Entry.{Entry};
    ghost use Rattle.lsv_msg.specs.declared.messages.AlertMessage.{AlertMessage};
    ghost use Rattle.lsv_msg.specs.Messages.{alert_message};

    ghost State = { Option TimeSpec × (Option (List ℕ) × List Entry) };

    ghost Whole = { AlertMessage };

    ghost format = { alert_message };

    ghost state = { λ f. (f.alert_time, (f.reason, f.info_msgs)) };

    fn take(
        &mut self,
        alloc: Global,
        bytes: &[u8],
        _key: usize,
        field: Field,
    ) -> Result<(), MsgFault> {
        match field.number {
            1 => set_time(alloc, &mut self.alert_time, bytes, field),
            2 => set_text(alloc, &mut self.reason, bytes, field),
            3 => push_entry(alloc, &mut self.info_msgs, bytes, field),
            _ => Ok(()),
        }
    }
}

/// The alert that these bytes are.
#[tactic(auto, unfolding(crate::specs::Format::read))]
pub fn read_alert(alloc: Global, bytes: &[u8]) -> Result<AlertMessage, MsgFault>
    ensures { Gives (λ m. m) result (read alert_message bytes.now) }
{
    let mut fields = AlertFields {
        alert_time: None,
        reason: None,
        info_msgs: List::new(alloc),
    };
    take_all(alloc, bytes, &mut fields)?;
    Ok(AlertMessage {
        alert_time: fields.alert_time,
        reason: text_or_empty(alloc, fields.reason),
        info_msgs: Info {
            entries: fields.info_msgs,
        },
    })
}

#[derive(Drop)]
struct ExitFields {
    run_time: Option<TimeSpec>,
    exit_value: Option<i32>,
    dumped_core: Option<bool>,
    signal: Option<Bytes>,
    error: Option<Bytes>,
}

impl Fields for ExitFields {
    ghost use Rattle.std.specs.Prelude.{Option, List, ℕ, ℤ, Bool};
    ghost use Rattle.lsv_base.specs.declared.time.TimeSpec.{TimeSpec};
    ghost use Rattle.lsv_msg.specs.declared.messages.ExitMessage.{ExitMessage};
    ghost use Rattle.lsv_msg.specs.Messages.{exit_message};

    ghost State = { Option TimeSpec × (Option ℤ × (Option Bool × (Option (List ℕ) × Option (List ℕ)))) };

    ghost Whole = { ExitMessage };

    ghost format = { exit_message };

    ghost state = { λ f. (f.run_time, (f.exit_value, (f.dumped_core, (f.signal, f.error)))) };

    fn take(
        &mut self,
        alloc: Global,
        bytes: &[u8],
        _key: usize,
        field: Field,
    ) -> Result<(), MsgFault> {
        match field.number {
            1 => set_time(alloc, &mut self.run_time, bytes, field),
            2 => set_int32(&mut self.exit_value, field),
            3 => set_flag(&mut self.dumped_core, field),
            4 => set_text(alloc, &mut self.signal, bytes, field),
            5 => set_text(alloc, &mut self.error, bytes, field),
            _ => Ok(()),
        }
    }
}

/// The end of a command that these bytes are.
#[tactic(auto, unfolding(crate::specs::Format::read))]
pub fn read_exit(alloc: Global, bytes: &[u8]) -> Result<ExitMessage, MsgFault>
    ensures { Gives (λ m. m) result (read exit_message bytes.now) }
{
    let mut fields = ExitFields {
        run_time: None,
        exit_value: None,
        dumped_core: None,
        signal: None,
        error: None,
    };
    take_all(alloc, bytes, &mut fields)?;
    Ok(ExitMessage {
        run_time: fields.run_time,
        exit_value: fields.exit_value.unwrap_or(0),
        dumped_core: fields.dumped_core.unwrap_or(false),
        signal: text_or_empty(alloc, fields.signal),
        error: text_or_empty(alloc, fields.error),
    })
}
