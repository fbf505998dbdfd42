//! The records of a command: data, a new size of the window, and a suspension.

ghost use Rattle.std.specs.Prelude.{◌≡◌};
ghost use Rattle.lsv_msg.specs.Format.{Gives, read};
ghost use Rattle.lsv_msg.specs.Messages.{io_buffer, change_window_size, command_suspend};

use crate::fields::{Fields, take_all};
use crate::rows::{set_int32, set_text, set_time, text_or_empty};
use crate::{ChangeWindowSize, CommandSuspend, IoBuffer, MsgFault};
use lsv_base::{Bytes, TimeSpec};
use lsv_wire::Field;
use std::alloc::Global;

#[derive(Drop)]
struct IoBufferFields {
    delay: Option<TimeSpec>,
    bytes: Option<Bytes>,
}

impl Fields for IoBufferFields {
    ghost use Rattle.std.specs.Prelude.{Option, List, ℕ};
    ghost use Rattle.lsv_base.specs.declared.time.TimeSpec.{TimeSpec};
    ghost use Rattle.lsv_msg.specs.declared.messages.IoBuffer.{IoBuffer};
    ghost use Rattle.lsv_msg.specs.Messages.{io_buffer};

    ghost State = { Option TimeSpec × Option (List ℕ) };

    ghost Whole = { IoBuffer };

    ghost format = { io_buffer };

    ghost state = { λ f. (f.delay, f.bytes) };

    fn take(
        &mut self,
        alloc: Global,
        bytes: &[u8],
        _key: usize,
        field: Field,
    ) -> Result<(), MsgFault> {
        match field.number {
            1 => set_time(alloc, &mut self.delay, bytes, field),
            2 => set_text(alloc, &mut self.bytes, bytes, field),
            _ => Ok(()),
        }
    }
}

/// The data that these bytes are, of which a copy is made.
#[tactic(auto, unfolding(crate::specs::Format::read))]
pub fn read_buffer(alloc: Global, bytes: &[u8]) -> Result<IoBuffer, MsgFault>
    ensures { Gives (λ m. m) result (read io_buffer bytes.now) }
{
    let mut fields = IoBufferFields {
        delay: None,
        bytes: None,
    };
    take_all(alloc, bytes, &mut fields)?;
    Ok(IoBuffer {
        delay: fields.delay,
        bytes: text_or_empty(alloc, fields.bytes),
    })
}

#[derive(Drop)]
struct ChangeWindowSizeFields {
    delay: Option<TimeSpec>,
    rows: Option<i32>,
    cols: Option<i32>,
}

impl Fields for ChangeWindowSizeFields {
    ghost use Rattle.std.specs.Prelude.{Option, ℤ};
    ghost use Rattle.lsv_base.specs.declared.time.TimeSpec.{TimeSpec};
    ghost use Rattle.lsv_msg.specs.declared.messages.ChangeWindowSize.{ChangeWindowSize};
    ghost use Rattle.lsv_msg.specs.Messages.{change_window_size};

    ghost State = { Option TimeSpec × (Option ℤ × Option ℤ) };

    ghost Whole = { ChangeWindowSize };

    ghost format = { change_window_size };

    ghost state = { λ f. (f.delay, (f.rows, f.cols)) };

    fn take(
        &mut self,
        alloc: Global,
        bytes: &[u8],
        _key: usize,
        field: Field,
    ) -> Result<(), MsgFault> {
        match field.number {
            1 => set_time(alloc, &mut self.delay, bytes, field),
            2 => set_int32(&mut self.rows, field),
            3 => set_int32(&mut self.cols, field),
            _ => Ok(()),
        }
    }
}

/// The new size of the window that these bytes are.
#[tactic(auto, unfolding(crate::specs::Format::read))]
pub fn read_size(alloc: Global, bytes: &[u8]) -> Result<ChangeWindowSize, MsgFault>
    ensures { Gives (λ m. m) result (read change_window_size bytes.now) }
{
    let mut fields = ChangeWindowSizeFields {
        delay: None,
        rows: None,
        cols: None,
    };
    take_all(alloc, bytes, &mut fields)?;
    Ok(ChangeWindowSize {
        delay: fields.delay,
        rows: fields.rows.unwrap_or(0),
        cols: fields.cols.unwrap_or(0),
    })
}

#[derive(Drop)]
struct CommandSuspendFields {
    delay: Option<TimeSpec>,
    signal: Option<Bytes>,
}

impl Fields for CommandSuspendFields {
    ghost use Rattle.std.specs.Prelude.{Option, List, ℕ};
    ghost use Rattle.lsv_base.specs.declared.time.TimeSpec.{TimeSpec};
    ghost use Rattle.lsv_msg.specs.declared.messages.CommandSuspend.{CommandSuspend};
    ghost use Rattle.lsv_msg.specs.Messages.{command_suspend};

    ghost State = { Option TimeSpec × Option (List ℕ) };

    ghost Whole = { CommandSuspend };

    ghost format = { command_suspend };

    ghost state = { λ f. (f.delay, f.signal) };

    fn take(
        &mut self,
        alloc: Global,
        bytes: &[u8],
        _key: usize,
        field: Field,
    ) -> Result<(), MsgFault> {
        match field.number {
            1 => set_time(alloc, &mut self.delay, bytes, field),
            2 => set_text(alloc, &mut self.signal, bytes, field),
            _ => Ok(()),
        }
    }
}

/// The suspension that these bytes are.
#[tactic(auto, unfolding(crate::specs::Format::read))]
pub fn read_suspend(alloc: Global, bytes: &[u8]) -> Result<CommandSuspend, MsgFault>
    ensures { Gives (λ m. m) result (read command_suspend bytes.now) }
{
    let mut fields = CommandSuspendFields {
        delay: None,
        signal: None,
    };
    take_all(alloc, bytes, &mut fields)?;
    Ok(CommandSuspend {
        delay: fields.delay,
        signal: text_or_empty(alloc, fields.signal),
    })
}
