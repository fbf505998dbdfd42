//! The messages of what a log holds.

ghost use Rattle.std.specs.Prelude.{◌≡◌, ◌<◌, ◌^◌, IfOk};
ghost use Rattle.lsv_base.specs.Time.{time_of};
ghost use Rattle.lsv_record.specs.Records.{IsValid};
ghost use Rattle.lsv_request.specs.Stored.{data_message, exit_message, head_message, record_message};

use lsv_base::{NoMem, Point, TimeSpec};
use lsv_info::{Exit, Head};
use lsv_msg::{
    AcceptMessage, Boxed, ChangeWindowSize, ClientMessage, CommandSuspend, ExitMessage, IoBuffer,
};
use lsv_record::{Record, Stream};
use std::alloc::Global;

/// The message of a valid record. It takes no memory.
pub fn record_message(stored: Record) -> ClientMessage
    requires { IsValid stored }
    ensures { result ≡ record_message stored }
{
    match stored {
        Record::Io {
            delay,
            stream,
            bytes,
        } => data_message(
            stream,
            IoBuffer {
                delay: time_of(delay),
                bytes,
            },
        ),
        Record::Winsize { delay, rows, cols } => ClientMessage::Winsize(ChangeWindowSize {
            delay: time_of(delay),
            rows: rows as i32,
            cols: cols as i32,
        }),
        Record::Suspend { delay, signal } => ClientMessage::Suspend(CommandSuspend {
            delay: time_of(delay),
            signal,
        }),
    }
}

/// The accept of a head, after which records will follow.
pub fn head_message(alloc: Global, head: Head) -> Result<ClientMessage, NoMem>
    ensures { IfOk result (λ m. m ≡ head_message head) }
{
    let accept = AcceptMessage {
        submit_time: Some(head.submit),
        info_msgs: head.info,
        expect_iobufs: true,
    };
    Ok(ClientMessage::Accept(Boxed::new(alloc, accept)?))
}

/// The message of an exit.
pub fn exit_message(alloc: Global, exit: Exit) -> Result<ClientMessage, NoMem>
    ensures { IfOk result (λ m. m ≡ exit_message exit) }
{
    let message = ExitMessage {
        run_time: Some(exit.run),
        exit_value: exit.value,
        dumped_core: exit.dumped,
        signal: exit.signal,
        error: exit.error,
    };
    Ok(ClientMessage::Exit(Boxed::new(alloc, message)?))
}

fn data_message(stream: Stream, m: IoBuffer) -> ClientMessage
    ensures { result ≡ data_message stream m }
{
    match stream {
        Stream::Stdin => ClientMessage::Stdin(m),
        Stream::Stdout => ClientMessage::Stdout(m),
        Stream::Stderr => ClientMessage::Stderr(m),
        Stream::Ttyin => ClientMessage::Ttyin(m),
        Stream::Ttyout => ClientMessage::Ttyout(m),
    }
}

/// A delay as a time.
fn time_of(nanos: u64) -> Option<TimeSpec>
    requires { nanos < 2 ^ 63 }
    ensures { result ≡ Some (time_of nanos) }
{
    Some(Point::new(nanos)?.spec())
}
