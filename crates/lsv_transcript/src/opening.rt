//! The messages that open a connection.
ghost use Rattle.std.specs.Prelude.{◌≡◌, IfOk};
ghost use Rattle.lsv_base.specs.Time.{time_of};
ghost use Rattle.lsv_transcript.specs.Transcript.{hello_message, restart_message};

use lsv_base::{Bytes, NoMem, TimeSpec};
use lsv_msg::{ClientHello, ClientMessage, RestartMessage};
use std::alloc::Global;

/// The hello of a client.
pub fn hello_message(alloc: Global) -> Result<ClientMessage, NoMem>
    ensures { IfOk result (λ m. m ≡ hello_message) }
{
    Ok(ClientMessage::Hello(ClientHello {
        client_id: Bytes::of(alloc, b"lsv 1")?,
    }))
}

/// Asks the peer to go on with the log of this identifier, from this point on, in nanoseconds.
pub fn restart_message(alloc: Global, id: &[u8], point: u64) -> Result<ClientMessage, NoMem>
    ensures { IfOk result (λ m. m ≡ restart_message id.now point) }
{
    Ok(ClientMessage::Restart(RestartMessage {
        log_id: Bytes::of(alloc, id)?,
        resume_point: Some(time_of(point)),
    }))
}

/// A point as a time.
fn time_of(nanos: u64) -> TimeSpec
    ensures { result ≡ time_of nanos }
{
    TimeSpec {
        sec: (nanos / 1_000_000_000) as i64,
        nsec: (nanos % 1_000_000_000) as i32,
    }
}
