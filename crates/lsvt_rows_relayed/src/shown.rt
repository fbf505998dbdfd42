//! What became of a relaying, in words.

use anyhow::Result as Answer;
use lsv_dialogue::Cause;
use lsv_kept::State;
use lsv_link::MemLink;
use lsv_relay::{RelayEnd, RelayFault};
use std::alloc::Global;

/// How a connection ended.
pub fn end(alloc: Global, end: &Result<RelayEnd, RelayFault>) -> Answer<String> {
    match end {
        Ok(RelayEnd::Done) => Ok(String::from_str(alloc, "done")?),
        Ok(RelayEnd::Pending(why)) => cause(alloc, why),
        Err(fault) => Ok(format!(in alloc; "{fault}")?),
    }
}

fn cause(alloc: Global, cause: &Cause) -> Answer<String> {
    let text = match cause {
        Cause::Unreached => String::from_str(alloc, "unreached")?,
        Cause::NotYet => String::from_str(alloc, "not yet")?,
        Cause::Ended => String::from_str(alloc, "ended")?,
        Cause::Failed => String::from_str(alloc, "failed")?,
        Cause::Said(text) => {
            let digits = hex::encode(alloc, text.as_slice())?;
            format!(in alloc; "said {digits}")?
        }
        Cause::Malformed(_) => String::from_str(alloc, "malformed")?,
        Cause::TooLarge(length) => format!(in alloc; "too large {length}")?,
        Cause::Strange(point) => format!(in alloc; "strange {}", point.nanos())?,
        Cause::LongId(length) => format!(in alloc; "long id {length}")?,
        Cause::Chatter => String::from_str(alloc, "chatter")?,
        Cause::TooLong(length) => format!(in alloc; "too long {length}")?,
    };
    Ok(text)
}

/// What is kept.
pub fn state(alloc: Global, state: &State) -> Answer<String> {
    match state {
        State::Nothing => Ok(String::from_str(alloc, "nothing")?),
        State::Done => Ok(String::from_str(alloc, "relayed")?),
        State::Kept(kept) => {
            let id = hex::encode(alloc, kept.id.as_slice())?;
            match kept.point {
                None => Ok(format!(in alloc; "id {id}")?),
                Some(point) => Ok(format!(in alloc; "id {id} to {point}")?),
            }
        }
    }
}

/// What was written on the connection, if there is one.
pub fn written(alloc: Global, link: &MemLink) -> Answer<String> {
    match link.connection(0) {
        None => Ok(String::from_str(alloc, "no connection")?),
        Some(conn) => Ok(hex::encode(alloc, conn.output.as_slice())?),
    }
}
