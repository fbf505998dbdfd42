//! How things stand in a line.

use anyhow::{Result, anyhow};
use lsv_base::{Bytes, List};
use lsv_msg::{MsgFault, decode_client};
use lsv_session::{Body, ConnId, Fault, Job};
use lsvt_model::RunSettings;
use std::alloc::Global;

/// The words after this one.
fn number_behind(words: &str, name: &str) -> Result<u32> {
    let mut words = words.split_whitespace();
    for _ in 0..100u8 {
        match words.next() {
            Some(word) if word == name => return Ok(words.next().unwrap_or("").parse::<u32>()?),
            Some(_) => (),
            None => break,
        }
    }
    Err(anyhow!("a number"))
}

/// The lane of a conversation, and the number of lanes.
pub fn settings_of(words: &str) -> Result<RunSettings> {
    Ok(RunSettings {
        lane: number_behind(words, "lane")?,
        lanes: number_behind(words, "lanes")?,
        log_exit: true,
    })
}

/// The texts of the prompts.
pub fn texts_of(alloc: Global, has_prompts: bool) -> Result<List<Bytes>> {
    let mut texts = Vec::new(alloc);
    if has_prompts {
        for text in ["assword:", "assword for"] {
            texts.push(Bytes::of(alloc, text.as_bytes())?)?;
        }
    }
    Ok(List::from_vec(texts))
}

/// A connection: its worker and its number, with a point between.
pub fn conn_of(word: &str) -> Result<ConnId> {
    let (worker, seq) = word.split_once('.').ok_or(anyhow!("a connection"))?;
    Ok(ConnId {
        worker: worker.parse::<u32>()?,
        seq: seq.parse::<u64>()?,
    })
}

/// A job: the digits of a message's bytes, why there is none, or the connection's end.
pub fn job_of(alloc: Global, conn: ConnId, words: &str) -> Result<Job> {
    let body = match words {
        "gone" => Body::Gone,
        "bad 2" => Body::Bad(Fault::Malformed(MsgFault::Untyped)),
        "bad 3" => Body::Bad(Fault::TooLarge(u32::MAX)),
        _ => message_of(alloc, words)?,
    };
    Ok(Job { conn, body })
}

fn message_of(alloc: Global, digits: &str) -> Result<Body> {
    let bytes = hex::decode(alloc, digits)?;
    match decode_client(alloc, &bytes) {
        Ok(message) => Ok(Body::Msg(message)),
        Err(fault) => Ok(Body::Bad(Fault::Malformed(fault))),
    }
}
