//! Scripts of turns, and how a job stands in a line.

use crate::history::Asked;
use anyhow::{Result, anyhow};
use lsv_msg::{ClientMessage, decode_client};
use lsv_session::{Body, ConnId, Job};
use std::alloc::Global;

/// A script: its name, and its jobs, turns and stops.
#[derive(Drop)]
pub struct Script {
    pub name: String,
    pub lines: Vec<String>,
}

impl Script {
    /// A script of this name, with no line yet.
    pub fn new(alloc: Global, name: &str) -> Result<Self> {
        let mut text = String::new(alloc);
        text.push_str(name)?;
        Ok(Script {
            name: text,
            lines: Vec::new(alloc),
        })
    }
}

/// A connection: its worker and its number, with a point between.
fn conn_of(word: &str) -> Result<ConnId> {
    let (worker, seq) = word.split_once('.').ok_or(anyhow!("a connection"))?;
    Ok(ConnId {
        worker: worker.parse::<u32>()?,
        seq: seq.parse::<u64>()?,
    })
}

fn message_of(alloc: Global, digits: &str) -> Result<ClientMessage> {
    let bytes = hex::decode(alloc, digits)?;
    decode_client(alloc, &bytes).map_err(|_| anyhow!("a message"))
}

/// The job of a line.
pub fn job_of(alloc: Global, line: &str) -> Result<Job> {
    let (word, rest) = line.split_once(' ').unwrap_or((line, ""));
    let conn = conn_of(word)?;
    let body = match rest {
        "gone" => Body::Gone,
        digits => Body::Msg(message_of(alloc, digits)?),
    };
    Ok(Job { conn, body })
}

fn asked_in(body: Body) -> Result<Asked> {
    match body {
        Body::Msg(message) => Asked::of_message(message),
        _ => Ok(Asked::Gone),
    }
}

/// The connection of a line's job, and what it asks.
pub fn asked_of(alloc: Global, line: &str) -> Result<(ConnId, Asked)> {
    let Job { conn, body } = job_of(alloc, line)?;
    let asked = asked_in(body)?;
    Ok((conn, asked))
}
