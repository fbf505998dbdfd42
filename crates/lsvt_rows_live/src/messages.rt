//! Messages that are passed on one by one, without a port.

use crate::words::{bytes_of, shown};
use anyhow::{Result, anyhow};
use lsv_live::{Down, Live};
use lsv_wire::FRAME_LIMIT;
use std::alloc::Global;

/// The messages of one client and of the other server.
#[derive(Drop)]
pub struct Messages {
    alloc: Global,
    live: Live,
}

impl Messages {
    /// None were passed on.
    pub fn new(alloc: Global) -> Self {
        Messages {
            alloc,
            live: Live::new(alloc),
        }
    }

    /// A message of the client. Prints its frame for the other server, or why it is refused.
    pub fn client(&mut self, rt: &HostRuntime, words: &str) -> Result<()> {
        let body = bytes_of(self.alloc, words)?;
        if body.as_slice().len() > FRAME_LIMIT {
            return Err(anyhow!("a message"));
        }
        match self.live.client(body.as_slice()) {
            Ok(frame) => println!(rt; "{}", shown(self.alloc, frame.as_slice())?)?,
            Err(fault) => println!(rt; "{fault:?}: {fault}")?,
        }
        Ok(())
    }

    /// A message of the other server. Prints what the client gets, or why it is refused.
    pub fn server(&mut self, rt: &HostRuntime, words: &str) -> Result<()> {
        let body = bytes_of(self.alloc, words)?;
        match self.live.upstream(body.as_slice()) {
            Ok(Down::Nothing) => println!(rt; "nothing")?,
            Ok(Down::Put(frame)) => println!(rt; "{}", shown(self.alloc, frame.as_slice())?)?,
            Ok(Down::Last(frame)) => println!(rt; "last {}", shown(self.alloc, frame.as_slice())?)?,
            Err(fault) => println!(rt; "{fault:?}: {fault}")?,
        }
        Ok(())
    }
}
