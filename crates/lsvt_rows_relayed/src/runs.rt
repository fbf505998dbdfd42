//! Runs of a relay, one after another over one disk.

use crate::{case, shown, store};
use anyhow::Result;
use lsv_disk::Disk;
use lsv_kept::{Aim, Keeping};
use lsv_link::MemLink;
use lsv_relay::{Relay, RelayEnd, RelayFault};
use lsvt_doubles::{Hostile, Plan};
use std::alloc::Global;

/// The upstream of a run that names none.
const HOST: &str = "relay.test:30343";

/// The host of a run, and the rest of its word: `HOST!REST`, or the rest alone.
pub fn host_in(word: &str) -> (&str, &str) {
    word.split_once('!').unwrap_or((HOST, word))
}

/// Opens the relay of the log to this host, and makes one connection.
pub fn once(
    alloc: Global,
    disk: &mut Hostile,
    link: &mut MemLink,
    host: &str,
) -> Result<Result<RelayEnd, RelayFault>> {
    let number = store::number()?;
    let mut relay = match Relay::open(alloc, disk, number, host) {
        Ok(relay) => relay,
        Err(fault) => return Ok(Err(fault)),
    };
    Ok(relay.run_one(disk, link, host))
}

/// What a disk keeps of the relaying of the log to this host.
pub fn kept(alloc: Global, disk: &mut Hostile, host: &str) -> Result<String> {
    let aim = Aim::new(alloc, host, store::TIME)?;
    match Keeping::open(alloc, disk, store::number()?, aim) {
        Ok(keeping) => shown::state(alloc, keeping.state()),
        Err(fault) => Ok(format!(in alloc; "{fault}")?),
    }
}

/// Does each run of a case, and prints how it ended, what was written, and what is kept then of its host.
pub fn relay(rt: &HostRuntime, words: &str) -> Result<()> {
    let alloc = rt.alloc();
    let mut disk = store::disk(alloc, Plan::Whole)?;
    for word in words.split(' ') {
        let (host, word) = host_in(word);
        let mut link = case::link(alloc, word, None)?;
        let end = once(alloc, &mut disk, &mut link, host)?;
        println!(rt; "{}", shown::end(alloc, &end)?)?;
        println!(rt; "  wrote {}", shown::written(alloc, &link)?)?;
        println!(rt; "  keeps {}", kept(alloc, &mut disk, host)?)?;
    }
    Ok(())
}
