//! The disk of a store in memory, and what is said of its faults.

use crate::run::World;
use anyhow::{Result, anyhow};
use lsv_disk::{FileId, Fill, Owner, Part};
use lsvt_doubles::{Hostile, Plan};
use std::alloc::Global;

/// An empty disk that this befalls.
pub fn empty(alloc: Global, plan: Plan) -> Result<Hostile> {
    Hostile::new(alloc, plan).map_err(|_| anyhow!("out of memory"))
}

/// The store is an empty one, where a sync of what a log shows fails: the log's number, and the bytes from which on it does.
pub fn fail_sync(world: &mut World, alloc: Global, words: &str) -> Result<()> {
    let (log, least) = words.split_once(' ').ok_or(anyhow!("a log"))?;
    let shown = FileId::new(Owner::Log(log.parse::<u32>()?), Part::Ttyout);
    world.disk = empty(alloc, Plan::Sync(shown, least.parse::<u64>()?))?;
    Ok(())
}

/// The store is as it reads, and no call of it fails.
pub fn mend(world: &mut World, alloc: Global) -> Result<()> {
    let image = world.disk.image(alloc, Fill::Read, Plan::Whole);
    world.disk = image.map_err(|_| anyhow!("out of memory"))?;
    Ok(())
}
