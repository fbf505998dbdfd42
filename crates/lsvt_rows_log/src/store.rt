//! The files of a store in memory, by name.

use crate::noting::Noting;
use anyhow::{Result, anyhow};
use lsv_disk::{Disk, DiskFault, FileId, Owner, Part};
use lsvt_doubles::{Hostile, Plan};
use std::alloc::Global;

/// The disk of the cases: one in memory of which nothing is told, whose reads are noted.
pub type Store = Noting<Hostile>;

/// The files that an owner may have, by name.
const PARTS: [(&str, Part); 10] = [
    ("log.json", Part::Head),
    ("exit.json", Part::Exit),
    ("timing", Part::Timing),
    ("stdin", Part::Stdin),
    ("stdout", Part::Stdout),
    ("stderr", Part::Stderr),
    ("ttyin", Part::Ttyin),
    ("ttyout", Part::Ttyout),
    ("slots", Part::Slots),
    ("commit", Part::Commit),
];

/// A disk without files, with this plan of faults.
pub fn empty(alloc: Global, plan: Plan) -> Result<Store> {
    let disk = Hostile::new(alloc, plan).map_err(|_| anyhow!("out of memory"))?;
    Ok(Noting::new(disk))
}

/// The part of this name.
fn part_of(name: &str) -> Option<Part> {
    for (known, part) in PARTS {
        if name == known {
            return Some(part);
        }
    }
    None
}

/// An owner: a log's number, or `lane` and the lane after a point.
fn owner_of(word: &str) -> Result<Owner> {
    match word.split_once('.') {
        Some(("lane", lane)) => Ok(Owner::Numbers(lane.parse::<u32>()?)),
        Some(_) => Err(anyhow!("an owner")),
        None => Ok(Owner::Log(word.parse::<u32>()?)),
    }
}

/// Makes a file with these bytes, and syncs it.
fn make(store: &mut Store, f: FileId, bytes: &[u8]) -> Result<(), DiskFault> {
    store.create(f)?;
    store.write_at(f, 0, bytes)?;
    store.sync(f)
}

/// Makes a file: its owner, its part, and the digits of its bytes.
pub fn put(alloc: Global, store: &mut Store, words: &str) -> Result<()> {
    let (owner, rest) = words.split_once(' ').ok_or(anyhow!("a file"))?;
    let (name, digits) = rest.split_once(' ').unwrap_or((rest, ""));
    let part = part_of(name).ok_or(anyhow!("a part"))?;
    let bytes = hex::decode(alloc, digits)?;
    make(store, FileId::new(owner_of(owner)?, part), &bytes).map_err(|_| anyhow!("a file"))
}

/// Prints the files of an owner that are there: their names, and the digits of their bytes.
pub fn show(rt: &HostRuntime, store: &Store, word: &str) -> Result<()> {
    let owner = owner_of(word)?;
    for (name, part) in PARTS {
        let Some(bytes) = store.disk.bytes(FileId::new(owner, part)) else {
            continue;
        };
        let digits = hex::encode(rt.alloc(), bytes)?;
        println!(rt; "{name} {digits}")?;
    }
    Ok(())
}

/// Prints the longest buffers that were read into since this was asked for last.
pub fn show_longest(rt: &HostRuntime, store: &mut Store) -> Result<()> {
    let longest = store.take_longest();
    let is_short = longest.other <= 65_536;
    println!(rt;
        "longest reads: timing {}, streams {}, other files within 65536 {is_short}",
        longest.timing, longest.stream
    )?;
    Ok(())
}
