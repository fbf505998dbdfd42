//! The making of a log's nine files with its first entry.
use lsv_bundle::{Bundle, BundleFault, Shape};
use lsv_disk::{Disk, Owner, Part};
use lsv_real_disk::FileDisk;
use lsv_seq::Numbers;
use std::alloc::Global;
use std::sync::Wait;
use std::time::Instant;

/// A head of the usual size.
const HEAD: &[u8] = &[b'x'; 277];

/// Makes a log, and commits its head.
fn make_together<W: Wait + Copy>(
    alloc: Global,
    disk: &mut FileDisk<W>,
    number: u32,
) -> Result<(), BundleFault> {
    let mut bundle = Bundle::create(alloc, disk, Owner::Log(number), Shape::Log)?;
    bundle.stage(Part::Head, HEAD)?;
    bundle.flush(disk, 0, 0, 0, 0)
}

/// Makes this many logs in a store in this folder. Prints on standard error the median of their times in nanoseconds: a few
/// wait for what the file system does beside them.
pub fn makes<W: Wait + Copy>(rt: HostRuntime, waits: W, count: u32) -> Option<u64> {
    let Ok(mut disk) = FileDisk::new(rt, waits, "lsvt_bench") else {
        return None;
    };
    disk.open_store("store", "store/events", 1);
    disk.root("store", "store/events");
    let mut took = Vec::new(rt.alloc());
    for i in 0..count {
        let start = Instant::now(&rt).ok()?;
        make_together(rt.alloc(), &mut disk, 1 + i % 1_000_000).ok()?;
        took.push(start.elapsed(&rt).ok()?.as_nanos()).ok()?;
    }
    took.sort_unstable();
    let middle = took.get(took.len() / 2)?;
    let _ = eprintln!(rt; "{middle}");
    Some(u64::from(count))
}

/// Makes the nine files of the log of this number, in a store in this folder, and no entry, so that interop/cut.py can cut
/// the power after it. Returns the number.
pub fn files<W: Wait + Copy>(rt: HostRuntime, waits: W, number: u32) -> Option<u64> {
    let Ok(mut disk) = FileDisk::new(rt, waits, "lsvt_bench") else {
        return None;
    };
    disk.open_store("store", "store/events", 1);
    disk.root("store", "store/events");
    draw_through(&mut disk, number)?;
    let _bundle = Bundle::create(rt.alloc(), &mut disk, Owner::Log(number), Shape::Log).ok()?;
    Some(u64::from(number))
}

/// Draws the numbers through this one, as a server does before it makes a log: the next run on this store looks for that.
fn draw_through<W: Wait + Copy>(disk: &mut FileDisk<W>, number: u32) -> Option<()> {
    let mut numbers = Numbers::open(disk, 0, 1).ok()?;
    for _ in numbers.last()..number {
        numbers.draw(disk).ok()?;
    }
    Some(())
}
