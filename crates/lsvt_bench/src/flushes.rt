//! Flushes of a bundle on the real disk, and the writes and syncs of a flush alone.
ghost use Rattle.std.specs.Prelude.{◌≡◌};
ghost use Rattle.lsv_bundle.specs.declared.shape.Shape.TheVariants.{Log};

use lsv_bundle::{Bundle, BundleFault, Shape};
use lsv_disk::{Disk, DiskFault, FileId, Owner, Part};
use lsv_real_disk::FileDisk;
use std::sync::Wait;
use std::time::Instant;

/// A line of timing and the data of a record, 100 bytes together.
const LINE: &[u8] = b"4 0.001000000 82\n";

const DATA: &[u8] =
    b"0123456789012345678901234567890123456789012345678901234567890123456789012345678901\n";

/// The body of an entry of the journal.
const BODY: &[u8] = &[0; 89];

const OWNER: Owner = Owner::Log(1);

fn file(part: Part) -> FileId {
    FileId { owner: OWNER, part }
}

/// One flush of two data files.
fn flush_once<W: Wait + Copy>(
    bundle: &mut Bundle,
    disk: &mut FileDisk<W>,
    count: u64,
) -> Result<(), BundleFault>
    requires { bundle.old.shape ≡ Log }
    ensures { bundle.new.shape ≡ Log }
{
    bundle.stage(Part::Timing, LINE)?;
    bundle.stage(Part::Ttyout, DATA)?;
    bundle.flush(disk, 1, count, count, 0)
}

fn flush_all<W: Wait + Copy>(
    bundle: &mut Bundle,
    disk: &mut FileDisk<W>,
    count: u32,
) -> Result<(), BundleFault>
    requires { bundle.old.shape ≡ Log }
{
    for i in 0..count {
        flush_once(bundle, disk, u64::from(i))?;
    }
    Ok(())
}

/// The calls of a flush that reach the device: two data files, the body in a slot, and the selector.
fn write_once<W: Wait + Copy>(disk: &mut FileDisk<W>, count: u32) -> Result<(), DiskFault> {
    let count = u64::from(count);
    disk.write_at(file(Part::Stdin), count * LINE.len() as u64, LINE)?;
    disk.sync(file(Part::Stdin))?;
    disk.write_at(file(Part::Stdout), count * DATA.len() as u64, DATA)?;
    disk.sync(file(Part::Stdout))?;
    disk.write_at(file(Part::Stderr), 2 + count % 2 * BODY.len() as u64, BODY)?;
    disk.sync(file(Part::Stderr))?;
    disk.write_at(file(Part::Stderr), 1, &[(count % 2) as u8])?;
    disk.sync(file(Part::Stderr))
}

fn write_all<W: Wait + Copy>(disk: &mut FileDisk<W>, count: u32) -> Result<(), DiskFault> {
    for i in 0..count {
        write_once(disk, i)?;
    }
    Ok(())
}

/// Flushes this many times, and makes the writes and syncs alone as often, in a store in this folder. Prints on standard
/// error the nanoseconds that each took.
pub fn flushes<W: Wait + Copy>(rt: HostRuntime, waits: W, count: u32) -> Option<u64> {
    let Ok(mut disk) = FileDisk::new(rt, waits, "lsvt_bench") else {
        return None;
    };
    disk.open_store("store", "store/events", 1);
    disk.root("store", "store/events");
    let mut bundle = Bundle::create(rt.alloc(), &mut disk, OWNER, Shape::Log).ok()?;
    let start = Instant::now(&rt).ok()?;
    flush_all(&mut bundle, &mut disk, count).ok()?;
    let flushing = start.elapsed(&rt).ok()?.as_nanos();
    let start = Instant::now(&rt).ok()?;
    write_all(&mut disk, count).ok()?;
    let writing = start.elapsed(&rt).ok()?.as_nanos();
    let _ = eprintln!(rt; "{flushing} {writing}");
    Some(u64::from(count))
}
