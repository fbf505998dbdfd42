//! What is printed of a run.

use crate::alone::Left;
use crate::outside::Told;
use crate::run::MemOutside;
use crate::settled::settled;
use crate::tape::{Jobs, show_jobs};
use anyhow::{Result, anyhow};
use lsv_base::LogNo;
use lsv_iolog::{LogView, ViewFault};
use lsv_record::Record;
use lsv_serve::Status;
use lsvt_doubles::{Hostile, Watched};
use md5::{Digest, Md5};
use std::alloc::Global;
use std::{mem, str};

/// The most bytes of a link, and of a log, that are printed one by one.
const MOST_PUT: usize = 512;

const MOST_SHOWN: usize = 64;

/// Bytes as they are printed: their digits, or of more than this many their number and their digest.
fn shown(alloc: Global, bytes: &[u8], most: usize) -> Result<String> {
    if bytes.len() <= most {
        return Ok(hex::encode(alloc, bytes)?);
    }
    let digest = Md5::digest(bytes);
    let digits = hex::encode(alloc, digest.as_slice())?;
    Ok(format!(in alloc; "{} bytes {digits}", bytes.len())?)
}

/// Prints what a server told at its start.
fn show_told(rt: &HostRuntime, told: &Told) -> Result<()> {
    let address = str::from_utf8(told.address.as_slice()).map_err(|_| anyhow!("no text"))?;
    let logs = str::from_utf8(told.logs.as_slice()).map_err(|_| anyhow!("no text"))?;
    let last = told.last;
    match told.stop_after {
        Some(count) => println!(rt; "serves {address} logs {logs} last {last} until {count}")?,
        None => println!(rt; "serves {address} logs {logs} last {last}")?,
    }
    Ok(())
}

/// Prints of each link of a port how many bytes were read of it, and those that were put on it. `settles`: without what depends on
/// the schedule of threads.
fn show_port(rt: &HostRuntime, place: usize, watched: &Watched, settles: bool) -> Result<()> {
    let alloc = rt.alloc();
    if watched.misused > 0 {
        println!(rt; "port {place} misused")?;
    }
    let port = &watched.port;
    for link in port.opened() {
        let put = if settles {
            settled(alloc, port.input(*link), port.output(*link))?
        } else {
            port.output(*link).to_vec(alloc)?
        };
        let put = shown(alloc, &put, MOST_PUT)?;
        let read = port.input(*link).len();
        let open = if port.is_open(*link) { ", open" } else { "" };
        println!(rt; "link {place}.{link} read {read}, put {put}{open}")?;
    }
    Ok(())
}

/// The records of a log, up to this many.
fn records_of(
    alloc: Global,
    disk: &mut Hostile,
    view: &mut LogView,
    most: u64,
) -> Result<Vec<Record>> {
    let mut records = Vec::new(alloc);
    for _ in 0..most {
        if let Some(r) = view.next(disk)? {
            records.push(r)?;
        }
    }
    Ok(records)
}

/// The data of these records, one after the other.
fn text_of(alloc: Global, records: &[Record]) -> Result<Vec<u8>> {
    let mut text = Vec::new(alloc);
    for r in records {
        if let Record::Io { bytes, .. } = r {
            text.extend_from_slice(bytes.as_slice())?;
        }
    }
    Ok(text)
}

/// What is printed of a log: how many records are read of it, to which point, how often it was cut, whether it has its exit, and
/// what of it was shown. None if there is no such log.
fn log_text(alloc: Global, disk: &mut Hostile, number: LogNo) -> Result<Option<String>> {
    let mut view = match LogView::open(alloc, disk, number) {
        Ok(view) => view,
        Err(ViewFault::Absent) => return Ok(None),
        Err(fault) => return Err(fault.into()),
    };
    let body = view.body();
    let records = records_of(alloc, disk, &mut view, body.count)?;
    let elapsed = records
        .iter()
        .fold(0u64, |sum, r| sum.saturating_add(r.delay()));
    let text = shown(alloc, &text_of(alloc, &records)?, MOST_SHOWN)?;
    let end = if view.exit(disk)?.is_some() {
        "exit"
    } else {
        "open"
    };
    Ok(Some(format!(in alloc;
        "records {} to {elapsed}, cuts {}, {end}, {text}",
        records.len(),
        body.extra
    )?))
}

/// The most logs of a store that are looked for.
const MOST_LOGS: u32 = 100_000;

/// Prints the logs of a store of one lane from the first on, up to one that isn't there.
fn show_logs(rt: &HostRuntime, disk: &mut Hostile) -> Result<()> {
    for n in 1..MOST_LOGS {
        let number = LogNo::new(n).ok_or(anyhow!("a number"))?;
        match log_text(rt.alloc(), disk, number)? {
            Some(text) => println!(rt; "log {n} {text}")?,
            None => return Ok(()),
        }
    }
    Ok(())
}

/// The most logs that a lane's store is looked through for, where there are several.
const MOST_OF_LANE: u32 = 16;

/// The logs of one of several lanes, those that are there.
fn show_lane(rt: &HostRuntime, disk: &mut Hostile) -> Result<()> {
    for n in 1..MOST_OF_LANE {
        let number = LogNo::new(n).ok_or(anyhow!("a number"))?;
        if let Some(text) = log_text(rt.alloc(), disk, number)? {
            println!(rt; "log {n} {text}")?;
        }
    }
    Ok(())
}

/// Prints how a run ended.
fn show_status(rt: &HostRuntime, status: Status) -> Result<()> {
    let text = status.text(rt.alloc())?;
    let text = str::from_utf8(text.as_slice()).map_err(|_| anyhow!("no text"))?;
    println!(rt; "status {} {text}", status.number())?;
    Ok(())
}

/// Prints what a run on one thread put and kept, how it ended, and what the store holds.
pub fn show_alone(rt: &HostRuntime, left: &mut Left) -> Result<()> {
    show_port(rt, 0, &left.port, false)?;
    show_jobs(rt, &mut left.tape)?;
    show_status(rt, left.status)?;
    show_logs(rt, &mut left.disk)
}

/// Prints what a run on threads told, put and kept, how it ended, and what the store holds, as far as it is the same for each schedule.
pub fn show_all(rt: &HostRuntime, out: &mut MemOutside, status: Status) -> Result<()> {
    for told in &out.notices.told {
        show_told(rt, told)?;
    }
    let mut place = 0usize;
    for port in &out.ports {
        show_port(rt, place, port, true)?;
        place = place.saturating_add(1);
    }
    let mut jobs = mem::replace(&mut out.tape, Jobs::new(rt.alloc()));
    for bay in &mut out.others {
        jobs.add_all(mem::replace(&mut bay.tape, Jobs::new(rt.alloc())))?;
    }
    jobs.sort()?;
    show_jobs(rt, &mut jobs)?;
    show_status(rt, status)?;
    show_lane(rt, &mut out.disk)?;
    for bay in &mut out.others {
        show_lane(rt, &mut bay.disk)?;
    }
    Ok(())
}
