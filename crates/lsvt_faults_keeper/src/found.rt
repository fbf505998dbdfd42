//! What is recovered of a log and of the event log.

use anyhow::Result;
use lsv_base::{Bytes, LogNo};
use lsv_bundle::{Bundle, Shape};
use lsv_disk::{Disk, Owner, Part};
use lsv_info::{Exit, Head};
use lsv_iolog::{LogView, ViewFault};
use lsv_record::Record;
use std::alloc::Global;

/// A log as it is stored.
#[derive(Drop)]
pub struct Found {
    pub head: Head,
    pub records: Vec<Record>,
    pub exit: Option<Exit>,
}

/// What a disk holds of a log: none where it is absent. It is a fault where the log is damaged.
pub fn found_log<D: Disk>(alloc: Global, disk: &mut D, number: LogNo) -> Result<Option<Found>> {
    let mut view = match LogView::open(alloc, disk, number) {
        Ok(view) => view,
        Err(ViewFault::Absent) => return Ok(None),
        Err(fault) => return Err(fault.into()),
    };
    let count = view.body().count;
    let mut records = Vec::new(alloc);
    for _ in 0..=count {
        if let Some(r) = view.next(disk)? {
            records.push(r)?;
        }
    }
    let exit = view.exit(disk)?;
    let head = view.head().copy(alloc)?;
    Ok(Some(Found {
        head,
        records,
        exit,
    }))
}

/// How many bytes are read of an event log at a time.
const PIECE: usize = 256;

/// The committed text of the event log of a lane: none where the log has no entry.
pub fn found_lines<D: Disk>(alloc: Global, disk: &mut D, lane: u32) -> Result<Bytes> {
    let mut text = Bytes::new(alloc);
    let Some(view) = Bundle::view(disk, Owner::Events(lane), Shape::Lines)? else {
        return Ok(text);
    };
    let pieces = view.body().lens[0] / PIECE as u64;
    for i in 0..=pieces {
        let mut piece = [0; PIECE];
        let at = i.saturating_mul(PIECE as u64);
        let count = view.read(disk, Part::Lines, at, &mut piece)?;
        text.add(piece.get(..count).unwrap_or(&[]))?;
    }
    Ok(text)
}
