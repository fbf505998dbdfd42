//! How lanes bring the names of their folders to the disk. The folders are a double, and not the system's.

use anyhow::{Result, anyhow};
use lsv_real_disk::{FolderCalls, FolderSync, Placed, SharedFolders};
use std::io::ErrorKind;
use std::sync::Wait;
use std::sync::atomic::{AtomicU64, Ordering};
use std::thread::{Parker, Threads};
use std::{io, thread};

/// The folders of the lanes' logs, which stand in one folder.
const LEAVES: [&str; 3] = ["a/b/0", "a/b/1", "a/b/2"];

/// The folder in which they stand.
const SHARED: &str = "a/b";

/// Prints each folder that is synced. The syncs of one of them fail.
#[derive(Clone, Copy)]
struct Printing<'a> {
    rt: &'a HostRuntime,
    fails: &'a str,
}

impl FolderCalls for Printing<'_> {
    fn sync_folder(&self, folder: &str) -> FolderSync {
        if let Err(e) = print!(self.rt; " {folder}") {
            return FolderSync::Unopened(e);
        }
        if folder == self.fails {
            return FolderSync::Failed(ErrorKind::Other.into());
        }
        FolderSync::Done
    }
}

/// A log's folder that its lane has synced itself, when it has this ticket.
fn placed(folders: &SharedFolders, folder: &'static str, ticket: u64) -> Placed<'static> {
    Placed {
        folder,
        is_new: true,
        ticket,
        files: ticket,
        own_sync: Some(folders.number()),
    }
}

/// The words `new`, `old`, `known` say what the program has done before: nothing, made a log elsewhere in the upper folder, or
/// one in the folder that all share. The next word is the folder whose syncs fail. The steps of lanes follow: `make.0`, by which lane 0
/// makes the shared folder where it isn't there, and its log's, `take.0` its ticket, and `settle.0`. Prints which folders each
/// settling synced, and what came of it.
pub fn show_names<W: Wait>(rt: &HostRuntime, waits: &W, words: &str) -> Result<()> {
    let (age, rest) = words.split_once(' ').ok_or(anyhow!("a folder"))?;
    let (fails, steps) = rest.split_once(' ').ok_or(anyhow!("steps"))?;
    let folders = SharedFolders::new(rt.alloc())?;
    let before = match age {
        "old" => Some("a/x/9"),
        "known" => Some("a/b/9"),
        _ => None,
    };
    print!(rt; "names:")?;
    if let Some(folder) = before {
        let ticket = folders.take_ticket();
        let printing = Printing { rt, fails: "" };
        show_settling(
            rt,
            folders.settle(waits, &printing, &placed(&folders, folder, ticket)),
        )?;
    }
    let mut tickets = [0; 3];
    let mut is_there = age == "known";
    for step in steps.split(' ') {
        let (word, lane) = step.split_once('.').ok_or(anyhow!("a lane"))?;
        let lane = lane.parse::<usize>()?;
        let (Some(folder), Some(ticket)) = (LEAVES.get(lane), tickets.get_mut(lane)) else {
            return Err(anyhow!("a lane"));
        };
        match word {
            "make" => {
                if !is_there {
                    folders.forget(waits, SHARED);
                    is_there = true;
                }
            }
            "take" => *ticket = folders.take_ticket(),
            "settle" => {
                print!(rt; " {lane}:")?;
                let printing = Printing { rt, fails };
                show_settling(
                    rt,
                    folders.settle(waits, &printing, &placed(&folders, folder, *ticket)),
                )?;
            }
            _ => return Err(anyhow!("a step")),
        }
    }
    println!(rt;)?;
    Ok(())
}

/// Prints what came of a settling.
fn show_settling(rt: &HostRuntime, answer: io::Result<()>) -> Result<()> {
    match answer {
        Ok(()) => print!(rt; " ok.")?,
        Err(_) => print!(rt; " fault.")?,
    }
    Ok(())
}

/// Folders whose first sync waits until it is let go.
#[derive(Drop)]
struct Slow<R: Wait + Copy> {
    waits: R,
    fails: bool,
    count: AtomicU64,
    busy: AtomicU64,
    overlaps: AtomicU64,
    begun: Parker,
    let_go: Parker,
}

impl<R: Wait + Copy> Slow<R> {
    /// Nothing was synced yet. The first sync may be one that fails.
    fn new(waits: R, fails: bool) -> Self {
        Slow {
            waits,
            fails,
            count: AtomicU64::new(0),
            busy: AtomicU64::new(0),
            overlaps: AtomicU64::new(0),
            begun: Parker::new(),
            let_go: Parker::new(),
        }
    }
}

impl<R: Wait + Copy> FolderCalls for Slow<R> {
    fn sync_folder(&self, _folder: &str) -> FolderSync {
        if self.busy.swap(1, Ordering::SeqCst) == 1 {
            let _ = self.overlaps.fetch_add(1, Ordering::SeqCst);
        }
        let is_first = self.count.fetch_add(1, Ordering::SeqCst) == 0;
        if is_first {
            self.begun.unpark();
            self.let_go.park(&self.waits);
        }
        self.busy.store(0, Ordering::SeqCst);
        if is_first && self.fails {
            FolderSync::Failed(ErrorKind::Other.into())
        } else {
            FolderSync::Done
        }
    }
}

/// A lane brings the name of its log's folder to the disk.
fn settle<R: Wait + Copy>(
    folders: &SharedFolders,
    slow: &Slow<R>,
    folder: &'static str,
    ticket: u64,
) -> &'static str {
    match folders.settle(&slow.waits, slow, &placed(folders, folder, ticket)) {
        Ok(()) => "ok",
        Err(_) => "fault",
    }
}

/// Two lanes take their tickets while the sync of the first one runs, and settle after each other.
fn later<R: Wait + Copy>(folders: &SharedFolders, slow: &Slow<R>) -> (&'static str, &'static str) {
    slow.begun.park(&slow.waits);
    let second = folders.take_ticket();
    let third = folders.take_ticket();
    slow.let_go.unpark();
    (
        settle(folders, slow, "1", second),
        settle(folders, slow, "2", third),
    )
}

/// A lane makes a sync that may reach the folder, once the sync of the first one has begun. Whether that one still runs then.
fn reach<R: Wait + Copy>(folders: &SharedFolders, slow: &Slow<R>) -> u64 {
    slow.begun.park(&slow.waits);
    slow.let_go.unpark();
    let _reading = folders.reading(&slow.waits);
    slow.busy.load(Ordering::SeqCst)
}

/// Lanes on threads of their own: `cover` and `fail`, where the sync of the first lane succeeds or fails while two more wait,
/// and `reach`, where another lane syncs a new file.
pub fn show_threads<R: Wait + Threads + Copy + Sync>(
    rt: &HostRuntime,
    threads: &R,
    case: &str,
) -> Result<()> {
    let folders = SharedFolders::new(rt.alloc())?;
    let slow = Slow::new(*threads, case == "fail");
    let ticket = folders.take_ticket();
    if case == "reach" {
        let (first, busy) = thread::join(
            threads,
            || settle(&folders, &slow, "0", ticket),
            || reach(&folders, &slow),
        );
        println!(rt; "{first}, {busy} beside it")?;
        return Ok(());
    }
    let (first, (second, third)) = thread::join(
        threads,
        || settle(&folders, &slow, "0", ticket),
        || later(&folders, &slow),
    );
    let count = slow.count.load(Ordering::SeqCst);
    let overlaps = slow.overlaps.load(Ordering::SeqCst);
    println!(rt; "{first}, {second}, {third} by {count} syncs, {overlaps} at once")?;
    Ok(())
}
