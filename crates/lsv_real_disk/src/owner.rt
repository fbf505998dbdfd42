// Whether the user who runs a program owns the store.
use crate::path::{Places, folder_of};
use std::alloc::Global;
use std::io::ErrorKind;
use std::os::unix::fs::MetadataExt;
use std::{fs, io};

/// A log stands this many folders below that of the logs.
const LEVELS: u32 = 3;

/// Another user who owns the store, and who runs the program.
#[derive(Clone, Copy, PartialEq, Eq)]
pub struct OtherOwner {
    pub owner: u32,
    pub runs: u32,
}

/// The other user who owns what has this name, if one does. Nobody owns what doesn't exist.
fn other_owner_of(rt: &HostRuntime, path: &str) -> io::Result<Option<OtherOwner>> {
    let runs = libc::geteuid();
    match fs::metadata(rt, path) {
        Ok(metadata) if metadata.uid() != runs => Ok(Some(OtherOwner {
            owner: metadata.uid(),
            runs,
        })),
        Ok(_) => Ok(None),
        Err(e) if e.kind() == ErrorKind::NotFound => Ok(None),
        Err(e) => Err(e),
    }
}

/// The other user who owns the store, if one does: its number file, or its folder if there is none.
pub fn other_owner(rt: &HostRuntime, alloc: Global, dir: &str) -> io::Result<Option<OtherOwner>> {
    let numbers = format!(in alloc; "{dir}/seq2")?;
    if fs::exists(rt, numbers.as_str())? {
        other_owner_of(rt, numbers.as_str())
    } else {
        other_owner_of(rt, dir)
    }
}

/// Says which user owns the store, or the folder of its newest log, if it isn't the one who runs the program.
pub fn report_owner(rt: &HostRuntime, program: &str, places: &Places, newest: Option<u32>) {
    let dir = places.dir.as_str();
    if let Ok(Some(other)) = other_owner(rt, rt.alloc(), dir) {
        let OtherOwner { owner, runs } = other;
        let _ = eprintln!(rt;
            "{program}: {dir}: warning: user {owner} owns this store, and user {runs} runs this: that user may not read what is made now; run it as user {owner}"
        );
        return;
    }
    if let Some(log) = newest
        && let Ok(Some(folder)) = places.log_folder(rt.alloc(), log)
    {
        report_folder(rt, program, folder.as_str());
    }
}

/// Says which folder on the way to the newest log another user owns, the lowest first.
fn report_folder(rt: &HostRuntime, program: &str, log: &str) {
    let mut folder = log;
    for _ in 0..LEVELS {
        if let Ok(Some(OtherOwner { owner, runs })) = other_owner_of(rt, folder) {
            let _ = eprintln!(rt;
                "{program}: {folder}: warning: user {owner} owns this folder of logs, and user {runs} runs this: let user {runs} own it and all in it (chown -R)"
            );
            return;
        }
        folder = folder_of(folder);
    }
}
