// The standard descriptors.
use std::fs::OpenOptions;
use std::os::fd::AsRawFd;
use std::{io, mem};

/// The standard descriptors have the numbers below this one.
const FIRST_OTHER: i32 = 3;

/// Opens on /dev/null each of the standard descriptors that is closed, so that no file of the store has its number: what
/// is printed would go into that file. To be called before any other file is opened.
pub fn open_standard(rt: &HostRuntime) -> io::Result<()> {
    for _ in 0..FIRST_OTHER {
        let null = OpenOptions::new()
            .read(true)
            .write(true)
            .open(rt, "/dev/null")?;
        // The system gives the lowest number that is free.
        if null.as_raw_fd() >= FIRST_OTHER {
            break;
        }
        mem::forget(null);
    }
    Ok(())
}
