// The words of the command line.
use lsv_base::{Bytes, List};
use std::env;
use std::io::ErrorKind;

/// Why the words of the command line can't be had.
#[derive(Clone, Copy, PartialEq, Eq, Debug)]
pub enum ArgumentFault {
    NoMem,
    /// One isn't UTF-8.
    NotText,
}

/// The words after the program's name.
pub fn arguments(rt: &HostRuntime) -> Result<List<Bytes>, ArgumentFault> {
    let args = match env::args(rt) {
        Ok(args) => args,
        Err(e) if e.kind() == ErrorKind::OutOfMemory => return Err(ArgumentFault::NoMem),
        Err(_) => return Err(ArgumentFault::NotText),
    };
    let mut words = List::new(rt.alloc());
    for arg in args.skip(1) {
        let Ok(word) = Bytes::of(rt.alloc(), arg.as_bytes()) else {
            return Err(ArgumentFault::NoMem);
        };
        let Ok(()) = words.push(word) else {
            return Err(ArgumentFault::NoMem);
        };
    }
    Ok(words)
}
