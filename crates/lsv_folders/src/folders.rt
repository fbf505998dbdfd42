//! Which logs of a store have a folder.

ghost use Rattle.std.specs.Prelude.{◌≡◌, ◌≤◌};

use std::alloc::Global;
use std::io::ErrorKind;
use std::{fs, io};

/// A folder of logs has at most this many names: two digits in base 36 each.
const NAMES: u32 = 36 * 36;

/// Above the number of each log.
const ABOVE_ALL: u32 = NAMES * NAMES * NAMES;

/// Which names of two digits a folder has, by their values.
#[derive(Drop)]
struct Names {
    /// Which folder this is, by the value of the digits on its path.
    of: u32,
    has: Vec<bool>,
}

/// The folders of a store, as far as they were looked at. A log of the digits abcdef stands in DIR/ab/cd/ef. Each folder is
/// read once, so what others make or remove later isn't seen.
#[derive(Drop)]
pub struct Folders {
    rt: HostRuntime,
    dir: String,
    /// Of DIR, of a folder DIR/ab, and of a folder DIR/ab/cd.
    high: Option<Names>,
    middle: Option<Names>,
    low: Option<Names>,
}

impl Folders {
    /// Those of the store in this folder, of which nothing was looked at.
    pub fn new(rt: HostRuntime, dir: String) -> Self {
        Folders {
            rt,
            dir,
            high: None,
            middle: None,
            low: None,
        }
    }

    /// The first number from this one on whose folder exists, or one above all. If a folder can't be read this is the number
    /// itself: who looks for the log finds the fault.
    pub fn next(&mut self, from: u32) -> u32
        ensures { from ≤ result }
    {
        if from >= ABOVE_ALL {
            return from;
        }
        if let Some(found) = self.near(from) {
            return found.max(from);
        }
        match self.find(from) {
            Ok(found) => found.max(from),
            Err(_) => from,
        }
    }

    /// The first number from this one on whose folder exists, if it stands in the folder that was read last.
    fn near(&self, from: u32) -> Option<u32> {
        let of = from / NAMES;
        let low = first_in(&self.low, of, from % NAMES)?;
        Some(of.saturating_mul(NAMES).saturating_add(low))
    }

    /// The first number from this one on whose folder exists, or one above all.
    fn find(&mut self, from: u32) -> io::Result<u32> {
        load(&self.rt, &mut self.high, self.dir.as_str(), 0)?;
        let mut at = from;
        for _ in 0..NAMES {
            let Some(high) = first_in(&self.high, 0, at / NAMES / NAMES) else {
                break;
            };
            at = at.max(high.saturating_mul(NAMES).saturating_mul(NAMES));
            if let Some(found) = self.find_below(high, at)? {
                return Ok(found);
            }
            at = high
                .saturating_add(1)
                .saturating_mul(NAMES)
                .saturating_mul(NAMES);
            if at >= ABOVE_ALL {
                break;
            }
        }
        Ok(ABOVE_ALL)
    }

    /// The same among the logs of a folder DIR/ab.
    fn find_below(&mut self, high: u32, from: u32) -> io::Result<Option<u32>> {
        let upper = below(self.rt.alloc(), self.dir.as_str(), high)?;
        load(&self.rt, &mut self.middle, upper.as_str(), high)?;
        let mut at = from;
        for _ in 0..NAMES {
            let Some(middle) = first_in(&self.middle, high, at / NAMES % NAMES) else {
                return Ok(None);
            };
            let of = high.saturating_mul(NAMES).saturating_add(middle);
            at = at.max(of.saturating_mul(NAMES));
            let folder = below(self.rt.alloc(), upper.as_str(), middle)?;
            load(&self.rt, &mut self.low, folder.as_str(), of)?;
            if let Some(found) = self.near(at) {
                return Ok(Some(found));
            }
            if middle.saturating_add(1) >= NAMES {
                return Ok(None);
            }
            at = of.saturating_add(1).saturating_mul(NAMES);
        }
        Ok(None)
    }
}

/// The first name from this one on in a folder, if that is the one that was read.
fn first_in(names: &Option<Names>, of: u32, from: u32) -> Option<u32> {
    let Some(names) = names else {
        return None;
    };
    if names.of != of {
        return None;
    }
    for name in from..NAMES {
        if let Some(has) = names.has.get(name as usize)
            && *has
        {
            return Some(name);
        }
    }
    None
}

/// Reads which names a folder has, unless it was read last. There are none in what is no folder.
fn load(rt: &HostRuntime, names: &mut Option<Names>, folder: &str, of: u32) -> io::Result<()> {
    if let Some(known) = names
        && known.of == of
    {
        return Ok(());
    }
    *names = None;
    let mut has = Vec::new(rt.alloc());
    has.resize(NAMES as usize, false)?;
    match fs::read_dir(rt, folder) {
        Ok(entries) => {
            for entry in entries {
                match entry {
                    Ok(entry) => mark(&mut has, entry.file_name().as_bytes()),
                    Err(e) if e.kind() == ErrorKind::InvalidFilename => {}
                    Err(e) => return Err(e),
                }
            }
        }
        Err(e) if e.kind() == ErrorKind::NotFound => {}
        Err(e) if e.kind() == ErrorKind::NotADirectory => {}
        Err(e) => return Err(e),
    }
    *names = Some(Names { of, has });
    Ok(())
}

/// Marks a name, if it is two digits.
fn mark(has: &mut Vec<bool>, name: &[u8]) {
    let [a, b] = name else {
        return;
    };
    let (Some(a), Some(b)) = (digit_of(*a), digit_of(*b)) else {
        return;
    };
    if let Some(place) = has.get_mut(a.saturating_mul(36).saturating_add(b) as usize) {
        *place = true;
    }
}

/// The value of a digit in base 36.
fn digit_of(byte: u8) -> Option<u32> {
    match byte {
        b'0'..=b'9' => Some(u32::from(byte - b'0')),
        b'A'..=b'Z' => Some(u32::from(byte - b'A') + 10),
        _ => None,
    }
}

/// The digit of a value below 36.
fn digit(value: u32) -> char {
    match char::from_digit(value % 36, 36) {
        Some(digit) => digit.to_ascii_uppercase(),
        None => '0',
    }
}

/// The path of a folder whose name has this value, in another.
fn below(alloc: Global, folder: &str, name: u32) -> io::Result<String> {
    let (a, b) = (digit(name / 36), digit(name));
    Ok(format!(in alloc; "{folder}/{a}{b}")?)
}
