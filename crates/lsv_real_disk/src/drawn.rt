// Whether each lane's number file is as new as the lane's logs: a number that it doesn't cover would be drawn again, for another log.
ghost use Rattle.std.specs.Prelude.{◌≡◌};
ghost use Rattle.lsv_base.specs.LogNo.{is_digit};
ghost use Rattle.lsv_real_disk.specs.Drawn.{judged, lane_of, is_far, folder_name_in};

use crate::look::no_store_in;
use crate::path::Places;
use crate::read_only::ReadOnlyDisk;
use lsv_base::LogNo;
use lsv_seq::{SeqFault, last_drawn};
use std::alloc::{AllocError, Global};
use std::io::ErrorKind;
use std::{fs, io};

/// A store has at most this many lanes, each with a number file of its own.
const MOST_LANES: u32 = 8;

/// A last number that is more than this above the newest log is said to be far from it.
const FAR: u32 = 1_000_000;

/// The greatest two digits of a number.
const GREATEST: FolderName = [b'Z', b'Z'];

/// A log that a number file doesn't cover.
#[derive(Clone, Copy, Debug, PartialEq, Eq)]
pub enum Uncovered {
    /// The number file has no entry, and there are logs of its numbers.
    NoLast,
    /// The folder of a log exists whose number is above the last one that was drawn.
    Above { last: u32, log: u32 },
}

/// What is wrong with a number file.
#[derive(Clone, Copy, Debug, PartialEq, Eq)]
pub enum Wrong {
    Uncovered(Uncovered),
    /// Its last entry is none of its lane, or one of more than eight lanes.
    Damaged,
    /// It is of a store of another count of lanes than the first number file that has an entry.
    Lanes { says: u32, first: u32 },
}

/// What is wrong with the number file of a lane.
#[derive(Clone, Copy, Debug, PartialEq, Eq)]
pub struct WrongNumbers {
    pub lane: u32,
    pub why: Wrong,
}

/// A lane whose last number is far above the newest log of the store.
#[derive(Clone, Copy, Debug, PartialEq, Eq)]
pub struct FarNumbers {
    pub lane: u32,
    pub last: u32,
    /// None if there is no log.
    pub newest: Option<u32>,
}

/// What was found of the number files of a store, beside its logs.
#[derive(Drop)]
pub struct NumbersLook {
    /// How many lanes the store has. None if no number file says it.
    pub lanes: Option<u32>,
    /// In the order of lanes. A store with one of these isn't opened.
    pub wrong: Vec<WrongNumbers>,
    pub far: Vec<FarNumbers>,
    /// The greatest number of a log whose folder exists.
    pub newest: Option<u32>,
}

/// What a number file says.
#[derive(Clone, Copy, PartialEq, Eq)]
enum Told {
    /// It is absent, or has no entry.
    Nothing,
    /// Its last entry isn't one.
    Damaged,
    /// The last number that was drawn, 0 if none was, and how many lanes there are.
    Last { last: u32, lanes: u32 },
}

/// The log that a number file doesn't cover, if there is one, by the last number that it says and the greatest log of its numbers.
pub fn judge(last: Option<u32>, greatest: Option<u32>) -> Option<Uncovered>
    ensures { result ≡ judged last greatest }
{
    match (last, greatest) {
        (_, None) => None,
        (None, Some(_)) => Some(Uncovered::NoLast),
        (Some(last), Some(log)) if log > last => Some(Uncovered::Above { last, log }),
        _ => None,
    }
}

/// The lane that draws a number, if there are this many lanes.
pub fn lane_of(log: u32, lanes: u32) -> u32
    ensures { result ≡ lane_of log lanes }
{
    if lanes == 0 {
        0
    } else {
        log.saturating_sub(1) % lanes
    }
}

/// Whether a last number is far above the newest log.
pub fn is_far(last: u32, newest: u32) -> bool
    ensures { result ≡ is_far last newest }
{
    last.saturating_sub(newest) > FAR
}

/// Looks at the number files of a store that is to be opened with this many lanes. Nothing is changed. A crash leaves none that is
/// wrong: a number is on the disk before the folder of its log is made.
pub fn look_at_numbers(
    rt: HostRuntime,
    program: &'static str,
    places: &Places,
    lanes: u32,
) -> io::Result<NumbersLook> {
    if no_store_in(&rt, places.dir.as_str())?.is_some() {
        // a new store, with neither numbers nor logs
        return Ok(NumbersLook {
            lanes: None,
            wrong: Vec::new(rt.alloc()),
            far: Vec::new(rt.alloc()),
            newest: None,
        });
    }
    compare(rt, program, places, lanes)
}

/// The same for who reads the store beside a server, which may draw numbers meanwhile.
pub fn numbers_in(rt: HostRuntime, program: &'static str, dir: &str) -> io::Result<NumbersLook> {
    compare(rt, program, &Places::new(rt.alloc(), dir, "")?, 1)
}

/// Compares the folders of logs with the number files. Of `lanes` lanes is the store if no number file says how many. If a log seems
/// not to be covered, the number files are read again: a number that was drawn since covers more.
fn compare(
    rt: HostRuntime,
    program: &'static str,
    places: &Places,
    lanes: u32,
) -> io::Result<NumbersLook> {
    let alloc = rt.alloc();
    let told = read_numbers(rt, program, places)?;
    let says = lanes_in(&told);
    let mut seek = Seek::new(alloc, told, says.unwrap_or(lanes).min(MOST_LANES))?;
    seek.walk(&rt, places.dir.as_str())?;
    if seek.has_found() {
        seek.told = read_numbers(rt, program, places)?;
    }
    Ok(NumbersLook {
        lanes: says,
        wrong: seek.wrong(alloc)?,
        far: seek.far(alloc)?,
        newest: seek.newest,
    })
}

/// Reads the number files of all lanes, those of an older store too.
fn read_numbers(rt: HostRuntime, program: &'static str, places: &Places) -> io::Result<Vec<Told>> {
    let mut disk = ReadOnlyDisk::at(rt, program, places)?;
    let mut told = Vec::new(rt.alloc());
    for lane in 0..MOST_LANES {
        told.push(match last_drawn(&mut disk, lane) {
            Ok(Some((last, lanes))) => Told::Last { last, lanes },
            Ok(None) => Told::Nothing,
            Err(SeqFault::Disk) => return Err(ErrorKind::Other.into()),
            Err(_) => Told::Damaged,
        })?;
    }
    Ok(told)
}

/// How many lanes the first number file says that has an entry.
fn lanes_in(told: &[Told]) -> Option<u32> {
    for one in told {
        if let Told::Last { lanes, .. } = one {
            return Some(*lanes);
        }
    }
    None
}

/// The search for the greatest log of each lane that the lane's number file doesn't cover.
#[derive(Drop)]
struct Seek {
    told: Vec<Told>,
    lanes: u32,
    /// Of each lane the greatest log above its last number, or its greatest log if its number file has no entry.
    found: Vec<Option<u32>>,
    /// The greatest log of all.
    newest: Option<u32>,
}

impl Seek {
    /// Nothing was found yet.
    fn new(alloc: Global, told: Vec<Told>, lanes: u32) -> Result<Self, AllocError> {
        let mut found = Vec::new(alloc);
        for lane in 0..lanes {
            let _ = lane;
            found.push(None)?;
        }
        Ok(Seek {
            told,
            lanes,
            found,
            newest: None,
        })
    }

    /// What the number file of a lane says.
    fn told_by(&self, lane: u32) -> Told {
        match self.told.get(lane as usize) {
            Some(told) => *told,
            None => Told::Nothing,
        }
    }

    /// The log that was found of a lane.
    fn found_of(&self, lane: u32) -> Option<u32> {
        match self.found.get(lane as usize) {
            Some(found) => *found,
            None => None,
        }
    }

    /// Whether a log of a lane that wasn't looked at may be found at this number or below it.
    fn seeks(&self, lane: u32, log: u32) -> bool {
        self.found_of(lane).is_none()
            && match self.told_by(lane) {
                Told::Nothing => true,
                Told::Damaged => false,
                Told::Last { last, .. } => log > last,
            }
    }

    /// Whether a log may be found at this number or below it.
    fn seeks_to(&self, log: u32) -> bool {
        if self.newest.is_none() {
            return true;
        }
        for lane in 0..self.lanes {
            if self.seeks(lane, log) {
                return true;
            }
        }
        false
    }

    /// Whether a log was found that its number file didn't cover.
    fn has_found(&self) -> bool {
        self.found.iter().any(|found| found.is_some())
    }

    /// The folder of a log exists, and none of a greater number that was asked for.
    fn note(&mut self, log: u32) {
        if self.newest.is_none() {
            self.newest = Some(log);
        }
        let lane = lane_of(log, self.lanes);
        if self.seeks(lane, log)
            && let Some(found) = self.found.get_mut(lane as usize)
        {
            *found = Some(log);
        }
    }

    /// Goes through the folders of logs, from the greatest names of each level down, as far as a log may be found.
    fn walk(&mut self, rt: &HostRuntime, dir: &str) -> io::Result<()> {
        for high in names_in(rt, dir)?.iter() {
            if !self.seeks_to(greatest_in(*high, GREATEST)) {
                break;
            }
            let upper = below(rt.alloc(), dir, *high)?;
            self.walk_upper(rt, upper.as_str(), *high)?;
        }
        Ok(())
    }

    /// The same in a folder of the first level.
    fn walk_upper(&mut self, rt: &HostRuntime, upper: &str, high: FolderName) -> io::Result<()> {
        for middle in names_in(rt, upper)?.iter() {
            if !self.seeks_to(greatest_in(high, *middle)) {
                break;
            }
            let lower = below(rt.alloc(), upper, *middle)?;
            self.walk_lower(rt, lower.as_str(), high, *middle)?;
        }
        Ok(())
    }

    /// The same in a folder of the second level. Only of a log that is asked for it is looked whether its folder is one.
    fn walk_lower(
        &mut self,
        rt: &HostRuntime,
        lower: &str,
        high: FolderName,
        middle: FolderName,
    ) -> io::Result<()> {
        for low in names_in(rt, lower)?.iter() {
            let Some(log) = number_of(high, middle, *low) else {
                continue;
            };
            if !self.seeks_to(log) {
                break;
            }
            if self.newest.is_some() && !self.seeks(lane_of(log, self.lanes), log) {
                continue;
            }
            let folder = below(rt.alloc(), lower, *low)?;
            if fs::metadata(rt, folder.as_str())?.is_dir() {
                self.note(log);
            }
        }
        Ok(())
    }

    /// What is wrong with the number files of the lanes.
    fn wrong(&self, alloc: Global) -> Result<Vec<WrongNumbers>, AllocError> {
        let mut wrong = Vec::new(alloc);
        for lane in 0..self.lanes {
            if let Some(why) = self.wrong_of(lane) {
                wrong.push(WrongNumbers { lane, why })?;
            }
        }
        Ok(wrong)
    }

    /// What is wrong with the number file of a lane.
    fn wrong_of(&self, lane: u32) -> Option<Wrong> {
        let last = match self.told_by(lane) {
            Told::Damaged => return Some(Wrong::Damaged),
            Told::Last { lanes, .. } if lanes != self.lanes => {
                return Some(Wrong::Lanes {
                    says: lanes,
                    first: self.lanes,
                });
            }
            Told::Last { last, .. } => Some(last),
            Told::Nothing => None,
        };
        match judge(last, self.found_of(lane)) {
            Some(uncovered) => Some(Wrong::Uncovered(uncovered)),
            None => None,
        }
    }

    /// The lanes whose last number is far above the newest log.
    fn far(&self, alloc: Global) -> Result<Vec<FarNumbers>, AllocError> {
        let mut far = Vec::new(alloc);
        let newest = self.newest;
        for lane in 0..self.lanes {
            if let Told::Last { last, .. } = self.told_by(lane)
                && is_far(last, newest.unwrap_or(0))
            {
                far.push(FarNumbers { lane, last, newest })?;
            }
        }
        Ok(far)
    }
}

/// The greatest number of a log whose folder stands below one of these names.
fn greatest_in(high: FolderName, middle: FolderName) -> u32 {
    number_of(high, middle, GREATEST).unwrap_or(u32::MAX)
}

/// The name of a folder of logs: two digits in base 36.
type FolderName = [u8; 2];

/// The folder's name that a text is, if it is one.
pub fn folder_name(text: &[u8]) -> Option<FolderName>
    ensures { result ≡ folder_name_in text.now }
{
    match text {
        [a, b] if is_digit(*a) && is_digit(*b) => Some([*a, *b]),
        _ => None,
    }
}

/// Whether a byte is a digit in base 36, as folders have them.
pub fn is_digit(byte: u8) -> bool
    ensures { result ≡ is_digit byte }
{
    matches!(byte, b'0'..=b'9' | b'A'..=b'Z')
}

/// The number of the log whose folder has these names on its way.
fn number_of(high: FolderName, middle: FolderName, low: FolderName) -> Option<u32> {
    let [a, b] = high;
    let [c, d] = middle;
    let [e, f] = low;
    Some(LogNo::read(&[a, b, c, d, e, f])?.get())
}

/// The path of a folder of logs in another.
fn below(alloc: Global, folder: &str, name: FolderName) -> Result<String, AllocError> {
    let [a, b] = name;
    let (a, b) = (a as char, b as char);
    format!(in alloc; "{folder}/{a}{b}")
}

/// The names of two digits in a folder, the greatest first. There are none in what is no folder.
fn names_in(rt: &HostRuntime, folder: &str) -> io::Result<Vec<FolderName>> {
    let mut names = Vec::new(rt.alloc());
    let entries = match fs::read_dir(rt, folder) {
        Ok(entries) => entries,
        Err(e) if is_no_folder(&e) => return Ok(names),
        Err(e) => return Err(e),
    };
    for entry in entries {
        match entry {
            Ok(entry) => {
                if let Some(name) = folder_name(entry.file_name().as_bytes()) {
                    names.push(name)?;
                }
            }
            Err(e) if e.kind() == ErrorKind::InvalidFilename => {}
            Err(e) => return Err(e),
        }
    }
    names.sort_unstable();
    names.reverse();
    Ok(names)
}

/// Whether an error says that there is no folder of a name.
fn is_no_folder(e: &io::Error) -> bool {
    matches!(e.kind(), ErrorKind::NotFound | ErrorKind::NotADirectory)
}
