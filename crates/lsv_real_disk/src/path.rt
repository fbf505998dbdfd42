// Where the files of the store stand.
ghost use Rattle.std.specs.Prelude.{◌≡◌, ◌&&◌, ◌++◌, IfOk, IfSome, is_some, option_map, codes, string_bytes};
ghost use Rattle.lsv_real_disk.specs.Places.{has_place, is_log_number, lane_path, events_path, log_name, relay_name, IsFolderOf, IsNamed, Stands};

use lsv_base::LogNo;
use lsv_disk::{FileId, Owner, Part};
use std::alloc::{AllocError, Global};

/// The places of the store: the folder of the logs, and the path of the event log.
#[derive(Drop)]
pub struct Places {
    pub dir: String,
    pub events: String,
}

/// The folder of a file and its name in it. A log of the digits abcdef stands in DIR/ab/cd/ef.
#[derive(Drop)]
pub struct Place {
    pub folder: String,
    pub path: String,
}

impl Places {
    /// Copies of both.
    pub fn new(alloc: Global, dir: &str, events: &str) -> Result<Self, AllocError>
        ensures dir { IfOk result (λ places. string_bytes places.dir ≡ dir.now) }
        ensures events { IfOk result (λ places. string_bytes places.events ≡ events.now) }
    {
        Ok(Places {
            dir: String::from_str(alloc, dir)?,
            events: String::from_str(alloc, events)?,
        })
    }

    /// None where the store has no such file: its owner has none of that part, or its number is that of no log.
    pub fn place_of(&self, alloc: Global, f: FileId) -> Result<Option<Place>, AllocError>
        ensures has { IfOk result (λ place. is_some place ≡ has_place f) }
        ensures stands { IfOk result (λ place. IfSome place (λ p. Stands (string_bytes self.now.dir) (string_bytes self.now.events) f (string_bytes p.folder) (string_bytes p.path))) }
    {
        match (f.owner, f.part) {
            (Owner::Log(n), part) => self.in_log(alloc, n, log_name(part)),
            (Owner::Relay(n), part) => self.in_log(alloc, n, relay_name(part)),
            (Owner::Numbers(lane), Part::Commit) => {
                Ok(Some(numbers_place(alloc, self.dir.as_str(), "seq", lane)?))
            }
            (Owner::Numbers(lane), Part::Slots) => {
                Ok(Some(numbers_place(alloc, self.dir.as_str(), "seq2", lane)?))
            }
            (Owner::Events(lane), Part::Lines | Part::Commit | Part::Slots) => {
                let text = lane_path(alloc, self.events.as_str(), lane)?;
                Ok(Some(events_place(alloc, text, f.part)?))
            }
            _ => Ok(None),
        }
    }

    fn in_log(&self, alloc: Global, n: u32, name: Option<&str>) -> Result<Option<Place>, AllocError>
        ensures has { IfOk result (λ place. is_some place ≡ (is_log_number n && is_some name.entry)) }
        ensures named { IfOk result (λ place. IfSome place (λ p. IsNamed (string_bytes p.folder) (option_map (λ it. it.now) name.entry) (string_bytes p.path))) }
    {
        let Some(folder) = self.log_folder(alloc, n)? else {
            return Ok(None);
        };
        let Some(name) = name else {
            return Ok(None);
        };
        let path = joined(alloc, folder.as_str(), name)?;
        Ok(Some(Place { folder, path }))
    }

    /// The folder of a log, None where the number is that of no log.
    pub fn log_folder(&self, alloc: Global, n: u32) -> Result<Option<String>, AllocError>
        ensures { IfOk result (λ folder. is_some folder ≡ is_log_number n) }
    {
        let Some(number) = LogNo::new(n) else {
            return Ok(None);
        };
        let [a, b, c, d, e, f] = number.digits();
        let dir = self.dir.as_str();
        let (a, b, c) = (a as char, b as char, c as char);
        let (d, e, f) = (d as char, e as char, f as char);
        let folder = format!(in alloc; "{dir}/{a}{b}/{c}{d}/{e}{f}")?;
        Ok(Some(folder))
    }
}

/// The path of a name in a folder.
pub fn joined(alloc: Global, folder: &str, name: &str) -> Result<String, AllocError>
    ensures { IfOk result (λ path. string_bytes path ≡ folder.now ++ codes "/" ++ name.now) }
{
    let mut path = String::with_capacity(
        alloc,
        folder.len().saturating_add(name.len()).saturating_add(1),
    )?;
    path.push_str(folder)?;
    path.push('/')?;
    path.push_str(name)?;
    Ok(path)
}

/// The name of a file of a log, None where a log has no such file.
pub fn log_name(part: Part) -> Option<&'static str>
    ensures { option_map (λ name. name.now) result ≡ log_name part }
{
    match part {
        Part::Head => Some("log.json"),
        Part::Exit => Some("exit.json"),
        Part::Timing => Some("timing"),
        Part::Stdin => Some("stdin"),
        Part::Stdout => Some("stdout"),
        Part::Stderr => Some("stderr"),
        Part::Ttyin => Some("ttyin"),
        Part::Ttyout => Some("ttyout"),
        Part::Commit => Some("commit"),
        Part::Slots => Some("slots"),
        Part::Lines | Part::Id => None,
    }
}

/// The name of a file that tells of relaying a log, None where there is no such file.
fn relay_name(part: Part) -> Option<&'static str>
    ensures { option_map (λ name. name.now) result ≡ relay_name part }
{
    match part {
        Part::Id => Some("relay"),
        Part::Commit => Some("relay.commit"),
        Part::Slots => Some("relay.slots"),
        _ => None,
    }
}

/// A path, of a lane above 0 with its number after it.
pub fn lane_path(alloc: Global, path: &str, lane: u32) -> Result<String, AllocError>
    ensures { IfOk result (λ text. string_bytes text ≡ lane_path path.now lane) }
{
    if lane == 0 {
        String::from_str(alloc, path)
    } else {
        format!(in alloc; "{path}.{lane}")
    }
}

fn numbers_place(alloc: Global, dir: &str, name: &str, lane: u32) -> Result<Place, AllocError>
    ensures path { IfOk result (λ p. string_bytes p.path ≡ lane_path (dir.now ++ codes "/" ++ name.now) lane) }
    ensures folder { IfOk result (λ p. string_bytes p.folder ≡ dir.now) }
{
    let numbers = format!(in alloc; "{dir}/{name}")?;
    let path = lane_path(alloc, numbers.as_str(), lane)?;
    let folder = String::from_str(alloc, dir)?;
    Ok(Place { folder, path })
}

/// The folder in which the file of a path stands.
pub fn folder_of(path: &str) -> &str
    ensures { IsFolderOf path.now result.now }
{
    match path.rsplit_once('/') {
        Some(("", _)) => "/",
        Some((folder, _)) => folder,
        None => ".",
    }
}

fn events_place(alloc: Global, text: String, part: Part) -> Result<Place, AllocError>
    ensures path { IfOk result (λ p. string_bytes p.path ≡ events_path (string_bytes text) part) }
    ensures folder { IfOk result (λ p. IsFolderOf (string_bytes text) (string_bytes p.folder)) }
{
    let folder = String::from_str(alloc, folder_of(text.as_str()))?;
    let path = match part {
        Part::Commit => format!(in alloc; "{text}.commit")?,
        Part::Slots => format!(in alloc; "{text}.slots")?,
        _ => text,
    };
    Ok(Place { folder, path })
}
