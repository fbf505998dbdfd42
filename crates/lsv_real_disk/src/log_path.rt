// The paths of the files of a log, from where the process stands.
use crate::path::Places;
use std::alloc::Global;
use std::io::ErrorKind;
use std::{env, io};

/// This many logs have their folders in one folder, DIR/ab/cd, and are neighbours there.
const NEIGHBOURS: u32 = 36 * 36;

/// The path of a file of the log that was asked for last. Where it may, the process moves into the folder of that log's
/// neighbours: the system then looks up two names for a file, in place of each one of the whole path.
#[derive(Drop)]
pub struct LogPath {
    rt: HostRuntime,
    /// Whether no path of the store begins where the process stands.
    may_move: bool,
    /// The neighbours in whose folder the process stands, by what their numbers have in common.
    stands: Option<u32>,
    number: Option<u32>,
    folder: String,
    path: String,
}

impl LogPath {
    /// No log was asked for. The places are those of the store.
    pub fn new(rt: HostRuntime, alloc: Global, places: &Places) -> Self {
        LogPath {
            rt,
            may_move: is_fixed(places),
            stands: None,
            number: None,
            folder: String::new(alloc),
            path: String::new(alloc),
        }
    }

    /// The path of the file of this name of a log.
    pub fn path_of(&mut self, places: &Places, n: u32, name: &str) -> io::Result<&str> {
        if self.number != Some(n) {
            self.number = None;
            let Some(folder) = places.log_folder(self.rt.alloc(), n)? else {
                return Err(ErrorKind::InvalidInput.into());
            };
            self.folder = folder;
            self.shorten(n / NEIGHBOURS)?;
            self.number = Some(n);
        }
        self.path.clear();
        self.path.push_str(self.folder.as_str())?;
        self.path.push('/')?;
        self.path.push_str(name)?;
        Ok(self.path.as_str())
    }

    /// Moves to the neighbours of the log whose folder this is, where it may, and makes the folder's path one from there.
    fn shorten(&mut self, neighbours: u32) -> io::Result<()> {
        let Some((above, name)) = self.folder.as_str().rsplit_once('/') else {
            return Ok(());
        };
        if self.stands != Some(neighbours) {
            if !self.may_move || env::set_current_dir(&self.rt, above).is_err() {
                return Ok(());
            }
            self.stands = Some(neighbours);
        }
        self.folder = String::from_str(self.rt.alloc(), name)?;
        Ok(())
    }
}

/// Whether the places are the same wherever the process stands.
fn is_fixed(places: &Places) -> bool {
    let events = places.events.as_str();
    places.dir.as_str().starts_with('/') && (events.is_empty() || events.starts_with('/'))
}
