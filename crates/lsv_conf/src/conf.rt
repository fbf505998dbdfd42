ghost use Rattle.std.specs.Prelude.{IsTrue, true};
ghost use Rattle.std.specs.List.{list_all};
ghost use Rattle.std.specs.Option.{option_map_or};
ghost use Rattle.std.specs.Str.{is_utf8};

use crate::refused::Refusals;
use lsv_base::{Bytes, List};
use lsv_event::Kind;
use thiserror::Error;

/// A key that was passed over, since this server doesn't know it.
#[derive(Debug, Drop)]
pub struct Note {
    /// The number of its line, counted from 1; 2^32 - 1 where it is greater.
    pub line: u32,
    /// The key as it is written.
    pub key: Bytes,
}

/// Why a settings file was not read.
#[derive(Debug, Drop, Error)]
pub enum ConfFault {
    /// Lines are refused.
    #[error("settings lines are refused")]
    Refused(Refusals),
    #[error("out of memory")]
    NoMem,
}

/// The settings. Its type keeps that each text in it is UTF-8.
#[derive(Debug, Drop)]
pub struct Conf {
    /// `host:port` to listen at.
    pub listen: Bytes,
    /// `host:port` of the server that finished logs are sent to, if they are.
    pub relay_host: Option<Bytes>,
    /// Whether logs are stored before they are sent.
    pub store_first: bool,
    /// The folder of the logs.
    pub iolog_dir: Bytes,
    /// Whether passwords that are typed are stored as they are.
    pub log_passwords: bool,
    /// The form of event lines.
    pub format: Kind,
    /// Whether exits have event lines.
    pub log_exit: bool,
    /// The file of the event lines.
    pub path: Bytes,
    /// The keys that were passed over, in the order of their lines.
    pub notes: List<Note>,
    /// Texts that ask for a password.
    pub prompts: List<Bytes>,
    pub ghost listen_is_text: { IsTrue (is_utf8 listen) },
    pub ghost relay_host_is_text: { IsTrue (option_map_or is_utf8 relay_host true) },
    pub ghost iolog_dir_is_text: { IsTrue (is_utf8 iolog_dir) },
    pub ghost path_is_text: { IsTrue (is_utf8 path) },
    pub ghost notes_are_text: { IsTrue (list_all (λ note. is_utf8 note.key) notes) },
    pub ghost prompts_are_text: { IsTrue (list_all is_utf8 prompts) },
}
