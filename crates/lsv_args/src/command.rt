ghost use Rattle.std.specs.Prelude.{IsTrue};
ghost use Rattle.std.specs.Str.{is_utf8};

use lsv_base::Bytes;
use thiserror::Error;

/// What each command is told. Its type keeps that its text is UTF-8.
#[derive(Debug, Drop)]
pub struct Opts {
    /// The path of the settings file.
    pub conf: Bytes,
    /// How many lanes there are.
    pub lanes: u32,
    /// How many workers there are.
    pub workers: u32,
    /// After how many connections the server stops, if it does.
    pub stop_after: Option<u32>,
    pub ghost conf_is_text: { IsTrue (is_utf8 conf) },
}

/// What the program is to do.
#[derive(Debug, Drop)]
pub enum Command {
    /// One connection, over the standard input and output.
    Once(Opts),
    /// Many connections, over a listening socket.
    Serve(Opts),
    /// Sends stored logs to another server.
    Relay(Opts),
    /// Reads the settings, and no more.
    Check(Opts),
    /// This many generated connections.
    Load(Opts, u32),
}

/// Why words were not read.
#[derive(Clone, Copy, Debug, Error, PartialEq, Eq)]
pub enum ArgFault {
    #[error("usage")]
    Usage,
    #[error("out of memory")]
    NoMem,
}
