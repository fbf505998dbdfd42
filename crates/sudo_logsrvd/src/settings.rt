//! The settings file, which is read before the run, and the store that it names, which is opened before the run.

ghost use Rattle.std.specs.Prelude.{◌≡◌, None};

use crate::told::ToldTexts;
use lsv_args::{ArgFault, Command, Opts};
use lsv_base::{Bytes, List, TextFault, Texts};
use lsv_conf::{Conf, read_conf};
use lsv_folders::Folders;
use lsv_real::FileTexts;
use lsv_real_disk::FileDisk;
use lsv_serve::{Status, command_of};
use std::alloc::Global;
use std::io::ErrorKind;
use std::sync::Wait;
use std::{fs, str};

/// A settings file that was read before the run asks for it.
#[derive(Drop)]
struct ReadBefore {
    path: String,
    found: Option<Bytes>,
}

/// Settings files as they are. One that was read before isn't read again.
#[derive(Drop)]
pub struct Settings {
    pub told: ToldTexts<FileTexts>,
    read: Option<ReadBefore>,
}

impl Settings {
    /// None was read yet. Faults are reported under the program's name.
    pub fn new(rt: HostRuntime, program: &'static str) -> Self {
        Settings {
            told: ToldTexts {
                rt,
                files: FileTexts::new(rt, program),
                conf: None,
            },
            read: None,
        }
    }

    /// Reads the settings file at a path.
    fn read(&mut self, alloc: Global, path: &str) -> Result<(), TextFault> {
        let found = match self.told.text(alloc, path) {
            Ok(found) => found,
            Err(fault) => return Err(fault),
        };
        match String::from_str(alloc, path) {
            Ok(path) => {
                self.read = Some(ReadBefore { path, found });
                Ok(())
            }
            Err(_) => Err(TextFault::NoMem),
        }
    }
}

impl Texts for Settings {
    ghost tells = { ⊥ };

    ghost texts = { λ _ path. None };

    ghost faults = { λ t. ⟦<FileTexts as Texts>⟧.faults t.told.files };

    fn text(&mut self, alloc: Global, path: &str) -> Result<Option<Bytes>, TextFault> {
        let Some(before) = self.read.take() else {
            return self.told.text(alloc, path);
        };
        let ReadBefore { path: read, found } = before;
        if read.as_str() == path {
            return Ok(found);
        }
        self.told.text(alloc, path)
    }
}

/// Reads the settings file that the words name. Words that ask for nothing name none. The status if the file can't be read.
fn read_named(rt: HostRuntime, settings: &mut Settings, words: &List<Bytes>) -> Result<(), Status> {
    let alloc = rt.alloc();
    let command = match command_of(alloc, words) {
        Ok(command) => command,
        Err(ArgFault::Usage) => return Ok(()),
        Err(ArgFault::NoMem) => return Err(Status::NoMem),
    };
    let opts = options_of(command);
    match settings.read(alloc, text_of(&opts.conf)) {
        Ok(()) => Ok(()),
        Err(TextFault::Failed) => Err(Status::Conf(0)),
        Err(TextFault::NoMem) => Err(Status::NoMem),
    }
}

/// Reads the settings file that the words name, and opens the store that it names, for this many lanes. Of a file that is refused
/// nothing is opened: the run says so. The status if the file can't be read.
pub fn open_store<W: Wait + Copy>(
    rt: HostRuntime,
    settings: &mut Settings,
    words: &List<Bytes>,
    disk: &mut FileDisk<W>,
    lanes: u32,
) -> Result<(), Status> {
    read_named(rt, settings, words)?;
    if let Some(conf) = &settings.told.conf {
        disk.open_store(text_of(&conf.iolog_dir), text_of(&conf.path), lanes);
    }
    Ok(())
}

/// Reads the settings file that the words name, and gives the folders of the store that it names. The status if it can't be read.
pub fn folders_of(
    rt: HostRuntime,
    settings: &mut Settings,
    words: &List<Bytes>,
) -> Result<Option<Folders>, Status> {
    read_named(rt, settings, words)?;
    let Some(conf) = &settings.told.conf else {
        return Ok(None);
    };
    match String::from_str(rt.alloc(), text_of(&conf.iolog_dir)) {
        Ok(dir) => Ok(Some(Folders::new(rt, dir))),
        Err(_) => Err(Status::NoMem),
    }
}

/// Says that the settings file of a `check` doesn't exist. `serve` would take the defaults, which nobody means who names a file.
/// The status for that.
pub fn check_file(rt: &HostRuntime, words: &List<Bytes>) -> Result<(), Status> {
    let opts = match command_of(rt.alloc(), words) {
        Ok(Command::Check(opts)) => opts,
        Ok(_) | Err(ArgFault::Usage) => return Ok(()),
        Err(ArgFault::NoMem) => return Err(Status::NoMem),
    };
    let path = text_of(&opts.conf);
    match fs::metadata(rt, path) {
        Err(e) if e.kind() == ErrorKind::NotFound => {
            let _ = eprintln!(rt;
                "sudo_logsrvd: {path}: no such file, so `serve` would take the defaults: listen_address is *:30343 (every address), iolog_dir is /var/log/sudo-io, path is /var/log/sudo.log: `settings line 0` stands for that"
            );
            Err(Status::Conf(0))
        }
        _ => Ok(()),
    }
}

/// Says that the server would relay its logs to itself, and store each again and again. The status for that.
pub fn check_ring(rt: &HostRuntime, words: &List<Bytes>) -> Result<(), Status> {
    let command = match command_of(rt.alloc(), words) {
        Ok(command) => command,
        Err(ArgFault::Usage) => return Ok(()),
        Err(ArgFault::NoMem) => return Err(Status::NoMem),
    };
    let opts = options_of(command);
    let path = text_of(&opts.conf);
    let Some(conf) = conf_at(rt, path) else {
        return Ok(());
    };
    if !is_ring(&conf) {
        return Ok(());
    }
    let _ = eprintln!(rt;
        "sudo_logsrvd: {path}: relay_host is the listen_address of this file, so each log would be relayed to this server and stored again: name the other server: `settings line 0` stands for that"
    );
    Err(Status::Conf(0))
}

/// No settings file has more bytes.
const MOST_BYTES: u64 = 1 << 20;

/// The settings of a file, if it is one and they are taken. What is wrong with it is said by who reads it for the run.
fn conf_at(rt: &HostRuntime, path: &str) -> Option<Conf> {
    let found = fs::metadata(rt, path).ok()?;
    if !found.is_file() || found.len() > MOST_BYTES {
        return None;
    }
    let bytes = fs::read(rt, path).ok()?;
    read_conf(rt.alloc(), &bytes).ok()
}

/// Whether finished logs go to the address at which the server listens.
fn is_ring(conf: &Conf) -> bool {
    match &conf.relay_host {
        Some(host) => conf.store_first && host.as_slice() == conf.listen.as_slice(),
        None => false,
    }
}

/// The options of a command.
fn options_of(command: Command) -> Opts {
    match command {
        Command::Once(opts) => opts,
        Command::Serve(opts) => opts,
        Command::Relay(opts) => opts,
        Command::Check(opts) => opts,
        Command::Load(opts, _) => opts,
    }
}

/// The text of bytes that are UTF-8.
pub fn text_of(bytes: &Bytes) -> &str {
    str::from_utf8(bytes.as_slice()).unwrap_or("")
}
