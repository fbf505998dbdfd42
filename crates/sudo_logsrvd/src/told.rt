//! The settings file, as the administrator is told of it.

ghost use Rattle.std.specs.Prelude.{◌≡◌};

use crate::keys::tell_passed;
use lsv_base::{Bytes, TextFault, Texts};
use lsv_conf::{Conf, ConfFault, Refusals, Refused, RefusedLine, Values, WrongValue, read_conf};
use std::alloc::Global;
use std::os::unix::fs::PermissionsExt;
use std::{fs, str};

/// This many refused lines are named after the first, so that a file of another kind doesn't fill the journal.
const MOST_MORE: usize = 49;

/// Settings files as they are. Of each that is read it is told on standard error which keys are passed over and which lines
/// are refused, by its path and the line.
#[derive(Drop)]
pub struct ToldTexts<T> {
    pub rt: HostRuntime,
    pub files: T,
    /// What the last settings say, where they were taken.
    pub conf: Option<Conf>,
}

impl<T> ToldTexts<T> {
    /// Says what is passed over or refused of a text, and keeps what it says.
    fn tell(&mut self, alloc: Global, path: &str, text: &[u8])
        ensures { self.new.files ≡ self.old.files }
    {
        match read_conf(alloc, text) {
            Ok(conf) => {
                for note in conf.notes.as_slice() {
                    let line = note.line;
                    if let Ok(key) = str::from_utf8(note.key.as_slice()) {
                        tell_passed(&self.rt, path, line, key);
                    }
                }
                warn_of_number(&self.rt, path, &conf);
                self.conf = Some(conf);
            }
            Err(ConfFault::Refused(refused)) => tell_refused(&self.rt, path, &refused),
            Err(ConfFault::NoMem) => {}
        }
    }
}

impl<T: Texts> Texts for ToldTexts<T> {
    ghost tells = { T.tells };

    ghost texts = { λ t. T.texts t.files };

    ghost faults = { λ t. T.faults t.files };

    fn text(&mut self, alloc: Global, path: &str) -> Result<Option<Bytes>, TextFault> {
        let found = match self.files.text(alloc, path) {
            Ok(found) => found,
            Err(fault) => {
                if fault == TextFault::Failed {
                    let _ = eprintln!(self.rt;
                        "sudo_logsrvd: {path}: the settings file couldn't be read: `settings line 0` stands for that"
                    );
                }
                return Err(fault);
            }
        };
        match &found {
            Some(text) => {
                warn_of_mode(&self.rt, path);
                self.tell(alloc, path, text.as_slice());
            }
            None => {
                let _ = eprintln!(self.rt;
                    "sudo_logsrvd: {path}: warning: no such file, so the defaults count: listen_address is *:30343 (every address), iolog_dir is /var/log/sudo-io, path is /var/log/sudo.log"
                );
                self.conf = read_conf(alloc, b"").ok();
            }
        }
        Ok(found)
    }
}

/// The bit of a mode by which others may write.
const OTHERS_WRITE: u32 = 0o002;

/// Says that everybody may write the settings, where that is so.
fn warn_of_mode(rt: &HostRuntime, path: &str) {
    let Ok(found) = fs::metadata(rt, path) else {
        return;
    };
    if found.is_file() && found.permissions().mode() & OTHERS_WRITE != 0 {
        let _ = eprintln!(rt;
            "sudo_logsrvd: {path}: warning: every user may write this file, and so say where the logs go: chmod o-w {path}"
        );
    }
}

/// Says that a host to listen at is a number, which the system takes for an address.
fn warn_of_number(rt: &HostRuntime, path: &str, conf: &Conf) {
    let Ok(listen) = str::from_utf8(conf.listen.as_slice()) else {
        return;
    };
    let Some((host, _)) = listen.rsplit_once(':') else {
        return;
    };
    if !host.is_empty() && host.bytes().all(|byte| byte.is_ascii_digit()) {
        let _ = eprintln!(rt;
            "sudo_logsrvd: {path}: warning: listen_address: the host {host} is a number, which the system takes for an address (0 is every address): write *:PORT for every address, or the name or address itself"
        );
    }
}

/// Says of each refused line why it is refused.
fn tell_refused(rt: &HostRuntime, path: &str, refused: &Refusals) {
    tell_line(rt, path, &refused.first);
    let more = refused.more.as_slice();
    for line in more.iter().take(MOST_MORE) {
        tell_line(rt, path, line);
    }
    if more.len() > MOST_MORE {
        let left = more.len() - MOST_MORE;
        let _ = eprintln!(rt; "sudo_logsrvd: {path}: {left} more lines are refused");
    }
}

/// Says why a line is refused.
fn tell_line(rt: &HostRuntime, path: &str, refused: &RefusedLine) {
    let line = refused.line;
    let reason = match &refused.why {
        Refused::NotUtf8 => "it isn't UTF-8",
        Refused::NoForm => "it is neither `[section]` nor `key = value`",
        Refused::NoSection => "it stands before the first `[section]`",
        Refused::Value(wrong) => return tell_value(rt, path, line, wrong),
    };
    let _ = eprintln!(rt; "sudo_logsrvd: {path}:{line}: the line is refused: {reason}");
}

/// Says which value a key doesn't take, and what it takes.
fn tell_value(rt: &HostRuntime, path: &str, line: u32, wrong: &WrongValue) {
    let (Ok(key), Ok(value)) = (
        str::from_utf8(wrong.key.as_slice()),
        str::from_utf8(wrong.value.as_slice()),
    ) else {
        return;
    };
    let takes = takes(wrong.takes);
    let tls = if value.contains("(tls)") { NO_TLS } else { "" };
    let _ = eprintln!(rt;
        "sudo_logsrvd: {path}:{line}: {key} can't be {value:?}: it takes {takes}{tls}"
    );
}

/// What is said of a value that asks for TLS.
const NO_TLS: &str = "; this server has no TLS: OPERATIONS shows a tunnel under Exposure";

/// What a key takes.
fn takes(values: Values) -> &'static str {
    match values {
        Values::Listening => {
            "HOST or HOST:PORT with a port from 1 to 65535, where HOST is a name, an address ([ADDRESS] if it is IPv6) or *"
        }
        Values::Upstream => {
            "HOST or HOST:PORT with a port from 1 to 65535, where HOST is a name or an address ([ADDRESS] if it is IPv6)"
        }
        Values::Truth => "true, yes, on or 1, or false, no, off or 0",
        Values::Path => "a path, which may not be empty",
        Values::Sequence => "%{seq} alone",
        Values::Format => "sudo or json",
        Values::Texts => "1 to 16 texts of 1 to 64 bytes, with commas between them",
    }
}
