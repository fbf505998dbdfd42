//! What is said of words that are no command.

use lsv_args::{MOST_LANES, MOST_WORKERS};
use lsv_base::{Bytes, List};
use std::str;

/// What is wrong with words.
#[derive(Clone, Copy)]
enum Trouble<'w> {
    /// There is no word.
    NoCommand,
    /// The first word is no command.
    OtherCommand(&'w str),
    /// The command has no such option.
    Unknown(&'w str),
    /// The value of this option is missing.
    NoValue(&'w str),
    /// The word after this option begins with a hyphen, so it is no value.
    Hyphen(&'w str, &'w str),
    /// This option stands twice.
    Twice(&'w str),
    /// The value of this option isn't a number of its range.
    OutOfRange(&'w str, &'w str),
    /// `load` has no number.
    NoCount,
    /// The command doesn't take this word.
    Further(&'w str),
}

/// This many connections of a load and of a server may be asked for.
const MOST_LOADED: i64 = 10_000;

const MOST_SERVED: i64 = u32::MAX as i64;

/// Says which word is at fault.
pub fn say(rt: &HostRuntime, words: &List<Bytes>) {
    match trouble_in(words.as_slice()) {
        Some(Trouble::NoCommand) => {
            let _ = eprintln!(rt;
                "sudo_logsrvd: a command is missing: serve, check, relay, once or load"
            );
        }
        Some(Trouble::OtherCommand(word)) => {
            let _ = eprintln!(rt;
                "sudo_logsrvd: {word}: no such command; there are serve, check, relay, once and load; see sudo_logsrvd(8)"
            );
        }
        Some(Trouble::Unknown(word)) => {
            let _ = eprintln!(rt; "sudo_logsrvd: {word}: no such option here; see sudo_logsrvd(8)");
        }
        Some(Trouble::NoValue(option)) => {
            let _ = eprintln!(rt; "sudo_logsrvd: {option} needs a value; see sudo_logsrvd(8)");
        }
        Some(Trouble::Hyphen(option, value)) => {
            let _ = eprintln!(rt;
                "sudo_logsrvd: {option} needs a value, and {value} is none: a value doesn't begin with a hyphen"
            );
        }
        Some(Trouble::Twice(option)) => {
            let _ = eprintln!(rt; "sudo_logsrvd: {option} may stand once");
        }
        Some(Trouble::OutOfRange(option, value)) => {
            let most = most_of(option);
            let what = meaning_of(option);
            let _ = eprintln!(rt; "sudo_logsrvd: {option} {value}: {what} is from 1 to {most}");
        }
        Some(Trouble::NoCount) => {
            let _ = eprintln!(rt; "sudo_logsrvd: load needs the number of connections");
        }
        Some(Trouble::Further(word)) => {
            let _ = eprintln!(rt; "sudo_logsrvd: {word:?} is one word too many");
        }
        None => {}
    }
}

/// The greatest value of an option, or of the number of a load.
fn most_of(option: &str) -> i64 {
    match option {
        "--lanes" => MOST_LANES,
        "--workers" => MOST_WORKERS,
        "--stop-after" => MOST_SERVED,
        _ => MOST_LOADED,
    }
}

/// What a number is.
fn meaning_of(option: &str) -> &'static str {
    match option {
        "--lanes" => "the number of lanes",
        "--workers" => "the number of workers",
        _ => "the number of connections",
    }
}

/// Whether a command takes an option.
fn takes(command: &str, option: &str) -> bool {
    match option {
        "-f" => true,
        "--lanes" | "--workers" | "--stop-after" => command == "serve",
        _ => false,
    }
}

/// What is wrong with words.
fn trouble_in(words: &[Bytes]) -> Option<Trouble<'_>> {
    let Some((first, words)) = words.split_first() else {
        return Some(Trouble::NoCommand);
    };
    let command = text_of(first);
    if !is_command(command) {
        return Some(Trouble::OtherCommand(command));
    }
    let mut walk = Walk {
        command,
        due: None,
        seen: [false; 4],
        has_count: false,
    };
    for word in words {
        if let Err(trouble) = walk.take(text_of(word)) {
            return Some(trouble);
        }
    }
    walk.end()
}

/// Whether a word is a command.
fn is_command(word: &str) -> bool {
    match word {
        "serve" | "check" | "relay" | "once" | "load" => true,
        _ => false,
    }
}

/// A word; one that isn't UTF-8 shows as empty.
fn text_of(word: &Bytes) -> &str {
    str::from_utf8(word.as_slice()).unwrap_or("")
}

/// What was seen of the words of a command.
#[derive(Drop)]
struct Walk<'w> {
    command: &'w str,
    /// The option whose value is due.
    due: Option<&'w str>,
    /// Whether `-f`, `--lanes`, `--workers` and `--stop-after` were seen.
    seen: [bool; 4],
    /// Whether the number of a load was seen.
    has_count: bool,
}

impl<'w> Walk<'w> {
    /// Takes a word.
    fn take(&mut self, word: &'w str) -> Result<(), Trouble<'w>> {
        if let Some(option) = self.due {
            self.due = None;
            return self.take_value(option, word);
        }
        if !word.starts_with('-') || word == "-" {
            return self.take_further(word);
        }
        let (option, value) = parted(word);
        if !takes(self.command, option) {
            return Err(Trouble::Unknown(word));
        }
        self.note(option)?;
        match value {
            Some(value) => self.take_value(option, value),
            None => {
                self.due = Some(option);
                Ok(())
            }
        }
    }

    /// Notes that an option stands there.
    fn note(&mut self, option: &'w str) -> Result<(), Trouble<'w>> {
        let [file, lanes, workers, stop_after] = self.seen;
        let (was_seen, seen) = match option {
            "-f" => (file, [true, lanes, workers, stop_after]),
            "--lanes" => (lanes, [file, true, workers, stop_after]),
            "--workers" => (workers, [file, lanes, true, stop_after]),
            _ => (stop_after, [file, lanes, workers, true]),
        };
        if was_seen {
            return Err(Trouble::Twice(option));
        }
        self.seen = seen;
        Ok(())
    }

    /// Takes the value of an option.
    fn take_value(&mut self, option: &'w str, value: &'w str) -> Result<(), Trouble<'w>> {
        if value.starts_with('-') && value != "-" {
            return Err(Trouble::Hyphen(option, value));
        }
        if option != "-f" && !is_number(value, most_of(option)) {
            return Err(Trouble::OutOfRange(option, value));
        }
        Ok(())
    }

    /// Takes a word that is no option.
    fn take_further(&mut self, word: &'w str) -> Result<(), Trouble<'w>> {
        if self.command != "load" || self.has_count {
            return Err(Trouble::Further(word));
        }
        self.has_count = true;
        if is_number(word, MOST_LOADED) {
            Ok(())
        } else {
            Err(Trouble::OutOfRange("load", word))
        }
    }

    /// What is missing after the last word.
    fn end(self) -> Option<Trouble<'w>> {
        if let Some(option) = self.due {
            return Some(Trouble::NoValue(option));
        }
        if self.command == "load" && !self.has_count {
            return Some(Trouble::NoCount);
        }
        None
    }
}

/// An option, and the value that stands in the same word.
fn parted(word: &str) -> (&str, Option<&str>) {
    if word.starts_with("--") {
        return match word.split_once('=') {
            Some((option, value)) => (option, Some(value)),
            None => (word, None),
        };
    }
    match word.strip_prefix("-f") {
        Some("") | None => (word, None),
        Some(value) => ("-f", Some(value)),
    }
}

/// Whether a value is a number from 1 to another.
fn is_number(value: &str, most: i64) -> bool {
    match value.parse::<i64>() {
        Ok(number) => 1 <= number && number <= most,
        Err(_) => false,
    }
}
