//! What is said of a search that is none.

use lsv_base::{Bytes, List};
use lsv_search::{BadWord, Name, bad_word};
use std::str;

/// Says why the word at this place isn't taken, or which one is missing.
pub fn say(rt: &HostRuntime, words: &List<Bytes>, at: u32) {
    let why = bad_word(words, at);
    match words.as_slice().get(at as usize) {
        Some(word) => {
            if let Ok(word) = str::from_utf8(word.as_slice()) {
                say_word(rt, at, word, why);
            }
        }
        None => say_end(rt, why),
    }
}

/// Says why a word isn't taken.
fn say_word(rt: &HostRuntime, at: u32, word: &str, why: BadWord) {
    let reason = match why {
        BadWord::NoName => "is no search word, or is short for more than one",
        BadWord::TooDeep => "would nest more than 100 of ! and ( in one another",
        BadWord::NotOpen => "closes no (",
        BadWord::NoDate => "isn't a date of the form 2026-11-30T00:00:00Z, from 1970 to 2261",
        BadWord::NoPattern => "is not a regular expression",
        BadWord::NeedsSearch | BadWord::NotClosed | BadWord::NeedsArgument(_) => {
            "stands where a search is due"
        }
    };
    let _ = eprintln!(rt; "sudoreplay: word {at}, {word:?}, {reason}");
}

/// Says what is missing after the last word.
fn say_end(rt: &HostRuntime, why: BadWord) {
    match why {
        BadWord::NeedsArgument(name) => {
            let needed = needed(name);
            if let Ok(name) = str::from_utf8(name.text()) {
                let _ = eprintln!(rt; "sudoreplay: {name:?} needs {needed}");
            }
        }
        BadWord::NotClosed => {
            let _ = eprintln!(rt; "sudoreplay: a ) is missing after the last word");
        }
        _ => {
            let _ = eprintln!(rt; "sudoreplay: a search is missing after the last word");
        }
    }
}

/// What a search word needs.
fn needed(name: Name) -> &'static str {
    match name {
        Name::Command => "a regular expression",
        Name::Cwd => "a folder",
        Name::FromDate | Name::ToDate => "a date",
        Name::Group | Name::Host | Name::Runas | Name::User => "a name",
        Name::Tty => "a terminal",
    }
}
