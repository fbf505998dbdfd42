//! What is said of words that are no command line.

use lsv_base::{Bytes, List};
use lsv_replay::are_text;
use lsv_replay_args::{ArgFault, Unfit, find_unfit};
use std::str;

/// What is wrong with an option.
#[derive(Clone, Copy)]
enum Trouble<'w> {
    /// There is none of this word.
    Unknown(&'w [u8]),
    /// Its value is missing.
    NoValue(u8),
    /// The word after it begins with a hyphen, so it is no value.
    Hyphen(u8, &'w [u8]),
    /// It stands twice.
    Twice(u8),
}

/// The options with a value, and the others.
const WITH_VALUE: &[u8] = b"dfms";

const ALONE: &[u8] = b"SnlF";

/// Says which word is at fault.
pub fn say(rt: &HostRuntime, words: &List<Bytes>) {
    if !are_text(words.as_slice()) {
        let _ = eprintln!(rt; "sudoreplay: a word isn't UTF-8");
        return;
    }
    match find_unfit(rt.alloc(), words) {
        Ok(Some(unfit)) => say_unfit(rt, &unfit),
        Err(ArgFault::Usage) => say_option(rt, words.as_slice()),
        Ok(None) | Err(ArgFault::NoMem) => {}
    }
}

/// Says which value is out of its form.
fn say_unfit(rt: &HostRuntime, unfit: &Unfit) {
    let (option, value, form) = match unfit {
        Unfit::Streams(value) => (
            "-f",
            value,
            "the streams are names of stdin, stdout, stderr, ttyin and ttyout, with commas between them",
        ),
        Unfit::Longest(value) => (
            "-m",
            value,
            "the longest wait is a number of seconds, as 2 or 0.5",
        ),
        Unfit::Speed(value) => ("-s", value, "the speed is a number above 0, as 2 or 0.5"),
        Unfit::FollowedListing => {
            let _ = eprintln!(rt;
                "sudoreplay: -F doesn't go with -l: a log is followed, or logs are listed"
            );
            return;
        }
        Unfit::NoIdentifier => {
            let _ = eprintln!(rt; "sudoreplay: an identifier is missing, or -l");
            return;
        }
        Unfit::Identifiers(second) => {
            if let Ok(second) = str::from_utf8(second.as_slice()) {
                let _ = eprintln!(rt;
                    "sudoreplay: {second:?} is one identifier too many: one log is played at a time"
                );
            }
            return;
        }
    };
    if let Ok(value) = str::from_utf8(value.as_slice()) {
        let _ = eprintln!(rt; "sudoreplay: {option} {value}: {form}");
    }
}

/// Says which option is at fault.
fn say_option(rt: &HostRuntime, words: &[Bytes]) {
    match trouble_in(words) {
        Some(Trouble::Unknown(word)) => {
            if let Ok(word) = str::from_utf8(word) {
                let _ = eprintln!(rt; "sudoreplay: {word}: no such option; see sudoreplay(8)");
            }
        }
        Some(Trouble::NoValue(letter)) => {
            let letter = letter as char;
            let _ = eprintln!(rt; "sudoreplay: -{letter} needs a value; see sudoreplay(8)");
        }
        Some(Trouble::Hyphen(letter, word)) => {
            let letter = letter as char;
            if let Ok(word) = str::from_utf8(word) {
                let _ = eprintln!(rt;
                    "sudoreplay: -{letter} needs a value, and {word} is none: a value doesn't begin with a hyphen"
                );
            }
        }
        Some(Trouble::Twice(letter)) => {
            let letter = letter as char;
            let _ = eprintln!(rt; "sudoreplay: -{letter} may stand once");
        }
        None => {}
    }
}

/// The first option that is at fault.
fn trouble_in(words: &[Bytes]) -> Option<Trouble<'_>> {
    let mut seen = [false; 256];
    let mut due = None;
    for word in words {
        let word = word.as_slice();
        match (due, word) {
            (Some(letter), [b'-', _, ..]) => return Some(Trouble::Hyphen(letter, word)),
            (Some(_), _) => due = None,
            (None, b"--") => return None,
            (None, [b'-', letters @ ..]) => match due_after(word, letters, &mut seen) {
                Ok(next) => due = next,
                Err(trouble) => return Some(trouble),
            },
            (None, _) => {}
        }
    }
    match due {
        Some(letter) => Some(Trouble::NoValue(letter)),
        None => None,
    }
}

/// Takes the letters of a word of options. The option whose value is due in the next word, if one is.
fn due_after<'w>(
    word: &'w [u8],
    letters: &[u8],
    seen: &mut [bool; 256],
) -> Result<Option<u8>, Trouble<'w>> {
    for (i, letter) in letters.iter().enumerate() {
        let letter = *letter;
        let has_value = WITH_VALUE.contains(&letter);
        if !has_value && !ALONE.contains(&letter) {
            return Err(Trouble::Unknown(word));
        }
        if seen[letter as usize] {
            return Err(Trouble::Twice(letter));
        }
        seen[letter as usize] = true;
        if has_value {
            let is_last = i + 1 == letters.len();
            return Ok(if is_last { Some(letter) } else { None });
        }
    }
    Ok(None)
}
