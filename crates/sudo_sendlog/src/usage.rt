//! What is said of words that clap refuses.

use lsv_base::{Bytes, List};
use std::str;

/// What is wrong with the words.
#[derive(Clone, Copy)]
enum Trouble<'w> {
    /// There is no option of this word.
    Unknown(&'w [u8]),
    /// The value of this option is missing.
    NoValue(u8),
    /// The word after this option begins with a hyphen, so it is no value.
    Hyphen(u8, &'w [u8]),
    /// This option stands twice.
    Twice(u8),
    /// The identifier is missing.
    NoNumber,
    /// This is a second identifier.
    Second(&'w [u8]),
}

/// The options with a value, and the other one.
const WITH_VALUE: &[u8] = b"dhipRrs";

const ALONE: &[u8] = b"A";

/// Says which word is at fault.
pub fn say(rt: &HostRuntime, words: &List<Bytes>) {
    match trouble_in(words.as_slice()) {
        Some(Trouble::Unknown(word)) => {
            let word = text_of(word);
            let _ = eprintln!(rt; "sudo_sendlog: {word}: no such option; see sudo_sendlog(8)");
        }
        Some(Trouble::NoValue(letter)) => {
            let letter = letter as char;
            let _ = eprintln!(rt; "sudo_sendlog: -{letter} needs a value; see sudo_sendlog(8)");
        }
        Some(Trouble::Hyphen(letter, word)) => {
            let letter = letter as char;
            let word = text_of(word);
            let _ = eprintln!(rt;
                "sudo_sendlog: -{letter} needs a value, and {word} is none: a value doesn't begin with a hyphen"
            );
        }
        Some(Trouble::Twice(letter)) => {
            let letter = letter as char;
            let _ = eprintln!(rt; "sudo_sendlog: -{letter} may stand once");
        }
        Some(Trouble::NoNumber) => {
            let _ = eprintln!(rt;
                "sudo_sendlog: NO, the identifier of the session, is missing: six of 0 to 9 and A to Z, as TSID= shows it"
            );
        }
        Some(Trouble::Second(word)) => {
            let word = text_of(word);
            let _ = eprintln!(rt;
                "sudo_sendlog: {word:?} is one identifier too many: one session is sent at a time"
            );
        }
        None => {}
    }
}

/// The text of a word, which is UTF-8.
fn text_of(word: &[u8]) -> &str {
    str::from_utf8(word).unwrap_or("")
}

/// The first word that is at fault, or that a word is missing.
fn trouble_in(words: &[Bytes]) -> Option<Trouble<'_>> {
    let mut seen = [false; 256];
    let mut due = None;
    let mut has_number = false;
    let mut is_open = true;
    for word in words {
        let word = word.as_slice();
        match (due, word) {
            (Some(letter), [b'-', _, ..]) => return Some(Trouble::Hyphen(letter, word)),
            (Some(_), _) => due = None,
            (None, b"--") if is_open => is_open = false,
            (None, [b'-', letters @ ..]) if is_open && !letters.is_empty() => {
                match due_after(word, letters, &mut seen) {
                    Ok(next) => due = next,
                    Err(trouble) => return Some(trouble),
                }
            }
            (None, _) if has_number => return Some(Trouble::Second(word)),
            (None, _) => has_number = true,
        }
    }
    match due {
        Some(letter) => Some(Trouble::NoValue(letter)),
        None if has_number => None,
        None => Some(Trouble::NoNumber),
    }
}

/// Takes the letters of a word of options. The option whose value is due in the next word, if one is.
fn due_after<'w>(
    word: &'w [u8],
    letters: &[u8],
    seen: &mut [bool; 256],
) -> Result<Option<u8>, Trouble<'w>> {
    for (i, letter) in letters.iter().enumerate() {
        let letter = *letter;
        let has_value = WITH_VALUE.contains(&letter);
        if !has_value && !ALONE.contains(&letter) {
            return Err(Trouble::Unknown(word));
        }
        if seen[letter as usize] {
            return Err(Trouble::Twice(letter));
        }
        seen[letter as usize] = true;
        if has_value {
            let is_last = i + 1 == letters.len();
            return Ok(if is_last { Some(letter) } else { None });
        }
    }
    Ok(None)
}
