//! What is said of words that are no command line.

use lsv_base::{Bytes, List, LogNo};
use std::str;

/// What is wrong with the words.
#[derive(Clone, Copy)]
enum Trouble<'w> {
    /// There is no option of this word.
    Unknown(&'w [u8]),
    /// The value of this option is missing.
    NoValue(u8),
    /// This option stands twice.
    Twice(u8),
    /// This word of two hyphens stands twice.
    LongTwice(&'w [u8]),
    /// This word is no identifier of a log.
    NoIdentifier(&'w [u8]),
}

/// The options with a value, and the other one.
const WITH_VALUE: &[u8] = b"de";

const ALONE: &[u8] = b"q";

/// What was seen of the words before one.
#[derive(Drop)]
struct Seen {
    letters: [bool; 256],
    json: bool,
    digest: bool,
}

/// Says which word is at fault.
pub fn say(rt: &HostRuntime, words: &List<Bytes>) {
    match trouble_in(words.as_slice()) {
        Some(Trouble::Unknown(word)) => {
            let word = text_of(word);
            let _ = eprintln!(rt; "sudo_logcheck: {word}: no such option; see sudo_logcheck(8)");
        }
        Some(Trouble::NoValue(letter)) => {
            let letter = letter as char;
            let _ = eprintln!(rt; "sudo_logcheck: -{letter} needs a value; see sudo_logcheck(8)");
        }
        Some(Trouble::Twice(letter)) => {
            let letter = letter as char;
            let _ = eprintln!(rt; "sudo_logcheck: -{letter} may stand once");
        }
        Some(Trouble::LongTwice(word)) => {
            let word = text_of(word);
            let _ = eprintln!(rt; "sudo_logcheck: {word} may stand once");
        }
        Some(Trouble::NoIdentifier(word)) => {
            let word = text_of(word);
            let _ = eprintln!(rt;
                "sudo_logcheck: {word:?} is no identifier: six of 0 to 9 and A to Z, as TSID= shows it"
            );
        }
        None => {}
    }
}

/// The text of a word, which is UTF-8.
fn text_of(word: &[u8]) -> &str {
    str::from_utf8(word).unwrap_or("")
}

/// The first word that is at fault.
fn trouble_in(words: &[Bytes]) -> Option<Trouble<'_>> {
    let mut seen = Seen {
        letters: [false; 256],
        json: false,
        digest: false,
    };
    let mut due = None;
    let mut is_open = true;
    for word in words {
        let word = word.as_slice();
        match (due, word) {
            (Some(letter), [b'-', _, ..]) => return Some(Trouble::NoValue(letter)),
            (Some(_), _) => due = None,
            (None, b"--") if is_open => is_open = false,
            (None, [b'-', b'-', ..]) if is_open => {
                if let Some(trouble) = long_trouble(word, &mut seen) {
                    return Some(trouble);
                }
            }
            (None, [b'-', letters @ ..]) if is_open && !letters.is_empty() => {
                match due_after(word, letters, &mut seen) {
                    Ok(next) => due = next,
                    Err(trouble) => return Some(trouble),
                }
            }
            (None, _) if LogNo::read(word).is_none() => return Some(Trouble::NoIdentifier(word)),
            (None, _) => {}
        }
    }
    match due {
        Some(letter) => Some(Trouble::NoValue(letter)),
        None => None,
    }
}

/// Takes a word of two hyphens and a name. What is wrong with it, if something is.
fn long_trouble<'w>(word: &'w [u8], seen: &mut Seen) -> Option<Trouble<'w>> {
    let was_seen = match word {
        b"--json" => {
            let was_seen = seen.json;
            seen.json = true;
            was_seen
        }
        b"--digest" => {
            let was_seen = seen.digest;
            seen.digest = true;
            was_seen
        }
        _ => return Some(Trouble::Unknown(word)),
    };
    if was_seen {
        Some(Trouble::LongTwice(word))
    } else {
        None
    }
}

/// Takes the letters of a word of options. The option whose value is due in the next word, if one is.
fn due_after<'w>(
    word: &'w [u8],
    letters: &[u8],
    seen: &mut Seen,
) -> Result<Option<u8>, Trouble<'w>> {
    for (i, letter) in letters.iter().enumerate() {
        let letter = *letter;
        let has_value = WITH_VALUE.contains(&letter);
        if !has_value && !ALONE.contains(&letter) {
            return Err(Trouble::Unknown(word));
        }
        if seen.letters[letter as usize] {
            return Err(Trouble::Twice(letter));
        }
        seen.letters[letter as usize] = true;
        if has_value {
            let is_last = i + 1 == letters.len();
            return Ok(if is_last { Some(letter) } else { None });
        }
    }
    Ok(None)
}
