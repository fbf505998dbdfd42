//! The words of a case.

ghost use Rattle.std.specs.Prelude.{◌≡◌, true, IfOk};

use crate::scripted::Scripted;
use anyhow::{Result, anyhow};
use lsv_base::{Bytes, List};
use lsv_dialogue::Wants;
use lsv_link::{Answer, Cut, MemLink};
use std::alloc::Global;

/// What a case says: the speaker, and the link.
#[derive(Drop)]
pub struct Case {
    pub speaker: Scripted,
    pub link: MemLink,
}

/// The numbers of a list with points between them. A `-` is none.
fn numbers(alloc: Global, list: &str) -> Result<Vec<u64>> {
    let mut numbers = Vec::new(alloc);
    if list == "-" {
        return Ok(numbers);
    }
    for number in list.split('.') {
        numbers.push(number.parse::<u64>()?)?;
    }
    Ok(numbers)
}

/// `end:N` or `silent:N`.
fn cut(word: &str) -> Result<Cut> {
    let Some((kind, count)) = word.split_once(':') else {
        return Err(anyhow!("no cut"));
    };
    let count = count.parse::<u64>()?;
    match kind {
        "end" => Ok(Cut::End(count)),
        "silent" => Ok(Cut::Silent(count)),
        _ => Err(anyhow!("no cut")),
    }
}

/// Bytes by their digits. A `-` is none.
fn bytes(alloc: Global, digits: &str) -> Result<Bytes> {
    if digits == "-" {
        return Ok(Bytes::new(alloc));
    }
    Ok(Bytes::from_vec(hex::decode(alloc, digits)?))
}

/// `DIGITS`, or `HOLD@DIGITS`.
fn answer(alloc: Global, word: &str) -> Result<Answer> {
    match word.split_once('@') {
        Some((hold, digits)) => Ok(Answer {
            hold: hold.parse::<u64>()?,
            bytes: bytes(alloc, digits)?,
        }),
        None => Ok(Answer {
            hold: 0,
            bytes: bytes(alloc, word)?,
        }),
    }
}

/// After how many messages the speaker is content, and what it wants then: `N`, or `N:end`, or `-`.
fn content(word: &str) -> Result<(Option<u64>, Wants)> {
    if word == "-" {
        return Ok((None, Wants::Nothing));
    }
    match word.split_once(':') {
        Some((count, "end")) => Ok((Some(count.parse::<u64>()?), Wants::End)),
        Some(_) => Err(anyhow!("no want")),
        None => Ok((Some(word.parse::<u64>()?), Wants::Nothing)),
    }
}

impl Case {
    /// Reads what each step says, after how many messages the speaker is content, the cut, the calls that fail, and the
    /// answers.
    pub fn read(alloc: Global, words: &str) -> Result<Case>
        ensures { IfOk result (λ case. case.speaker.busy ≡ true) }
    {
        let mut words = words.split(' ');
        let says = numbers(alloc, words.next().unwrap_or(""))?;
        let (after, wish) = content(words.next().unwrap_or(""))?;
        let cut = cut(words.next().unwrap_or(""))?;
        let fail = numbers(alloc, words.next().unwrap_or(""))?;
        let mut given = Vec::new(alloc);
        for word in words.next().unwrap_or("").split('+') {
            given.push(answer(alloc, word)?)?;
        }
        let mut answers = Vec::new(alloc);
        answers.push(List::from_vec(given))?;
        let mut cuts = Vec::new(alloc);
        cuts.push(cut)?;
        Ok(Case {
            speaker: Scripted::new(alloc, says, after, wish),
            link: MemLink::new(alloc, answers, cuts, fail),
        })
    }

    /// Reads first how many bytes the connection takes in all.
    pub fn read_room(alloc: Global, words: &str) -> Result<Case>
        ensures { IfOk result (λ case. case.speaker.busy ≡ true) }
    {
        let Some((most, rest)) = words.split_once(' ') else {
            return Err(anyhow!("no room"));
        };
        let case = Case::read(alloc, rest)?;
        Ok(Case {
            speaker: case.speaker,
            link: case.link.with_room(numbers(alloc, most)?),
        })
    }
}
