//! The words of a case.

use anyhow::{Result, anyhow};
use lsv_base::{Bytes, List};
use lsv_link::{Answer, Cut, MemLink};
use std::alloc::Global;

/// A number's list with points between, or `-` for none.
fn numbers(alloc: Global, list: &str) -> Result<Vec<u64>> {
    let mut numbers = Vec::new(alloc);
    if list == "-" {
        return Ok(numbers);
    }
    for number in list.split('.') {
        numbers.push(number.parse::<u64>()?)?;
    }
    Ok(numbers)
}

/// `end:N` or `silent:N`.
fn cut(word: &str) -> Result<Cut> {
    let (kind, count) = word.split_once(':').ok_or(anyhow!("a cut"))?;
    let count = count.parse::<u64>()?;
    match kind {
        "end" => Ok(Cut::End(count)),
        "silent" => Ok(Cut::Silent(count)),
        _ => Err(anyhow!("a cut")),
    }
}

/// `DIGITS`, or `HOLD@DIGITS`: bytes that come once so many were written.
fn answer(alloc: Global, word: &str) -> Result<Answer> {
    let (hold, digits) = word.split_once('@').unwrap_or(("0", word));
    Ok(Answer {
        hold: hold.parse::<u64>()?,
        bytes: Bytes::from_vec(hex::decode(alloc, digits)?),
    })
}

/// The link of one run: how its input is cut, which of its calls fail, and what the upstream sends.
pub fn link(alloc: Global, word: &str, fails: Option<u64>) -> Result<MemLink> {
    let (cut_word, rest) = word.split_once('/').ok_or(anyhow!("a run"))?;
    let (fail, digits) = rest.split_once('/').ok_or(anyhow!("a run"))?;
    let mut failing = numbers(alloc, fail)?;
    if let Some(number) = fails {
        failing.push(number)?;
    }
    let mut given = Vec::new(alloc);
    for word in digits.split('+') {
        given.push(answer(alloc, word)?)?;
    }
    let mut answers = Vec::new(alloc);
    answers.push(List::from_vec(given))?;
    let mut cuts = Vec::new(alloc);
    cuts.push(cut(cut_word)?)?;
    Ok(MemLink::new(alloc, answers, cuts, failing))
}
