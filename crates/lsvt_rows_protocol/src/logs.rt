//! Cases of what a log holds.

use crate::words::{bytes_of, digits_of, record_of, records_of};
use anyhow::{Result, anyhow};
use lsv_base::{Bytes, List, LogNo};
use lsv_info::{read_exit, read_head, write_exit, write_head};
use lsv_mask::{Mask, Prompt, TextSearch};
use lsv_record::{Laid, Record, Shaped, Stream, Tally, TimingFault, lay, line, read_log};
use std::alloc::Global;

/// The text of a log.json, and the line that is written of it.
pub fn head(rt: &HostRuntime, digits: &str) -> Result<()> {
    let alloc = rt.alloc();
    let bytes = bytes_of(alloc, digits)?;
    match read_head(alloc, bytes.as_slice()) {
        Ok(head) => {
            let line = write_head(alloc, &head.copy(alloc)?)?;
            println!(rt; "{head:?} {}", digits_of(alloc, &line)?)?;
        }
        Err(fault) => println!(rt; "{fault}")?,
    }
    Ok(())
}

/// The line alone that is written of the text of a log.json.
pub fn head_again(rt: &HostRuntime, word: &str) -> Result<()> {
    let alloc = rt.alloc();
    match read_head(alloc, bytes_of(alloc, word)?.as_slice()) {
        Ok(head) => println!(rt; "{}", digits_of(alloc, &write_head(alloc, &head)?)?)?,
        Err(fault) => println!(rt; "{fault}")?,
    }
    Ok(())
}

/// The text of an exit.json, and the line that is written of it.
pub fn exit(rt: &HostRuntime, digits: &str) -> Result<()> {
    let alloc = rt.alloc();
    let bytes = bytes_of(alloc, digits)?;
    match read_exit(alloc, bytes.as_slice()) {
        Ok(exit) => {
            let line = write_exit(alloc, &exit.copy(alloc)?)?;
            println!(rt; "{exit:?} {}", digits_of(alloc, &line)?)?;
        }
        Err(fault) => println!(rt; "{fault}")?,
    }
    Ok(())
}

/// The log number of six digits.
pub fn number(rt: &HostRuntime, text: &str) -> Result<()> {
    match LogNo::read(text.as_bytes()) {
        Some(log) => println!(rt; "{}", log.get())?,
        None => println!(rt; "no log number")?,
    }
    Ok(())
}

/// Shows the six texts of a layout.
fn show(rt: &HostRuntime, l: &Laid) -> Result<()> {
    let alloc = rt.alloc();
    let timing = digits_of(alloc, &l.timing)?;
    let stdin = digits_of(alloc, &l.stdin)?;
    let stdout = digits_of(alloc, &l.stdout)?;
    let stderr = digits_of(alloc, &l.stderr)?;
    let ttyin = digits_of(alloc, &l.ttyin)?;
    let ttyout = digits_of(alloc, &l.ttyout)?;
    println!(rt; "{timing} {stdin} {stdout} {stderr} {ttyin} {ttyout}")?;
    Ok(())
}

/// The layout of records.
pub fn laid(rt: &HostRuntime, words: &str) -> Result<()> {
    let alloc = rt.alloc();
    let records = records_of(alloc, words)?;
    show(rt, &lay(alloc, records.as_slice())?)
}

/// The layout of the records that are read of their layout.
pub fn laid_again(rt: &HostRuntime, words: &str) -> Result<()> {
    let alloc = rt.alloc();
    let l = lay(alloc, records_of(alloc, words)?.as_slice())?;
    match read_log(alloc, &l) {
        Ok(records) => show(rt, &lay(alloc, records.as_slice())?),
        Err(fault) => Ok(println!(rt; "{fault}")?),
    }
}

/// The records of a layout, which has these six texts.
pub fn read(rt: &HostRuntime, words: &str) -> Result<()> {
    let alloc = rt.alloc();
    let mut texts = words.split_whitespace();
    let mut next = || bytes_of(alloc, texts.next().unwrap_or("-"));
    let l = Laid {
        timing: next()?,
        stdin: next()?,
        stdout: next()?,
        stderr: next()?,
        ttyin: next()?,
        ttyout: next()?,
    };
    match read_log(alloc, &l) {
        Ok(records) => println!(rt; "{records:?}")?,
        Err(fault) => println!(rt; "{fault}")?,
    }
    Ok(())
}

/// The texts of prompts, with commas between, of which `none` is none.
fn prompts_of(alloc: Global, words: &str) -> Result<List<Bytes>> {
    let mut texts = Vec::new(alloc);
    if words == "none" {
        return Ok(List::from_vec(texts));
    }
    for word in words.split(',') {
        texts.push(bytes_of(alloc, word)?)?;
    }
    Ok(List::from_vec(texts))
}

/// What is stored of a session whose passwords are masked.
pub fn masked(rt: &HostRuntime, words: &str) -> Result<()> {
    let alloc = rt.alloc();
    let (prompts, session) = words.split_once(' ').ok_or(anyhow!("a session"))?;
    let prompt = Prompt::new(TextSearch);
    let mut mask = Mask::new(alloc, &prompts_of(alloc, prompts)?)?;
    let mut stored = Laid::new(alloc);
    for mut r in records_of(alloc, session)?.into_vec() {
        mask.cover(&prompt, &mut r);
        stored.add(&r)?;
    }
    show(rt, &stored)
}

/// What is stored of a session whose mask is made again before the record at this place.
pub fn resumed(rt: &HostRuntime, words: &str) -> Result<()> {
    let alloc = rt.alloc();
    let (place, words) = words.split_once(' ').ok_or(anyhow!("prompts"))?;
    let (prompts, session) = words.split_once(' ').ok_or(anyhow!("a session"))?;
    let place = place.parse::<usize>()?;
    let texts = prompts_of(alloc, prompts)?;
    let prompt = Prompt::new(TextSearch);
    let mut mask = Mask::new(alloc, &texts)?;
    let mut stored = Vec::new(alloc);
    for (i, mut r) in records_of(alloc, session)?
        .into_vec()
        .into_iter()
        .enumerate()
    {
        if i == place {
            mask = taken_on(alloc, &texts, &stored)?;
        }
        mask.cover(&prompt, &mut r);
        stored.push(r)?;
    }
    show(rt, &lay(alloc, &stored)?)
}

/// The mask of a log that has these records.
fn taken_on(alloc: Global, texts: &List<Bytes>, stored: &[Record]) -> Result<Mask> {
    let prompt = Prompt::new(TextSearch);
    let mut mask = Mask::new(alloc, texts)?;
    for r in stored {
        mask.see(&prompt, r);
    }
    Ok(mask)
}

/// The line of a record, also of one that no log takes.
pub fn line_of(rt: &HostRuntime, word: &str) -> Result<()> {
    let text = line(rt.alloc(), &record_of(rt.alloc(), word)?)?;
    println!(rt; "{}", digits_of(rt.alloc(), &text)?)?;
    Ok(())
}

/// No text of timing is longer.
const TIMING_LIMIT: u64 = 1 << 40;

/// Reads the next line of a text of timing through a window of `size` bytes.
fn step(
    alloc: Global,
    tally: &mut Tally,
    text: &[u8],
    size: usize,
) -> Result<Option<Shaped>, TimingFault> {
    if tally.timing() > TIMING_LIMIT {
        return Ok(None);
    }
    let at = (tally.timing() as usize).min(text.len());
    let end = at.saturating_add(size).min(text.len());
    tally.step(alloc, &text[at..end], end == text.len())
}

/// Reads a text of timing through windows of this size in bytes. Prints each line, the fault that ends it, and the sums.
pub fn tallied(rt: &HostRuntime, words: &str) -> Result<()> {
    let (size, digits) = words.split_once(' ').ok_or(anyhow!("a text"))?;
    let size = size.parse::<usize>()?;
    let text = bytes_of(rt.alloc(), digits)?;
    let text = text.as_slice();
    let mut tally = Tally::new();
    for _ in 0..=text.len() {
        match step(rt.alloc(), &mut tally, text, size) {
            Ok(Some(line)) => println!(rt; "{line:?}")?,
            Ok(None) => break,
            Err(fault) => {
                println!(rt; "{fault}")?;
                break;
            }
        }
    }
    let (count, elapsed, timing) = (tally.count(), tally.elapsed(), tally.timing());
    print!(rt; "{count} lines of {timing} bytes to {elapsed}, data")?;
    for stream in [Stream::Stdin, Stream::Ttyin, Stream::Ttyout] {
        print!(rt; " {}", tally.data_bytes(stream))?;
    }
    println!(rt;)?;
    Ok(())
}
