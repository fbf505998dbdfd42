//! Steps of a port's script, and bytes, as they stand in a line.

use anyhow::{Result, anyhow};
use lsv_base::Bytes;
use lsv_port::Step;
use md5::{Digest, Md5};
use std::alloc::Global;

/// The most bytes that are printed one by one.
const MOST: usize = 512;

/// The bytes of hexadecimal digits, and after a star so many bytes of 0; after another star, so many times all of that.
pub fn bytes_of(alloc: Global, words: &str) -> Result<Bytes> {
    let (digits, rest) = words.split_once('*').unwrap_or((words, "0"));
    let (zeros, times) = rest.split_once('*').unwrap_or((rest, "1"));
    let mut once = hex::decode(alloc, digits)?;
    for _ in 0..zeros.parse::<u32>()? {
        once.push(0)?;
    }
    let mut bytes = Bytes::new(alloc);
    for _ in 0..times.parse::<u32>()? {
        bytes.add(&once)?;
    }
    Ok(bytes)
}

/// Bytes as they are printed: their digits; of many their count and their digest.
pub fn shown(alloc: Global, bytes: &[u8]) -> Result<String> {
    if bytes.len() <= MOST {
        return Ok(hex::encode(alloc, bytes)?);
    }
    let digest = Md5::digest(bytes);
    let digits = hex::encode(alloc, digest.as_slice())?;
    Ok(format!(in alloc; "{} bytes {digits}", bytes.len())?)
}

/// A step of a script at a link: its word, the link, and the rest.
fn step_of(alloc: Global, word: &str, words: &str) -> Result<Step> {
    let (link, rest) = words.split_once(' ').unwrap_or((words, ""));
    let link = link.parse::<u32>()?;
    match word {
        "open" => Ok(Step::Open(link)),
        "give" => Ok(Step::Give(link, bytes_of(alloc, rest)?)),
        "room" => Ok(Step::Room(link, rest.parse::<u32>()?)),
        "last" => Ok(Step::Last(link)),
        "break" => Ok(Step::Break(link)),
        _ => Err(anyhow!("a step")),
    }
}

/// A step for each byte: it arrives on the link.
fn add_each(alloc: Global, script: &mut Vec<Step>, words: &str) -> Result<()> {
    let (link, digits) = words.split_once(' ').ok_or(anyhow!("bytes"))?;
    let link = link.parse::<u32>()?;
    for byte in bytes_of(alloc, digits)?.as_slice() {
        script.push(Step::Give(link, Bytes::of(alloc, &[*byte])?))?;
    }
    Ok(())
}

/// Adds the steps of a line to a script.
pub fn add_steps(alloc: Global, script: &mut Vec<Step>, word: &str, words: &str) -> Result<()> {
    if word == "each" {
        return add_each(alloc, script, words);
    }
    let step = match word {
        "break-turn" => Step::BreakTurn,
        "wake" => Step::Wake,
        "stop" => Step::Stop,
        _ => step_of(alloc, word, words)?,
    };
    script.push(step)?;
    Ok(())
}
