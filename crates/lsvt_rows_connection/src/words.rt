//! Steps of a port's script, and bytes, as they stand in a line.

use anyhow::{Result, anyhow};
use lsv_base::Bytes;
use lsv_port::Step;
use md5::{Digest, Md5};
use std::alloc::Global;

/// The most bytes that are printed one by one.
const MOST: usize = 512;

/// The bytes of hexadecimal digits.
pub fn bytes_of(alloc: Global, digits: &str) -> Result<Bytes> {
    Ok(Bytes::from_vec(hex::decode(alloc, digits)?))
}

/// Bytes as they are printed: their digits; of many their count and their digest.
pub fn shown(alloc: Global, bytes: &[u8]) -> Result<String> {
    if bytes.len() <= MOST {
        return Ok(hex::encode(alloc, bytes)?);
    }
    let digest = Md5::digest(bytes);
    let digits = hex::encode(alloc, digest.as_slice())?;
    Ok(format!(in alloc; "{} bytes {digits}", bytes.len())?)
}

/// Adds the frame of a message that shows a text without a delay.
fn add_output(bytes: &mut Bytes, text: &str) -> Result<()> {
    let length = text.len().min(100) as u8;
    bytes.add(&[0, 0, 0, length + 6, 0x3A, length + 4, 0x0A, 0, 0x12, length])?;
    bytes.add(text.as_bytes())?;
    Ok(())
}

/// The frames of output, one for each number from 0 up to a count: the number in decimal digits.
fn many(alloc: Global, count: u32) -> Result<Bytes> {
    let mut bytes = Bytes::new(alloc);
    for number in 0..count {
        add_output(&mut bytes, format!(in alloc; "{number}")?.as_str())?;
    }
    Ok(bytes)
}

/// A step of a script: its word, a link, and the rest.
pub fn step_of(alloc: Global, word: &str, words: &str) -> Result<Step> {
    let (link, rest) = words.split_once(' ').unwrap_or((words, ""));
    match word {
        "break-turn" => return Ok(Step::BreakTurn),
        "wake" => return Ok(Step::Wake),
        "stop" => return Ok(Step::Stop),
        _ => (),
    }
    let link = link.parse::<u32>()?;
    match word {
        "open" => Ok(Step::Open(link)),
        "give" => Ok(Step::Give(link, bytes_of(alloc, rest)?)),
        "many" => Ok(Step::Give(link, many(alloc, rest.parse::<u32>()?)?)),
        "room" => Ok(Step::Room(link, rest.parse::<u32>()?)),
        "last" => Ok(Step::Last(link)),
        "break" => Ok(Step::Break(link)),
        _ => Err(anyhow!("a step")),
    }
}
