//! How bytes and records stand in a case.

use anyhow::{Result, anyhow};
use lsv_base::{Bytes, List};
use lsv_record::{Record, Stream};
use md5::{Digest, Md5};
use std::alloc::Global;

/// More bytes than these are printed as their count and their digest.
const MOST: usize = 65_536;

/// The bytes of a word: hexadecimal digits, `-` for none, or a byte that comes N times by `*N`, with `+` between such parts.
pub fn bytes_of(alloc: Global, word: &str) -> Result<Bytes> {
    let mut bytes = Bytes::new(alloc);
    for part in word.split('+') {
        match part.split_once('*') {
            Some((digits, times)) => {
                let part = hex::decode(alloc, digits)?;
                let byte = part.first().copied().ok_or(anyhow!("a byte"))?;
                bytes.add(&vec![in alloc; byte; times.parse::<usize>()?]?)?;
            }
            None if part == "-" => (),
            None => bytes.add(&hex::decode(alloc, part)?)?,
        }
    }
    Ok(bytes)
}

/// The digits of bytes, and `-` of none.
pub fn digits_of(alloc: Global, bytes: &Bytes) -> Result<String> {
    let bytes = bytes.as_slice();
    if bytes.is_empty() {
        return Ok(String::from_str(alloc, "-")?);
    }
    if bytes.len() <= MOST {
        return Ok(hex::encode(alloc, bytes)?);
    }
    let digest = Md5::digest(bytes);
    let digits = hex::encode(alloc, digest.as_slice())?;
    Ok(format!(in alloc; "{}:{digits}", bytes.len())?)
}

/// The stream of an event's number.
fn stream_of(event: &str) -> Option<Stream> {
    match event {
        "0" => Some(Stream::Stdin),
        "1" => Some(Stream::Stdout),
        "2" => Some(Stream::Stderr),
        "3" => Some(Stream::Ttyin),
        "4" => Some(Stream::Ttyout),
        _ => None,
    }
}

/// A record: the number of its event, its delay in nanoseconds, and its data, its rows and columns, or its signal, with
/// colons between.
pub fn record_of(alloc: Global, word: &str) -> Result<Record> {
    let (event, rest) = word.split_once(':').ok_or(anyhow!("a record"))?;
    let (delay, rest) = rest.split_once(':').ok_or(anyhow!("a delay"))?;
    let delay = delay.parse::<u64>()?;
    if let Some(stream) = stream_of(event) {
        let bytes = bytes_of(alloc, rest)?;
        return Ok(Record::Io {
            delay,
            stream,
            bytes,
        });
    }
    if event == "7" {
        let signal = bytes_of(alloc, rest)?;
        return Ok(Record::Suspend { delay, signal });
    }
    let (rows, cols) = rest.split_once(':').ok_or(anyhow!("a size"))?;
    let rows = rows.parse::<u32>()?;
    let cols = cols.parse::<u32>()?;
    Ok(Record::Winsize { delay, rows, cols })
}

/// The records of a case.
pub fn records_of(alloc: Global, words: &str) -> Result<List<Record>> {
    let mut records = Vec::new(alloc);
    for word in words.split_whitespace() {
        records.push(record_of(alloc, word)?)?;
    }
    Ok(List::from_vec(records))
}
