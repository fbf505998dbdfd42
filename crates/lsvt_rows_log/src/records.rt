//! Records and a command's information, as they stand in a line.

ghost use Rattle.std.specs.Prelude.{IfOk};
ghost use Rattle.lsv_record.specs.Records.{IsValid};

use anyhow::{Result, anyhow};
use lsv_base::{Bytes, List, Point};
use lsv_info::{Entry, Value};
use lsv_record::{Record, Stream};
use std::alloc::Global;

/// The most bytes of data in a record.
const MOST: usize = 2_097_152;

/// The greatest number of rows or columns.
const WIDEST: u32 = 2_147_483_647;

/// A number of nanoseconds.
pub fn point_of(word: &str) -> Result<Point> {
    Point::new(word.parse::<u64>()?).ok_or(anyhow!("a point"))
}

fn bytes_of(alloc: Global, digits: &str) -> Result<Bytes> {
    Ok(Bytes::of(alloc, &hex::decode(alloc, digits)?)?)
}

fn stream_of(word: &str) -> Result<Stream> {
    match word {
        "stdin" => Ok(Stream::Stdin),
        "stdout" => Ok(Stream::Stdout),
        "stderr" => Ok(Stream::Stderr),
        "ttyin" => Ok(Stream::Ttyin),
        "ttyout" => Ok(Stream::Ttyout),
        _ => Err(anyhow!("a stream")),
    }
}

/// The record of a line: its delay in nanoseconds, and its stream with the digits of its data, or `winsize` with rows and
/// columns.
pub fn record_of(alloc: Global, words: &str) -> Result<Record>
    ensures { IfOk result IsValid }
{
    let (delay, rest) = words.split_once(' ').ok_or(anyhow!("a delay"))?;
    let (event, rest) = rest.split_once(' ').unwrap_or((rest, ""));
    let delay = point_of(delay)?;
    match event {
        "winsize" => window_of(delay, rest),
        _ => data_of(alloc, delay, event, rest),
    }
}

fn data_of(alloc: Global, delay: Point, event: &str, digits: &str) -> Result<Record>
    ensures { IfOk result IsValid }
{
    let stream = stream_of(event)?;
    let bytes = bytes_of(alloc, digits)?;
    if bytes.as_slice().len() > MOST {
        return Err(anyhow!("data of a record"));
    }
    Ok(Record::Io {
        delay: delay.nanos(),
        stream,
        bytes,
    })
}

fn window_of(delay: Point, words: &str) -> Result<Record>
    ensures { IfOk result IsValid }
{
    let (rows, cols) = words.split_once(' ').ok_or(anyhow!("rows and columns"))?;
    let rows = rows.parse::<u32>()?;
    let cols = cols.parse::<u32>()?;
    if rows > WIDEST || cols > WIDEST {
        return Err(anyhow!("a window"));
    }
    Ok(Record::Winsize {
        delay: delay.nanos(),
        rows,
        cols,
    })
}

fn texts_of(alloc: Global, words: &str) -> Result<List<Bytes>> {
    let mut texts = Vec::new(alloc);
    for word in words.split(' ') {
        texts.push(bytes_of(alloc, word)?)?;
    }
    Ok(List::from_vec(texts))
}

fn value_of(alloc: Global, kind: &str, words: &str) -> Result<Value> {
    match kind {
        "number" => Ok(Value::Num(words.parse::<i64>()?)),
        "text" => Ok(Value::Text(bytes_of(alloc, words)?)),
        "texts" => Ok(Value::Texts(texts_of(alloc, words)?)),
        _ => Err(anyhow!("a value")),
    }
}

/// The entry of a line: its key, and a number, or a text or several by the digits of their bytes.
pub fn entry_of(alloc: Global, words: &str) -> Result<Entry> {
    let (key, rest) = words.split_once(' ').ok_or(anyhow!("a key"))?;
    let (kind, value) = rest.split_once(' ').unwrap_or((rest, ""));
    Ok(Entry {
        key: Bytes::of(alloc, key.as_bytes())?,
        value: value_of(alloc, kind, value)?,
    })
}
