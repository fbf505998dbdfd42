//! Cases of points, log numbers, and what is outside, in memory.

use crate::words::{bytes_of, digits_of};
use anyhow::{Result, anyhow};
use lsv_base::{
    Bytes, List, LogNo, MemSink, MemSource, MemTexts, Point, Sink, Source, Text, Texts,
};
use std::alloc::Global;

/// The six digits of a log number.
pub fn digits(rt: &HostRuntime, word: &str) -> Result<()> {
    match LogNo::new(word.parse::<u32>()?) {
        Some(log) => println!(rt; "{}", hex::encode(rt.alloc(), &log.digits())?)?,
        None => println!(rt; "no log number")?,
    }
    Ok(())
}

/// A point of these nanoseconds as a time, and the point that is later by some more.
pub fn point(rt: &HostRuntime, words: &str) -> Result<()> {
    let (nanos, more) = words.split_once(' ').ok_or(anyhow!("nanoseconds"))?;
    let Some(point) = Point::new(nanos.parse::<u64>()?) else {
        return Ok(println!(rt; "no point")?);
    };
    let time = point.spec();
    let later = point.plus(more.parse::<u64>()?).map(Point::nanos);
    println!(rt; "{} {} {} {later:?}", point.nanos(), time.sec, time.nsec)?;
    Ok(())
}

/// The call that fails, and the rest of a case.
fn failing(alloc: Global, words: &str) -> Result<(Vec<u64>, &str)> {
    let (number, rest) = words.split_once(' ').ok_or(anyhow!("a call"))?;
    Ok((vec![in alloc; number.parse::<u64>()?]?, rest))
}

/// What a source gives: the read that fails, its pieces, and the size of each read's buffer, whose bytes are FF before.
pub fn source(rt: &HostRuntime, words: &str) -> Result<()> {
    let alloc = rt.alloc();
    let (fail, rest) = failing(alloc, words)?;
    let (pieces, sizes) = rest.split_once(' ').ok_or(anyhow!("sizes"))?;
    let mut list = Vec::new(alloc);
    for piece in pieces.split(',') {
        list.push(bytes_of(alloc, piece)?)?;
    }
    let mut source = MemSource::new(alloc, List::from_vec(list), fail);
    for size in sizes.split(',') {
        let mut buf = vec![in alloc; 0xFFu8; size.parse::<usize>()?]?;
        match source.read(&mut buf) {
            Ok(count) => print!(rt; "{count} ")?,
            Err(fault) => print!(rt; "{fault} ")?,
        }
        println!(rt; "{}", hex::encode(alloc, &buf)?)?;
    }
    println!(rt; "{} refused", source.refused())?;
    Ok(())
}

/// What a sink has: the write that fails, and what is written.
pub fn sink(rt: &HostRuntime, words: &str) -> Result<()> {
    let alloc = rt.alloc();
    let (fail, rest) = failing(alloc, words)?;
    let mut sink = MemSink::new(alloc, fail);
    for piece in rest.split(',') {
        if let Err(fault) = sink.write(bytes_of(alloc, piece)?.as_slice()) {
            println!(rt; "{fault}")?;
        }
    }
    let digits = hex::encode(alloc, sink.bytes())?;
    println!(rt; "{digits}, {} refused", sink.refused())?;
    Ok(())
}

/// What texts answer: the call that fails, paths with their texts, and the paths that are asked for.
pub fn texts(rt: &HostRuntime, words: &str) -> Result<()> {
    let alloc = rt.alloc();
    let (fail, rest) = failing(alloc, words)?;
    let (known, asked) = rest.split_once(' ').ok_or(anyhow!("paths"))?;
    let mut list = Vec::new(alloc);
    for word in known.split(',') {
        let (path, digits) = word.split_once('=').ok_or(anyhow!("a text"))?;
        list.push(Text {
            path: Bytes::of(alloc, path.as_bytes())?,
            bytes: bytes_of(alloc, digits)?,
        })?;
    }
    let mut texts = MemTexts::new(alloc, List::from_vec(list), fail);
    for path in asked.split(',') {
        match texts.text(alloc, path) {
            Ok(Some(text)) => println!(rt; "{}", digits_of(alloc, &text)?)?,
            Ok(None) => println!(rt; "no text")?,
            Err(fault) => println!(rt; "{fault}")?,
        }
    }
    println!(rt; "{} refused", texts.refused())?;
    Ok(())
}
