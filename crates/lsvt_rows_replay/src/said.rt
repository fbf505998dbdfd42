//! What is said of words that are no search, or no command line.

use crate::run::words_of;
use anyhow::{Result, anyhow};
use lsv_base::Bytes;
use lsv_replay::are_text;
use lsv_replay_args::{ArgFault, Unfit, find_unfit};
use lsv_search::{ExprFault, bad_word, read_expr};
use std::str;

/// Prints the first word of a search that isn't taken, and why.
pub fn bad(rt: &HostRuntime, line: &str) -> Result<()> {
    let alloc = rt.alloc();
    let words = words_of(alloc, line)?;
    if !are_text(words.as_slice()) {
        return Err(anyhow!("no text"));
    }
    match read_expr(alloc, &words) {
        Ok(_) => println!(rt; "none")?,
        Err(ExprFault::BadExpression(at)) => {
            println!(rt; "word {at} {:?}", bad_word(&words, at))?;
        }
        Err(ExprFault::NoMem) => return Err(anyhow!("out of memory")),
    }
    Ok(())
}

/// Prints what of words is out of its form.
pub fn find(rt: &HostRuntime, line: &str) -> Result<()> {
    let alloc = rt.alloc();
    let words = words_of(alloc, line)?;
    if !are_text(words.as_slice()) {
        return Err(anyhow!("no text"));
    }
    match find_unfit(alloc, &words) {
        Ok(None) => println!(rt; "none")?,
        Ok(Some(Unfit::Streams(value))) => show(rt, "Streams", &value)?,
        Ok(Some(Unfit::Longest(value))) => show(rt, "Longest", &value)?,
        Ok(Some(Unfit::Speed(value))) => show(rt, "Speed", &value)?,
        Ok(Some(Unfit::FollowedListing)) => println!(rt; "FollowedListing")?,
        Ok(Some(Unfit::NoIdentifier)) => println!(rt; "NoIdentifier")?,
        Ok(Some(Unfit::Identifiers(value))) => show(rt, "Identifiers", &value)?,
        Err(ArgFault::Usage) => println!(rt; "usage")?,
        Err(ArgFault::NoMem) => return Err(anyhow!("out of memory")),
    }
    Ok(())
}

/// Prints a word and a value.
fn show(rt: &HostRuntime, name: &str, value: &Bytes) -> Result<()> {
    let value = str::from_utf8(value.as_slice()).map_err(|_| anyhow!("no text"))?;
    Ok(println!(rt; "{name} {value}")?)
}
