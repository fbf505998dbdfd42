//! Cases of command words.

ghost use Rattle.std.specs.Prelude.{IsTrue, IfOk};
ghost use Rattle.std.specs.List.{list_all};
ghost use Rattle.std.specs.Str.{is_utf8};

use anyhow::{Result, anyhow};
use lsv_args::{Command, Opts, read_words};
use lsv_base::{Bytes, List, NoMem};
use std::alloc::Global;
use std::str;

/// The words of a line, between single spaces.
fn words_of(alloc: Global, line: &str) -> Result<List<Bytes>, NoMem>
    ensures { IfOk result (λ words. IsTrue (list_all is_utf8 words)) }
{
    let mut words = Vec::new(alloc);
    for word in line.split(' ') {
        words.push(Bytes::of(alloc, word.as_bytes())?)?;
    }
    Ok(List::from_vec(words))
}

/// Prints what a command is told.
fn show(rt: &HostRuntime, command: &str, opts: &Opts) -> Result<()> {
    let conf = str::from_utf8(opts.conf.as_slice()).map_err(|_| anyhow!("no text"))?;
    print!(rt;
        "{command} {conf:?} lanes {} workers {}",
        opts.lanes, opts.workers
    )?;
    match opts.stop_after {
        Some(n) => println!(rt; " stop after {n}")?,
        None => println!(rt; "")?,
    }
    Ok(())
}

/// Prints what words ask for.
fn answer(rt: &HostRuntime, words: &List<Bytes>) -> Result<()>
    requires { IsTrue (list_all is_utf8 words.now) }
{
    match read_words(rt.alloc(), words) {
        Ok(Command::Once(opts)) => show(rt, "once", &opts),
        Ok(Command::Serve(opts)) => show(rt, "serve", &opts),
        Ok(Command::Relay(opts)) => show(rt, "relay", &opts),
        Ok(Command::Check(opts)) => show(rt, "check", &opts),
        Ok(Command::Load(opts, count)) => {
            print!(rt; "{count} ")?;
            show(rt, "load", &opts)
        }
        Err(fault) => Ok(println!(rt; "{fault}")?),
    }
}

/// What the words of a line ask for.
pub fn read(rt: &HostRuntime, line: &str) -> Result<()> {
    answer(rt, &words_of(rt.alloc(), line)?)
}

/// What no words ask for.
pub fn none(rt: &HostRuntime) -> Result<()> {
    answer(rt, &List::new(rt.alloc()))
}
