//! Cases of settings files.

use anyhow::{Result, anyhow};
use lsv_base::{Bytes, List};
use lsv_conf::{Conf, ConfFault, Note, Refused, RefusedLine, read_conf};
use percent_encoding::percent_decode;
use std::alloc::Global;
use std::str;

/// The text of bytes.
fn text(bytes: &Bytes) -> Result<&str> {
    str::from_utf8(bytes.as_slice()).map_err(|_| anyhow!("no text"))
}

/// Prints the texts that ask for a password, and the keys that were passed over.
fn show_lists(rt: &HostRuntime, prompts: &List<Bytes>, notes: &List<Note>) -> Result<()> {
    print!(rt; " prompts")?;
    for prompt in prompts.as_slice() {
        print!(rt; " {:?}", text(prompt)?)?;
    }
    for note in notes.as_slice() {
        print!(rt; " line {} {:?}", note.line, text(&note.key)?)?;
    }
    println!(rt; "")?;
    Ok(())
}

/// Prints settings in one line.
fn show(rt: &HostRuntime, conf: &Conf) -> Result<()> {
    print!(rt; "listen_address {:?}", text(&conf.listen)?)?;
    if let Some(host) = &conf.relay_host {
        print!(rt; " relay_host {:?}", text(host)?)?;
    }
    print!(rt; " store_first {}", conf.store_first)?;
    print!(rt; " iolog_dir {:?}", text(&conf.iolog_dir)?)?;
    print!(rt; " log_passwords {}", conf.log_passwords)?;
    print!(rt; " log_format {:?}", conf.format)?;
    print!(rt; " log_exit {}", conf.log_exit)?;
    print!(rt; " path {:?}", text(&conf.path)?)?;
    show_lists(rt, &conf.prompts, &conf.notes)
}

/// The bytes of a text in which some are written as `%` and two hexadecimal digits.
fn unescaped(alloc: Global, escaped: &str) -> Result<Vec<u8>> {
    let mut bytes = Vec::new(alloc);
    percent_decode(escaped.as_bytes()).append_to(&mut bytes)?;
    Ok(bytes)
}

/// The settings of a file, or the line that is refused.
pub fn read(rt: &HostRuntime, escaped: &str) -> Result<()> {
    let alloc = rt.alloc();
    let bytes = unescaped(alloc, escaped)?;
    match read_conf(alloc, bytes.as_slice()) {
        Ok(conf) => show(rt, &conf),
        Err(ConfFault::Refused(refused)) => {
            Ok(println!(rt; "settings line {}", refused.first.line)?)
        }
        Err(fault) => Err(fault.into()),
    }
}

/// Prints a refused line and the reason.
fn show_refused(rt: &HostRuntime, refused: &RefusedLine) -> Result<()> {
    print!(rt; "{} ", refused.line)?;
    match &refused.why {
        Refused::NotUtf8 => print!(rt; "not UTF-8")?,
        Refused::NoForm => print!(rt; "no form")?,
        Refused::NoSection => print!(rt; "no section")?,
        Refused::Value(wrong) => {
            let (key, value) = (text(&wrong.key)?, text(&wrong.value)?);
            print!(rt; "{:?} {key:?} {value:?}", wrong.takes)?;
        }
    }
    Ok(())
}

/// All lines of a file that are refused, with semicolons between them.
pub fn read_refused(rt: &HostRuntime, escaped: &str) -> Result<()> {
    let alloc = rt.alloc();
    let bytes = unescaped(alloc, escaped)?;
    let refused = match read_conf(alloc, bytes.as_slice()) {
        Ok(_) => return Ok(println!(rt; "none")?),
        Err(ConfFault::Refused(refused)) => refused,
        Err(fault) => return Err(fault.into()),
    };
    show_refused(rt, &refused.first)?;
    for refused in refused.more.as_slice() {
        print!(rt; "; ")?;
        show_refused(rt, refused)?;
    }
    Ok(println!(rt; "")?)
}
