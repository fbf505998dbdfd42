//! Reads cases from standard input, a line each, and prints what `sudo_sendlog` makes of them over a store, a link and a
//! sink in memory. README.md says which cases there are.
#![tactic(auto)]

mod run;
mod store;

use crate::run::{Held, Setting};
use anyhow::{Result, anyhow};
use lsv_link::{Cut, MemLink};
use lsv_send::{an_other_end_serves, sent_means_held};
use std::alloc::Global;
use std::io::{BufRead, BufReader};
use std::process::ExitCode;

/// The answers of a connection: `end` or `silent`, after how many bytes, and pairs of the count of bytes that must have been
/// put, a colon, and the digits of the bytes.
fn set_answers(alloc: Global, setting: &mut Setting, words: &str) -> Result<()> {
    let mut words = words.split(' ');
    let kind = words.next().ok_or(anyhow!("a cut"))?;
    let after = words.next().ok_or(anyhow!("a count"))?.parse::<u64>()?;
    setting.cut = match kind {
        "end" => Cut::End(after),
        _ => Cut::Silent(after),
    };
    setting.answers = Vec::new(alloc);
    for word in words {
        let (hold, digits) = word.split_once(':').ok_or(anyhow!("an answer"))?;
        let bytes = hex::decode(alloc, digits)?;
        setting.answers.push(Held {
            hold: hold.parse::<u64>()?,
            bytes,
        })?;
    }
    Ok(())
}

/// Prints what is made of one case. A line that is none is printed as it is.
fn answer(rt: &HostRuntime, setting: &mut Setting, case: &str) -> Result<()> {
    let alloc = rt.alloc();
    let (word, rest) = case.split_once(' ').unwrap_or((case, ""));
    match word {
        "store" => {
            setting.files = Vec::new(alloc);
            Ok(())
        }
        "file" => {
            let file = store::file_of(alloc, rest)?;
            Ok(setting.files.push(file)?)
        }
        "answer" => set_answers(alloc, setting, rest),
        "run" => run::show(rt, setting, run::NONE, rest),
        "fail" => run::fail(rt, setting, rest),
        "each" => run::each(rt, setting, rest),
        _ => Ok(println!(rt; "{case}")?),
    }
}

fn answer_all(rt: &HostRuntime) -> Result<()> {
    sent_means_held::<MemLink>();
    an_other_end_serves::<MemLink>();
    let alloc = rt.alloc();
    let mut setting = Setting {
        files: Vec::new(alloc),
        answers: Vec::new(alloc),
        cut: Cut::End(0),
    };
    for case in BufReader::new(alloc, rt.reader())?.lines(alloc) {
        answer(rt, &mut setting, case?.as_str())?;
    }
    Ok(())
}

fn main(rt: HostRuntime) -> ExitCode {
    match answer_all(&rt) {
        Ok(()) => ExitCode::SUCCESS,
        Err(e) => {
            let _ = eprintln!(rt; "lsvt_rows_send: {e}");
            ExitCode::FAILURE
        }
    }
}
