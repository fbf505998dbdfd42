//! Reads cases from standard input, a line each, and prints what `sudoreplay` and `sudo_logcheck` make of them over a store in
//! memory.
//! README.md says which cases there are.
#![tactic(auto)]

mod across;
mod check;
mod outside;
mod restart;
mod run;
mod said;
mod store;

use crate::outside::{Acts, Gap};
use anyhow::Result;
use lsv_disk::MemDisk;
use std::io::{BufRead, BufReader};
use std::mem::replace;
use std::process::ExitCode;

/// The store of the cases so far, the one that was kept before it, the calls of the screen that fail, and the outside: what
/// others do, and a gap.
#[derive(Drop)]
struct Setting {
    disk: MemDisk,
    before: MemDisk,
    fail: u64,
    acts: Acts,
    gap: Gap,
}

/// Prints what is made of one case. A line that is none is printed as it is.
fn answer(rt: &HostRuntime, setting: &mut Setting, case: &str) -> Result<()> {
    let alloc = rt.alloc();
    let (word, rest) = case.split_once(' ').unwrap_or((case, ""));
    match word {
        "store" => {
            setting.disk = store::empty(alloc)?;
            setting.fail = 0;
            setting.acts = Acts::none(alloc);
            setting.gap = Gap::none();
            Ok(())
        }
        "act" => setting.acts.add(alloc, rest),
        "gap" => {
            setting.gap = Gap::read(rest)?;
            Ok(())
        }
        "outside" => run::show_outside(
            rt,
            &setting.disk,
            setting.fail,
            rest,
            &mut setting.acts,
            setting.gap,
        ),
        "restart" => restart::show(rt, &setting.disk, rest),
        "file" => store::put(alloc, &mut setting.disk, rest),
        "copy" => store::copy(alloc, &mut setting.disk, rest),
        "fails" => {
            setting.fail = rest.parse::<u64>()?;
            Ok(())
        }
        "run" => run::show(rt, &mut setting.disk, setting.fail, rest),
        "check" => check::show(rt, &mut setting.disk, setting.fail, rest),
        "checksum" => check::sum(rt, &mut setting.disk, rest),
        "faults" => check::fail_each(rt, &mut setting.disk, rest),
        "keep" => {
            setting.before = replace(&mut setting.disk, store::empty(alloc)?);
            Ok(())
        }
        "across" => across::show(rt, &setting.before, &setting.disk, rest),
        "bad" => said::bad(rt, rest),
        "unfit" => said::find(rt, rest),
        "sum" => run::sum(rt, &mut setting.disk, setting.fail, rest),
        _ => Ok(println!(rt; "{case}")?),
    }
}

fn answer_all(rt: &HostRuntime) -> Result<()> {
    let alloc = rt.alloc();
    let mut setting = Setting {
        disk: store::empty(alloc)?,
        before: store::empty(alloc)?,
        fail: 0,
        acts: Acts::none(alloc),
        gap: Gap::none(),
    };
    for case in BufReader::new(alloc, rt.reader())?.lines(alloc) {
        answer(rt, &mut setting, case?.as_str())?;
    }
    Ok(())
}

fn main(rt: HostRuntime) -> ExitCode {
    match answer_all(&rt) {
        Ok(()) => ExitCode::SUCCESS,
        Err(e) => {
            let _ = eprintln!(rt; "lsvt_rows_replay: {e}");
            ExitCode::FAILURE
        }
    }
}
