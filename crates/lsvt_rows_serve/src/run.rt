//! Runs of the program, and what becomes of its outside.

ghost use Rattle.std.specs.Prelude.{◌≡◌, ◌≤◌, length, IfOk};

use crate::alone::serve_alone;
use crate::disk;
use crate::outside::{Heard, Still};
use crate::show::{show_all, show_alone};
use crate::tape::Jobs;
use anyhow::{Result, anyhow};
use lsv_base::{Bytes, List, MemSink, MemSource, MemTexts, NoMem, Text};
use lsv_hook::{Formatter, JsonLines, SudoLines};
use lsv_keeper::Policy;
use lsv_lane::Bay;
use lsv_link::MemLink;
use lsv_mask::{Prompt, TextSearch};
use lsv_port::{MemPort, NoBell, Step};
use lsv_serve::{Kept, Outside, logsrvd, words_ask_for_few_lanes};
use lsvt_doubles::{Hostile, Plan, Watched};
use std::alloc::Global;
use std::mem;
use std::sync::Wait;
use std::thread::Threads;

/// The path of the settings file.
const CONF: &str = "conf";

/// What a run stands in, all in memory.
pub type MemOutside = Outside<
    MemSource,
    MemSink,
    Watched,
    Hostile,
    Still,
    Jobs,
    MemTexts,
    MemLink,
    Heard,
    NoBell,
>;

/// The bays of the lanes after lane 0.
const OTHERS: usize = 7;

/// What the runs of a server have in common: its store, and its settings file.
#[derive(Drop)]
pub struct World {
    /// The disk of lane 0.
    pub disk: Hostile,
    /// The disks of the other lanes, in their order.
    others: Vec<Hostile>,
    /// The text of the settings file, where there is one.
    conf: Option<Bytes>,
    /// A reading of the settings file fails.
    pub is_unreadable: bool,
}

impl World {
    /// An empty store, and no settings file.
    pub fn new(alloc: Global) -> Result<Self> {
        let mut others = Vec::new(alloc);
        for _ in 0..OTHERS {
            others.push(disk::empty(alloc, Plan::Whole)?)?;
        }
        Ok(World {
            disk: disk::empty(alloc, Plan::Whole)?,
            others,
            conf: None,
            is_unreadable: false,
        })
    }

    /// A line more of the settings file.
    pub fn add_line(&mut self, alloc: Global, line: &str) -> Result<()> {
        let mut text = self.conf.take().unwrap_or(Bytes::new(alloc));
        text.add(line.as_bytes())?;
        text.add(b"\n")?;
        self.conf = Some(text);
        Ok(())
    }

    /// The texts that a run can read.
    fn texts(&self, alloc: Global) -> Result<MemTexts, NoMem> {
        let mut texts = Vec::new(alloc);
        if let Some(text) = &self.conf {
            texts.push(Text {
                path: Bytes::of(alloc, CONF.as_bytes())?,
                bytes: text.copy(alloc)?,
            })?;
        }
        let mut fail = Vec::new(alloc);
        if self.is_unreadable {
            fail.push(1)?;
        }
        Ok(MemTexts::new(alloc, List::from_vec(texts), fail))
    }
}

/// The words of a line, between single spaces.
fn words_of(alloc: Global, line: &str) -> Result<List<Bytes>, NoMem> {
    let mut words = Vec::new(alloc);
    for word in line.split(' ') {
        words.push(Bytes::of(alloc, word.as_bytes())?)?;
    }
    Ok(List::from_vec(words))
}

/// Event lines in sudo's form, but none of exits, and nothing is masked.
pub fn policy(alloc: Global) -> Policy<SudoLines, TextSearch> {
    Policy {
        formatter: Formatter::sudo(),
        log_exit: false,
        texts: List::new(alloc),
        prompt: Prompt::new(TextSearch),
    }
}

/// A port for each script.
fn ports_of(alloc: Global, scripts: Vec<Vec<Step>>) -> Result<Vec<Watched>>
    ensures { IfOk result (λ ports. (1 ≤ length ports.items) × (length ports.items ≤ 64)) }
{
    let mut ports = Vec::new(alloc);
    for script in scripts {
        ports.push(Watched::new(alloc, MemPort::new(alloc, script)))?;
    }
    if ports.is_empty() || ports.len() > 64 {
        return Err(anyhow!("from 1 to 64 ports"));
    }
    Ok(ports)
}

/// A bay for each of these disks.
fn bays_of(alloc: Global, disks: Vec<Hostile>) -> Result<Vec<Bay<Hostile, Still, Jobs>>>
    ensures { IfOk result (λ bays. length bays.items ≡ 7) }
{
    let mut bays = Vec::new(alloc);
    for disk in disks {
        bays.push(Bay {
            disk,
            clock: Still,
            tape: Jobs::new(alloc),
        })?;
    }
    if bays.len() != OTHERS {
        return Err(anyhow!("the disks of the lanes"));
    }
    Ok(bays)
}

/// What a run of these ports stands in. The store is taken for it.
fn outside(alloc: Global, world: &mut World, ports: Vec<Watched>) -> Result<MemOutside>
    ensures { IfOk result (λ out. (out.ports ≡ ports) × (length out.others.items ≡ 7)) }
{
    let texts = world.texts(alloc)?;
    let disk = mem::replace(&mut world.disk, disk::empty(alloc, Plan::Whole)?);
    let others = mem::replace(&mut world.others, Vec::new(alloc));
    Ok(Outside {
        source: MemSource::new(alloc, List::new(alloc), Vec::new(alloc)),
        sink: MemSink::new(alloc, Vec::new(alloc)),
        ports,
        bells: Vec::new(alloc),
        disk,
        clock: Still,
        tape: Jobs::new(alloc),
        others: bays_of(alloc, others)?,
        texts,
        link: MemLink::new(alloc, Vec::new(alloc), Vec::new(alloc), Vec::new(alloc)),
        notices: Heard {
            alloc,
            told: Vec::new(alloc),
        },
    })
}

/// Runs the program by these words, on threads. It prints what is the same for each schedule of them: what it put, what it kept,
/// how it ended, and what the store holds then.
pub fn show<R: Threads + Wait + Sync>(
    rt: &HostRuntime,
    threads: &R,
    world: &mut World,
    scripts: Vec<Vec<Step>>,
    line: &str,
) -> Result<()> {
    let alloc = rt.alloc();
    let words = words_of(alloc, line)?;
    let ports = ports_of(alloc, scripts)?;
    let out = outside(alloc, world, ports)?;
    let kept = Kept {
        sudo: Formatter::sudo(),
        json: Formatter::json(),
        prompt: Prompt::new(TextSearch),
    };
    words_ask_for_few_lanes(&words);
    let (mut out, status) = logsrvd(threads, alloc, &words, out, kept);
    show_all(rt, &mut out, status)?;
    world.disk = out.disk;
    for bay in out.others {
        world.others.push(bay.disk)?;
    }
    Ok(())
}

/// Serves the one port on one thread, and prints the same.
pub fn show_one(rt: &HostRuntime, world: &mut World, scripts: Vec<Vec<Step>>) -> Result<()> {
    let alloc = rt.alloc();
    let mut ports = ports_of(alloc, scripts)?;
    let Some(port) = ports.pop() else {
        return Err(anyhow!("a port"));
    };
    let disk = mem::replace(&mut world.disk, disk::empty(alloc, Plan::Whole)?);
    let mut left = serve_alone(alloc, port, disk)?;
    show_alone(rt, &mut left)?;
    world.disk = left.disk;
    Ok(())
}
