//! Runs of the program, and what becomes of its outside.

ghost use Rattle.std.specs.Prelude.{◌≡◌, length, IfOk};

use crate::outside::{Heard, Still};
use crate::show::show_all;
use anyhow::{Result, anyhow};
use lsv_base::{Bytes, List, MemSink, MemSource, MemTexts, NoMem, Text};
use lsv_hook::{Formatter, JsonLines, SudoLines};
use lsv_lane::Bay;
use lsv_link::{Answer, Cut, MemLink};
use lsv_mask::{Prompt, TextSearch};
use lsv_port::{MemPort, NoBell};
use lsv_serve::{Kept, Outside, logsrvd, words_ask_for_few_lanes};
use lsv_turn::NoTape;
use lsvt_doubles::{Hostile, Plan, Watched};
use std::alloc::Global;
use std::mem;
use std::sync::Wait;
use std::thread::Threads;

/// The path of the settings file.
const CONF: &str = "conf";

/// What a run stands in, all in memory.
pub type MemOutside = Outside<
    MemSource,
    MemSink,
    Watched,
    Hostile,
    Still,
    NoTape,
    MemTexts,
    MemLink,
    Heard,
    NoBell,
>;

/// What the runs over a store have in common: the store and the settings file; and what the next run has.
#[derive(Drop)]
pub struct World {
    alloc: Global,
    disk: Hostile,
    conf: Bytes,
    /// The input of the next run of `once`.
    pieces: List<Bytes>,
    /// The connections of the next run of `relay`.
    answers: Vec<List<Answer>>,
    cuts: Vec<Cut>,
    /// These calls of its link fail.
    failing: Vec<u64>,
}

/// An empty disk.
fn empty(alloc: Global) -> Result<Hostile> {
    Hostile::new(alloc, Plan::Whole).map_err(|_| anyhow!("out of memory"))
}

impl World {
    /// An empty store, and an empty settings file.
    pub fn new(alloc: Global) -> Result<Self> {
        Ok(World {
            alloc,
            disk: empty(alloc)?,
            conf: Bytes::new(alloc),
            pieces: List::new(alloc),
            answers: Vec::new(alloc),
            cuts: Vec::new(alloc),
            failing: Vec::new(alloc),
        })
    }

    /// A line more of the settings file.
    pub fn add_line(&mut self, _alloc: Global, line: &str) -> Result<()> {
        self.conf.add(line.as_bytes())?;
        self.conf.add(b"\n")?;
        Ok(())
    }

    /// A piece more of the input.
    pub fn add_piece(&mut self, piece: Bytes) -> Result<()> {
        match self.pieces.push(piece) {
            Ok(()) => Ok(()),
            Err((_, fault)) => Err(fault.into()),
        }
    }

    /// A connection more.
    pub fn add_answer(&mut self, answers: List<Answer>, cut: Cut) -> Result<()> {
        self.answers.push(answers)?;
        Ok(self.cuts.push(cut)?)
    }

    /// The call of the link with this number fails.
    pub fn fail(&mut self, call: u64) -> Result<()> {
        Ok(self.failing.push(call)?)
    }

    /// The texts that a run can read.
    fn texts(&self) -> Result<MemTexts, NoMem> {
        let mut texts = Vec::new(self.alloc);
        texts.push(Text {
            path: Bytes::of(self.alloc, CONF.as_bytes())?,
            bytes: self.conf.copy(self.alloc)?,
        })?;
        Ok(MemTexts::new(self.alloc, List::from_vec(texts), Vec::new(self.alloc)))
    }

    /// The link of the next run.
    fn link(&mut self) -> MemLink {
        let alloc = self.alloc;
        MemLink::new(
            alloc,
            mem::replace(&mut self.answers, Vec::new(alloc)),
            mem::replace(&mut self.cuts, Vec::new(alloc)),
            mem::replace(&mut self.failing, Vec::new(alloc)),
        )
    }
}

/// The words of a line, between single spaces.
fn words_of(alloc: Global, line: &str) -> Result<List<Bytes>, NoMem> {
    let mut words = Vec::new(alloc);
    for word in line.split(' ') {
        words.push(Bytes::of(alloc, word.as_bytes())?)?;
    }
    Ok(List::from_vec(words))
}

/// What a lane after lane 0 works with: its disk is empty.
fn bay(alloc: Global) -> Result<Bay<Hostile, Still, NoTape>> {
    Ok(Bay {
        disk: empty(alloc)?,
        clock: Still,
        tape: NoTape,
    })
}

/// Those of seven lanes.
fn bays(alloc: Global) -> Result<Vec<Bay<Hostile, Still, NoTape>>>
    ensures { IfOk result (λ bays. length bays.items ≡ 7) }
{
    Ok(vec![in alloc;
        bay(alloc)?,
        bay(alloc)?,
        bay(alloc)?,
        bay(alloc)?,
        bay(alloc)?,
        bay(alloc)?,
        bay(alloc)?,
    ]?)
}

/// A port over which nothing comes.
fn ports(alloc: Global) -> Result<Vec<Watched>>
    ensures { IfOk result (λ ports. length ports.items ≡ 1) }
{
    let port = Watched::new(alloc, MemPort::new(alloc, Vec::new(alloc)));
    Ok(vec![in alloc; port]?)
}

/// What a run stands in, with the bays of eight lanes. The store of lane 0 is taken for it.
fn outside(world: &mut World) -> Result<MemOutside>
    ensures { IfOk result (λ out. (length out.ports.items ≡ 1) × (length out.others.items ≡ 7)) }
{
    let alloc = world.alloc;
    let ports = ports(alloc)?;
    let others = bays(alloc)?;
    let texts = world.texts()?;
    let empty = empty(alloc)?;
    // Nothing fails from here on.
    let disk = mem::replace(&mut world.disk, empty);
    let pieces = mem::replace(&mut world.pieces, List::new(alloc));
    let link = world.link();
    Ok(Outside {
        source: MemSource::new(alloc, pieces, Vec::new(alloc)),
        sink: MemSink::new(alloc, Vec::new(alloc)),
        ports,
        bells: Vec::new(alloc),
        disk,
        clock: Still,
        tape: NoTape,
        others,
        texts,
        link,
        notices: Heard {
            alloc,
            reports: Vec::new(alloc),
        },
    })
}

/// Runs the program, and prints what it put on its connections, what it reported, and how it ended.
pub fn show<R: Threads + Wait + Sync>(
    rt: &HostRuntime,
    threads: &R,
    world: &mut World,
    line: &str,
) -> Result<()> {
    let alloc = rt.alloc();
    let words = words_of(alloc, line)?;
    let out = outside(world)?;
    let kept = Kept {
        sudo: Formatter::sudo(),
        json: Formatter::json(),
        prompt: Prompt::new(TextSearch),
    };
    words_ask_for_few_lanes(&words);
    let (out, status) = logsrvd(threads, alloc, &words, out, kept);
    show_all(rt, &out, status)?;
    world.disk = out.disk;
    Ok(())
}
