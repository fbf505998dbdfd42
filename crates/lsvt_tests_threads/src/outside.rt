//! What a run of a test stands in.

ghost use Rattle.std.specs.Prelude.{◌≡◌, ◌≤◌, [], length, IfOk};
ghost use Rattle.lsv_event.specs.declared.event.Kind.TheVariants as kinds;

use crate::disks::Slow;
use crate::ports::Meets;
use lsv_base::{Bytes, Clock, List, LogNo, MemSink, MemSource, MemTexts, NoMem, TimeSpec};
use lsv_disk::Disk;
use lsv_forward::{Gaps, Outcome, RelayNotices};
use lsv_hook::{Formatter, JsonLines, SudoLines};
use lsv_lane::Bay;
use lsv_link::MemLink;
use lsv_mask::{Prompt, TextSearch};
use lsv_port::NoBell;
use lsv_queue::Gap;
use lsv_serve::{Kept, Outside, Status, logsrvd, words_ask_for_few_lanes};
use lsv_service::{Notices, Site};
use lsv_session::Job;
use lsv_turn::Tape;
use lsvt_doubles::{Hostile, Plan};
use std::alloc::Global;
use std::sync::Wait;
use std::test::Fail;
use std::thread::Threads;

/// The bays of the lanes after lane 0.
const OTHERS: usize = 7;

/// A clock that stands still.
#[derive(Drop)]
pub(crate) struct Still;

impl Clock for Still {
    fn now(&mut self) -> TimeSpec {
        TimeSpec {
            sec: 1_700_000_000,
            nsec: 0,
        }
    }
}

/// A tape that keeps how many jobs the largest turn had. It may refuse memory for all turns.
#[derive(Drop)]
pub(crate) struct Largest {
    pub jobs: usize,
    refuses: bool,
}

impl Largest {
    /// There was no turn.
    pub fn new(refuses: bool) -> Self {
        Largest { jobs: 0, refuses }
    }
}

impl Tape for Largest {
    ghost tells = { ⊥ };

    ghost turns = { λ _. [] };

    ghost has_room = { λ _ _. Unit {0} };

    fn room(&mut self, _jobs: &[Job]) -> Result<(), NoMem> {
        if self.refuses { Err(NoMem) } else { Ok(()) }
    }

    fn keep(&mut self, jobs: &[Job], _now: TimeSpec, _gap: Option<Gap<Job>>) {
        self.jobs = self.jobs.max(jobs.len());
    }
}

/// Nobody, who is told how a run goes.
#[derive(Drop)]
pub(crate) struct Nobody;

impl Notices for Nobody {
    fn serving(&mut self, _site: &Site<'_>, _last: u32) {}
}

impl RelayNotices for Nobody {
    fn relaying(&mut self, _number: LogNo, _last: u32) {}

    fn relayed(&mut self, _number: LogNo, _outcome: &Outcome) {}
}

impl<D: Disk> Gaps<D> for Nobody {
    fn next(&mut self, _disk: &D, from: u32) -> u32 {
        from
    }
}

/// What a run of these ports stands in.
type TestOutside<'a> = Outside<
    MemSource,
    MemSink,
    Meets<'a>,
    Slow<'a>,
    Still,
    Largest,
    MemTexts,
    MemLink,
    Nobody,
    NoBell,
>;

/// An empty disk.
pub(crate) fn empty(alloc: Global) -> Result<Hostile, NoMem> {
    Hostile::new(alloc, Plan::Whole)
}

/// The bay of a lane of a test.
pub(crate) type TestBay<'a> = Bay<Slow<'a>, Still, Largest>;

/// A bay over a disk.
pub(crate) fn bay<'a>(disk: Slow<'a>) -> TestBay<'a> {
    Bay {
        disk,
        clock: Still,
        tape: Largest::new(false),
    }
}

/// A bay over a disk, whose lane gets no memory for a turn.
pub(crate) fn starved<'a>(disk: Slow<'a>) -> TestBay<'a> {
    Bay {
        disk,
        clock: Still,
        tape: Largest::new(true),
    }
}

/// What a run of these ports stands in, over the bays of lanes 0 and 1, and six more.
fn outside<'a>(
    alloc: Global,
    ports: Vec<Meets<'a>>,
    first: TestBay<'a>,
    second: TestBay<'a>,
) -> Result<TestOutside<'a>, NoMem>
    ensures ports { IfOk result (λ out. length out.ports.items ≡ length ports.entry.items) }
    ensures others { IfOk result (λ out. length out.others.items ≡ 7) }
{
    let mut others = Vec::with_capacity(alloc, OTHERS)?;
    others.push(second)?;
    others.push(bay(Slow::quick(empty(alloc)?)))?;
    others.push(bay(Slow::quick(empty(alloc)?)))?;
    others.push(bay(Slow::quick(empty(alloc)?)))?;
    others.push(bay(Slow::quick(empty(alloc)?)))?;
    others.push(bay(Slow::quick(empty(alloc)?)))?;
    others.push(bay(Slow::quick(empty(alloc)?)))?;
    let Bay { disk, clock, tape } = first;
    Ok(Outside {
        source: MemSource::new(alloc, List::new(alloc), Vec::new(alloc)),
        sink: MemSink::new(alloc, Vec::new(alloc)),
        ports,
        bells: Vec::new(alloc),
        disk,
        clock,
        tape,
        others,
        texts: MemTexts::new(alloc, List::new(alloc), Vec::new(alloc)),
        link: MemLink::new(alloc, Vec::new(alloc), Vec::new(alloc), Vec::new(alloc)),
        notices: Nobody,
    })
}

/// What the program is handed.
fn kept() -> Kept<SudoLines, JsonLines, TextSearch>
    ensures sudo { result.sudo.kind ≡ kinds.Sudo }
    ensures json { result.json.kind ≡ kinds.Json }
{
    Kept {
        sudo: Formatter::sudo(),
        json: Formatter::json(),
        prompt: Prompt::new(TextSearch),
    }
}

/// What was put on a link, and whether it is open after the run.
#[derive(Drop)]
pub(crate) struct Left {
    pub put: Vec<u8>,
    pub is_open: bool,
}

/// How a run ended, how many jobs the largest turn of lane 0 had, and what it left of the links, port by port.
#[derive(Drop)]
pub(crate) struct Ran {
    pub status: Status,
    pub jobs: usize,
    pub links: Vec<Left>,
}

/// What a run left of the links of these ports.
fn left_of(alloc: Global, ports: &[Meets<'_>]) -> Result<Vec<Left>, NoMem> {
    let mut links = Vec::new(alloc);
    for port in ports {
        let port = &port.port.port;
        for link in port.opened() {
            links.push(Left {
                put: port.output(*link).to_vec(alloc)?,
                is_open: port.is_open(*link),
            })?;
        }
    }
    Ok(links)
}

/// Runs the program by these words.
pub(crate) fn run<'a, R: Threads + Wait + Sync>(
    rt: &R,
    alloc: Global,
    words: &[&str],
    ports: Vec<Meets<'a>>,
    first: TestBay<'a>,
    second: TestBay<'a>,
) -> Result<Ran, Fail>
    requires ports { (1 ≤ length ports.items) × (length ports.items ≤ 64) }
{
    let mut given = Vec::new(alloc);
    for word in words {
        given.push(Bytes::of(alloc, word.as_bytes())?)?;
    }
    let given = List::from_vec(given);
    let out = outside(alloc, ports, first, second)?;
    words_ask_for_few_lanes(&given);
    let (out, status) = logsrvd(rt, alloc, &given, out, kept());
    Ok(Ran {
        status,
        jobs: out.tape.jobs,
        links: left_of(alloc, out.ports.as_slice())?,
    })
}
