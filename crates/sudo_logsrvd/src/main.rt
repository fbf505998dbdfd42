//! The log server of sudo: it stores the sessions that sudo sends it.
#![tactic(auto)]

ghost use Rattle.std.specs.Prelude.{◌≡◌, ◌≤◌, ◌+◌, ◌-◌, length, IfOk};
ghost use Rattle.lsv_args.specs.Reading as told;
ghost use Rattle.lsv_args.specs.Reading.{Serve};
ghost use Rattle.lsv_serve.specs.Program.{Asks};

mod advice;
mod descriptors;
mod herald;
mod keys;
mod need;
mod relays;
mod settings;
mod told;
mod usage;

use crate::advice::{advise, advise_relay, show_forms};
use crate::herald::Herald;
use crate::need::{Need, need_of};
use crate::settings::Settings;
use lsv_base::{Bytes, List, Texts};
use lsv_disk::Disk;
use lsv_forward::{Gaps, RelayNotices};
use lsv_hook::Formatter;
use lsv_lane::Bay;
use lsv_mask::{Prompt, TextSearch};
use lsv_real::{
    ArgumentFault, MioBell, MioPort, StdSink, StdSource, WallClock, arguments, open_standard,
};
use lsv_real_disk::{FileDisk, RelayDisk};
use lsv_serve::{Kept, Outside, Status, logsrvd};
use lsv_service::Notices;
use lsv_tcp::TcpLink;
use lsv_turn::NoTape;
use std::alloc::AllocError;
use std::process::ExitCode;
use std::sync::Wait;
use std::thread::Threads;

/// The name that lines on standard error begin with.
const PROGRAM: &str = "sudo_logsrvd";

/// The ports of `serve`, as many as it has workers, and their bells in the same order. They share the listening socket.
fn ports(
    rt: HostRuntime,
    workers: u32,
) -> Result<(Vec<MioPort<HostRuntime>>, Vec<MioBell>), AllocError>
    requires { 1 ≤ workers }
    ensures { IfOk result (λ made. length made.0.items ≡ workers) }
{
    let mut ports = Vec::with_capacity(rt.alloc(), workers as usize)?;
    let mut bells = Vec::with_capacity(rt.alloc(), workers as usize)?;
    let first = MioPort::new(rt, rt, PROGRAM)?;
    for place in 1..workers {
        let _ = place;
        let port = first.beside(rt)?;
        bells.push(port.bell()?)?;
        ports.push(port)?;
    }
    bells.push(first.bell()?)?;
    ports.push(first)?;
    Ok((ports, bells))
}

/// What a lane works with, over this disk.
fn bay_of<D>(rt: HostRuntime, disk: D) -> Bay<D, WallClock, NoTape> {
    Bay {
        disk,
        clock: WallClock::new(rt),
        tape: NoTape,
    }
}

/// The bays of this many lanes after lane 0, which use the store of this disk.
fn bays_beside<W: Wait + Copy>(
    rt: HostRuntime,
    disk: &FileDisk<W>,
    count: u32,
) -> Result<Vec<Bay<FileDisk<W>, WallClock, NoTape>>, AllocError>
    ensures { IfOk result (λ bays. length bays.items ≡ count) }
{
    let mut bays = Vec::with_capacity(rt.alloc(), count as usize)?;
    for place in 0..count {
        let _ = place;
        bays.push(bay_of(rt, disk.beside()?))?;
    }
    Ok(bays)
}

/// The disk of a run, the bays of the lanes after lane 0, and who says what goes on.
#[derive(Drop)]
struct Over<D, N> {
    disk: D,
    others: Vec<Bay<D, WallClock, NoTape>>,
    notices: N,
}

/// Runs what the words ask for over the disks of these lanes, whose store is opened before, and this many ports.
fn run_lanes<R: Threads + Wait + Copy + Send + Sync>(
    rt: HostRuntime,
    threads: R,
    words: &List<Bytes>,
    lanes: u32,
    workers: u32,
) -> Status
    requires lanes { (o : told.Options) → Asks words.now (Serve o) → o.lanes ≤ lanes }
    requires workers { (1 ≤ workers) × (workers ≤ 64) }
{
    let Ok(mut disk) = FileDisk::new(rt, threads, PROGRAM) else {
        return Status::NoMem;
    };
    let mut settings = Settings::new(rt, PROGRAM);
    if let Err(status) = settings::open_store(rt, &mut settings, words, &mut disk, lanes) {
        return status;
    }
    let Ok(others) = bays_beside(rt, &disk, lanes.saturating_sub(1)) else {
        return Status::NoMem;
    };
    let over = Over {
        disk,
        others,
        notices: Herald::new(rt, None),
    };
    let (settings, _, status) = run_over(rt, threads, words, workers, settings, over);
    advise_store(&rt, &settings, status);
    status
}

/// Runs what the words ask for, where that is no server, over the disk of a relay.
fn run_relay<R: Threads + Wait + Copy + Send + Sync>(
    rt: HostRuntime,
    threads: R,
    words: &List<Bytes>,
) -> Status
    requires { (o : told.Options) → Asks words.now (Serve o) → ⊥ }
{
    let Ok(disk) = RelayDisk::new(rt, threads, PROGRAM) else {
        return Status::NoMem;
    };
    let mut settings = Settings::new(rt, PROGRAM);
    let folders = match settings::folders_of(rt, &mut settings, words) {
        Ok(folders) => folders,
        Err(status) => return status,
    };
    let over = Over {
        disk,
        others: Vec::new(rt.alloc()),
        notices: Herald::new(rt, folders),
    };
    let (settings, over, status) = run_over(rt, threads, words, 1, settings, over);
    let Over {
        mut disk,
        notices,
        ..
    } = over;
    notices.end_relay(&mut disk);
    if let Some(conf) = &settings.told.conf {
        notices.say_folders(settings::text_of(&conf.iolog_dir));
    }
    advise_relay(&rt, status);
    advise_store(&rt, &settings, status);
    status
}

/// Does what the words ask for, over the disks that their command needs.
fn run<R: Threads + Wait + Copy + Send + Sync>(rt: HostRuntime, threads: R) -> Status {
    let words = match arguments(&rt) {
        Ok(words) => words,
        Err(ArgumentFault::NoMem) => return Status::NoMem,
        Err(ArgumentFault::NotText) => {
            let _ = eprintln!(rt; "sudo_logsrvd: a word isn't UTF-8");
            return Status::Usage;
        }
    };
    if let Err(status) = settings::check_file(&rt, &words) {
        return status;
    }
    if let Err(status) = settings::check_ring(&rt, &words) {
        return status;
    }
    match need_of(rt.alloc(), &words) {
        Ok(Need::Relay) => run_relay(rt, threads, &words),
        Ok(Need::Server(lanes, workers)) => match descriptors::check(&rt, lanes, workers) {
            Ok(()) => run_lanes(rt, threads, &words, lanes, workers),
            Err(status) => status,
        },
        Ok(Need::Disk) => run_lanes(rt, threads, &words, 1, 1),
        Err(status) => status,
    }
}

/// Says what to do about a store that wasn't opened.
fn advise_store(rt: &HostRuntime, settings: &Settings, status: Status) {
    if let (Status::Store(fault), Some(conf)) = (status, &settings.told.conf) {
        advise(rt, fault, conf);
    }
}

/// Runs what the words ask for over this many ports, these settings, and a disk with its bays. Gives the settings and the disk
/// back.
fn run_over<
    D: Disk + Send + Drop,
    N: Notices + RelayNotices + Gaps<D>,
    T: Texts + Drop,
    R: Threads + Wait + Copy + Send + Sync,
>(
    rt: HostRuntime,
    threads: R,
    words: &List<Bytes>,
    workers: u32,
    settings: T,
    over: Over<D, N>,
) -> (T, Over<D, N>, Status)
    requires untold { D.tells → ⊥ }
    requires workers { (1 ≤ workers) × (workers ≤ 64) }
    requires bays { (o : told.Options) → Asks words.now (Serve o) → o.lanes ≤ 1 + length over.others.items }
{
    let alloc = rt.alloc();
    let Ok((ports, bells)) = ports(rt, workers) else {
        return (settings, over, Status::NoMem);
    };
    let Over {
        disk,
        others,
        notices,
    } = over;
    let out = Outside {
        source: StdSource::new(rt),
        sink: StdSink::new(rt),
        ports,
        bells,
        disk,
        clock: WallClock::new(rt),
        tape: NoTape,
        others,
        texts: settings,
        link: TcpLink::new(rt, rt, PROGRAM),
        notices,
    };
    let kept = Kept {
        sudo: Formatter::sudo(),
        json: Formatter::json(),
        prompt: Prompt::new(TextSearch),
    };
    let (out, status) = logsrvd(&threads, alloc, words, out, kept);
    let Outside {
        disk,
        others,
        notices,
        texts,
        ..
    } = out;
    if status == Status::Usage {
        usage::say(&rt, words);
    }
    let over = Over {
        disk,
        others,
        notices,
    };
    (texts, over, status)
}

/// Prints why the run failed, where it did.
fn tell(rt: &HostRuntime, status: Status) {
    if status == Status::Served {
        return;
    }
    let Ok(text) = status.text(rt.alloc()) else {
        return;
    };
    if let Ok(text) = str::from_utf8(text.as_slice()) {
        let _ = eprintln!(rt; "sudo_logsrvd: {text}");
    }
    if status == Status::Usage {
        show_forms(rt);
    }
}

fn main(rt: HostRuntime) -> ExitCode {
    // Without /dev/null the standard descriptors stay as they are.
    let _ = open_standard(&rt);
    let status = run(rt, rt);
    tell(&rt, status);
    ExitCode::from(status.number())
}
