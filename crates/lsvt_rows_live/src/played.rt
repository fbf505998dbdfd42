//! A pair over the links of a port in memory.

ghost use Rattle.lsv_live.specs.Pairs.{AllTaken, IsHearing, IsNoticed};

use crate::words::shown;
use anyhow::{Result, anyhow};
use lsv_live::{PIECE, Pair};
use lsv_port::{MemPort, Port, Ready, Step};
use lsvt_doubles::Watched;
use std::alloc::Global;

/// More passes over a pair than any script needs.
const MOST_PASSES: u32 = 1_000_000;

/// The number of the next link that is opened.
fn next_opened(port: &mut Watched) -> Result<u32> {
    for _ in 0..u64::MAX {
        match port.turn(&[])? {
            Ready::Opened(number) => return Ok(number),
            Ready::Stop => return Err(anyhow!("a link")),
            _ => {}
        }
    }
    Err(anyhow!("a link"))
}

/// What a turn told the pair.
fn note(pair: &mut Pair, ready: Ready)
    requires hearing { IsHearing pair.old }
    requires taken { AllTaken pair.old × IsNoticed pair.old }
    ensures hearing { IsHearing pair.new }
    ensures taken { AllTaken pair.new × IsNoticed pair.new }
{
    if let Ready::Readable(number) = ready {
        pair.mark(number);
    }
}

/// Passes over the pair until no link of it is to be read.
fn settle(pair: &mut Pair, port: &mut Watched, buffer: &mut [u8; PIECE])
    requires hearing { IsHearing pair.old }
    requires taken { AllTaken pair.old × IsNoticed pair.old }
    ensures hearing { IsHearing pair.new }
    ensures taken { AllTaken pair.new × IsNoticed pair.new }
{
    'passes: for _ in 0..MOST_PASSES {
        if pair.is_calm() {
            return;
        }
        pair.pass(port, buffer);
    }
}

/// Passes messages on until Stop is told, or a turn fails. Then both links are closed.
fn run(pair: &mut Pair, port: &mut Watched, buffer: &mut [u8; PIECE])
    requires hearing { IsHearing pair.old }
    requires taken { AllTaken pair.old }
{
    pair.pass(port, buffer);
    'turns: for _ in 0..u64::MAX {
        match port.turn(&[]) {
            Ok(Ready::Stop) => {
                settle(pair, port, buffer);
                pair.close(port);
                return;
            }
            Ok(ready) => {
                note(pair, ready);
                pair.pass(port, buffer);
            }
            Err(_) => {
                pair.close(port);
                return;
            }
        }
    }
}

/// Plays a script: the first link that is opened is the client's, the next one is that to the other server, unless that
/// one is lost.
pub fn play(alloc: Global, script: Vec<Step>, is_lost: bool) -> Result<Watched> {
    let mut port = Watched::new(alloc, MemPort::new(alloc, script));
    let mut buffer = [0; PIECE];
    let client = next_opened(&mut port)?;
    if is_lost {
        run(&mut Pair::lost(alloc, client), &mut port, &mut buffer);
        return Ok(port);
    }
    let upstream = next_opened(&mut port)?;
    run(
        &mut Pair::new(alloc, client, upstream),
        &mut port,
        &mut buffer,
    );
    Ok(port)
}

/// Prints of each link that was opened what was read of it and written to it, and whether it is open; and whether a link
/// was used that wasn't open.
pub fn show(rt: &HostRuntime, played: &Watched) -> Result<()> {
    let alloc = rt.alloc();
    let port = &played.port;
    for link in port.opened() {
        let read = shown(alloc, port.input(*link))?;
        let written = shown(alloc, port.output(*link))?;
        let open = if port.is_open(*link) { ", open" } else { "" };
        println!(rt; "link {link} read {read}, written {written}{open}")?;
    }
    if played.misused > 0 {
        println!(rt; "misused {}", played.misused)?;
    }
    Ok(())
}
