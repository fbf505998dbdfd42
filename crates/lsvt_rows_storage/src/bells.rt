//! A port whose bell is rung: its turns don't wait.

use anyhow::{Result, anyhow};
use lsv_port::{Bell, Port, Ready};
use lsv_real::{MioBell, MioPort};
use std::sync::Wait;
use std::sync::atomic::{AtomicBool, Ordering};
use std::thread;
use std::thread::{Parker, Threads};
use std::time::Instant;

/// The number of turns.
const TURNS: u32 = 40;

/// A turn that isn't rung waits for 50 ms. All of them together take less than this many milliseconds if each is rung.
const MOST: u128 = 1_000;

/// Who rings, and when.
#[derive(Drop)]
struct Ringer {
    bell: MioBell,
    /// A turn is about to begin.
    begins: Parker,
    is_over: AtomicBool,
}

impl Ringer {
    /// Rings once for each turn, when it begins or later.
    fn ring_all<R: Wait>(&self, waits: &R) {
        for _ in 0..TURNS {
            self.begins.park(waits);
            if self.is_over.load(Ordering::SeqCst) {
                break;
            }
            self.bell.ring();
        }
    }
}

/// Makes the turns. Returns how many of them reported nothing.
fn turn_all(port: &mut MioPort<HostRuntime>, ringer: &Ringer, rings: bool) -> u32 {
    let mut woken = 0u32;
    for _ in 0..TURNS {
        if rings {
            ringer.bell.ring();
        } else {
            ringer.begins.unpark();
        }
        if port.turn(&[]) == Ok(Ready::Woken) {
            woken = woken.saturating_add(1);
        }
    }
    ringer.is_over.store(true, Ordering::SeqCst);
    ringer.begins.unpark();
    woken
}

/// By `before` the bell is rung before each turn, and by `during` another thread rings when a turn begins. Prints how many turns
/// reported nothing, and whether they waited. A bell that is rung before the port listens does nothing.
pub fn show<R: Wait + Threads + Copy + Sync>(
    rt: &HostRuntime,
    threads: &R,
    case: &str,
) -> Result<()> {
    let mut port = MioPort::new(*rt, *rt, "bell")?;
    let ringer = Ringer {
        bell: port.bell()?,
        begins: Parker::new(),
        is_over: AtomicBool::new(false),
    };
    ringer.bell.ring();
    port.listen("127.0.0.1:0", None)?;
    let began = Instant::now(rt)?;
    let woken = match case {
        "before" => turn_all(&mut port, &ringer, true),
        "during" => {
            let (woken, ()) = thread::join(
                threads,
                || turn_all(&mut port, &ringer, false),
                || ringer.ring_all(threads),
            );
            woken
        }
        _ => return Err(anyhow!("a case of bells")),
    };
    let took = Instant::now(rt)?.saturating_duration_since(began);
    let waits = if took.as_millis() < MOST {
        "don't wait"
    } else {
        "wait"
    };
    println!(rt; "{woken} turns report nothing, and {waits}")?;
    Ok(())
}
