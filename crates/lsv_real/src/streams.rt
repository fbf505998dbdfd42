// Standard input and output, and standard output as a screen. They tell no content, and count their faults.
ghost use Rattle.std.specs.Prelude.{[], ◌≡◌, ◌≤◌, ◌<◌, ◌^◌, IfOk, length};

use libc::net::{POLLIN, POLLOUT, poll};
use libc::types::pollfd;
use libc::{STDIN_FILENO, STDOUT_FILENO};
use lsv_base::{Sink, SinkFault, Source, SourceFault};
use lsv_play::Screen;
use std::io::{ErrorKind, Print, Read};
use std::time::Duration;
use std::{io, thread};

/// After this many signals, or waits for nothing, in a row a read or a write is a fault.
const MOST_INTERRUPTS: u32 = 1024;

/// A source gives no more bytes than this.
const LAST_COUNT: u64 = (1 << 63) - 1;

/// Standard input.
#[derive(Drop)]
pub struct StdSource {
    rt: HostRuntime,
    count: u64,
    faults: u64,
    ghost limited: { count < 2 ^ 63 },
}

impl StdSource {
    pub fn new(rt: HostRuntime) -> Self
        ensures count { ⟦<StdSource as Source>⟧.count result ≡ 0 }
        ensures faults { ⟦<StdSource as Source>⟧.faults result ≡ 0 }
    {
        StdSource {
            rt,
            count: 0,
            faults: 0,
        }
    }
}

impl Source for StdSource {
    ghost tells = { ⊥ };

    ghost given = { λ _. [] };

    ghost rest = { λ _. [] };

    ghost count = { λ s. s.count };

    ghost faults = { λ s. s.faults };

    fn read(&mut self, buf: &mut [u8]) -> Result<usize, SourceFault> {
        let most = (LAST_COUNT - self.count).min(buf.len() as u64) as usize;
        match read_input(&self.rt, &mut buf[..most]) {
            Ok(n) => {
                self.count += n as u64;
                Ok(n)
            }
            Err(_) => {
                self.faults = self.faults.saturating_add(1);
                Err(SourceFault)
            }
        }
    }
}

/// Reads standard input. A read that a signal interrupted is tried again, and one of a descriptor that doesn't block once there is
/// input.
fn read_input(rt: &HostRuntime, buf: &mut [u8]) -> io::Result<usize>
    ensures { IfOk result (λ n. n ≤ length buf.old) }
{
    for _ in 0..MOST_INTERRUPTS {
        match rt.stdin().read(buf) {
            Err(e) if e.kind() == ErrorKind::Interrupted => {}
            Err(e) if e.kind() == ErrorKind::WouldBlock => await_ready(STDIN_FILENO, POLLIN),
            answer => return answer,
        }
    }
    Err(ErrorKind::Interrupted.into())
}

/// Writes all of the bytes to standard output. Each write puts one at least.
fn write_output(rt: &HostRuntime, bytes: &[u8]) -> io::Result<()> {
    let mut rest = bytes;
    for _ in 0..bytes.len() {
        if rest.is_empty() {
            return Ok(());
        }
        let count = write_some(rt, rest)?;
        if count == 0 {
            return Err(ErrorKind::WriteZero.into());
        }
        rest = &rest[count..];
    }
    Ok(())
}

/// Writes some of the bytes to standard output. A write that a signal interrupted is tried again, and one to a descriptor that doesn't
/// block once there is room.
fn write_some(rt: &HostRuntime, bytes: &[u8]) -> io::Result<usize>
    ensures { IfOk result (λ n. n ≤ length bytes.now) }
{
    for _ in 0..MOST_INTERRUPTS {
        match rt.write_some(bytes) {
            Err(e) if e.kind() == ErrorKind::Interrupted => {}
            Err(e) if e.kind() == ErrorKind::WouldBlock => await_ready(STDOUT_FILENO, POLLOUT),
            answer => return answer,
        }
    }
    Err(ErrorKind::Interrupted.into())
}

/// Waits until a descriptor that doesn't block may be read or written. Whether it may is seen by the next try.
fn await_ready(descriptor: i32, events: i16) {
    let mut asked = [pollfd {
        fd: descriptor,
        events,
        revents: 0,
    }];
    let _ = poll(&mut asked, -1);
}

/// Standard output.
#[derive(Drop)]
pub struct StdSink {
    rt: HostRuntime,
    faults: u64,
}

impl StdSink {
    pub fn new(rt: HostRuntime) -> Self
        ensures { ⟦<StdSink as Sink>⟧.faults result ≡ 0 }
    {
        StdSink { rt, faults: 0 }
    }
}

impl Sink for StdSink {
    ghost tells = { ⊥ };

    ghost put = { λ _. [] };

    ghost faults = { λ s. s.faults };

    fn write(&mut self, bytes: &[u8]) -> Result<(), SinkFault> {
        match write_output(&self.rt, bytes) {
            Ok(()) => Ok(()),
            Err(_) => {
                self.faults = self.faults.saturating_add(1);
                Err(SinkFault)
            }
        }
    }
}

/// Standard output as a screen: a wait sleeps, and each put is one write, so that a terminal shows it as it was.
#[derive(Drop)]
pub struct StdScreen {
    rt: HostRuntime,
    faults: u64,
    is_left: bool,
}

impl StdScreen {
    pub fn new(rt: HostRuntime) -> Self
        ensures { ⟦<StdScreen as Screen>⟧.faults result ≡ 0 }
    {
        StdScreen {
            rt,
            faults: 0,
            is_left: false,
        }
    }

    /// Whether the program that read standard output has ended, as `head` does after its lines.
    pub fn is_left(&self) -> bool {
        self.is_left
    }
}

impl Screen for StdScreen {
    ghost tells = { ⊥ };

    ghost shown = { λ _. [] };

    ghost faults = { λ s. s.faults };

    fn wait(&mut self, nanos: u64) -> Result<(), SinkFault> {
        if nanos > 0 {
            thread::sleep(&self.rt, Duration::from_nanos(nanos));
        }
        Ok(())
    }

    fn put(&mut self, bytes: &[u8]) -> Result<(), SinkFault> {
        match write_output(&self.rt, bytes) {
            Ok(()) => Ok(()),
            Err(e) => {
                self.is_left = e.kind() == ErrorKind::BrokenPipe;
                self.faults = self.faults.saturating_add(1);
                Err(SinkFault)
            }
        }
    }
}
