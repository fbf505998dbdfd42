ghost use Rattle.std.specs.Prelude.{◌≡◌, ◌+◌, ◌%◌, ◌<◌, ◌≤◌, ◌++◌, length, IfOk, OnOk};
ghost use Rattle.std.specs.Fmt.{decimal};
ghost use Rattle.lsv_gen.specs.Load as load;
ghost use Rattle.lsv_msg.specs.Messages.{client_bytes};
ghost use Rattle.lsv_wire.specs.Frame.{frame_of};
ghost use Rattle.lsv_info.specs.declared.info.Value.TheVariants as values;

use lsv_base::{Bytes, List, NoMem, TimeSpec};
use lsv_info::{Entry, Info, Value};
use lsv_msg::{
    AcceptMessage, Boxed, ClientHello, ClientMessage, EncodeFault, ExitMessage, IoBuffer,
    encode_client,
};
use lsv_wire::{FRAME_LIMIT, FrameFault, frame};
use std::alloc::Global;

/// This many milliseconds, of which there are at most 1,275.
fn millis(n: u32) -> TimeSpec
    requires { n ≤ 1275 }
    ensures { result ≡ load.millis n }
{
    TimeSpec {
        sec: i64::from(n / 1000),
        nsec: (n % 1000 * 1_000_000) as i32,
    }
}

/// An entry with a text.
fn entry(alloc: Global, key: &str, text: Bytes) -> Result<Entry, NoMem>
    ensures { IfOk result (λ entry. entry ≡ record { key = key.now; value = values.Text text }) }
{
    Ok(Entry {
        key: Bytes::of(alloc, key.as_bytes())?,
        value: Value::Text(text),
    })
}

/// A word and a number after it.
fn numbered(alloc: Global, word: &str, n: u32) -> Result<Bytes, NoMem>
    ensures { IfOk result (λ text. text ≡ word.now ++ decimal n) }
{
    let number = format!(in alloc; "{n}")?;
    let mut text = Bytes::of(alloc, word.as_bytes())?;
    text.add(number.as_bytes())?;
    Ok(text)
}

fn hello(alloc: Global) -> Result<ClientMessage, NoMem>
    ensures { IfOk result (λ m. m ≡ load.hello) }
{
    Ok(ClientMessage::Hello(ClientHello {
        client_id: Bytes::of(alloc, b"load")?,
    }))
}

/// What the accept tells of the command.
fn info(alloc: Global, i: u32) -> Result<Info, NoMem>
    ensures { IfOk result (λ info. info ≡ load.info i) }
{
    let mut entries = Vec::with_capacity(alloc, 4)?;
    entries.push(entry(alloc, "command", numbered(alloc, "/bin/job", i)?)?)?;
    entries.push(entry(alloc, "runuser", Bytes::of(alloc, b"root")?)?)?;
    entries.push(entry(alloc, "submituser", numbered(alloc, "user", i % 10)?)?)?;
    entries.push(entry(alloc, "submithost", Bytes::of(alloc, b"gen")?)?)?;
    Ok(Info {
        entries: List::from_vec(entries),
    })
}

/// The accept of conversation i.
fn accept(alloc: Global, i: u32) -> Result<ClientMessage, NoMem>
    ensures { IfOk result (λ m. m ≡ load.accept i) }
{
    let message = AcceptMessage {
        submit_time: Some(TimeSpec {
            sec: 1_700_000_000 + i64::from(i),
            nsec: 0,
        }),
        info_msgs: info(alloc, i)?,
        expect_iobufs: true,
    };
    Ok(ClientMessage::Accept(Boxed::new(alloc, message)?))
}

/// The output that stands in place j, counted from 1.
fn output(alloc: Global, j: u32) -> Result<ClientMessage, NoMem>
    requires { j ≤ 50 }
    ensures { IfOk result (λ m. m ≡ load.output j) }
{
    let byte = b'a' + (j % 26) as u8;
    let bytes = vec![in alloc; byte; j as usize % 80 + 1]?;
    Ok(ClientMessage::Ttyout(IoBuffer {
        delay: Some(millis(j)),
        bytes: Bytes::from_vec(bytes),
    }))
}

/// The exit of conversation i, which took this many milliseconds.
fn exit(alloc: Global, i: u32, duration: u32) -> Result<ClientMessage, NoMem>
    requires duration { duration ≡ load.duration (i % 50 + 1) }
    requires short { duration ≤ 1275 }
    ensures { IfOk result (λ m. m ≡ load.exit i) }
{
    let message = ExitMessage {
        run_time: Some(millis(duration)),
        exit_value: (i % 256) as i32,
        dumped_core: false,
        signal: Bytes::new(alloc),
        error: Bytes::new(alloc),
    };
    Ok(ClientMessage::Exit(Boxed::new(alloc, message)?))
}

/// Puts the frame of a message.
fn put(alloc: Global, out: &mut Bytes, message: ClientMessage) -> Result<(), NoMem>
    requires { length (client_bytes message) ≤ FRAME_LIMIT }
    ensures { OnOk result (out.new ≡ out.old ++ frame_of (client_bytes message)) }
{
    let body = match encode_client(alloc, &message) {
        Ok(body) => body,
        Err(EncodeFault::NoMem) => return Err(NoMem),
        Err(EncodeFault::TooLong(_)) => unreachable!(),
    };
    let framed = match frame(alloc, body.as_slice()) {
        Ok(framed) => framed,
        Err(FrameFault::NoMem) => return Err(NoMem),
        Err(FrameFault::TooLarge(_)) => unreachable!(),
    };
    out.add(framed.as_slice())
}

/// The bytes that the client of conversation i sends: a hello, an accept, `i mod 50 + 1` outputs, and an exit.
pub fn conversation(alloc: Global, i: u32) -> Result<Bytes, NoMem>
    requires first { 1 ≤ i }
    requires last { i ≤ 10000 }
    ensures { IfOk result (λ bytes. bytes ≡ load.conversation i) }
{
    let mut out = Bytes::new(alloc);
    put(alloc, &mut out, hello(alloc)?)?;
    put(alloc, &mut out, accept(alloc, i)?)?;
    let mut duration = 0;
    for before in 0..i % 50 + 1 {
        put(alloc, &mut out, output(alloc, before + 1)?)?;
        duration += before + 1;
    }
    put(alloc, &mut out, exit(alloc, i, duration)?)?;
    Ok(out)
}
