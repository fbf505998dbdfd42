//! One message, reply, record or event line a million times, in memory.
ghost use Rattle.std.specs.Prelude.{IfSome};
ghost use Rattle.lsv_event.specs.Events.{IsTimed};

use lsv_base::{Bytes, List, LogNo, NoMem, Point, TimeSpec};
use lsv_event::{Event, Peer, json_line, sudo_line};
use lsv_info::{Head, read_head};
use lsv_mask::{Mask, Prompt, TextSearch};
use lsv_msg::{ClientMessage, ServerMessage, decode_client, encode_client, put_server};
use lsv_record::{Record, Stream, lay, put_line, read_log};
use lsv_wire::put_bytes;
use std::alloc::Global;
use std::time::Instant;

const COUNT: u32 = 1_000_000;

/// A kept buffer is emptied after this count of entries.
const BATCH: u32 = 1_000;

/// Terminal output of ten bytes, a millisecond after the record before.
const MESSAGE: &[u8] = b"\x3a\x12\x0a\x04\x10\xc0\x84\x3d\x12\x0a0123456789";

/// What asks for a password.
const PROMPTS: [&[u8]; 2] = [b"assword:", b"assword for"];

/// The head of a command whose line has about 200 bytes.
const HEAD: &[u8] =
    br#"{"info":{"command":"/usr/bin/systemctl","runargv":["systemctl","restart","--no-block","a-service.of-a-longer-name.service"],"runuser":"root","submitcwd":"/home/ann/projects","submithost":"web1.example.org","submituser":"ann","ttyname":"/dev/pts/0"},"submit_time":{"nanoseconds":0,"seconds":1700000000}}"#;

/// Terminal output of a thousand bytes.
fn large(alloc: Global) -> Result<Bytes, NoMem> {
    let mut data = Bytes::of(alloc, b"\x0a\x04\x10\xc0\x84\x3d")?;
    put_bytes(&mut data, 2, &[b'x'; 1_000])?;
    let mut message = Bytes::new(alloc);
    put_bytes(&mut message, 7, data.as_slice())?;
    Ok(message)
}

/// The bytes of data that were read of a message, so that no reading can be left out.
fn decode_all(alloc: Global, message: &[u8]) -> Option<u64> {
    let mut total: u64 = 0;
    for _ in 0..COUNT {
        if let ClientMessage::Ttyout(buffer) = decode_client(alloc, message).ok()? {
            total = total.wrapping_add(buffer.bytes.as_slice().len() as u64);
        }
    }
    Some(total)
}

/// The bytes that were written of a message.
fn encode_all(alloc: Global) -> Option<u64> {
    let message = decode_client(alloc, MESSAGE).ok()?;
    let mut total: u64 = 0;
    for _ in 0..COUNT {
        let bytes = encode_client(alloc, &message).ok()?;
        total = total.wrapping_add(bytes.as_slice().len() as u64);
    }
    Some(total)
}

/// What is put into a buffer that is kept, each of another time.
#[derive(Clone, Copy, PartialEq, Eq)]
enum Put {
    CommitPoint,
    Line,
}

impl Put {
    fn put(self, alloc: Global, out: &mut Bytes, i: u32) -> Option<()> {
        match self {
            Put::CommitPoint => {
                let point = TimeSpec {
                    sec: i64::from(i),
                    nsec: 1_000_000,
                };
                put_server(alloc, out, &ServerMessage::CommitPoint(point)).ok()
            }
            Put::Line => {
                let r = output(Bytes::new(alloc), u64::from(i) * 1_000_003);
                put_line(out, &r).ok()
            }
        }
    }

    fn put_all(self, alloc: Global) -> Option<u64> {
        let mut total: u64 = 0;
        let mut out = Bytes::new(alloc);
        for i in 0..COUNT {
            if i % BATCH == 0 {
                out.truncate(0);
            }
            self.put(alloc, &mut out, i)?;
            total = total.wrapping_add(out.as_slice().len() as u64);
        }
        Some(total)
    }
}

/// Terminal output.
fn output(bytes: Bytes, delay: u64) -> Record {
    Record::Io {
        delay,
        stream: Stream::Ttyout,
        bytes,
    }
}

/// Lays a million records and reads them back, prints on standard error the nanoseconds that each took, and returns the number
/// of records that were read.
fn lay_and_read(rt: &HostRuntime) -> Option<u64> {
    let alloc = rt.alloc();
    let mut records = List::new(alloc);
    for _ in 0..COUNT {
        let bytes = Bytes::of(alloc, b"0123456789").ok()?;
        records.push(output(bytes, 1_000_000)).ok()?;
    }
    let start = Instant::now(rt).ok()?;
    let laid = lay(alloc, records.as_slice()).ok()?;
    let laying = start.elapsed(rt).ok()?.as_nanos();
    let start = Instant::now(rt).ok()?;
    let read = read_log(alloc, &laid).ok()?;
    let reading = start.elapsed(rt).ok()?.as_nanos();
    let _ = eprintln!(rt; "{laying} {reading}");
    Some(read.as_slice().len() as u64)
}

/// A thousand bytes of a stream, without the end of a line.
fn thousand(alloc: Global, stream: Stream) -> Result<Record, NoMem> {
    let mut bytes = Bytes::new(alloc);
    for _ in 0..20u8 {
        bytes.add(b"A sparrow was asked for a word, and passed one by.")?;
    }
    Ok(Record::Io {
        delay: 0,
        stream,
        bytes,
    })
}

/// The bytes of data of a record of this stream, which goes through a mask a million times.
fn cover_all(alloc: Global, stream: Stream) -> Option<u64> {
    let mut texts = List::new(alloc);
    for text in PROMPTS {
        texts.push(Bytes::of(alloc, text).ok()?).ok()?;
    }
    let prompt = Prompt::new(TextSearch);
    let mut mask = Mask::new(alloc, &texts).ok()?;
    let mut r = thousand(alloc, stream).ok()?;
    let mut total: u64 = 0;
    for _ in 0..COUNT {
        mask.cover(&prompt, &mut r);
        if let Record::Io { bytes, .. } = &r {
            total = total.wrapping_add(bytes.as_slice().len() as u64);
        }
    }
    Some(total)
}

/// The accept of a command.
fn accept(alloc: Global) -> Option<Event>
    ensures { IfSome result IsTimed }
{
    let at = Point::new(1_700_000_000_000_000_000)?.spec();
    let head = read_head(alloc, HEAD).ok()?;
    Some(Event::Accept {
        at,
        peer: Peer { worker: 0, seq: 1 },
        log: LogNo::new(1),
        head: Head {
            submit: at,
            info: head.info,
        },
    })
}

/// The bytes of the line of an event, written a million times, in sudo's form or as JSON.
fn event_lines(alloc: Global, event: &Event, is_json: bool) -> Option<u64>
    requires { IsTimed event.now }
{
    let mut total: u64 = 0;
    for _ in 0..COUNT {
        let line = if is_json {
            json_line(alloc, event).ok()?
        } else {
            sudo_line(alloc, event).ok()?
        };
        total = total.wrapping_add(line.as_slice().len() as u64);
    }
    Some(total)
}

/// The measure of memory alone that a word asks for.
pub fn measured(rt: &HostRuntime, word: &str) -> Option<u64> {
    let alloc = rt.alloc();
    match word {
        "decode" => decode_all(alloc, MESSAGE),
        "decode-large" => decode_all(alloc, large(alloc).ok()?.as_slice()),
        "encode" => encode_all(alloc),
        "points" => Put::CommitPoint.put_all(alloc),
        "lines" => Put::Line.put_all(alloc),
        "records" => lay_and_read(rt),
        "mask" => cover_all(alloc, Stream::Ttyout),
        "mask-other" => cover_all(alloc, Stream::Stdout),
        "sudo-line" => event_lines(alloc, &accept(alloc)?, false),
        "json-line" => event_lines(alloc, &accept(alloc)?, true),
        _ => None,
    }
}
