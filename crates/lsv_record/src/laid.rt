ghost use Rattle.std.specs.Prelude.{◌≡◌, ◌++◌, ◌∷◌, [], List, ◌==◌, if◌then◌else◌, IfOk, OnOk, OnErr};
ghost use Rattle.lsv_record.specs.Records.{line_of, data_in, event_of};
ghost use Rattle.lsv_record.specs.Layout.{IsLayout, stream_in};
ghost use Rattle.lsv_record.specs.declared.records.Record.{Record};
ghost use Rattle.lsv_record.specs.declared.records.Stream.{Stream};

use crate::{Record, Stream, put_line};
use lsv_base::{Bytes, NoMem};
use std::alloc::Global;

/// The layout of records (sudoers I/O log format): the text `timing`, and the data of each stream one after another.
#[derive(Debug, Drop)]
pub struct Laid {
    pub timing: Bytes,
    pub stdin: Bytes,
    pub stdout: Bytes,
    pub stderr: Bytes,
    pub ttyin: Bytes,
    pub ttyout: Bytes,
}

impl Laid {
    /// The bytes of one stream.
    pub fn stream(&self, stream: Stream) -> &Bytes
        ensures { result.now ≡ stream_in stream self.now }
    {
        match stream {
            Stream::Stdin => &self.stdin,
            Stream::Stdout => &self.stdout,
            Stream::Stderr => &self.stderr,
            Stream::Ttyin => &self.ttyin,
            Stream::Ttyout => &self.ttyout,
        }
    }

    /// The layout of no records. It takes no memory until it grows.
    pub fn new(alloc: Global) -> Self
        ensures { IsLayout result [] }
    {
        Laid {
            timing: Bytes::new(alloc),
            stdin: Bytes::new(alloc),
            stdout: Bytes::new(alloc),
            stderr: Bytes::new(alloc),
            ttyin: Bytes::new(alloc),
            ttyout: Bytes::new(alloc),
        }
    }

    /// Puts one record more at the end, which needn't be valid. Out of memory it leaves the layout as it was.
    pub fn add(&mut self, r: &Record) -> Result<(), NoMem>
        ensures timing { OnOk result (self.new.timing ≡ self.old.timing ++ line_of r.now) }
        ensures streams { OnOk result ((s : Stream) → stream_in s self.new ≡ stream_in s self.old ++ data_in s r.now) }
        ensures layout { OnOk result ((records : List Record) → IsLayout self.old records → IsLayout self.new (records ++ r.now ∷ [])) }
        ensures err { OnErr result (self.new ≡ self.old) }
    {
        let len = self.timing.as_slice().len();
        put_line(&mut self.timing, r)?;
        let Record::Io { stream, bytes, .. } = r else {
            return Ok(());
        };
        let added = self.add_data(*stream, bytes.as_slice());
        if added.is_err() {
            self.timing.truncate(len);
        }
        added
    }

    /// Puts data at the end of a stream. Out of memory it leaves the layout as it was.
    fn add_data(&mut self, stream: Stream, bytes: &[u8]) -> Result<(), NoMem>
        ensures timing { OnOk result (self.new.timing ≡ self.old.timing) }
        ensures streams { OnOk result ((s : Stream) → stream_in s self.new ≡ stream_in s self.old ++ (if event_of s == event_of stream then bytes.now else [])) }
        ensures err { OnErr result (self.new ≡ self.old) }
    {
        match stream {
            Stream::Stdin => self.stdin.add(bytes),
            Stream::Stdout => self.stdout.add(bytes),
            Stream::Stderr => self.stderr.add(bytes),
            Stream::Ttyin => self.ttyin.add(bytes),
            Stream::Ttyout => self.ttyout.add(bytes),
        }
    }
}

/// The layout of these records, which needn't be valid.
pub fn lay(alloc: Global, rs: &[Record]) -> Result<Laid, NoMem>
    ensures { IfOk result (λ l. IsLayout l rs.now) }
{
    let mut laid = Laid::new(alloc);
    for r in rs {
        laid.add(r)?;
    }
    Ok(laid)
}
