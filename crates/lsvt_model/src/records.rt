ghost use Rattle.std.specs.Prelude.{◌≡◌, ◌+◌, ◌<◌, ◌^◌, [], ◌∷◌, ◌++◌, Some, take, OnOk};
ghost use Rattle.lsv_record.specs.Points.{first};
ghost use Rattle.lsv_record.specs.Records.{delay_of, elapsed};

use lsv_base::NoMem;
use lsv_record::Record;
use std::alloc::Global;
use std::marker::Model;

/// The records of a log, whose delays come to less than 2^63 nanoseconds. Contracts see the list of them.
#[derive(Debug, Drop)]
pub struct Records {
    list: Vec<Record>,
    nanos: u64,
}

impl Model for Records {
    ghost use Rattle.std.specs.Prelude.{◌≡◌, ◌<◌, ◌^◌, List};
    ghost use Rattle.lsv_record.specs.Records.{elapsed};
    ghost use Rattle.lsv_record.specs.declared.records.Record.{Record};

    ghost Value = { List Record };

    ghost view = { λ r. r.list.items };

    ghost invariant = { λ r. (elapsed r.list.items ≡ r.nanos) × (r.nanos < 2 ^ 63) };
}

impl Records {
    /// No records.
    pub fn new(alloc: Global) -> Self
        ensures { result ≡ [] }
    {
        Records {
            list: Vec::new(alloc),
            nanos: 0,
        }
    }

    pub fn as_slice(&self) -> &[Record]
        ensures { result.now ≡ self.now }
    {
        &self.list
    }

    /// The nanoseconds from the start of the log to the last record.
    pub fn elapsed(&self) -> u64
        ensures value { result ≡ elapsed self.now }
        ensures small { result < 2 ^ 63 }
    {
        self.nanos
    }

    /// Puts a record at the end, which ends at this point.
    pub(crate) fn add(&mut self, r: Record, end: u64) -> Result<(), NoMem>
        requires end { end ≡ elapsed self.old + delay_of r }
        requires small { end < 2 ^ 63 }
        ensures { OnOk result (self.new ≡ self.old ++ r ∷ []) }
    {
        self.list.push(r)?;
        self.nanos = end;
        Ok(())
    }

    /// Keeps this many records: those through the first that ends at this point.
    pub(crate) fn cut(&mut self, kept: usize, point: u64)
        requires { first self.old point ≡ Some kept }
        ensures { self.new ≡ take kept self.old }
    {
        self.list.truncate(kept);
        self.nanos = point;
    }
}
