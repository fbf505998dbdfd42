ghost use Rattle.std.specs.Prelude.{◌≡◌, List, [], ◌∷◌, ◌++◌, is_some};
ghost use Rattle.lsv_record.specs.Points.{Stored};
ghost use Rattle.lsv_record.specs.declared.records.Record.{Record};
ghost use Rattle.lsv_gen.specs.Summary.{data_length, totals_of, totals_with};

use lsv_record::Record;

/// Sums over logs. Each stands still at 2^64 - 1.
#[derive(Clone, Copy, Debug, PartialEq, Eq)]
pub struct Totals {
    pub logs: u64,
    pub records: u64,
    /// Bytes of data.
    pub bytes: u64,
    /// Nanoseconds.
    pub elapsed: u64,
    /// How many logs are complete.
    pub complete: u64,
}

/// How many bytes of data a record has.
fn data_length(r: &Record) -> u64
    ensures { result ≡ data_length r.now }
{
    match r {
        Record::Io { bytes, .. } => bytes.as_slice().len() as u64,
        _ => 0,
    }
}

impl Totals {
    /// The sums over no logs.
    pub fn new() -> Self
        ensures { result ≡ totals_of [] }
    {
        Totals {
            logs: 0,
            records: 0,
            bytes: 0,
            elapsed: 0,
            complete: 0,
        }
    }

    /// Adds the next record of the log that is being counted.
    pub fn add_record(&mut self, r: &Record)
        ensures { (logs : List Stored) (records : List Record) → self.old ≡ totals_with logs records → self.new ≡ totals_with logs (records ++ r.now ∷ []) }
    {
        self.records = self.records.saturating_add(1);
        self.bytes = self.bytes.saturating_add(data_length(r));
        self.elapsed = self.elapsed.saturating_add(r.delay());
    }

    /// Counts the log whose records were added.
    pub fn add_log(&mut self, is_complete: bool)
        ensures { (logs : List Stored) (log : Stored) → self.old ≡ totals_with logs log.records → is_complete ≡ is_some log.exit → self.new ≡ totals_of (logs ++ log ∷ []) }
    {
        self.logs = self.logs.saturating_add(1);
        self.complete = self.complete.saturating_add(u64::from(is_complete));
    }
}
