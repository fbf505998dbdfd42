ghost use Rattle.std.specs.Prelude.{◌≡◌, ◌+◌, ◌<◌, ◌^◌, IfOk, SomeIff, IsTrue};
ghost use Rattle.lsv_machine.specs.Work.{files_take, fits_file, takes};
ghost use Rattle.lsv_mask.specs.Masking.{covered};
ghost use Rattle.lsvt_model.specs.Inner.{bare, fits_files, fits_stream};
ghost use Rattle.lsv_record.specs.Records.{delay_of, elapsed};

use crate::Records;
use lsv_base::{Bytes, List, NoMem};
use lsv_mask::{Mask, Prompt, TextSearch};
use lsv_record::{Laid, Record, lay};
use std::alloc::Global;

/// A file has no more bytes.
const LONGEST_FILE: usize = 1_099_511_627_776;

/// No elapsed time reaches this, in nanoseconds: 2^63.
const TIME_LIMIT: u64 = 9_223_372_036_854_775_808;

/// Whether a file takes this text.
pub fn fits_file(text: &Bytes) -> bool
    ensures { result ≡ fits_file text.now }
{
    text.as_slice().len() <= LONGEST_FILE
}

/// Whether the file of a record's stream takes what it has in this layout.
fn fits_stream(l: &Laid, r: &Record) -> bool
    ensures { result ≡ fits_stream l.now r.now }
{
    match r {
        Record::Io { stream, .. } => fits_file(l.stream(*stream)),
        _ => true,
    }
}

/// Whether the files that a record goes to take what they have in this layout.
fn fits_files(l: &Laid, r: &Record) -> bool
    ensures { result ≡ fits_files l.now r.now }
{
    fits_file(&l.timing) && fits_stream(l, r)
}

/// The point at which a record would end after these. None where the elapsed time would reach 2^63 nanoseconds or a file
/// that it goes to doesn't take it.
pub fn end_with(alloc: Global, records: &Records, r: &Record) -> Result<Option<u64>, NoMem>
    ensures { IfOk result (λ found. SomeIff found (IsTrue (takes (bare records.now) r.now)) (elapsed records.now + delay_of r.now)) }
{
    let Some(end) = later(records.elapsed(), r.delay()) else {
        return Ok(None);
    };
    if files_take(alloc, records.as_slice(), r)? {
        return Ok(Some(end));
    }
    Ok(None)
}

/// Whether the files that a record goes to take it after these.
#[tactic(auto, using(crate::proofs::RecordLemmas::layout_fits))]
fn files_take(alloc: Global, records: &[Record], r: &Record) -> Result<bool, NoMem>
    ensures { IfOk result (λ fits. fits ≡ files_take records.now r.now) }
{
    let mut laid = lay(alloc, records)?;
    laid.add(r)?;
    Ok(fits_files(&laid, r))
}

/// The point this many nanoseconds later. None where it reaches 2^63.
fn later(point: u64, nanos: u64) -> Option<u64>
    ensures { SomeIff result (point + nanos < 2 ^ 63) (point + nanos) }
{
    let later = point.checked_add(nanos)?;
    if later < TIME_LIMIT {
        Some(later)
    } else {
        None
    }
}

/// A record as it is stored after these.
pub fn covered(
    alloc: Global,
    texts: &List<Bytes>,
    records: &[Record],
    r: Record,
) -> Result<Record, NoMem>
    ensures { IfOk result (λ stored. stored ≡ covered texts.now records.now r) }
{
    let prompt = Prompt::new(TextSearch);
    let mut mask = Mask::new(alloc, texts)?;
    for stored in records {
        mask.see(&prompt, stored);
    }
    let mut r = r;
    mask.cover(&prompt, &mut r);
    Ok(r)
}
