ghost use Rattle.std.specs.Prelude.{◌≡◌, ◌++◌, IsErr, List, OnOk, OnErr};
ghost use Rattle.lsv_base.specs.Outside.{HasCause};
ghost use Rattle.lsv_play.specs.declared.screen.Item.{Item};
ghost use Rattle.lsv_play.specs.Items.{IsPart};
ghost use Rattle.lsv_play.specs.Schedule.{bytes_shown, items_of, play, resumes};

use crate::{Options, Screen, wait_of};
use lsv_base::SinkFault;
use lsv_record::Record;

/// The signal by which a suspended command goes on.
const RESUMED: &[u8] = b"CONT";

/// Shows these records, in order. At a fault a first part of them is shown.
pub fn play<S: Screen>(o: &Options, records: &[Record], screen: &mut S) -> Result<(), SinkFault>
    ensures shown { S.tells → OnOk result (S.shown screen.new ≡ S.shown screen.old ++ play o.now records.now) }
    ensures part { OnErr result ((part : List Item) × IsPart part (play o.now records.now) × (S.tells → S.shown screen.new ≡ S.shown screen.old ++ part)) }
    ensures cause { HasCause (IsErr result) (S.faults screen.old) (S.faults screen.new) }
{
    for r in records {
        play_record(o, r, screen)?;
    }
    Ok(())
}

/// Shows a record: its wait, and then its bytes, if there are any and their stream is asked for. At a fault a first part
/// of that is shown.
pub fn play_record<S: Screen>(o: &Options, r: &Record, screen: &mut S) -> Result<(), SinkFault>
    ensures shown { S.tells → OnOk result (S.shown screen.new ≡ S.shown screen.old ++ items_of o.now r.now) }
    ensures part { OnErr result ((part : List Item) × IsPart part (items_of o.now r.now) × (S.tells → S.shown screen.new ≡ S.shown screen.old ++ part)) }
    ensures cause { HasCause (IsErr result) (S.faults screen.old) (S.faults screen.new) }
{
    screen.wait(wait_of(o, r.delay(), resumes(r)))?;
    put_bytes(o, r, screen)
}

/// Whether the record ends a suspension of the command.
fn resumes(r: &Record) -> bool
    ensures { result ≡ resumes r.now }
{
    match r {
        Record::Suspend { signal, .. } => signal.as_slice() == RESUMED,
        Record::Io { .. } | Record::Winsize { .. } => false,
    }
}

/// Puts the bytes that are shown of a record.
fn put_bytes<S: Screen>(o: &Options, r: &Record, screen: &mut S) -> Result<(), SinkFault>
    ensures shown { S.tells → OnOk result (S.shown screen.new ≡ S.shown screen.old ++ bytes_shown o.now r.now) }
    ensures part { OnErr result ((part : List Item) × IsPart part (bytes_shown o.now r.now) × (S.tells → S.shown screen.new ≡ S.shown screen.old ++ part)) }
    ensures cause { HasCause (IsErr result) (S.faults screen.old) (S.faults screen.new) }
{
    match r {
        Record::Io { stream, bytes, .. } => {
            if bytes.as_slice().is_empty() || !o.is_selected(*stream) {
                return Ok(());
            }
            screen.put(bytes.as_slice())
        }
        Record::Winsize { .. } | Record::Suspend { .. } => Ok(()),
    }
}
