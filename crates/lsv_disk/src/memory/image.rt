ghost use Rattle.std.specs.Prelude.{◌≡◌, ◌⊎◌, ◌&&◌, ◌+◌, ◌-◌, ◌≤◌, ◌<◌, ℕ, [], ◌∷◌, ◌++◌, Option, Some, None, replicate, option_map, nat_lt, if◌then◌else◌, IfOk, OnOk};
ghost use Rattle.lsv_disk.specs.declared.memory.call.Call.{Call};
ghost use Rattle.lsv_disk.specs.Bytes.{written};
ghost use Rattle.lsv_disk.specs.Files.{same_file};
ghost use Rattle.lsv_disk.specs.Memory.Calls.{past_of};
ghost use Rattle.lsv_disk.specs.Memory.Stored.{content_of, count_for};
ghost use Rattle.lsv_disk.specs.Memory.Images.{IsDurableAt, read_next, left_next, left_by};

use crate::memory::call::{Call, Effect};
use crate::memory::stored::{Files, overwrite};
use crate::{FileId, Fill, NoMem};
use std::alloc::Global;
use std::collections::HashMap;

/// For each file, how many calls there are up to the last that durable it.
fn durable(alloc: Global, calls: &[Call]) -> Result<HashMap<FileId, usize>, NoMem>
    ensures { IfOk result (λ ends. (f : FileId) → IsDurableAt calls.now f (count_for ends f)) }
{
    let mut ends = HashMap::new(alloc);
    for (i, call) in calls.iter().enumerate() {
        if call.effect.makes_durable() {
            ends.insert(call.file, i + 1)?;
        }
    }
    Ok(ends)
}

/// Writes over what is there, and past the end, where the file is there.
fn put(content: Option<Vec<u8>>, at: u64, bytes: &[u8]) -> Result<Option<Vec<u8>>, NoMem>
    ensures { IfOk result (λ o. option_map (λ v. v.items) o ≡ written at bytes.now (option_map (λ v. v.items) content)) }
{
    let Some(mut content) = content else {
        return Ok(None);
    };
    content.reserve(bytes.len())?;
    let place = at.min(content.len() as u64) as usize;
    overwrite(&mut content, place, bytes)?;
    Ok(Some(content))
}

/// What the call makes of a file that reads as that.
fn read_on(
    alloc: Global,
    content: Option<Vec<u8>>,
    effect: &Effect,
) -> Result<Option<Vec<u8>>, NoMem>
    ensures { IfOk result (λ o. option_map (λ v. v.items) o ≡ read_next effect.now (option_map (λ v. v.items) content)) }
{
    match effect {
        Effect::Held(bytes) => Ok(Some(bytes.as_slice().to_vec(alloc)?)),
        Effect::Made => Ok(Some(Vec::new(alloc))),
        Effect::Written(at, bytes) => put(content, *at, bytes),
        _ => Ok(content),
    }
}

/// Writes this many of one byte.
fn put_run(
    alloc: Global,
    content: Option<Vec<u8>>,
    at: u64,
    count: usize,
    byte: u8,
) -> Result<Option<Vec<u8>>, NoMem>
    ensures { IfOk result (λ o. option_map (λ v. v.items) o ≡ written at (replicate count byte) (option_map (λ v. v.items) content)) }
{
    let run = vec![in alloc; byte; count]?;
    put(content, at, &run)
}

/// What the call makes of what is left of a file, where it doesn't make it durable.
fn left_on(
    alloc: Global,
    content: Option<Vec<u8>>,
    effect: &Effect,
    fill: Fill,
) -> Result<Option<Vec<u8>>, NoMem>
    ensures { IfOk result (λ o. option_map (λ v. v.items) o ≡ left_next fill effect.now (option_map (λ v. v.items) content)) }
{
    let byte = match fill {
        Fill::Old => return Ok(content),
        Fill::Read => return read_on(alloc, content, effect),
        Fill::Byte(byte) => byte,
    };
    match effect {
        Effect::Written(at, bytes) => put_run(alloc, content, *at, bytes.len(), byte),
        Effect::NotWritten(at, count) => put_run(alloc, content, *at, *count, byte),
        Effect::NotMade => Ok(Some(content.unwrap_or(Vec::new(alloc)))),
        _ => Ok(content),
    }
}

/// What one of the calls makes of what is left of its file.
fn left_by_call(alloc: Global, left: &mut Files, call: &Call, fill: Fill) -> Result<(), NoMem>
    ensures { OnOk result ((f : FileId) → content_of left.new f ≡ (if same_file call.now.file f then left_next fill call.now.effect (content_of left.old f) else content_of left.old f)) }
{
    let content = left.remove(&call.file);
    if let Some(bytes) = left_on(alloc, content, &call.effect, fill)? {
        left.insert(call.file, bytes)?;
    }
    Ok(())
}

/// Up to the call that durable the file last, what is left is what a read gives.
fn fill_at(i: usize, end: usize, fill: Fill) -> Fill
    ensures { result ≡ (if nat_lt i end then Fill.Read else fill) }
{
    if i < end { Fill::Read } else { fill }
}

/// What is left of each file after these calls.
pub(crate) fn left(alloc: Global, calls: &[Call], fill: Fill) -> Result<Files, NoMem>
    ensures { IfOk result (λ files. (f : FileId) → content_of files f ≡ left_by fill (past_of calls.now f)) }
{
    let ends = durable(alloc, calls)?;
    let mut left = HashMap::new(alloc);
    for (i, call) in calls.iter().enumerate() {
        let end = ends.get(&call.file).copied().unwrap_or(0);
        left_by_call(alloc, &mut left, call, fill_at(i, end, fill))?;
    }
    Ok(left)
}
