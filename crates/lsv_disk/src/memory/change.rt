ghost use Rattle.std.specs.Prelude.{◌≡◌, ℕ, ◌+◌, ◌≤◌, ◌<◌, ◌^◌, [], ◌∷◌, ◌++◌, None, length, OnOk, OnErr};
ghost use Rattle.lsv_disk.specs.declared.memory.call.Effect.TheVariants.{Made, Written};
ghost use Rattle.lsv_disk.specs.Bytes.{overwritten, Reaches};
ghost use Rattle.lsv_disk.specs.Memory.Calls.{reads_of, AreLegal, Noted, NotedWrite};
ghost use Rattle.lsv_disk.specs.Memory.Images.{NotedHeld};
ghost use Rattle.lsv_disk.specs.Memory.Stored.{IsResult};

use crate::memory::call::{Call, Effect};
use crate::memory::stored::{Files, overwrite};
use crate::{FileId, NoMem};
use std::alloc::Global;

/// Makes an empty file, and keeps the call.
pub(crate) fn make(
    alloc: Global,
    files: &mut Files,
    calls: &mut Vec<Call>,
    file: FileId,
) -> Result<(), NoMem>
    requires tied { IsResult files.old calls.old.items }
    requires legal { AreLegal calls.old.items }
    requires absent { reads_of calls.old.items file ≡ None }
    ensures tied { IsResult files.new calls.new.items }
    ensures legal { AreLegal calls.new.items }
    ensures kept { OnOk result (Noted calls.old.items calls.new.items file Made) × OnErr result (calls.new.items ≡ calls.old.items) }
{
    files.reserve(1)?;
    calls.push(Call {
        file,
        effect: Effect::Made,
    })?;
    files.insert(file, Vec::new(alloc))?;
    Ok(())
}

/// Puts a file that held these bytes from the start.
pub(crate) fn hold(
    alloc: Global,
    files: &mut Files,
    calls: &mut Vec<Call>,
    file: FileId,
    bytes: &[u8],
) -> Result<(), NoMem>
    requires tied { IsResult files.old calls.old.items }
    requires legal { AreLegal calls.old.items }
    requires absent { reads_of calls.old.items file ≡ None }
    ensures tied { IsResult files.new calls.new.items }
    ensures legal { AreLegal calls.new.items }
    ensures ok { OnOk result (NotedHeld calls.old.items calls.new.items file bytes.now) }
{
    let content = bytes.to_vec(alloc)?;
    let copy = bytes.to_vec(alloc)?;
    files.reserve(1)?;
    calls.push(Call {
        file,
        effect: Effect::Held(copy),
    })?;
    files.insert(file, content)?;
    Ok(())
}

/// Writes into the content of a file that is there, and keeps the call with a copy of what was written.
fn write_at(
    content: &mut Vec<u8>,
    calls: &mut Vec<Call>,
    file: FileId,
    at: u64,
    bytes: &[u8],
    copy: Vec<u8>,
) -> Result<(), NoMem>
    requires place { at ≤ length content.old.items }
    requires copy { copy.items ≡ bytes.now }
    ensures content { OnOk result (content.new.items ≡ overwritten at bytes.now content.old.items) × OnErr result (content.new.items ≡ content.old.items) }
    ensures kept { OnOk result (Noted calls.old.items calls.new.items file (Written at copy)) × OnErr result (calls.new.items ≡ calls.old.items) }
{
    content.reserve(bytes.len())?;
    calls.push(Call {
        file,
        effect: Effect::Written(at, copy),
    })?;
    overwrite(content, at as usize, bytes)?;
    Ok(())
}

/// Writes into the file, and keeps the call.
pub(crate) fn write(
    alloc: Global,
    files: &mut Files,
    calls: &mut Vec<Call>,
    file: FileId,
    at: u64,
    bytes: &[u8],
) -> Result<(), NoMem>
    requires tied { IsResult files.old calls.old.items }
    requires legal { AreLegal calls.old.items }
    requires place { Reaches (reads_of calls.old.items file) at }
    ensures tied { IsResult files.new calls.new.items }
    ensures legal { AreLegal calls.new.items }
    ensures kept { OnOk result (NotedWrite calls.old.items calls.new.items file at bytes.now) × OnErr result (calls.new.items ≡ calls.old.items) }
{
    let copy = bytes.to_vec(alloc)?;
    files.reserve(1)?;
    let Some(mut content) = files.remove(&file) else {
        unreachable!()
    };
    let written = write_at(&mut content, calls, file, at, bytes, copy);
    files.insert(file, content)?;
    written
}
