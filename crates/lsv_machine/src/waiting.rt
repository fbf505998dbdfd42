ghost use Rattle.std.specs.Prelude.{◌≡◌, ◌<◌, vec_capacity, vec_len, IsOk, OnOk};
ghost use Rattle.lsv_machine.specs.Machine.{insert_once, note, without, without_conn};

use crate::connections::same;
use lsv_base::{LogNo, NoMem};
use lsv_session::ConnId;

/// Puts a number among rising ones, once. It takes no memory where there is room for one more.
pub fn insert_once(numbers: &mut Vec<LogNo>, number: LogNo) -> Result<(), NoMem>
    ensures inserted { OnOk result (numbers.new.items ≡ insert_once number numbers.old.items) }
    ensures room { vec_len numbers.old < vec_capacity numbers.old → IsOk result }
{
    for (place, other) in numbers.iter().enumerate() {
        if number.get() == other.get() {
            return Ok(());
        }
        if number.get() < other.get() {
            numbers.insert(place, number)?;
            return Ok(());
        }
    }
    numbers.push(number)?;
    Ok(())
}

/// Takes a number away.
pub fn remove(numbers: &mut Vec<LogNo>, number: LogNo)
    ensures { numbers.new.items ≡ without number numbers.old.items }
{
    numbers.retain(|other| number.get() != other.get());
}

/// Puts a connection at the end of others, once. It takes no memory where there is room for one more.
pub fn note(conns: &mut Vec<ConnId>, conn: ConnId) -> Result<(), NoMem>
    ensures noted { OnOk result (conns.new.items ≡ note conn conns.old.items) }
    ensures room { vec_len conns.old < vec_capacity conns.old → IsOk result }
{
    for other in conns.iter() {
        if same(*other, conn) {
            return Ok(());
        }
    }
    conns.push(conn)?;
    Ok(())
}

/// Takes a connection away.
pub fn forget(conns: &mut Vec<ConnId>, conn: ConnId)
    ensures { conns.new.items ≡ without_conn conn conns.old.items }
{
    conns.retain(|other| !same(*other, conn));
}
