ghost use Rattle.std.specs.Prelude.{◌≡◌, ◌<◌, length, IfSome, if◌then◌else◌, OnOk};
ghost use Rattle.lsv_machine.specs.Machine.{same};
ghost use Rattle.lsvt_model.specs.Inner.{connection_place};
ghost use Rattle.lsvt_model.specs.Views.{state_in};

use lsv_base::NoMem;
use lsv_machine::same;
use lsv_session::{ConnId, ConnState};

/// What a connection is doing.
#[derive(Clone, Copy, Debug, PartialEq, Eq)]
pub struct Connection {
    pub id: ConnId,
    pub state: ConnState,
}

/// The place of a connection.
fn place_of(connections: &[Connection], id: ConnId) -> Option<usize>
    ensures place { result ≡ connection_place connections.now id }
    ensures within { IfSome result (λ place. place < length connections.now) }
{
    for (place, connection) in connections.iter().enumerate() {
        if same(id, connection.id) {
            return Some(place);
        }
    }
    None
}

/// What this connection is doing: `Fresh` where it isn't known.
pub fn state_of(connections: &[Connection], id: ConnId) -> ConnState
    ensures { result ≡ state_in connections.now id }
{
    for connection in connections {
        if same(id, connection.id) {
            return connection.state;
        }
    }
    ConnState::Fresh
}

/// Puts this connection into a state.
pub fn put_state(
    connections: &mut Vec<Connection>,
    id: ConnId,
    state: ConnState,
) -> Result<(), NoMem>
    ensures { OnOk result (state_in connections.new.items ≡ (λ j. if same j id then state else state_in connections.old.items j)) }
{
    match place_of(connections, id) {
        Some(place) => connections[place] = Connection { id, state },
        None => connections.push(Connection { id, state })?,
    }
    Ok(())
}
