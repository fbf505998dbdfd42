ghost use Rattle.std.specs.Prelude.{◌≡◌};
ghost use Rattle.lsv_machine.specs.Machine.{is_running, log_of, same};

use lsv_base::LogNo;
use lsv_session::{ConnId, ConnState};

/// Whether two connections are one.
pub fn same(a: ConnId, b: ConnId) -> bool
    ensures { result ≡ same a b }
{
    a.worker == b.worker && a.seq == b.seq
}

/// The log that a connection in this state writes.
pub fn log_of(state: ConnState) -> Option<LogNo>
    ensures { result ≡ log_of state }
{
    match state {
        ConnState::Running(log) => log,
        _ => None,
    }
}

/// Whether a session runs.
pub fn is_running(state: ConnState) -> bool
    ensures { result ≡ is_running state }
{
    matches!(state, ConnState::Running(_))
}
