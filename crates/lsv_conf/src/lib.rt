//! The settings file of the log server, in the form of sudo_logsrvd.conf(5).
#![tactic(auto)]

mod address;
mod conf;
mod draft;
mod line;
mod read;
mod refused;
mod row;
mod text;
mod value;

pub use conf::{Conf, ConfFault, Note};
pub use lsv_event::Kind;
pub use read::read_conf;
pub use refused::{Refusals, Refused, RefusedLine, WrongValue};
pub use row::Values;
