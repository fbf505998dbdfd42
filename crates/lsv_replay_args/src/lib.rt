//! The command line of `sudoreplay`, read by clap.
#![tactic(auto)]

mod decimal;
mod forms;
mod program;
mod request;
mod streams;
mod unfit;
mod words;

pub use decimal::{billionths, digits_in};
pub use forms::options_stand_in_any_order;
pub use lsv_args::ArgFault;
pub use request::{Request, Task, is_set, read_request, value_of};
pub use unfit::{Unfit, find_unfit};
pub use words::texts_of;
