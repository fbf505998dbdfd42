//! The trusted edge beside the disk: the port of sockets, text files, the clock, the command line, standard input and standard output. They tell no content, and count their faults.
#![tactic(auto)]

mod clock;
mod command_line;
mod limit;
mod port;
mod standard;
mod streams;
mod texts;

pub use clock::WallClock;
pub use command_line::{ArgumentFault, arguments};
pub use limit::{clients_of, descriptors_for, fewest_descriptors};
pub use port::{MioBell, MioPort};
pub use standard::open_standard;
pub use streams::{StdScreen, StdSink, StdSource};
pub use texts::FileTexts;
