//! Times, points, log numbers, owned bytes and lists, and the plain parts of the outside as traits.
#![tactic(auto)]

mod bytes;
mod clock;
mod list;
mod log_no;
mod mem_clock;
mod mem_sink;
mod mem_source;
mod mem_texts;
mod no_mem;
mod pieces;
mod point;
mod script;
mod short;
mod sink;
mod source;
mod texts;
mod time;

pub use bytes::Bytes;
pub use clock::Clock;
pub use list::{List, copy_numbers, copy_texts};
pub use log_no::{LogNo, digits_are_read_back};
pub use mem_clock::MemClock;
pub use mem_sink::MemSink;
pub use mem_source::MemSource;
pub use mem_texts::{MemTexts, Text};
pub use no_mem::NoMem;
pub use point::Point;
pub use script::Script;
pub use sink::{Sink, SinkFault};
pub use source::{Source, SourceFault};
pub use texts::{TextFault, Texts};
pub use time::{TimeSpec, nanoseconds_are_one_time};
