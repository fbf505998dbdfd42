//! Records of a session, the layout of them as the I/O log's files have it, and its reading.
#![tactic(auto)]

mod laid;
mod laws;
mod log;
mod read;
mod records;
mod tally;
mod write;

pub use laid::{Laid, lay};
pub use laws::{
    a_cut_ends_at_the_first_record_of_its_point, a_layout_begins_in_one_way, a_layout_is_its_texts,
    a_line_has_at_most_56_bytes, a_line_of_a_window_stands_in_its_text,
    a_prefix_of_the_records_is_laid_first, a_text_begins_with_lines_in_one_way,
    lines_and_lengths_tell_one_list_of_records, one_line_stands_at_an_offset,
    the_tests_tell_what_is_valid, totals_add_up, what_is_laid_is_read_back,
};
pub use log::{LayFault, read_log};
pub use read::{LineFault, read_line};
pub use records::{Record, Shaped, Stream, is_signal};
pub use tally::{Tally, TimingFault};
pub use write::{line, put_line};
