use lsv_base::{Bytes, List};
use lsv_hook::{Formatter, LineWriter};
use lsv_mask::{Prompt, Search};

/// A lane of a store, by its number, which is below `of`: how many lanes the store has.
#[derive(Clone, Copy, Debug, PartialEq, Eq)]
pub struct LaneId {
    pub number: u32,
    pub of: u32,
}

/// What the settings of a run say of each of its lanes.
#[derive(Drop)]
pub struct Policy<F: LineWriter, H: Search> {
    /// Writes event lines.
    pub formatter: Formatter<F>,
    /// Whether exits have event lines.
    pub log_exit: bool,
    /// The prompts after which what is typed is masked.
    pub texts: List<Bytes>,
    /// Finds these prompts in what is shown.
    pub prompt: Prompt<H>,
}
