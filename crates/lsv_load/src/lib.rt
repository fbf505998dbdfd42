//! The generated load: its conversations are served over a store from a port in memory, and the logs that they leave are
//! summed up.
#![tactic(auto)]

mod laws;
mod logs;
mod numbering;
mod replay;
mod run;
mod script;

pub use laws::{
    a_generated_conversation_is_legal, a_load_sends_its_conversations,
    a_load_sums_up_all_its_conversations,
};
pub use run::{LoadEnd, run_load};
