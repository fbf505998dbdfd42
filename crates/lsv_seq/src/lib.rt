//! Log numbers, drawn once: whatever fails or crashes, no number is drawn twice.
#![tactic(auto)]

mod entry;
mod fault;
mod numbers;
mod theorems;
mod view;

pub use fault::{DrawFault, SeqFault};
pub use numbers::Numbers;
pub use theorems::{
    an_image_has_one_last_number, each_image_has_the_last_number, no_number_is_drawn_twice,
    numbers_stay,
};
pub use view::last_drawn;
