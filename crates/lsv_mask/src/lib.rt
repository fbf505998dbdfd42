//! Password masking: what is typed after a prompt is stored as stars.
#![tactic(auto)]

mod laws;
mod mask;
mod prompt;
mod star;
mod tail;

pub use laws::{
    a_password_is_awaited_behind_a_prompt, a_prefix_is_masked_by_itself,
    a_second_mask_changes_nothing, masking_keeps_all_but_what_is_typed,
    masking_keeps_what_it_is_judged_by,
};
pub use mask::Mask;
pub use prompt::{Prompt, Search, TextSearch};
