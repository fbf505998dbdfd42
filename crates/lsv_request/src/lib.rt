//! What a message of a client means for a session, or why it is refused, and the messages of what a log holds.
#![tactic(auto)]

mod laws;
mod meaning;
mod messages;
mod refusal;
mod request;

pub use laws::{
    a_request_of_a_decoded_message_is_valid, a_tested_signal_is_a_signal,
    what_is_stored_fits_its_message, what_is_stored_is_requested_again, why_a_message_is_refused,
};
pub use meaning::{has_keys, head_of, request_of};
pub use messages::{exit_message, head_message, record_message};
pub use refusal::Refusal;
pub use request::{Accept, Report, Request, Restart};
